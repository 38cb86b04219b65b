// The stock of promises: what is in force, and its total carried forward from call to call.
#![tactic(auto)]

pub mod call;
mod record;
pub mod replay;
pub mod run;
mod slots;
pub mod stock;
