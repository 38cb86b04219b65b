// Present values: terms, the sixteen benefits, and what a valuation is refused for.
#![tactic(auto)]

mod active;
pub mod admission;
pub mod benefit;
mod chance;
mod columns;
mod fixed;
pub mod known;
mod life;
pub mod pair;
mod path;
pub mod promise;
mod rates;
mod stream;
pub mod terms;
pub mod value;
