// The basis of a valuation: what an actuary's figures are, the straight line, and what is laid over any basis.
#![tactic(auto)]

pub mod interface;
pub mod kind;
pub mod loading;
pub mod setting;
pub mod shift;
pub mod straight_line;
