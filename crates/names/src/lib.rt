// The names of the live formulas, in theory order.
#![tactic(auto)]

pub mod names;
