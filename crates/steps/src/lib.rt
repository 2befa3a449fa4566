// Rule lines on the live formulas.
#![tactic(auto)]

pub mod fault;
pub mod front;
pub mod live;
pub mod memory;
pub mod position;
pub mod rewriting;
pub mod target;
pub mod whole;
