// Whether formulas in memory are ground clauses.
#![tactic(auto)]

pub mod clause;
