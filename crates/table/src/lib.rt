// The problem's table: its predicates and where their rows stand.
#![tactic(auto)]

pub mod structure;
pub mod table;
