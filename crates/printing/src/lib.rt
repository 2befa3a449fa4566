// Ground clauses in memory, printed: counted, compared and stored.
#![tactic(auto)]

pub mod cursor;
pub mod print;
