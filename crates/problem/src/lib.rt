// The problem, read line by line into its table and rows.
#![tactic(auto)]

pub mod declaration;
pub mod end;
pub mod fault;
pub mod problem_line;
pub mod progress;
pub mod rows;
