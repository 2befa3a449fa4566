// A line of the theory, read into words.
#![tactic(auto)]

pub mod fault;
pub mod leaf;
pub mod opening;
pub mod part_list;
pub mod read;
pub mod theory_line;
