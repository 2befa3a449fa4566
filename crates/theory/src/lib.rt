// The theory, read line by line.
#![tactic(auto)]

pub mod theory_reader;
