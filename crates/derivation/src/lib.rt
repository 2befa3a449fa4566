// Derivation lines, and the reader that holds the text and its place.
#![tactic(auto)]

pub mod reader;
pub mod rule_line;
