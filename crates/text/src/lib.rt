// What stands in a text: bytes, numbers, names, lines and the refused line; and the statement's sizes.
#![tactic(auto)]

pub mod byte;
pub mod cell;
pub mod line;
pub mod listed;
pub mod name;
pub mod number;
pub mod read;
pub mod size;
