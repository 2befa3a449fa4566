// Formulas as words in memory: their kinds, their places, and storing them.
#![tactic(auto)]

pub mod head;
pub mod store;
pub mod tag;
pub mod walk;
pub mod word;
