// A derivation replayed to its end: from the texts to the ground theory.
#![tactic(auto)]

pub mod ending;
pub mod fault;
pub mod grounding;
pub mod replaying;
