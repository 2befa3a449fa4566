// The jobs replay and check.
#![tactic(auto)]

pub mod clearing;
pub mod job;
