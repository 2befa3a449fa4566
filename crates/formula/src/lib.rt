// The rules on a formula in memory: what a rule makes of it, decided and then written.
#![tactic(auto)]

pub mod decide;
pub mod instance;
pub mod rewrite;
pub mod simplify;
