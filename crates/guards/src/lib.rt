// Guards in memory: which variables are free in them, and for which elements they hold.
#![tactic(auto)]

pub mod admit;
pub mod guard;
pub mod scope;
pub mod variable;
