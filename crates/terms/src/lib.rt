// Names, terms and what is known of them, as the reader of a formula meets them.
#![tactic(auto)]

pub mod binding;
pub mod fact;
pub mod name_table;
pub mod setting;
pub mod signature;
pub mod term;
