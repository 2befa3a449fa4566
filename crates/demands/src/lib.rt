// Theories, the replay and the answers as they are defined, and the demands. No code: the type of an answer alone.
#![tactic(auto)]

pub mod answer;
