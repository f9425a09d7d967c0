//! A rehearsal script acted on line by line, from its bytes to the text of its answers.
#![tactic(auto)]

mod rehearser;

pub use rehearser::rehearse;
