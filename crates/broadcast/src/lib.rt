//! What a message does at one process for one subject.
#![tactic(auto)]

pub mod reactions;
pub mod receiving;

pub use reactions::Reaction;
pub use receiving::receive;
