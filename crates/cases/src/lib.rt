//! How a process goes on in a case, by the valid ballots of the round that it is in.
#![tactic(auto)]

pub mod choosing;
pub mod saying;
pub mod steps;

pub use choosing::next_step;
pub use steps::Progress;
