//! Which ballots of a case are valid at a process.
#![tactic(auto)]

pub mod allowing;
pub mod counting;
pub mod rows;
pub mod tallies;

pub use counting::{count, counting_is_exact};
pub use rows::valid_ballots;
pub use tallies::{Allowed, ByBallot, RoundBallots, Tally};
