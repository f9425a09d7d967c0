//! What every crate speaks of: messages, ballots and refusals.
#![tactic(auto)]

pub mod messages;
pub mod refusals;
pub mod votes;

pub use messages::{Message, PROCESSES, Step, Subject};
pub use refusals::Refusal;
pub use votes::{Ballot, Kind, Side};
