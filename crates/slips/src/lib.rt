//! Release slips: what a clerk hands over an item for.
#![tactic(auto)]

pub mod giving_back;
pub mod issuing;
pub mod slip;

pub use giving_back::{hand_over, put_back};
pub use issuing::issue;
pub use slip::ReleaseSlip;
