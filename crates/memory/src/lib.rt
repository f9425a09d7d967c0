//! The memory of a line: four slices that the caller lends, and where in them each thing is kept.
#![tactic(auto)]

pub mod memories;
pub mod places;
pub mod records;

pub use memories::Memory;
pub use places::Place;
pub use places::slots::{case_place, is_within, place_of};
pub use records::{BroadcastRecord, CaseRecord, Decision, Slip, Stage};
