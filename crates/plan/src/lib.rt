//! The plan of a line, its thresholds, and the marks on its faulty processes.
#![tactic(auto)]

pub mod drafts;
pub mod plans;

pub use drafts::{Draft, Line};
pub use plans::{Needs, Plan, Thresholds};
