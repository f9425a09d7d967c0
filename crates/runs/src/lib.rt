//! Whole runs of a line: one turn of any kind, and a list of them from an opening.
#![tactic(auto)]

pub mod performing;
pub mod running;
pub mod turns;

pub use performing::perform;
pub use running::{run, run_shared};
pub use turns::{Answer, Turn};
