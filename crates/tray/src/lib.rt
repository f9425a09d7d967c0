//! A layer over any carrier, which keeps some messages itself.
#![tactic(auto)]

mod tables;
pub mod trays;

pub use trays::Tray;
