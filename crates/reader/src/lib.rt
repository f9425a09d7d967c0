//! Reads a line of a rehearsal script as a form, or tells its first fault.
#![tactic(auto)]

mod command;

pub use command::read;
