//! A rehearsal script as a whole: its lines, its faults, and the check of every line.
#![tactic(auto)]

mod fault;
mod linter;
mod responder;
mod split;

pub use fault::ScriptFault;
pub use linter::{LIMIT, check_line, check_size, lint};
pub use responder::{Responder, answer};
pub use split::{Lines, ScriptLine, line_length};
