//! The forms of a rehearsal script, and how they are written.
//! A form stands on a line of its own; what is between its brackets is parted by single spaces.
#![tactic(auto)]

mod forms;
mod marks;

pub use forms::{ForgeForm, Form, LineForm};
pub use marks::{Full, Marks};
