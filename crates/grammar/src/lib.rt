//! The grammar of a script's forms, token by token, and readers of its small parts.
//! The grammar is data, so that which form a line is, and where its first fault stands, are one
//! definition.
#![tactic(auto)]

mod fault;
mod parts;

pub use fault::FormFault;
pub use parts::{Found, expect, finish, pull, read_arg, read_field, read_number};
