//! The tokens of a rehearsal script: brackets, spaces, lower-case words and numbers below 2^64.
//! A line is cut into its longest runs of letters and of digits; every other byte stands alone.
#![tactic(auto)]

mod cursor;
mod fault;
mod lex;

pub use cursor::Cursor;
pub use fault::{Position, TokenFault};
pub use lex::Token;
