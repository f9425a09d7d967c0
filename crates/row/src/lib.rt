//! Messages over lent memory, in order of posting: what queue, pile and basket have in common.
#![tactic(auto)]

pub mod rows;

pub use rows::Row;
