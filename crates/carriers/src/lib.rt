//! Three carriers over lent memory, a place for each message: they differ in which message they
//! take. And a layer over any carrier that remembers which message was taken last.
#![tactic(auto)]

pub mod choices;
pub mod ordered;
pub mod watches;
mod watching;

pub use choices::{Choice, Newest, Oldest, Picked};
pub use ordered::{Basket, Ordered, Pile, Queue};
pub use watches::Watch;
