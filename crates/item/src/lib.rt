//! The values that a message's body can stand for.
#![tactic(auto)]

pub mod any_bodies;
pub mod ballots;
pub mod items;
pub mod records;
pub mod tags;

pub use any_bodies::AnyBody;
pub use items::Item;
pub use records::Record;
pub use tags::Tag;
