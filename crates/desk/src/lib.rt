//! A desk at which the forms of a script are acted on: a line once one is open, its memory and a
//! basket.
#![tactic(auto)]

mod acting;
mod desks;
mod opening;
mod said;
mod turning;

pub use acting::act_on;
pub use desks::Desk;
pub use said::Said;
