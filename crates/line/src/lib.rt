//! Opening a line, and the five turns on it. Line, memory and carrier are the caller's, and each
//! call is handed those that it needs. A refused call leaves all of them as they were.
#![tactic(auto)]

pub mod advancing;
pub mod announcing;
pub mod case_opening;
pub mod checks;
pub mod delivering;
pub mod forging;
pub mod opening;
mod sending;

pub use advancing::advance;
pub use announcing::announce;
pub use case_opening::open_case;
pub use checks::{check_correct, check_process, find_case};
pub use delivering::deliver;
pub use forging::forge;
pub use opening::open_line;
