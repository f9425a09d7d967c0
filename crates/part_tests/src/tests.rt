use memory::{BroadcastRecord, Stage};
use std::fmt::Debug;
use std::process::Abort;

mod broadcasts;
mod carrying;
mod coins;
mod items;
mod memories;
mod messages;
mod plans;
mod refusals;
mod steps;
mod validity;

// The record of a subject for which this body was accepted.
fn accepted(body: u64) -> BroadcastRecord {
    BroadcastRecord {
        stage: Stage::Accepted(body),
    }
}

// Fails, and shows both values, where they differ.
fn assert_same<T: PartialEq + Debug + Drop>(rt: &impl Abort, found: T, expected: T) {
    assert_eq!(rt; found, expected);
}
