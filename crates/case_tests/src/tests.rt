use std::fmt::Debug;
use std::process::Abort;

mod deciding;
mod lying;
mod odd;
mod playing;
mod refusing;
mod resting;
mod running;
mod slipping;
mod tossing;
mod valid;

// Fails, and shows both values, where they differ.
fn assert_same<T: PartialEq + Debug + Drop>(rt: &impl Abort, found: T, expected: T) {
    assert_eq!(rt; found, expected);
}
