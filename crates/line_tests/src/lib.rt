//! Tests of the calls on a line, over several carriers.
#![tactic(auto)]

#[cfg(test)]
mod tests;
