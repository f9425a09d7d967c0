//! Tests of cases through the turns of a line.
#![tactic(auto)]

#[cfg(test)]
mod tests;
