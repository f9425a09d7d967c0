//! Tests of what the turns are made of.
#![tactic(auto)]

#[cfg(test)]
mod tests;
