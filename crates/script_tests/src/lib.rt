//! Tests of whole scripts, checked and acted on.
#![tactic(auto)]

#[cfg(test)]
mod tests;
