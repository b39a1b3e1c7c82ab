//! Tests of logs of the greatest sizes, which take minutes without a proof.
#![tactic(auto)]

#[cfg(test)]
mod tests;
