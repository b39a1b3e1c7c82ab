//! Tests of `bk_bookie`.
#![tactic(auto)]

#[cfg(test)]
mod tests;
