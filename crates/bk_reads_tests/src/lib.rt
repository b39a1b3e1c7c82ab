//! Tests of the reads of `bk_store`: entries and ledgers in order, and counts.
#![tactic(auto)]

#[cfg(test)]
mod tests;
