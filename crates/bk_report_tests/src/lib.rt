//! Tests of `bk_report`.
#![tactic(auto)]

#[cfg(test)]
mod tests;
