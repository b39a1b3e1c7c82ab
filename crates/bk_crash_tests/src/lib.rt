//! Tests of `bk_crash`.
#![tactic(auto)]

#[cfg(test)]
mod tests;
