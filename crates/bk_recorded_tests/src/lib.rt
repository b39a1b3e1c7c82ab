//! Tests of `bk_recorded`.
#![tactic(auto)]

#[cfg(test)]
mod tests;
