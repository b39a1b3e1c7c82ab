//! Tests of `bk_load`.
#![tactic(auto)]

#[cfg(test)]
mod tests;
