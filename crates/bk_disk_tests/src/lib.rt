//! Tests of `bk_disk`.
#![tactic(auto)]

#[cfg(test)]
mod tests;
