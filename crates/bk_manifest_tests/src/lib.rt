//! Tests of `bk_manifest`.
#![tactic(auto)]

#[cfg(test)]
mod tests;
