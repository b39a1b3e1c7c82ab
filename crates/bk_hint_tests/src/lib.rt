//! Tests of `bk_hint`.
#![tactic(auto)]

#[cfg(test)]
mod tests;
