//! Tests of `bk_inspect`.
#![tactic(auto)]

#[cfg(test)]
mod tests;
