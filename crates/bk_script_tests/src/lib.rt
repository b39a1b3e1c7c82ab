//! Tests of `bk_script`.
#![tactic(auto)]

#[cfg(test)]
mod tests;
