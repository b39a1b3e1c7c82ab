//! Tests of `bk_import`.
#![tactic(auto)]

#[cfg(test)]
mod tests;
