//! Tests of `bk_drive`.
#![tactic(auto)]

#[cfg(test)]
mod tests;
