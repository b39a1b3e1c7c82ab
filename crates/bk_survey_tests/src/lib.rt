//! Tests of `bk_survey`.
#![tactic(auto)]

#[cfg(test)]
mod tests;
