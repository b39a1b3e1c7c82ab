//! Tests of `bk_commands`.
#![tactic(auto)]

#[cfg(test)]
mod tests;
