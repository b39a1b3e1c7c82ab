//! Tests of `bk_serve_core`.
#![tactic(auto)]

#[cfg(test)]
mod tests;
