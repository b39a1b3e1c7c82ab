//! Tests of `bk_manifest_disk`.
#![tactic(auto)]

#[cfg(test)]
mod tests;
