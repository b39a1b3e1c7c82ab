//! Tests of the crates below the store: accounts, cache, checksums, headers, index, leases, logs and
//! records.
#![tactic(auto)]

#[cfg(test)]
mod tests;
