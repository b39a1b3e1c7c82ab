//! Tests of the hints of a directory: made, kept, compared, and those that are not right.
#![tactic(auto)]

#[cfg(test)]
mod tests;
