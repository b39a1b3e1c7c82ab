//! Tests of hints: openings with them, without them, and with damaged ones.
#![tactic(auto)]

#[cfg(test)]
mod tests;
