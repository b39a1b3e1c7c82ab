//! Tests of `bk_sim_disk`, `bk_simulation` and `bk_simulation_page`.
#![tactic(auto)]

#[cfg(test)]
mod tests;
