//! Trials of the miniheaps: where they lie, how their slots are drawn, and which states these have.
#![tactic(auto)]

#[cfg(test)]
mod tests;
