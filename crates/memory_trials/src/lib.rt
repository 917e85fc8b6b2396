//! Trials of a guest's memory: spaces of `rv_memory` beside a plain list of places, and at their edges.
#![tactic(auto)]

#[cfg(test)]
mod tests;
