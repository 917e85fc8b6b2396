//! Trials of heap images: what is written is read, and is written again as the same bytes.
#![tactic(auto)]

#[cfg(test)]
mod tests;
