//! Trials of isolation: what the isolators find in images that are made up, beside plain searches.
#![tactic(auto)]

#[cfg(test)]
mod tests;
