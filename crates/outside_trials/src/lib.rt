//! Trials of the outside: the sources, sinks and folders of `ex_io`, in memory and over real files.
#![tactic(auto)]

#[cfg(test)]
mod tests;
