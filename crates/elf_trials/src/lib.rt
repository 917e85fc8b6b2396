//! Trials of the loader: files that `elf_load` takes, and files that break one of its rules.
#![tactic(auto)]

#[cfg(test)]
mod tests;
