//! Trials of the guest's heap, call by call, over the public calls of `exact_heap`.
#![tactic(auto)]

#[cfg(test)]
mod tests;
