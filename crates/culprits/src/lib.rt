//! Objects that a program misuses, as they are found in images of its heap, and the patches that they call for
//! (`docs/isolation.md`, "Patches").
//!
//! The entry point is `patches_for`.
#![tactic(auto)]

mod found;
mod isolated;
mod laws;

pub use found::{Dangling, Overflow, Underflow};
pub use isolated::{Isolated, patches_for};
pub use laws::{objects_call_for_one_table, objects_that_rise_are_one_list};
