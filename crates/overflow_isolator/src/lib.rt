//! Which objects of a guest overflow or underflow, and how far, by several images of its heap
//! (`docs/isolation.md`).
//!
//! The entry points are `overflows` and `underflows`, and `out_of_bounds` for both.
#![tactic(auto)]

mod agreed;
mod both;
mod finding;
mod finding_underflows;
mod greatest_overflow;
mod greatest_underflow;
mod laws;
mod search;
mod window;

pub use both::{OutOfBounds, out_of_bounds};
pub use culprits::{Overflow, Underflow};
pub use finding::overflows;
pub use finding_underflows::underflows;
pub use laws::{found_is_in_reach, images_add_nothing, images_have_one_list};

#[cfg(test)]
mod tests;
