//! Objects that were written to after they were freed, from heap images of runs under different seeds
//! (`docs/isolation.md`).
//!
//! The entry point is `danglings`.
#![tactic(auto)]

mod finding;
mod laws;
mod mark;

pub use culprits::Dangling;
pub use finding::danglings;
pub use laws::{images_add_no_mark, images_have_one_list, marks_are_of_agreed_objects};
pub use mark::Mark;

#[cfg(test)]
mod tests;
