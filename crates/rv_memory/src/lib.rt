//! The bytes of a guest with 32-bit addresses: which are mapped, which may be written to, which may
//! be run, and what each holds (docs/memory.md).
#![tactic(auto)]

mod access;
mod hints;
mod laws;
mod parts;
mod range;
mod reads;
mod space;
mod writes;

pub use access::{Rest, StoreFault, Unmapped, Width};
pub use laws::spans_are_their_bytes;
pub use space::Space;
