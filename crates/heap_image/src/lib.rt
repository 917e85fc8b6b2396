//! Heap images: each slot of a guest's heap that had an owner, who that was, and the bytes that nobody
//! should have written. An image is written as bytes, read from bytes and shown as text
//! (`docs/images.md`).
#![tactic(auto)]

mod agreement;
mod breaks;
mod broken;
mod contents;
mod fields;
mod image;
mod laws;
mod lookup;
mod patches;
mod reading;
mod refusal;
mod rows;
mod slots;
mod take;
mod text;
mod version;
mod whole;
mod writing;

pub use agreement::{IsoRefusal, agree};
pub use image::{Broken, Image};
pub use laws::{heap_images_are_lawful, one_answer, one_spelling};
pub use lookup::{Indexed, indexed_images};
pub use refusal::ImageRefusal;
pub use slots::slot_bytes;
pub use version::Version;

#[cfg(test)]
mod tests;
