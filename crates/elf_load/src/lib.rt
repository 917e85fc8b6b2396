//! ELF files as programs.
#![tactic(auto)]

mod fields;
mod header;
mod laws;
mod loading;
mod names;
mod order;
mod segments;
mod symbols;
mod table;
mod tag;

pub use laws::{overlap_is_of_two, programs_are_lawful, programs_hold_bytes};
pub use loading::load;
