//! Repair: a program is run, and where its heap shows an error it is run again under other seeds, up to the same heap call.
//! From the images of these runs comes a table of patches (`docs/repair.md`).
//!
//! The entry points are `repair` and, for images that are at hand, `isolate`.
#![tactic(auto)]

mod isolated;
mod laws;
mod repairing;

pub use culprits::Isolated;
pub use isolated::isolate;
pub use laws::images_isolate_one_table;
pub use repairing::{RepairRefusal, Repaired, repair};
