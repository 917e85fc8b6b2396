//! The infinite heap, run: values and cells without addresses, and which accesses patches cover.
#![tactic(auto)]

mod areas;
mod branching;
mod cells;
mod combining;
mod covered;
mod decisions;
mod entries;
mod execute;
mod flat;
mod flat_bytes;
mod flat_cells;
mod heap_cells;
mod jumps;
mod lifting;
mod loaded;
mod loads;
mod masking;
mod objects;
mod pages;
mod progress;
mod reading;
mod records;
mod registers;
mod shifting;
mod state;
mod step;
mod stores;
mod system;
mod verdict;
mod words;

pub use branching::decide;
pub use covered::is_covered;
pub use decisions::{Decision, Looks, below, below_signed, same};
pub use lifting::lift;
pub use objects::{Freed, Object};
pub use verdict::{JudgeRefusal, Verdict, one_verdict};
pub use words::{Word, cells_of, low_part, value_of};
