// What one step of the judge's machine comes to.

use infinite_heap::{Record, Value, Why};

/// What a step comes to. Where it has a record that isn't covered, that comes first, then a blur.
#[derive(Clone, Copy, Debug, PartialEq, Eq, Drop)]
pub enum Progress {
    /// The guest can go on.
    Going,
    /// It asks for `len` bytes of the input, for the address or the object's offset that `at` is.
    Reads { at: Value, len: u32 },
    /// It has exited.
    Exited,
    /// It has faulted.
    Faulted,
    /// It lets something depend on an address or an unset byte.
    Blurred(Why),
    /// The first of its records that the patches don't cover.
    Uncovered(Record),
}
