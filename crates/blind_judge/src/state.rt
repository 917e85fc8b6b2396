// The infinite-heap machine between two steps.

ghost use Rattle.std.specs.Prelude.{◌≡◌};

use crate::flat::Flat;
use crate::heap_cells::HeapCells;
use crate::objects::Object;
use infinite_heap::Value;
use site_hash::Calls;

/// The machine between two steps. It stands for more than one state of the definition's machine: it forgets
/// in which order cells were written, and counts no steps.
#[derive(Drop)]
pub struct State {
    pub(crate) pc: u32,
    pub(crate) calls: Calls,
    pub(crate) regs: [Value; 32],
    pub(crate) flat: Flat,
    pub(crate) cells: HeapCells,
    pub(crate) objects: Vec<Object>,
}
