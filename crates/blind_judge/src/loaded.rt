// The values of cells that are loaded: docs/infinite-heap.md, "Memory".

ghost use Rattle.std.specs.Prelude.{◌≡◌, [], ◌∷◌};
ghost use Rattle.infinite_heap.specs.Memory.{cell_above, value_from};

use crate::shifting::sign_cell;
use crate::words::{Word, value_of};
use infinite_heap::{Cell, Value};

#[inline(always)]
fn cell_above(extends: bool, c: Cell) -> Cell
    ensures { result ≡ cell_above extends c }
{
    if extends { sign_cell(c) } else { Cell::Byte(0) }
}

/// The value of one cell.
#[inline(always)]
pub fn value_of_one(extends: bool, c0: Cell) -> Value
    ensures { result ≡ value_from extends (c0 ∷ []) }
{
    let above = cell_above(extends, c0);
    value_of(Word {
        c0,
        c1: above,
        c2: above,
        c3: above,
    })
}

/// The value of two cells, lowest first.
#[inline(always)]
pub fn value_of_two(extends: bool, c0: Cell, c1: Cell) -> Value
    ensures { result ≡ value_from extends (c0 ∷ c1 ∷ []) }
{
    let above = cell_above(extends, c1);
    value_of(Word {
        c0,
        c1,
        c2: above,
        c3: above,
    })
}
