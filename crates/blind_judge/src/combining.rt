// And, or, xor of two values cell by cell.

ghost use Rattle.std.specs.Prelude.{◌≡◌, bit_and, bit_or, bit_xor};
ghost use Rattle.infinite_heap.specs.Lift.{cell_by, cell_and_number, cell_or_number, cell_xor_number, combined_cells, goes_by_cells, if_known, value_by};
ghost use Rattle.infinite_heap.specs.Values.{cells_of};

use crate::cells::{cell_and, cell_or, cell_xor};
use crate::words::{Word, cells_of, value_of};
use infinite_heap::{Cell, Operation, Value};

/// The result where the operation goes cell by cell and something is known of it.
pub fn combined_cells(op: Operation, x: Value, y: Value) -> Option<Value>
    ensures { result ≡ combined_cells op x y }
{
    if !goes_by_cells(x, y) {
        return None;
    }
    match op {
        Operation::And => if_known(cells_and(x, y)),
        Operation::Or => if_known(cells_or(x, y)),
        Operation::Xor => if_known(cells_xor(x, y)),
        _ => None,
    }
}

fn goes_by_cells(x: Value, y: Value) -> bool
    ensures { result ≡ goes_by_cells x y }
{
    match (x, y) {
        (Value::Low(_), _) => false,
        (_, Value::Low(_)) => false,
        (Value::Mix { .. }, _) => true,
        (_, Value::Mix { .. }) => true,
        (Value::Ptr { .. }, Value::Num(_)) => true,
        (Value::Num(_), Value::Ptr { .. }) => true,
        _ => false,
    }
}

fn if_known(x: Value) -> Option<Value>
    ensures { result ≡ if_known x }
{
    match x {
        Value::Mix {
            c0: Cell::Unset,
            c1: Cell::Unset,
            c2: Cell::Unset,
            c3: Cell::Unset,
        } => None,
        _ => Some(x),
    }
}

fn cells_and(x: Value, y: Value) -> Value
    ensures { result ≡ value_by (cell_by bit_and cell_and_number) (cells_of x) (cells_of y) }
{
    let (x, y) = (cells_of(x), cells_of(y));
    value_of(Word {
        c0: cell_and(x.c0, y.c0),
        c1: cell_and(x.c1, y.c1),
        c2: cell_and(x.c2, y.c2),
        c3: cell_and(x.c3, y.c3),
    })
}

fn cells_or(x: Value, y: Value) -> Value
    ensures { result ≡ value_by (cell_by bit_or cell_or_number) (cells_of x) (cells_of y) }
{
    let (x, y) = (cells_of(x), cells_of(y));
    value_of(Word {
        c0: cell_or(x.c0, y.c0),
        c1: cell_or(x.c1, y.c1),
        c2: cell_or(x.c2, y.c2),
        c3: cell_or(x.c3, y.c3),
    })
}

fn cells_xor(x: Value, y: Value) -> Value
    ensures { result ≡ value_by (cell_by bit_xor cell_xor_number) (cells_of x) (cells_of y) }
{
    let (x, y) = (cells_of(x), cells_of(y));
    value_of(Word {
        c0: cell_xor(x.c0, y.c0),
        c1: cell_xor(x.c1, y.c1),
        c2: cell_xor(x.c2, y.c2),
        c3: cell_xor(x.c3, y.c3),
    })
}
