// Shifts of a word by whole cells, and of a known low part to the top.

ghost use Rattle.std.specs.Prelude.{◌≡◌, ◌≤◌};
ghost use Rattle.infinite_heap.specs.Lift.{down_cells, is_pointer_or_mix, low_part_at_top, shifted_by, shifted_cells, up_cells};
ghost use Rattle.infinite_heap.specs.Values.{sign_cell};
ghost use Rattle.blind_judge.specs.Words.{cells_in};

use crate::words::{Word, cells_of, low_part, value_of};
use infinite_heap::{Cell, Operation, Value, alu};

/// What is known of a value's low four bits, shifted to the top of the word.
pub fn low_part_at_top(op: Operation, x: Value, y: Value) -> Option<Value>
    ensures { result ≡ low_part_at_top op x y }
{
    match (op, y) {
        (Operation::Sll, Value::Num(s)) => {
            if s % 32 < 28 {
                return None;
            }
            match low_part(x) {
                Some(b) => Some(Value::Num(alu(Operation::Sll, u32::from(b), s))),
                None => None,
            }
        }
        _ => None,
    }
}

/// A pointer or a mix of cells, shifted by whole cells.
pub fn shifted_cells(op: Operation, x: Value, y: Value) -> Option<Value>
    ensures { result ≡ shifted_cells op x y }
{
    match y {
        Value::Num(s) => {
            if s % 32 % 8 == 0 && is_pointer_or_mix(x) {
                return shifted_by(op, s % 32 / 8, cells_of(x));
            }
            None
        }
        _ => None,
    }
}

fn is_pointer_or_mix(x: Value) -> bool
    ensures { result ≡ is_pointer_or_mix x }
{
    matches!(x, Value::Ptr { .. } | Value::Mix { .. })
}

fn shifted_by(op: Operation, k: u32, w: Word) -> Option<Value>
    ensures { result ≡ shifted_by op k (cells_in w) }
{
    match op {
        Operation::Sll => Some(up_cells(k, w)),
        Operation::Srl => Some(down_cells(Cell::Byte(0), k, w)),
        Operation::Sra => Some(down_cells(sign_cell(w.c3), k, w)),
        _ => None,
    }
}

fn up_cells(k: u32, w: Word) -> Value
    ensures { result ≡ up_cells k (cells_in w) }
{
    let zero = Cell::Byte(0);
    if k == 0 {
        return value_of(w);
    }
    if k == 1 {
        return value_of(Word {
            c0: zero,
            c1: w.c0,
            c2: w.c1,
            c3: w.c2,
        });
    }
    if k == 2 {
        return value_of(Word {
            c0: zero,
            c1: zero,
            c2: w.c0,
            c3: w.c1,
        });
    }
    value_of(Word {
        c0: zero,
        c1: zero,
        c2: zero,
        c3: w.c0,
    })
}

fn down_cells(s: Cell, k: u32, w: Word) -> Value
    ensures { result ≡ down_cells s k (cells_in w) }
{
    if k == 0 {
        return value_of(w);
    }
    if k == 1 {
        return value_of(Word {
            c0: w.c1,
            c1: w.c2,
            c2: w.c3,
            c3: s,
        });
    }
    if k == 2 {
        return value_of(Word {
            c0: w.c2,
            c1: w.c3,
            c2: s,
            c3: s,
        });
    }
    value_of(Word {
        c0: w.c3,
        c1: s,
        c2: s,
        c3: s,
    })
}

/// What a cell's sign fills the cells above it with.
pub fn sign_cell(c: Cell) -> Cell
    ensures { result ≡ sign_cell c }
{
    match c {
        Cell::Byte(n) => Cell::Byte(if n < 128 { 0 } else { 255 }),
        _ => Cell::Unset,
    }
}
