// Words as four cells, and what is known of their low bits: docs/infinite-heap.md, "Cells and values".

ghost use Rattle.std.specs.Prelude.{◌≡◌};
ghost use Rattle.infinite_heap.specs.Values.{byte, cells_of, value_of, low_part, is_part, word_of};
ghost use Rattle.blind_judge.specs.Words.{cells_in};
ghost use Rattle.infinite_heap.specs.declared.value.Cell.TheVariants.{Byte, Part};

use infinite_heap::{Cell, Value};

/// The cells of a word, lowest first.
#[derive(Clone, Copy, Debug, PartialEq, Eq, Drop)]
pub struct Word {
    pub c0: Cell,
    pub c1: Cell,
    pub c2: Cell,
    pub c3: Cell,
}

/// The four cells of a value.
#[inline(always)]
pub fn cells_of(x: Value) -> Word
    ensures { cells_in result ≡ cells_of x }
{
    match x {
        Value::Num(n) => Word {
            c0: Cell::Byte((n % 256) as u8),
            c1: Cell::Byte((n / 256 % 256) as u8),
            c2: Cell::Byte((n / 65536 % 256) as u8),
            c3: Cell::Byte((n / 16777216 % 256) as u8),
        },
        Value::Ptr { object, offset } => Word {
            c0: Cell::Part {
                object,
                offset,
                nth: 0,
            },
            c1: Cell::Part {
                object,
                offset,
                nth: 1,
            },
            c2: Cell::Part {
                object,
                offset,
                nth: 2,
            },
            c3: Cell::Part {
                object,
                offset,
                nth: 3,
            },
        },
        Value::Mix { c0, c1, c2, c3 } => Word { c0, c1, c2, c3 },
        Value::Low(_) => Word {
            c0: Cell::Unset,
            c1: Cell::Unset,
            c2: Cell::Unset,
            c3: Cell::Unset,
        },
    }
}

/// The value of four cells: four numbers are a number, the four bytes of one pointer are that pointer.
#[inline(always)]
pub fn value_of(w: Word) -> Value
    ensures { result ≡ value_of w.c0 w.c1 w.c2 w.c3 }
{
    match w.c0 {
        Cell::Byte(a) => value_from_byte(a, w.c1, w.c2, w.c3),
        Cell::Part {
            object,
            offset,
            nth,
        } => value_from_part(object, offset, nth, w.c1, w.c2, w.c3),
        Cell::Unset => Value::Mix {
            c0: w.c0,
            c1: w.c1,
            c2: w.c2,
            c3: w.c3,
        },
    }
}

#[inline(always)]
fn value_from_byte(a: u8, c1: Cell, c2: Cell, c3: Cell) -> Value
    ensures { result ≡ value_of (Byte a) c1 c2 c3 }
{
    match (c1, c2, c3) {
        (Cell::Byte(b), Cell::Byte(c), Cell::Byte(d)) => Value::Num(word_of(a, b, c, d)),
        _ => Value::Mix {
            c0: Cell::Byte(a),
            c1,
            c2,
            c3,
        },
    }
}

#[inline(always)]
fn word_of(a: u8, b: u8, c: u8, d: u8) -> u32
    ensures { result ≡ word_of a b c d }
{
    u32::from(a) + 256 * u32::from(b) + 65536 * u32::from(c) + 16777216 * u32::from(d)
}

#[inline(always)]
fn value_from_part(object: u64, offset: u32, nth: u8, c1: Cell, c2: Cell, c3: Cell) -> Value
    ensures { result ≡ value_of (Part object offset nth) c1 c2 c3 }
{
    if nth == 0
        && is_part(object, offset, 1, c1)
        && is_part(object, offset, 2, c2)
        && is_part(object, offset, 3, c3)
    {
        return Value::Ptr { object, offset };
    }
    Value::Mix {
        c0: Cell::Part {
            object,
            offset,
            nth,
        },
        c1,
        c2,
        c3,
    }
}

#[inline(always)]
fn is_part(object: u64, offset: u32, nth: u8, c: Cell) -> bool
    ensures { result ≡ is_part object offset nth c }
{
    match c {
        Cell::Part {
            object: p,
            offset: e,
            nth: j,
        } => object == p && offset == e && nth == j,
        _ => false,
    }
}

/// The low four bits of a value, where they are known.
#[inline(always)]
pub fn low_part(x: Value) -> Option<u8>
    ensures { result ≡ low_part x }
{
    match x {
        Value::Num(n) => Some((n % 16) as u8),
        Value::Ptr { offset, .. } => Some((offset % 16) as u8),
        Value::Mix {
            c0: Cell::Byte(n),
            ..
        } => Some(n % 16),
        Value::Mix {
            c0: Cell::Part { offset, nth: 0, .. },
            ..
        } => Some((offset % 16) as u8),
        Value::Mix { .. } => None,
        Value::Low(b) => Some(b),
    }
}
