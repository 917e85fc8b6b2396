// And, or, xor of two cells.

ghost use Rattle.std.specs.Prelude.{◌≡◌, bit_and, bit_or, bit_xor};
ghost use Rattle.infinite_heap.specs.Lift.{cell_by, cell_and_number, cell_or_number, cell_xor_number};

use infinite_heap::Cell;

pub fn cell_and(c: Cell, d: Cell) -> Cell
    ensures { result ≡ cell_by bit_and cell_and_number c d }
{
    match (c, d) {
        (Cell::Byte(m), Cell::Byte(n)) => Cell::Byte(m & n),
        (Cell::Byte(m), _) => cell_and_number(m, d),
        (_, Cell::Byte(n)) => cell_and_number(n, c),
        _ => Cell::Unset,
    }
}

fn cell_and_number(n: u8, c: Cell) -> Cell
    ensures { result ≡ cell_and_number n c }
{
    match n {
        0 => Cell::Byte(0),
        255 => c,
        _ => Cell::Unset,
    }
}

pub fn cell_or(c: Cell, d: Cell) -> Cell
    ensures { result ≡ cell_by bit_or cell_or_number c d }
{
    match (c, d) {
        (Cell::Byte(m), Cell::Byte(n)) => Cell::Byte(m | n),
        (Cell::Byte(m), _) => cell_or_number(m, d),
        (_, Cell::Byte(n)) => cell_or_number(n, c),
        _ => Cell::Unset,
    }
}

fn cell_or_number(n: u8, c: Cell) -> Cell
    ensures { result ≡ cell_or_number n c }
{
    match n {
        0 => c,
        255 => Cell::Byte(255),
        _ => Cell::Unset,
    }
}

pub fn cell_xor(c: Cell, d: Cell) -> Cell
    ensures { result ≡ cell_by bit_xor cell_xor_number c d }
{
    match (c, d) {
        (Cell::Byte(m), Cell::Byte(n)) => Cell::Byte(m ^ n),
        (Cell::Byte(m), _) => cell_xor_number(m, d),
        (_, Cell::Byte(n)) => cell_xor_number(n, c),
        _ => Cell::Unset,
    }
}

fn cell_xor_number(n: u8, c: Cell) -> Cell
    ensures { result ≡ cell_xor_number n c }
{
    if n == 0 { c } else { Cell::Unset }
}
