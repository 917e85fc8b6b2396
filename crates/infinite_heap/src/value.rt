// What a byte and a word are on a heap without addresses.

/// One byte: a number, byte `nth` (0 to 3, lowest first) of a pointer to `offset` in `object`, or unset.
#[derive(Clone, Copy, Debug, PartialEq, Eq, Drop)]
pub enum Cell {
    Byte(u8),
    Part { object: u64, offset: u32, nth: u8 },
    Unset,
}

/// One word: a number, a pointer to `offset` (modulo 2^32) in `object`, four cells, lowest first, or a
/// word of which the low four bits alone are known.
#[derive(Clone, Copy, Debug, PartialEq, Eq, Drop)]
pub enum Value {
    Num(u32),
    Ptr {
        object: u64,
        offset: u32,
    },
    Mix {
        c0: Cell,
        c1: Cell,
        c2: Cell,
        c3: Cell,
    },
    Low(u8),
}
