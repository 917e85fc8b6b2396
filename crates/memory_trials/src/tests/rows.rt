// What is done to a space and found there, row by row.
use super::calls::{allows, copy, fetch, fill, first_break, load, map, read, store, write};
use rv_memory::{Rest, Space, StoreFault, Width};

#[derive(Clone, Copy)]
pub enum Row {
    /// A range is mapped: its bounds by where it begins and its length, its first bytes, what follows them, and whether
    /// it may be written to and runs.
    Maps((u32, u32), &'static [u8], Rest, (bool, bool)),
    /// What a load gives, None where the bytes aren't mapped.
    Loads(u32, Width, Option<u32>),
    /// What a fetch gives, None where the bytes don't run.
    Fetches(u32, Option<u32>),
    /// A value is stored.
    Stores(u32, Width, u32),
    /// A store is refused, since a byte isn't mapped or may not be written to.
    RefusesStore(u32, Width),
    /// Bytes are written.
    Writes(u32, &'static [u8]),
    /// A write of bytes is refused.
    RefusesWrite(u32, &'static [u8]),
    /// What eight bytes are.
    Bytes(u32, [u8; 8]),
    /// Whether a span may be read, and whether it may be written to.
    Allows((u32, u32), bool, bool),
    /// Whether a span could be filled.
    Fills((u32, u32), Rest, bool),
    /// Whether a span could be copied: from, to, and the length.
    Copies(u32, u32, u32, bool),
    /// The first break of a canary in a span that is mapped.
    Breaks((u32, u32), u32, Option<u32>),
}

/// The number of the first row that isn't met, if there is one.
pub fn first_miss(space: &mut Space, rows: &[Row]) -> Option<usize> {
    for (number, row) in rows.iter().enumerate() {
        if !meets(space, *row) {
            return Some(number);
        }
    }
    None
}

fn meets(space: &mut Space, row: Row) -> bool {
    match row {
        Row::Maps(range, first, rest, flags) => map(space, range, first, rest, flags),
        Row::Stores(addr, width, value) => store(space, addr, width, value) == Ok(()),
        Row::RefusesStore(addr, width) => {
            store(space, addr, width, 0) == Err(StoreFault::Unmapped)
        }
        Row::Writes(addr, bytes) => write(space, addr, bytes) == Ok(()),
        Row::RefusesWrite(addr, bytes) => write(space, addr, bytes) == Err(StoreFault::Unmapped),
        Row::Fills((addr, len), rest, could) => fill(space, addr, len, rest) == could,
        Row::Copies(from, to, len, could) => copy(space, from, to, len) == could,
        found => finds(space, found),
    }
}

fn finds(space: &Space, row: Row) -> bool {
    match row {
        Row::Loads(addr, width, number) => load(space, addr, width) == number,
        Row::Fetches(addr, word) => fetch(space, addr) == word,
        Row::Bytes(addr, want) => {
            let mut bytes = [0; 8];
            read(space, addr, &mut bytes) && bytes == want
        }
        Row::Allows((addr, len), reads, writes) => {
            allows(space, addr, len, false) == reads && allows(space, addr, len, true) == writes
        }
        Row::Breaks((addr, len), word, broken) => {
            first_break(space, addr, len, word) == Some(broken)
        }
        _ => false,
    }
}
