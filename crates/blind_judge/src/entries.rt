// What is kept of one offset of an object, in 16 bytes. Entry point: `Entry`.

ghost use Rattle.std.specs.Prelude.{◌≡◌};
ghost use Rattle.blind_judge.specs.Entries.{cell_in, entry_of};

use infinite_heap::Cell;

/// Which kind of cell an entry has, none where none was written.
#[derive(Clone, Copy, Debug, PartialEq, Eq, Drop)]
pub enum Kind {
    Absent,
    Number,
    Part,
    Unset,
}

/// A cell that was written, and whether it counts as stored; `byte` is a byte's number, or which byte of
/// a pointer a part is.
#[derive(Clone, Copy, Debug, PartialEq, Eq, Drop)]
pub struct Entry {
    pub object: u64,
    pub offset: u32,
    pub byte: u8,
    pub kind: Kind,
    pub stored: bool,
}

/// What is kept where nothing was written.
pub const NO_ENTRY: Entry = Entry {
    object: 0,
    offset: 0,
    byte: 0,
    kind: Kind::Absent,
    stored: false,
};

impl Entry {
    #[inline(always)]
    pub fn new(cell: Cell, stored: bool) -> Entry
        ensures { result ≡ entry_of cell stored }
    {
        match cell {
            Cell::Byte(byte) => Entry {
                object: 0,
                offset: 0,
                byte,
                kind: Kind::Number,
                stored,
            },
            Cell::Part {
                object,
                offset,
                nth,
            } => Entry {
                object,
                offset,
                byte: nth,
                kind: Kind::Part,
                stored,
            },
            Cell::Unset => Entry {
                object: 0,
                offset: 0,
                byte: 0,
                kind: Kind::Unset,
                stored,
            },
        }
    }

    /// The cell, none where none was written.
    #[inline(always)]
    pub fn cell(self) -> Option<Cell>
        ensures { result ≡ cell_in self }
    {
        match self.kind {
            Kind::Absent => None,
            Kind::Number => Some(Cell::Byte(self.byte)),
            Kind::Part => Some(Cell::Part {
                object: self.object,
                offset: self.offset,
                nth: self.byte,
            }),
            Kind::Unset => Some(Cell::Unset),
        }
    }
}
