// The cells at the addresses of segments and stack that are no numbers.

ghost use Rattle.std.specs.Prelude.{◌≡◌, ◌+◌, ◌/◌, ◌%◌, ℕ, Some, None, IfOk, OnOk, OnErr};
ghost use Rattle.std.specs.Bool.{OnTrue};
ghost use Rattle.infinite_heap.specs.Memory.{put};
ghost use Rattle.blind_judge.specs.MarkedWords.{AreMarked};
ghost use Rattle.blind_judge.specs.PlainWords.{IsPlain};

use crate::flat_bytes::FlatBytes;
use infinite_heap::Cell;
use std::alloc::{AllocError, Global};
use std::collections::BTreeMap;

/// The cells by address that are parts of pointers, or unset. Words of four numbers are told by a mark.
#[derive(Drop)]
pub struct FlatCells {
    // 0 for a word of four numbers.
    marks: FlatBytes,
    cells: BTreeMap<u32, Cell>,
    ghost marked: { AreMarked marks cells },
}

impl FlatCells {
    ghost use Rattle.blind_judge.specs.FlatCells.{odd_in};

    /// No such cell.
    pub(crate) fn new(alloc: Global) -> Result<FlatCells, AllocError>
        ensures { IfOk result (λ cells. (x : ℕ) → odd_in cells x ≡ None) }
    {
        let marks = FlatBytes::new(alloc)?;
        Ok(FlatCells {
            marks,
            cells: BTreeMap::new(alloc),
        })
    }

    /// Whether the word of an address has numbers alone.
    #[inline(always)]
    pub(crate) fn is_plain(&self, x: u32) -> bool
        ensures { OnTrue result (IsPlain (odd_in self.now) x) }
    {
        self.marks.byte(x / 4) == 0
    }

    /// The cell at an address, where it is no number.
    pub(crate) fn get(&self, x: u32) -> Option<Cell>
        ensures { result ≡ odd_in self.now x }
    {
        self.cells.get(&x).copied()
    }

    /// Puts a cell that is no number.
    pub(crate) fn put(&mut self, x: u32, cell: Cell) -> Result<(), AllocError>
        ensures { OnOk result (odd_in self.new ≡ put (odd_in self.old) x (Some cell)) }
    {
        self.marks.put(x / 4, 1)?;
        match self.cells.insert(x, cell) {
            Ok(_) => Ok(()),
            Err(_) => Err(AllocError),
        }
    }

    /// Takes the cell at an address away.
    pub(crate) fn remove(&mut self, x: u32)
        ensures { odd_in self.new ≡ put (odd_in self.old) x None }
    {
        if !self.is_plain(x) {
            self.cells.remove(&x);
        }
    }
}
