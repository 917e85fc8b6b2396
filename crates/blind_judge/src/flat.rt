// The cells at the addresses of segments and stack.

ghost use Rattle.std.specs.Prelude.{◌≡◌, ◌+◌, ◌/◌, ◌%◌, ℕ, [], ◌∷◌, false, None, Some, OnOk, OnSome, IfSome, IsTrue};
ghost use Rattle.infinite_heap.specs.InRange.{is_load_op, is_store_op};
ghost use Rattle.infinite_heap.specs.Memory.{cells_from, extends_sign, get_all, put, put_all, value_from, width_of};
ghost use Rattle.blind_judge.specs.Flat.{flat_of, mapping_in};
ghost use Rattle.blind_judge.specs.FlatCells.{odd_in};
ghost use Rattle.blind_judge.specs.PlainWords.{IsPlain};

use crate::areas::Areas;
use crate::flat_bytes::FlatBytes;
use crate::flat_cells::FlatCells;
use crate::loaded::{value_of_one, value_of_two};
use crate::words::{Word, cells_of, value_of};
use infinite_heap::{Cell, Op, Value};
use std::alloc::AllocError;

/// A cell at each address, and which addresses are mapped.
#[derive(Drop)]
pub struct Flat {
    pub(crate) areas: Areas,
    pub(crate) bytes: FlatBytes,
    pub(crate) cells: FlatCells,
}

impl Flat {
    /// The cell at an address.
    #[inline(always)]
    pub(crate) fn cell(&self, x: u32) -> Cell
        ensures { result ≡ flat_of self.now x }
    {
        if self.cells.is_plain(x) {
            return Cell::Byte(self.bytes.byte(x));
        }
        self.kept_cell(x)
    }

    #[inline(never)]
    fn kept_cell(&self, x: u32) -> Cell
        ensures { result ≡ flat_of self.now x }
    {
        match self.cells.get(x) {
            Some(cell) => cell,
            None => Cell::Byte(self.bytes.byte(x)),
        }
    }

    /// The value of the four cells from an address on.
    #[inline(always)]
    pub(crate) fn word(&self, x: u32) -> Value
        ensures { result ≡ value_from false (get_all (flat_of self.now) x 4) }
    {
        if x % 4 == 0 && self.cells.is_plain(x) {
            return Value::Num(self.bytes.word(x));
        }
        self.word_of_cells(x)
    }

    #[inline(never)]
    fn word_of_cells(&self, x: u32) -> Value
        ensures { result ≡ value_from false (get_all (flat_of self.now) x 4) }
    {
        let x1 = x.wrapping_add(1);
        let x2 = x1.wrapping_add(1);
        let x3 = x2.wrapping_add(1);
        value_of(Word {
            c0: self.cell(x),
            c1: self.cell(x1),
            c2: self.cell(x2),
            c3: self.cell(x3),
        })
    }

    /// What a load from an address gives.
    #[inline(always)]
    pub(crate) fn load(&self, op: Op, x: u32) -> Value
        requires { IsTrue (is_load_op op) }
        ensures { result ≡ value_from (extends_sign op) (get_all (flat_of self.now) x (width_of op)) }
    {
        match op {
            Op::Lb => value_of_one(true, self.cell(x)),
            Op::Lbu => value_of_one(false, self.cell(x)),
            Op::Lh => value_of_two(true, self.cell(x), self.cell(x.wrapping_add(1))),
            Op::Lhu => value_of_two(false, self.cell(x), self.cell(x.wrapping_add(1))),
            _ => self.word(x),
        }
    }

    /// Puts a cell.
    pub(crate) fn put(&mut self, x: u32, cell: Cell) -> Result<(), AllocError>
        ensures put { OnOk result (flat_of self.new ≡ put (flat_of self.old) x cell) }
        ensures mapping { mapping_in self.new ≡ mapping_in self.old }
    {
        match cell {
            Cell::Byte(b) => {
                self.bytes.put(x, b)?;
                self.cells.remove(x);
                Ok(())
            }
            _ => self.cells.put(x, cell),
        }
    }

    /// Puts the lowest cells of a value, as many as a store moves.
    #[inline(always)]
    pub(crate) fn store(&mut self, op: Op, x: u32, v: Value) -> Result<(), AllocError>
        requires { IsTrue (is_store_op op) }
        ensures stored { OnOk result (flat_of self.new ≡ put_all (flat_of self.old) x (cells_from (width_of op) v)) }
        ensures mapping { mapping_in self.new ≡ mapping_in self.old }
    {
        match op {
            Op::Sb => self.put(x, cells_of(v).c0),
            Op::Sh => self.put_half(x, v),
            _ => self.put_word(x, v),
        }
    }

    // Puts two cells.
    fn put_pair(&mut self, x: u32, a: Cell, b: Cell) -> Result<(), AllocError>
        ensures stored { OnOk result (flat_of self.new ≡ put_all (flat_of self.old) x (a ∷ b ∷ [])) }
        ensures mapping { mapping_in self.new ≡ mapping_in self.old }
    {
        self.put(x, a)?;
        self.put(x.wrapping_add(1), b)
    }

    #[inline(always)]
    fn put_half(&mut self, x: u32, v: Value) -> Result<(), AllocError>
        ensures stored { OnOk result (flat_of self.new ≡ put_all (flat_of self.old) x (cells_from 2 v)) }
        ensures mapping { mapping_in self.new ≡ mapping_in self.old }
    {
        let w = cells_of(v);
        self.put_pair(x, w.c0, w.c1)
    }

    // The number that a value is, where the word of an address that is a multiple of 4 has numbers alone.
    #[inline(always)]
    fn plain_number(&self, x: u32, v: Value) -> Option<u32>
        ensures number { IfSome result (λ word. v ≡ Value.Num word) }
        ensures whole { OnSome result (x % 4 ≡ 0) }
        ensures plain { OnSome result (IsPlain (odd_in self.now.cells) x) }
    {
        match v {
            Value::Num(word) => {
                if x % 4 == 0 && self.cells.is_plain(x) {
                    return Some(word);
                }
                None
            }
            _ => None,
        }
    }

    #[inline(always)]
    fn put_word(&mut self, x: u32, v: Value) -> Result<(), AllocError>
        ensures stored { OnOk result (flat_of self.new ≡ put_all (flat_of self.old) x (cells_from 4 v)) }
        ensures mapping { mapping_in self.new ≡ mapping_in self.old }
    {
        match self.plain_number(x, v) {
            Some(word) => self.bytes.put_word(x, word),
            None => self.put_cells(x, v),
        }
    }

    #[inline(never)]
    fn put_cells(&mut self, x: u32, v: Value) -> Result<(), AllocError>
        ensures stored { OnOk result (flat_of self.new ≡ put_all (flat_of self.old) x (cells_from 4 v)) }
        ensures mapping { mapping_in self.new ≡ mapping_in self.old }
    {
        let w = cells_of(v);
        self.put_pair(x, w.c0, w.c1)?;
        self.put_pair(x.wrapping_add(1).wrapping_add(1), w.c2, w.c3)
    }
}
