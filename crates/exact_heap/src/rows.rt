// The last owner of each slot that ever had one, by the grid's own numbers.
ghost use Rattle.std.specs.Prelude.{◌≡◌, ◌≢◌, ◌==◌, ℕ, ◌+◌, ◌/◌, ◌%◌, ◌<◌, ◌++◌, ◌∷◌, [], ◌-◌, IsSome, IfOk, IsOk, OnOk, OnErr, get_or, set, take, length, replicate, false};
ghost use Rattle.exact_heap.specs.RowStore.{no_rows, rank, has_row, row_in, Puts, chunk_at, with_chunk};

use miniheap::Slot;
use std::alloc::{AllocError, Global};
use std::marker::Model;

// How many slots of a miniheap share a chunk, a bit of a word for each.
const SLOTS: u32 = 64;

/// The last owner of a slot, by its own address. The fields lie in this order, which takes 32 bytes.
#[derive(Clone, Copy, Debug)]
pub(crate) struct Row {
    pub(crate) object: u64,
    pub(crate) freed: u64,
    pub(crate) addr: u32,
    pub(crate) size: u32,
    pub(crate) site: u32,
    pub(crate) free_site: u32,
}

// The rows of 64 slots that lie side by side, in order of slot. A bit is set for each slot that has one,
// so the row of a slot is behind as many as there are bits below its own.
#[derive(Drop)]
struct Chunk {
    marks: u64,
    rows: Vec<Row>,
}

impl Model for Chunk {
    ghost use Rattle.exact_heap.specs.RowStore.{RowChunk, have_rows};

    ghost Value = { RowChunk };

    ghost view = { λ a. record { marks = a.marks; rows = a.rows.items } };

    ghost invariant = { have_rows };
}

impl Chunk {
    fn has(&self, nth: u32) -> bool
        requires { nth < 64 }
        ensures { result ≡ has_row self.now.marks nth }
    {
        (self.marks >> nth) & 1 == 1
    }

    // How many slots before one have a row.
    fn rank(&self, nth: u32) -> usize
        requires { nth < 64 }
        ensures { result ≡ rank self.now.marks nth }
    {
        (self.marks & ((1 << nth) - 1)).count_ones() as usize
    }

    fn get(&self, nth: u32) -> Option<Row>
        requires { nth < 64 }
        ensures { result ≡ row_in self.now nth }
    {
        if !self.has(nth) {
            return None;
        }
        Some(self.rows[self.rank(nth)])
    }

    // Puts a row in place of that of its slot, or between its neighbours' where there is none. Room is made
    // for that one alone, so that chunks stay dense.
    fn put(&mut self, nth: u32, row: Row) -> Result<(), AllocError>
        requires { nth < 64 }
        ensures ok { OnOk result (Puts self.old self.new nth row) }
        ensures err { OnErr result (self.new ≡ self.old) }
        ensures sure { IsSome (row_in self.old nth) → IsOk result }
    {
        let rank = self.rank(nth);
        if self.has(nth) {
            self.rows[rank] = row;
            return Ok(());
        }
        self.add(nth, rank, row)
    }

    // The row of a slot that had none.
    #[inline(never)]
    fn add(&mut self, nth: u32, at: usize, row: Row) -> Result<(), AllocError>
        requires nth { nth < 64 }
        requires none { has_row self.old.marks nth ≡ false }
        requires at { at ≡ rank self.old.marks nth }
        ensures ok { OnOk result (Puts self.old self.new nth row) }
        ensures err { OnErr result (self.new ≡ self.old) }
    {
        self.rows.reserve_exact(1)?;
        match self.rows.insert(at, row) {
            Ok(()) => {}
            Err(_) => return Err(AllocError),
        }
        self.marks |= 1 << nth;
        Ok(())
    }
}

// The rows of a miniheap's slots, in chunks by order of slot.
#[derive(Drop)]
struct Line {
    chunks: Vec<Chunk>,
}

impl Model for Line {
    ghost use Rattle.std.specs.Prelude.{List};
    ghost use Rattle.exact_heap.specs.RowStore.{RowChunk};

    ghost Value = { List RowChunk };

    ghost view = { λ a. a.chunks.items };
}

impl Line {
    fn get(&self, nth: u32) -> Option<Row>
        ensures { result ≡ row_in (get_or self.now (nth / 64) no_rows) (nth % 64) }
    {
        let number = (nth / SLOTS) as usize;
        if number >= self.chunks.len() {
            return None;
        }
        self.chunks[number].get(nth % SLOTS)
    }

    fn put(&mut self, nth: u32, row: Row) -> Result<(), AllocError>
        requires { nth / 64 < length self.old }
        ensures ok { OnOk result (Puts (get_or self.old (nth / 64) no_rows) (get_or self.new (nth / 64) no_rows) (nth % 64) row) }
        ensures rest { self.new ≡ set self.old (nth / 64) (get_or self.new (nth / 64) no_rows) }
        ensures err { OnErr result (self.new ≡ self.old) }
        ensures sure { IsSome (row_in (get_or self.old (nth / 64) no_rows) (nth % 64)) → IsOk result }
    {
        self.chunks[(nth / SLOTS) as usize].put(nth % SLOTS, row)
    }
}

/// The rows of slots, by the number of their miniheap and their own number in it. A slot that never had an
/// owner takes no room but its part of its chunk.
#[derive(Drop)]
pub(crate) struct Rows {
    alloc: Global,
    lines: Vec<Line>,
}

impl Model for Rows {
    ghost use Rattle.std.specs.Prelude.{List};
    ghost use Rattle.exact_heap.specs.RowStore.{RowChunk};

    ghost Value = { List (List RowChunk) };

    ghost view = { λ a. a.lines.items };
}

impl Rows {
    /// No row yet. It takes no memory.
    pub(crate) fn new(alloc: Global) -> Rows
        ensures { result ≡ [] }
    {
        Rows {
            alloc,
            lines: Vec::new(alloc),
        }
    }

    /// The row of a slot.
    pub(crate) fn get(&self, slot: &Slot) -> Option<Row>
        ensures { result ≡ row_in (chunk_at self.now slot.now.mini (slot.now.nth / 64)) (slot.now.nth % 64) }
    {
        let mini = slot.mini as usize;
        if mini >= self.lines.len() {
            return None;
        }
        self.lines[mini].get(slot.nth)
    }

    /// The row of a slot becomes this one. Where the slot had one, that takes no memory.
    pub(crate) fn set(&mut self, slot: &Slot, row: Row) -> Result<(), AllocError>
        requires mini { slot.now.mini < length self.old }
        requires chunk { slot.now.nth / 64 < length (get_or self.old slot.now.mini []) }
        ensures ok { OnOk result (Puts (chunk_at self.old slot.now.mini (slot.now.nth / 64)) (chunk_at self.new slot.now.mini (slot.now.nth / 64)) (slot.now.nth % 64) row) }
        ensures rest { self.new ≡ with_chunk self.old slot.now.mini (slot.now.nth / 64) (chunk_at self.new slot.now.mini (slot.now.nth / 64)) }
        ensures err { OnErr result (self.new ≡ self.old) }
        ensures sure { IsSome (row_in (chunk_at self.old slot.now.mini (slot.now.nth / 64)) (slot.now.nth % 64)) → IsOk result }
    {
        self.lines[slot.mini as usize].put(slot.nth, row)
    }

    /// The next miniheap has so many slots, none of which has a row.
    pub(crate) fn add(&mut self, slots: u32) -> Result<(), AllocError>
        ensures ok { OnOk result (self.new ≡ self.old ++ replicate (slots / 64 + 1) no_rows ∷ []) }
        ensures err { OnErr result (self.new ≡ self.old) }
    {
        let line = empty_line(self.alloc, slots / SLOTS + 1)?;
        self.lines.push(line)?;
        Ok(())
    }

    /// The last miniheap's rows are let go.
    pub(crate) fn undo(&mut self)
        ensures { self.new ≡ take (length self.old - 1) self.old }
    {
        let lines = self.lines.len();
        self.lines.truncate(lines.saturating_sub(1));
    }
}

// So many chunks without a row.
fn empty_line(alloc: Global, count: u32) -> Result<Line, AllocError>
    ensures { IfOk result (λ line. line ≡ replicate count no_rows) }
{
    let mut chunks = Vec::new(alloc);
    for _made in 0..count {
        chunks.push(Chunk {
            marks: 0,
            rows: Vec::new(alloc),
        })?;
    }
    Ok(Line { chunks })
}
