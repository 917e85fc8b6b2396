// The cells of objects that were written: docs/infinite-run.md, "Cells". Entry point: `HeapCells`.

ghost use Rattle.std.specs.Prelude.{◌≡◌, ℕ, ◌+◌, ◌/◌, ◌%◌, ◌≤◌, List, [], length, None, OnOk, OnErr, IfOk, IfSome, IfNone};
ghost use Rattle.std.specs.Option.{unwrap_or};
ghost use Rattle.std.specs.BTreeMap as tree;
ghost use Rattle.infinite_heap.specs.Memory.{Written, cell_at, get_all, store_all, stored_count};
ghost use Rattle.infinite_heap.specs.declared.value.Cell.{Cell};
ghost use Rattle.blind_judge.specs.Words.{cell_list};
ghost use Rattle.blind_judge.specs.Pages.{marks_of};
ghost use Rattle.blind_judge.specs.HeapCells.{AreWritten, CopiesFirst, CopiesPiece, page_at, StoresFirst, StoresInPage, entries_of, page_cmp};

use crate::entries::{Entry, NO_ENTRY};
use crate::pages::{PAGE, Page, empty_page, page_cells, store_entries};
use crate::words::Word;
use infinite_heap::Cell;
use std::alloc::{AllocError, Global};
use std::collections::BTreeMap;

/// No more cells than these are counted before a page is stored to.
const MOST_COUNT: u64 = u64::MAX - 64;

// Pages by their object and their number.
type Pages = BTreeMap<(u64, u32), Box<Page>>;

/// The cells of objects that were written, by pages of 64 offsets, and how many of them were stored.
#[derive(Drop)]
pub struct HeapCells {
    pages: Pages,
    count: u64,
    alloc: Global,
}

impl HeapCells {
    /// Nothing was written.
    pub fn new(alloc: Global) -> HeapCells
        ensures { AreWritten result [] }
    {
        HeapCells {
            pages: BTreeMap::new(alloc),
            count: 0,
            alloc,
        }
    }

    /// How many cells were stored, each counted once.
    pub fn count(&self) -> u64
        ensures { (written : List Written) → AreWritten self.now written → result ≡ stored_count written }
    {
        self.count
    }

    /// The cell of an object at an offset, none where none was written.
    pub fn get(&self, object: u64, offset: u32) -> Option<Cell>
        ensures { (written : List Written) (begins : ℕ → Cell) → AreWritten self.now written → unwrap_or result (begins object) ≡ cell_at begins written object offset }
    {
        self.entry(object, offset).cell()
    }

    /// The four cells of a word of an object, where `begins` is the cell that the object began with.
    pub fn word(&self, begins: Cell, object: u64, offset: u32) -> Word
        requires { offset % 4 ≡ 0 }
        ensures { (written : List Written) (first : ℕ → Cell) → AreWritten self.now written → first object ≡ begins → cell_list result ≡ get_all (cell_at first written object) offset 4 }
    {
        let (e0, e1, e2, e3) = self.four_entries(object, offset);
        Word {
            c0: e0.cell().unwrap_or(begins),
            c1: e1.cell().unwrap_or(begins),
            c2: e2.cell().unwrap_or(begins),
            c3: e3.cell().unwrap_or(begins),
        }
    }

    /// Stores cells to an object from an offset on; offsets wrap. Where memory is refused, the first of
    /// the cells, maybe none, are stored.
    pub fn store(&mut self, object: u64, offset: u32, cells: &[Cell]) -> Result<(), AllocError>
        ensures stored { OnOk result ((written : List Written) → AreWritten self.old written → AreWritten self.new (store_all written object offset cells.now)) }
        ensures refused { OnErr result ((rest : List Cell) × StoresFirst self.old self.new object offset cells.now rest) }
    {
        let mut rest = cells;
        let mut at = offset;
        while !rest.is_empty() {
            let count = rest.len().min(PAGE - (at % 64) as usize);
            let (piece, others) = rest.split_at(count);
            self.store_in_page(object, at, piece)?;
            at = at.wrapping_add(count as u32);
            rest = others;
        }
        Ok(())
    }

    /// Copies the first so many cells of an object to another, where `begins` is the cell that the first
    /// began with: a copy of a stored cell counts as stored. Where memory is refused, the first of them,
    /// maybe none, are copied.
    pub fn copy(&mut self, from: u64, to: u64, begins: Cell, count: u32) -> Result<(), AllocError>
        ensures copied { OnOk result (CopiesFirst self.old self.new from to begins count) }
        ensures refused { OnErr result ((done : ℕ) × CopiesFirst self.old self.new from to begins done) }
    {
        let mut at = 0;
        while at < count {
            let piece = (count - at).min(PAGE as u32);
            self.copy_in_page(from, to, begins, at, piece)?;
            at += piece;
        }
        Ok(())
    }

    // What is kept of the four offsets of a word, which lie in one page.
    fn four_entries(&self, object: u64, offset: u32) -> (Entry, Entry, Entry, Entry)
        requires { offset % 4 ≡ 0 }
        ensures { result ≡ (entries_of self.now.pages object offset, entries_of self.now.pages object (offset + 1), entries_of self.now.pages object (offset + 2), entries_of self.now.pages object (offset + 3)) }
    {
        let at = (offset % 64) as usize;
        match self.pages.get(&(object, offset / 64)) {
            Some(page) => (page[at], page[at + 1], page[at + 2], page[at + 3]),
            None => (NO_ENTRY, NO_ENTRY, NO_ENTRY, NO_ENTRY),
        }
    }

    // Copies so many cells of one page, from its start on.
    fn copy_in_page(
        &mut self,
        from: u64,
        to: u64,
        begins: Cell,
        offset: u32,
        count: u32,
    ) -> Result<(), AllocError>
        requires start { offset % 64 ≡ 0 }
        requires fits { count ≤ 64 }
        ensures copied { OnOk result (CopiesPiece self.old self.new from to begins offset count) }
        ensures refused { OnErr result (self.new.pages.entries ≡ self.old.pages.entries) }
        ensures counted { OnErr result (self.new.count ≡ self.old.count) }
    {
        if self.count > MOST_COUNT {
            return Err(AllocError);
        }
        let number = offset / 64;
        let source = page_of(&self.pages, from, number);
        let cells = page_cells(&source, begins);
        let piece = &cells[..count as usize];
        self.count += store_to_pages(
            self.alloc,
            &mut self.pages,
            to,
            number,
            (offset % 64) as usize,
            piece,
            Some(&source),
        )?;
        Ok(())
    }

    // Stores cells of one page.
    fn store_in_page(&mut self, object: u64, offset: u32, cells: &[Cell]) -> Result<(), AllocError>
        requires { offset % 64 + length cells.now ≤ 64 }
        ensures stored { OnOk result ((written : List Written) → AreWritten self.old written → AreWritten self.new (store_all written object offset cells.now)) }
        ensures refused { OnErr result ((written : List Written) → AreWritten self.old written → AreWritten self.new written) }
    {
        if self.count > MOST_COUNT {
            return Err(AllocError);
        }
        let at = (offset % 64) as usize;
        self.count += store_to_pages(
            self.alloc,
            &mut self.pages,
            object,
            offset / 64,
            at,
            cells,
            None,
        )?;
        Ok(())
    }

    // What is kept of an object's offset.
    fn entry(&self, object: u64, offset: u32) -> Entry
        ensures { result ≡ entries_of self.now.pages object offset }
    {
        match self.pages.get(&(object, offset / 64)) {
            Some(page) => page[(offset % 64) as usize],
            None => NO_ENTRY,
        }
    }
}

// A page as it is now, an empty one where there is none.
fn page_of(pages: &Pages, object: u64, number: u32) -> Page
    ensures { result ≡ page_at pages.now object number }
{
    match pages.get(&(object, number)) {
        Some(page) => **page,
        None => empty_page(),
    }
}

fn store_to_pages(
    alloc: Global,
    pages: &mut Pages,
    object: u64,
    number: u32,
    at: usize,
    cells: &[Cell],
    marks: Option<&Page>,
) -> Result<u64, AllocError>
    requires { at + length cells.now ≤ 64 }
    ensures stored { IfOk result (StoresInPage pages.old pages.new object number at (marks_of marks.entry) cells.now) }
    ensures refused { OnErr result (pages.new.entries ≡ pages.old.entries) }
{
    match store_to_page(pages, object, number, at, cells, marks) {
        Some(fresh) => Ok(fresh),
        None => store_to_new_page(alloc, pages, object, number, at, cells, marks),
    }
}

// Stores to a page that there is.
fn store_to_page(
    pages: &mut Pages,
    object: u64,
    number: u32,
    at: usize,
    cells: &[Cell],
    marks: Option<&Page>,
) -> Option<u64>
    requires { at + length cells.now ≤ 64 }
    ensures stored { IfSome result (StoresInPage pages.old pages.new object number at (marks_of marks.entry) cells.now) }
    ensures missing { IfNone result ((tree.get page_cmp pages.old (object, number) ≡ None) × (pages.new.entries ≡ pages.old.entries)) }
{
    match pages.get_mut(&(object, number)) {
        Some(page) => Some(store_entries(page, at, cells, marks)),
        None => None,
    }
}

// Stores to a page that there isn't yet.
fn store_to_new_page(
    alloc: Global,
    pages: &mut Pages,
    object: u64,
    number: u32,
    at: usize,
    cells: &[Cell],
    marks: Option<&Page>,
) -> Result<u64, AllocError>
    requires fits { at + length cells.now ≤ 64 }
    requires missing { tree.get page_cmp pages.old (object, number) ≡ None }
    ensures stored { IfOk result (StoresInPage pages.old pages.new object number at (marks_of marks.entry) cells.now) }
    ensures refused { OnErr result (pages.new.entries ≡ pages.old.entries) }
{
    let mut page = Box::new(alloc, empty_page())?;
    let fresh = store_entries(&mut page, at, cells, marks);
    pages.insert((object, number), page)?;
    Ok(fresh)
}
