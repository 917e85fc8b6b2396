// Sixty-four offsets of an object. Entry point: `store_entries`.

ghost use Rattle.std.specs.Prelude.{◌≡◌, ℕ, ◌+◌, ◌≤◌, ◌<◌, length, slice_index_or};
ghost use Rattle.blind_judge.specs.Pages.{page_with, entry_in, marks_of, newly_stored, empty_page};
ghost use Rattle.blind_judge.specs.Entries.{cell_in};
ghost use Rattle.std.specs.Option.{unwrap_or};

use crate::entries::{Entry, NO_ENTRY};
use infinite_heap::Cell;

/// How many offsets a page has.
pub const PAGE: usize = 64;

pub type Page = [Entry; PAGE];

/// A page with nothing written.
pub fn empty_page() -> Page
    ensures { result ≡ empty_page }
{
    [NO_ENTRY; PAGE]
}

/// Writes cells from the place `at` on, and says how many of them are stored that weren't before: all
/// count as stored, or those whose place in the page `marks` is stored.
#[inline(always)]
pub fn store_entries(page: &mut Page, at: usize, cells: &[Cell], marks: Option<&Page>) -> u64
    requires { at + length cells.now ≤ 64 }
    ensures stored { page.new ≡ page_with (marks_of marks.entry) page.old at cells.now }
    ensures count { result ≡ newly_stored (marks_of marks.entry) page.old at cells.now }
    ensures few { result ≤ length cells.now }
    ensures whole { length page.old ≡ 64 }
{
    let mut fresh = 0;
    for (i, cell) in cells.iter().enumerate() {
        let marked = is_marked(marks, at + i);
        let stored = page[at + i].stored;
        if marked && !stored {
            fresh += 1;
        }
        page[at + i] = Entry::new(*cell, marked || stored);
    }
    fresh
}

#[inline(always)]
fn is_marked(marks: Option<&Page>, at: usize) -> bool
    requires { at < 64 }
    ensures { result ≡ marks_of marks.entry at }
{
    match marks {
        None => true,
        Some(page) => page[at].stored,
    }
}

/// The cells of a page, where its object began with `begins`.
pub fn page_cells(page: &Page, begins: Cell) -> [Cell; PAGE]
    ensures size { length result ≡ 64 }
    ensures cells { (at : ℕ) → at < 64 → slice_index_or result at begins ≡ unwrap_or (cell_in (entry_in page.now at)) begins }
{
    let mut cells = [begins; PAGE];
    for i in 0..PAGE {
        cells[i] = page[i].cell().unwrap_or(begins);
    }
    cells
}
