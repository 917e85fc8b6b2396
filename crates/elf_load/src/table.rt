// The tables of headers in a file.
ghost use Rattle.std.specs.Prelude.{◌≤◌, length, IfSome};
ghost use Rattle.infinite_heap.specs.ElfHeaders.{program_headers, section_headers, breaks_program_table, breaks_section_table};
ghost use Rattle.elf_load.specs.Symbols.{IsSections};
ghost use Rattle.elf_load.specs.Tables.{Finds};

use crate::fields::{u16_at, u32_at};

/// Rows of one size, one after the other, from a place of a file on.
#[derive(Clone, Copy, Debug)]
pub struct Table {
    pub from: usize,
    pub count: usize,
}

const NO_ROWS: Table = Table { from: 0, count: 0 };

/// The program headers; none where their table isn't within the file.
#[tactic(auto, unfolding(infinite_heap::specs::ElfHeaders::breaks_program_table, infinite_heap::specs::ElfHeaders::program_headers))]
pub fn program_table(file: &[u8]) -> Option<Table>
    requires { 52 ≤ length file.now }
    ensures { Finds file.now 32 (program_headers file.now) (breaks_program_table file.now) result }
{
    let count = usize::from(u16_at(file, 44));
    if count == 0 {
        return Some(NO_ROWS);
    }
    let from = u32_at(file, 28) as usize;
    if u16_at(file, 42) != 32 || from + 32 * count > file.len() {
        return None;
    }
    Some(Table { from, count })
}

/// The section headers, of which there may be none; `None` where their table isn't within the file.
#[tactic(auto, unfolding(infinite_heap::specs::ElfHeaders::breaks_section_table, infinite_heap::specs::ElfHeaders::section_headers))]
pub fn section_table(file: &[u8]) -> Option<Table>
    requires { 52 ≤ length file.now }
    ensures table { Finds file.now 40 (section_headers file.now) (breaks_section_table file.now) result }
    ensures place { IfSome result (IsSections file.now) }
{
    let from = u32_at(file, 32) as usize;
    let count = usize::from(u16_at(file, 48));
    if from == 0 {
        return Some(NO_ROWS);
    }
    if count == 0 {
        return Some(NO_ROWS);
    }
    if u16_at(file, 46) != 40 || from + 40 * count > file.len() {
        return None;
    }
    Some(Table { from, count })
}
