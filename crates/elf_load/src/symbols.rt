// The symbol table of a file, and the bytes of its names.
ghost use Rattle.std.specs.Prelude.{◌≡◌, ℕ, ◌+◌, ◌*◌, ◌/◌, ◌<◌, ◌≤◌, ◌==◌, true, length, nat_lt, IfSome};
ghost use Rattle.std.specs.List.{find};
ghost use Rattle.infinite_heap.specs.ElfFields.{rows, sh_type, sh_offset, sh_size};
ghost use Rattle.infinite_heap.specs.ElfHeaders.{passes_end};
ghost use Rattle.infinite_heap.specs.ElfSymbols.{is_linked, strings_of, symbols_of, is_public, ends};
ghost use Rattle.elf_load.specs.Symbols.{IsSections, IsSection};

use crate::fields::{u16_at, u32_at};
use crate::table::Table;

const SYMBOL_TABLE: u32 = 2;

/// The place of the first section header of a symbol table.
pub fn find_symbols(file: &[u8], sections: Table) -> Option<usize>
    requires { sections.from + 40 * sections.count ≤ length file.now }
    ensures first { result ≡ find (λ at. sh_type file.now at == 2) (rows sections.from 40 sections.count) }
    ensures place { IfSome result (IsSection file.now sections) }
{
    let mut at = sections.from;
    for _ in 0..sections.count {
        if u32_at(file, at + 4) == SYMBOL_TABLE {
            return Some(at);
        }
        at += 40;
    }
    None
}

// Whether the bytes of a section pass the end of the file.
fn passes_end(file: &[u8], at: usize) -> bool
    requires { at + 40 ≤ length file.now }
    ensures { result ≡ passes_end file.now (sh_offset file.now at) (sh_size file.now at) }
{
    u32_at(file, at + 16) as usize + u32_at(file, at + 20) as usize > file.len()
}

/// Whether the section header at a place says where symbols and the bytes of their names are.
#[tactic(auto, unfolding(infinite_heap::specs::ElfSymbols::is_linked))]
pub fn is_linked(file: &[u8], sections: Table, at: usize) -> bool
    requires sections { IsSections file.now sections }
    requires section { IsSection file.now sections at }
    ensures { result ≡ is_linked file.now at }
{
    if u32_at(file, at + 36) != 16 || u32_at(file, at + 20) % 16 != 0 || passes_end(file, at) {
        return false;
    }
    let link = u32_at(file, at + 24) as usize;
    link < sections.count && !passes_end(file, sections.from + 40 * link)
}

/// The symbols of such a section.
pub fn symbols_of(file: &[u8], sections: Table, at: usize) -> Table
    requires section { IsSection file.now sections at }
    requires linked { is_linked file.now at ≡ true }
    ensures places { rows result.from 16 result.count ≡ symbols_of file.now at }
    ensures inside { result.from + 16 * result.count ≤ length file.now }
{
    Table {
        from: u32_at(file, at + 16) as usize,
        count: (u32_at(file, at + 20) / 16) as usize,
    }
}

/// The bytes of their names.
pub fn strings_of(file: &[u8], sections: Table, at: usize) -> &[u8]
    requires sections { IsSections file.now sections }
    requires section { IsSection file.now sections at }
    requires linked { is_linked file.now at ≡ true }
    ensures { result.now ≡ strings_of file.now at }
{
    let linked = sections.from + 40 * u32_at(file, at + 24) as usize;
    let (_, behind) = file.split_at(u32_at(file, linked + 16) as usize);
    let (strings, _) = behind.split_at(u32_at(file, linked + 20) as usize);
    strings
}

/// Whether the symbol at a place is defined, and global or weak.
pub fn is_public(file: &[u8], at: usize) -> bool
    requires { at + 16 ≤ length file.now }
    ensures { result ≡ is_public file.now at }
{
    let binding = file[at + 12] / 16;
    u16_at(file, at + 14) != 0 && (binding == 1 || binding == 2)
}

/// The place behind the last zero byte, before which every name ends with one; 0 where there is none.
pub fn names_end(strings: &[u8]) -> usize
    ensures { (start : ℕ) → ends strings.now start ≡ nat_lt start result }
{
    let mut end = strings.len();
    while end > 0 {
        if strings[end - 1] == 0 {
            return end;
        }
        end -= 1;
    }
    0
}
