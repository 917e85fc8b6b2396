// A file as a program.
ghost use Rattle.std.specs.Prelude.{◌≡◌, ◌≤◌, length, false};
ghost use Rattle.infinite_heap.specs.ElfHeaders.{program_headers, section_headers, breaks_program_table, breaks_section_table, has_magic, has_class, has_kind, has_machine, has_flags};
ghost use Rattle.infinite_heap.specs.ElfSymbols.{breaks_symbols, names_of};
ghost use Rattle.infinite_heap.specs.Elf.{Loads};
ghost use Rattle.elf_load.specs.Tables.{IsTable};
ghost use Rattle.elf_load.specs.Symbols.{IsSections};
ghost use Rattle.elf_load.specs.Stages.{HasHead, HasHeaders, HasSegments, AreLoads, Answers};

use crate::fields::{u16_at, u32_at};
use crate::header::{ProgramHeader, any_breaks, any_links, headers_in, keep_loads};
use crate::names::{all_end, heap_names};
use crate::segments::segments_in;
use crate::symbols::{find_symbols, is_linked, strings_of, symbols_of};
use crate::table::{Table, program_table, section_table};
use crate::tag::tag_of;
use infinite_heap::{ElfRefusal, HeapName, HeapNames, Program, Segments};
use std::alloc::Global;

const HEADER_BYTES: usize = 52;

const EXECUTABLE: u16 = 2;

const RISC_V: u16 = 243;

#[tactic(auto, unfolding(infinite_heap::specs::ElfHeaders::has_magic))]
fn has_magic(file: &[u8]) -> bool
    requires { 52 ≤ length file.now }
    ensures { result ≡ has_magic file.now }
{
    file[0] == 0x7f && file[1] == b'E' && file[2] == b'L' && file[3] == b'F'
}

#[tactic(auto, unfolding(infinite_heap::specs::ElfHeaders::has_class))]
fn has_class(file: &[u8]) -> bool
    requires { 52 ≤ length file.now }
    ensures { result ≡ has_class file.now }
{
    file[4] == 1 && file[5] == 1 && file[6] == 1
}

#[tactic(auto, unfolding(infinite_heap::specs::ElfHeaders::has_kind))]
fn has_kind(file: &[u8]) -> bool
    requires { 52 ≤ length file.now }
    ensures { result ≡ has_kind file.now }
{
    u16_at(file, 16) == EXECUTABLE
}

#[tactic(auto, unfolding(infinite_heap::specs::ElfHeaders::has_machine))]
fn has_machine(file: &[u8]) -> bool
    requires { 52 ≤ length file.now }
    ensures { result ≡ has_machine file.now }
{
    u16_at(file, 18) == RISC_V
}

#[tactic(auto, unfolding(infinite_heap::specs::ElfHeaders::has_flags))]
fn has_flags(file: &[u8]) -> bool
    requires { 52 ≤ length file.now }
    ensures { result ≡ has_flags file.now }
{
    u32_at(file, 36) % 16 == 0
}

fn check_head(file: &[u8]) -> Result<(), ElfRefusal>
    ensures { Answers file.now (λ done. HasHead file.now) result }
{
    if file.len() < HEADER_BYTES {
        return Err(ElfRefusal::Short);
    }
    if !has_magic(file) {
        return Err(ElfRefusal::Magic);
    }
    if !has_class(file) {
        return Err(ElfRefusal::Class);
    }
    if !has_kind(file) {
        return Err(ElfRefusal::Kind);
    }
    if !has_machine(file) {
        return Err(ElfRefusal::Machine);
    }
    if !has_flags(file) {
        return Err(ElfRefusal::Flags);
    }
    Ok(())
}

// The headers that give segments.
fn loads_in(alloc: Global, file: &[u8], table: Table) -> Result<Vec<ProgramHeader>, ElfRefusal>
    requires head { HasHead file.now }
    requires programs { breaks_program_table file.now ≡ false }
    requires sections { breaks_section_table file.now ≡ false }
    requires table { IsTable file.now 32 (program_headers file.now) table }
    ensures { Answers file.now (λ headers. HasHeaders file.now × AreLoads file.now headers.items) result }
{
    let mut headers = match headers_in(alloc, file, table) {
        Ok(headers) => headers,
        Err(_) => return Err(ElfRefusal::Memory),
    };
    if any_breaks(&headers, file.len()) {
        return Err(ElfRefusal::Headers);
    }
    if any_links(&headers) {
        return Err(ElfRefusal::Dynamic);
    }
    keep_loads(&mut headers);
    Ok(headers)
}

// The heap functions.
fn names_in(alloc: Global, file: &[u8], sections: Table) -> Result<Vec<HeapName>, ElfRefusal>
    requires rules { HasSegments file.now }
    requires table { IsTable file.now 40 (section_headers file.now) sections }
    requires place { IsSections file.now sections }
    ensures { Answers file.now (λ names. (breaks_symbols file.now ≡ false) × (names.items ≡ names_of file.now)) result }
{
    let table = match find_symbols(file, sections) {
        Some(table) => table,
        None => return Ok(Vec::new(alloc)),
    };
    if !is_linked(file, sections, table) {
        return Err(ElfRefusal::Symbols);
    }
    let symbols = symbols_of(file, sections, table);
    let strings = strings_of(file, sections, table);
    if !all_end(file, symbols, strings) {
        return Err(ElfRefusal::Symbols);
    }
    match heap_names(alloc, file, symbols, strings) {
        Ok(names) => Ok(names),
        Err(_) => Err(ElfRefusal::Memory),
    }
}

/// The program of an ELF file, by the rules of docs/elf.md. A refusal is the first rule, in the order of
/// that page, which the file breaks; `Memory` is want of memory, and says nothing of the file.
///
/// It takes time as n log n in the bytes of the file, and memory as a small multiple of them.
pub fn load(alloc: Global, file: &[u8]) -> Result<Program, ElfRefusal>
    ensures { Loads file.now result }
{
    check_head(file)?;
    let programs = match program_table(file) {
        Some(table) => table,
        None => return Err(ElfRefusal::Headers),
    };
    let sections = match section_table(file) {
        Some(table) => table,
        None => return Err(ElfRefusal::Headers),
    };
    let headers = loads_in(alloc, file, programs)?;
    let segments = segments_in(alloc, file, headers)?;
    let names = names_in(alloc, file, sections)?;
    Ok(Program {
        segments: Segments::new(segments),
        entry: u32_at(file, 24),
        names: HeapNames::new(names),
        tag: tag_of(file),
    })
}
