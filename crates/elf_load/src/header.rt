// Program headers.
ghost use Rattle.std.specs.Prelude.{◌≡◌, ℕ, ◌+◌, ◌*◌, ◌<◌, ◌≤◌, length, map, IfOk};
ghost use Rattle.std.specs.List.{list_any, filter};
ghost use Rattle.infinite_heap.specs.ElfFields.{rows};
ghost use Rattle.infinite_heap.specs.ElfSegments.{leaves_region, has_instruction};
ghost use Rattle.elf_load.specs.Headers.{header_at, breaks, links, loads, runs};

use crate::fields::u32_at;
use crate::table::Table;
use infinite_heap::{LOWEST_ADDRESS, REGION_FROM};
use std::alloc::{AllocError, Global};

const LOAD: u32 = 1;

const DYNAMIC: u32 = 2;

const INTERPRETER: u32 = 3;

/// The fields of a program header that loading reads.
#[derive(Clone, Copy, Debug, Drop)]
pub struct ProgramHeader {
    pub kind: u32,
    pub offset: u32,
    pub from: u32,
    pub held: u32,
    pub len: u32,
    pub flags: u32,
}

#[tactic(auto, unfolding(crate::specs::Headers::header_at))]
fn header_at(file: &[u8], at: usize) -> ProgramHeader
    requires { at + 32 ≤ length file.now }
    ensures { result ≡ header_at file.now at }
{
    ProgramHeader {
        kind: u32_at(file, at),
        offset: u32_at(file, at + 4),
        from: u32_at(file, at + 8),
        held: u32_at(file, at + 16),
        len: u32_at(file, at + 20),
        flags: u32_at(file, at + 24),
    }
}

/// The rows of a table of program headers.
pub fn headers_in(
    alloc: Global,
    file: &[u8],
    table: Table,
) -> Result<Vec<ProgramHeader>, AllocError>
    requires { table.from + 32 * table.count ≤ length file.now }
    ensures { IfOk result (λ headers. headers.items ≡ map (header_at file.now) (rows table.from 32 table.count)) }
{
    let mut headers = Vec::new(alloc);
    let mut at = table.from;
    for _ in 0..table.count {
        headers.push(header_at(file, at))?;
        at += 32;
    }
    Ok(headers)
}

/// Whether a loadable header has more bytes in the file than in memory, or bytes past the file's end.
pub fn any_breaks(headers: &[ProgramHeader], end: usize) -> bool
    ensures { result ≡ list_any (breaks end) headers.now }
{
    headers.iter().any(|h| {
        h.kind == LOAD && (h.held > h.len || h.offset as usize + h.held as usize > end)
    })
}

/// Whether a header asks for a dynamic linker or an interpreter.
pub fn any_links(headers: &[ProgramHeader]) -> bool
    ensures { result ≡ list_any links headers.now }
{
    headers
        .iter()
        .any(|h| h.kind == DYNAMIC || h.kind == INTERPRETER)
}

/// Keeps the headers that give a segment.
pub fn keep_loads(headers: &mut Vec<ProgramHeader>)
    ensures { headers.new.items ≡ filter loads headers.old.items }
{
    headers.retain(|h| h.kind == LOAD && h.len != 0);
}

/// Whether a segment has an address that programs may not use.
pub fn any_leaves_region(headers: &[ProgramHeader]) -> bool
    ensures { result ≡ list_any (λ h. leaves_region h.from h.len) headers.now }
{
    headers.iter().any(|h| h.from < LOWEST_ADDRESS
        || u64::from(h.from) + u64::from(h.len) > u64::from(REGION_FROM))
}

/// Whether the four bytes from an address on lie in a segment that runs.
pub fn any_runs_at(headers: &[ProgramHeader], at: u32) -> bool
    ensures { result ≡ list_any (λ h. has_instruction at h.from h.len (runs h)) headers.now }
{
    headers.iter().any(|h| {
        h.flags % 2 == 1
            && h.from <= at
            && u64::from(at) + 4 <= u64::from(h.from) + u64::from(h.len)
    })
}
