// The segments of a file.
ghost use Rattle.std.specs.Prelude.{◌≡◌, ◌%◌, ◌==◌, ◌&&◌, length, map, nat_lt, IfOk};
ghost use Rattle.std.specs.List.{All, list_any, sum_by};
ghost use Rattle.infinite_heap.specs.ElfSegments.{segments_of, has_instruction};
ghost use Rattle.infinite_heap.specs.Overlap.{by_address};
ghost use Rattle.infinite_heap.specs.Region.{most_segment_bytes};
ghost use Rattle.elf_load.specs.Headers.{segment_of, runs};
ghost use Rattle.elf_load.specs.Stages.{HasHeaders, HasSegments, IsLoad, AreLoads, Answers};

use crate::fields::u32_at;
use crate::header::{ProgramHeader, any_leaves_region, any_runs_at};
use crate::order::put_in_order;
use infinite_heap::{Bytes, ElfRefusal, MOST_SEGMENT_BYTES, Segment};
use std::alloc::{AllocError, Global};

fn is_too_large(headers: &[ProgramHeader]) -> bool
    ensures { result ≡ nat_lt most_segment_bytes (sum_by (λ h. h.len) headers.now) }
{
    let mut total = 0u64;
    for header in headers {
        total += u64::from(header.len);
        if total > u64::from(MOST_SEGMENT_BYTES) {
            return true;
        }
    }
    false
}

// Whether an instruction may stand at an address.
fn is_entered(headers: &[ProgramHeader], entry: u32) -> bool
    ensures { result ≡ ((entry % 4 == 0) && list_any (λ h. has_instruction entry h.from h.len (runs h)) headers.now) }
{
    entry % 4 == 0 && any_runs_at(headers, entry)
}

fn segment_of(alloc: Global, file: &[u8], header: ProgramHeader) -> Result<Segment, AllocError>
    requires { IsLoad file.now header }
    ensures { IfOk result (λ segment. segment ≡ segment_of file.now header) }
{
    let (_, behind) = file.split_at(header.offset as usize);
    let (bytes, _) = behind.split_at(header.held as usize);
    Ok(Segment {
        from: header.from,
        len: header.len,
        bytes: Bytes::new(Vec::from_slice(alloc, bytes)?),
        writable: header.flags / 2 % 2 == 1,
        runs: header.flags % 2 == 1,
    })
}

fn copy(alloc: Global, file: &[u8], headers: &[ProgramHeader]) -> Result<Vec<Segment>, AllocError>
    requires { All (IsLoad file.now) headers.now }
    ensures { IfOk result (λ segments. segments.items ≡ map (segment_of file.now) headers.now) }
{
    let mut segments = Vec::new(alloc);
    for header in headers {
        segments.push(segment_of(alloc, file, *header)?)?;
    }
    Ok(segments)
}

/// The segments that headers give, in the order of their addresses.
pub fn segments_in(
    alloc: Global,
    file: &[u8],
    mut headers: Vec<ProgramHeader>,
) -> Result<Vec<Segment>, ElfRefusal>
    requires rules { HasHeaders file.now }
    requires loads { AreLoads file.now headers.items }
    ensures { Answers file.now (λ segments. HasSegments file.now × (segments.items ≡ by_address (segments_of file.now))) result }
{
    if any_leaves_region(&headers) {
        return Err(ElfRefusal::Region);
    }
    let is_entered = is_entered(&headers, u32_at(file, 24));
    let is_large = is_too_large(&headers);
    match put_in_order(&mut headers) {
        Ok(true) => {}
        Ok(false) => return Err(ElfRefusal::Overlap),
        Err(_) => return Err(ElfRefusal::Memory),
    }
    if is_large {
        return Err(ElfRefusal::Total);
    }
    if !is_entered {
        return Err(ElfRefusal::Entry);
    }
    match copy(alloc, file, &headers) {
        Ok(segments) => Ok(segments),
        Err(_) => Err(ElfRefusal::Memory),
    }
}
