// The ranges that a mapping is kept in.
ghost use Rattle.std.specs.Prelude.{◌≡◌, ◌+◌, ◌%◌, ◌≤◌, ◌<◌, ◌^◌, length, take, drop, slice_index, EachIndex, IfOk};
ghost use Rattle.std.specs.Bool.{OnFalse};
ghost use Rattle.rv_memory.specs.Access.{new_byte};
ghost use Rattle.rv_memory.specs.Ranges.{IsPart, AreParts};

use crate::access::Rest;
use crate::range::{Range, lay, put};
use std::alloc::{AllocError, Global};

// Ranges other than the first code are cut at multiples of it.
pub(crate) const PART: u32 = 0x1_0000;

const PAGE: u32 = 4096;

/// A span that is to be mapped, what it holds behind its first bytes, and its flags.
#[derive(Clone, Copy)]
pub(crate) struct Mapping {
    pub(crate) from: u32,
    pub(crate) len: u32,
    pub(crate) rest: Rest,
    pub(crate) writable: bool,
    pub(crate) runs: bool,
}

// The ranges of a mapping, the last one first.
pub(crate) fn make_parts(
    alloc: Global,
    mapping: Mapping,
    first: &[u8],
) -> Result<Vec<Range>, AllocError>
    requires ends { mapping.from + mapping.len ≤ 2 ^ 32 }
    requires room { length first.now ≤ mapping.len }
    ensures { IfOk result (λ parts. AreParts mapping.from (mapping.from + mapping.len) (new_byte first.now mapping.rest mapping.from) mapping.writable mapping.runs parts.items) }
{
    let from = u64::from(mapping.from);
    let mut parts = Vec::new(alloc);
    let mut end = from + u64::from(mapping.len);
    while from < end {
        let begin = from.max((end - 1) / u64::from(PART) * u64::from(PART));
        let part = make_part(alloc, mapping, first, begin as u32, (end - begin) as u32)?;
        parts.push(part)?;
        end = begin;
    }
    Ok(parts)
}

// One of them.
pub(crate) fn make_part(
    alloc: Global,
    mapping: Mapping,
    first: &[u8],
    from: u32,
    len: u32,
) -> Result<Range, AllocError>
    requires begins { mapping.from ≤ from }
    requires some { 0 < len }
    requires inside { from + len ≤ mapping.from + mapping.len }
    requires ends { mapping.from + mapping.len ≤ 2 ^ 32 }
    ensures from { IfOk result (λ part. part.from ≡ from) }
    ensures len { IfOk result (λ part. part.len ≡ len) }
    ensures part { IfOk result (IsPart (new_byte first.now mapping.rest mapping.from) mapping.writable mapping.runs) }
{
    let bytes = if is_made_at_once(mapping, first, from, len) {
        let given = given_to(first, (from - mapping.from) as usize, len as usize);
        make_bytes(alloc, from, len, given, mapping.rest)?
    } else {
        Vec::new(alloc)
    };
    Ok(Range {
        from,
        len,
        bytes,
        rest: mapping.rest,
        writable: mapping.writable,
        runs: mapping.runs,
    })
}

// Whether some of a part's bytes are given, or a page of it is another range's too.
fn is_made_at_once(mapping: Mapping, first: &[u8], from: u32, len: u32) -> bool
    requires { mapping.from ≤ from }
    ensures { OnFalse result ((mapping.from + length first.now ≤ from) × (from % 4096 ≡ 0) × (len % 4096 ≡ 0)) }
{
    if ((from - mapping.from) as usize) < first.len() {
        return true;
    }
    from % PAGE != 0 || len % PAGE != 0
}

// The bytes of the given ones that a part has which begins at a place of them.
fn given_to(first: &[u8], done: usize, len: usize) -> &[u8]
    requires { done + len < 2 ^ 63 }
    ensures { result.now ≡ take len (drop done first.now) }
{
    let begin = done.min(first.len());
    let end = first.len().min(done + len);
    &first[begin..end]
}

// The bytes of a part.
fn make_bytes(
    alloc: Global,
    from: u32,
    len: u32,
    first: &[u8],
    rest: Rest,
) -> Result<Vec<u8>, AllocError>
    requires ends { from + len ≤ 2 ^ 32 }
    requires room { length first.now ≤ len }
    ensures len { IfOk result (λ bytes. length bytes.items ≡ len) }
    ensures each { IfOk result (λ bytes. EachIndex bytes.items (λ k. slice_index bytes.items k ≡ new_byte first.now rest from (from + k))) }
{
    let len = len as usize;
    let mut bytes = Vec::new(alloc);
    bytes.resize(len, 0)?;
    put(&mut bytes, 0, first);
    let behind = first.len();
    if behind < len {
        match rest {
            Rest::Zero => {}
            Rest::Canary(_) => lay(&mut bytes, behind, len - behind, from + behind as u32, rest),
        }
    }
    Ok(bytes)
}
