// The heap functions among the symbols of a file.
ghost use Rattle.std.specs.Prelude.{◌≡◌, ℕ, ◌+◌, ◌*◌, ◌≤◌, ◌==◌, nat_lt, List, length, map, IfOk};
ghost use Rattle.std.specs.List.{list_all, filter_map, before_first, position};
ghost use Rattle.infinite_heap.specs.ElfFields.{rows};
ghost use Rattle.infinite_heap.specs.ElfSymbols.{ends, name_ends, name_at, call_of, heap_name, by_address};
ghost use Rattle.elf_load.specs.Symbols.{name_of};

use crate::fields::u32_at;
use crate::symbols::{is_public, names_end};
use crate::table::Table;
use infinite_heap::{HeapCall, HeapName};
use std::alloc::{AllocError, Global};
use std::collections::BTreeMap;

// One more byte than the longest name of a heap function.
const LOOKED_AT: usize = 14;

// Whether a symbol's name ends before a place; names that matter are those of public symbols.
fn name_ends(file: &[u8], at: usize, end: usize) -> bool
    requires { at + 16 ≤ length file.now }
    ensures { (strings : List ℕ) → ((start : ℕ) → ends strings start ≡ nat_lt start end) → result ≡ name_ends file.now strings at }
{
    !is_public(file, at) || (u32_at(file, at) as usize) < end
}

/// Whether the name of each public symbol ends with a zero byte.
pub fn all_end(file: &[u8], symbols: Table, strings: &[u8]) -> bool
    requires { symbols.from + 16 * symbols.count ≤ length file.now }
    ensures { result ≡ list_all (name_ends file.now strings.now) (rows symbols.from 16 symbols.count) }
{
    let end = names_end(strings);
    let mut at = symbols.from;
    for _ in 0..symbols.count {
        if !name_ends(file, at, end) {
            return false;
        }
        at += 16;
    }
    true
}

#[tactic(auto, unfolding(infinite_heap::specs::ElfSymbols::call_of))]
fn call_of(name: &[u8]) -> Option<HeapCall>
    ensures { result ≡ call_of name.now }
{
    if name == b"malloc".as_slice() {
        Some(HeapCall::Malloc)
    } else if name == b"free".as_slice() {
        Some(HeapCall::Free)
    } else if name == b"calloc".as_slice() {
        Some(HeapCall::Calloc)
    } else if name == b"realloc".as_slice() {
        Some(HeapCall::Realloc)
    } else if name == b"memalign".as_slice() {
        Some(HeapCall::Memalign)
    } else if name == b"aligned_alloc".as_slice() {
        Some(HeapCall::AlignedAlloc)
    } else if name == b"_malloc_r".as_slice() {
        Some(HeapCall::MallocR)
    } else if name == b"_free_r".as_slice() {
        Some(HeapCall::FreeR)
    } else if name == b"_calloc_r".as_slice() {
        Some(HeapCall::CallocR)
    } else if name == b"_realloc_r".as_slice() {
        Some(HeapCall::ReallocR)
    } else if name == b"_memalign_r".as_slice() {
        Some(HeapCall::MemalignR)
    } else {
        None
    }
}

fn zero_at(bytes: &[u8]) -> Option<usize>
    ensures { result ≡ position (λ b. b == 0) bytes.now }
{
    bytes.iter().position(|b| *b == 0)
}

// The bytes before the first zero byte.
fn text_of(bytes: &[u8]) -> &[u8]
    ensures { result.now ≡ before_first (λ b. b == 0) bytes.now }
{
    match zero_at(bytes) {
        Some(end) => &bytes[..end],
        None => bytes,
    }
}

// The heap function that a name stands for; no more of it is looked at than tells.
fn call_at(strings: &[u8], start: usize) -> Option<HeapCall>
    ensures { result ≡ call_of (name_at strings.now start) }
{
    let (_, behind) = strings.split_at(start.min(strings.len()));
    let (first, _) = behind.split_at(LOOKED_AT.min(behind.len()));
    call_of(text_of(first))
}

// The heap function that a symbol names.
fn heap_name(file: &[u8], strings: &[u8], at: usize) -> Option<HeapName>
    requires { at + 16 ≤ length file.now }
    ensures { result ≡ heap_name file.now strings.now at }
{
    if !is_public(file, at) {
        return None;
    }
    match call_at(strings, u32_at(file, at) as usize) {
        Some(call) => Some(HeapName {
            at: u32_at(file, at + 4),
            call,
        }),
        None => None,
    }
}

fn listed(alloc: Global, calls: &BTreeMap<u32, HeapCall>) -> Result<Vec<HeapName>, AllocError>
    ensures { IfOk result (λ names. names.items ≡ map name_of calls.now.entries) }
{
    calls
        .iter()
        .map(|(at, call)| HeapName {
            at: *at,
            call: *call,
        })
        .collect(alloc)
}

/// The heap functions by address; of two at one address the first counts.
pub fn heap_names(
    alloc: Global,
    file: &[u8],
    symbols: Table,
    strings: &[u8],
) -> Result<Vec<HeapName>, AllocError>
    requires { symbols.from + 16 * symbols.count ≤ length file.now }
    ensures { IfOk result (λ names. names.items ≡ by_address (filter_map (heap_name file.now strings.now) (rows symbols.from 16 symbols.count))) }
{
    let mut calls = BTreeMap::new(alloc);
    let mut left = symbols.count;
    while left > 0 {
        left -= 1;
        if let Some(name) = heap_name(file, strings, symbols.from + 16 * left) {
            calls.insert(name.at, name.call)?;
        }
    }
    listed(alloc, &calls)
}
