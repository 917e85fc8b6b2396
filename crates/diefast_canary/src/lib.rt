//! The canary: what unowned heap memory holds, how it is written, and where it is broken.
//!
//! The canary of a word is periodic: the byte at an address is byte `address mod 4` of the word,
//! the lowest byte first (docs/canary.md). A run of bytes comes with its phase, the address of its
//! first byte, which counts modulo 4, so that any address will do.
#![tactic(auto)]

ghost use Rattle.std.specs.Prelude.{◌≡◌, ℕ, ◌+◌, ◌%◌, ◌<◌, ◌≤◌, ◌↔◌, length, slice_index, EachIndex, IsNone, IfNone, IfSome, IfOk, OnOk};
ghost use Rattle.std.specs.Bool.{OnFalse};
ghost use Rattle.diefast_canary.specs.Canary.{canary_byte, canary_bytes, broken_places, broken_before, first_broken, IsIntact, IsFirstBroken, IsIntactTo};

use std::alloc::{AllocError, Global};
use std::simd::prelude::*;

// How many bytes a vector has.
const LANES: usize = 32;

// How many bytes one test compares, four vectors.
const BLOCK: usize = 128;

// How many bytes are filled by vectors. Copies of them fill what a longer run has behind them.
const HEAD: usize = 512;

/// Writes the canary of `word` into all of `bytes`, the first of which has the address `phase`,
/// modulo 4.
#[inline(always)]
pub fn fill(bytes: &mut [u8], word: u32, phase: u32)
    ensures whole { bytes.new ≡ canary_bytes word phase (length bytes.old) }
    ensures each { EachIndex bytes.new (λ k. slice_index bytes.new k ≡ canary_byte word (phase + k)) }
{
    let at = fill_lanes(bytes, word, phase);
    if at == HEAD {
        repeat_head(bytes);
        return;
    }
    let at = fill_words(bytes, word, phase, at);
    fill_bytes(bytes, word, phase, at);
}

/// The least place of a byte that isn't the canary's of `word`, where the first byte has the address
/// `phase`, modulo 4.
pub fn first_break(bytes: &[u8], word: u32, phase: u32) -> Option<usize>
    ensures first { result ≡ first_broken word phase bytes.now }
    ensures none { IsNone result ↔ IsIntact word phase bytes.now }
    ensures intact { IfNone result (EachIndex bytes.now (λ k. slice_index bytes.now k ≡ canary_byte word (phase + k))) }
    ensures least { IfSome result (IsFirstBroken word phase bytes.now) }
{
    let lanes = lanes(word, phase);
    let at = intact_blocks(bytes, word, phase, lanes);
    let at = intact_lanes(bytes, word, phase, lanes, at);
    let at = intact_words(bytes, word, phase, at);
    for i in at..bytes.len() {
        let byte = bytes[i];
        if byte != expected(word, phase, i) {
            return Some(i);
        }
    }
    None
}

/// All places of bytes that aren't the canary's of `word`, from the least to the greatest, where the
/// first byte has the address `phase`, modulo 4.
pub fn breaks(alloc: Global, bytes: &[u8], word: u32, phase: u32) -> Result<Vec<usize>, AllocError>
    ensures { IfOk result (λ places. places.items ≡ broken_places word phase bytes.now) }
{
    let lanes = lanes(word, phase);
    let mut places = Vec::new(alloc);
    let mut at = 0;
    while at + LANES <= bytes.len() {
        list_vector(&mut places, bytes, word, phase, at, lanes)?;
        at += LANES;
    }
    list_breaks(&mut places, bytes, word, phase, at, bytes.len())?;
    Ok(places)
}

// Fills 32 bytes at a time, two such vectors in a turn and no more than the head, and says up to where.
#[inline(always)]
fn fill_lanes(bytes: &mut [u8], word: u32, phase: u32) -> usize
    ensures end { result ≤ length bytes.new }
    ensures period { result % 4 ≡ 0 }
    ensures len { length bytes.new ≡ length bytes.old }
    ensures filled { IsIntactTo word phase bytes.new result }
{
    let lanes = lanes(word, phase);
    let mut at = 0;
    while at < HEAD && at + 2 * LANES <= bytes.len() {
        lanes.copy_to_slice(&mut bytes[at..]);
        lanes.copy_to_slice(&mut bytes[at + LANES..]);
        at += 2 * LANES;
    }
    at
}

// Repeats the head behind itself up to the end. What is filled doubles with each copy.
#[inline(never)]
fn repeat_head(bytes: &mut [u8])
    requires head { 512 ≤ length bytes.old }
    ensures len { length bytes.new ≡ length bytes.old }
    ensures repeated { (k : ℕ) → k < length bytes.new → slice_index bytes.new k ≡ slice_index bytes.old (k % 512) }
{
    let mut at = HEAD;
    while at < bytes.len() {
        let count = at.min(bytes.len() - at);
        copy_front(bytes, at, count);
        at += count;
    }
}

// Copies so many bytes from the front to a place behind them.
#[inline(always)]
fn copy_front(bytes: &mut [u8], to: usize, count: usize)
    requires behind { count ≤ to }
    requires within { to + count ≤ length bytes.old }
    ensures len { length bytes.new ≡ length bytes.old }
    ensures kept { (k : ℕ) → k < to → slice_index bytes.new k ≡ slice_index bytes.old k }
    ensures copied { (k : ℕ) → k < count → slice_index bytes.new (to + k) ≡ slice_index bytes.old k }
{
    let (front, back) = bytes.split_at_mut(to);
    back[..count].copy_from_slice(&front[..count]);
}

// Goes on with 8 bytes at a time.
#[inline(always)]
fn fill_words(bytes: &mut [u8], word: u32, phase: u32, from: usize) -> usize
    requires start { from ≤ length bytes.old }
    requires period { from % 4 ≡ 0 }
    requires filled { IsIntactTo word phase bytes.old from }
    ensures end { result ≤ length bytes.new }
    ensures len { length bytes.new ≡ length bytes.old }
    ensures filled { IsIntactTo word phase bytes.new result }
{
    let pair = word_pair(word, phase);
    let mut at = from;
    while at + 8 <= bytes.len() {
        pair.copy_to_slice(&mut bytes[at..]);
        at += 8;
    }
    at
}

// Fills the rest.
#[inline(always)]
fn fill_bytes(bytes: &mut [u8], word: u32, phase: u32, from: usize)
    requires start { from ≤ length bytes.old }
    requires filled { IsIntactTo word phase bytes.old from }
    ensures len { length bytes.new ≡ length bytes.old }
    ensures filled { IsIntactTo word phase bytes.new (length bytes.new) }
{
    for i in from..bytes.len() {
        bytes[i] = expected(word, phase, i);
    }
}

// Up to where blocks are intact.
#[inline(always)]
fn intact_blocks(bytes: &[u8], word: u32, phase: u32, lanes: u8x32) -> usize
    requires len { length lanes ≡ 32 }
    requires intact { IsIntactTo word phase lanes 32 }
    ensures end { result ≤ length bytes.now }
    ensures period { result % 4 ≡ 0 }
    ensures intact { IsIntactTo word phase bytes.now result }
{
    let mut at = 0;
    while at + BLOCK <= bytes.len() {
        if block_differs(bytes, at, lanes) {
            return at;
        }
        at += BLOCK;
    }
    at
}

// Goes on with vectors.
#[inline(always)]
fn intact_lanes(bytes: &[u8], word: u32, phase: u32, lanes: u8x32, from: usize) -> usize
    requires len { length lanes ≡ 32 }
    requires lanes { IsIntactTo word phase lanes 32 }
    requires start { from ≤ length bytes.now }
    requires period { from % 4 ≡ 0 }
    requires intact { IsIntactTo word phase bytes.now from }
    ensures end { result ≤ length bytes.now }
    ensures period { result % 4 ≡ 0 }
    ensures intact { IsIntactTo word phase bytes.now result }
{
    let mut at = from;
    while at + LANES <= bytes.len() {
        if differs(bytes, at, lanes) {
            return at;
        }
        at += LANES;
    }
    at
}

// Lists the breaks of 32 bytes behind those of what comes before them.
#[inline(always)]
fn list_vector(
    places: &mut Vec<usize>,
    bytes: &[u8],
    word: u32,
    phase: u32,
    at: usize,
    lanes: u8x32,
) -> Result<(), AllocError>
    requires within { at + 32 ≤ length bytes.now }
    requires period { at % 4 ≡ 0 }
    requires len { length lanes ≡ 32 }
    requires intact { IsIntactTo word phase lanes 32 }
    requires before { places.old.items ≡ broken_before word phase bytes.now at }
    ensures { OnOk result (places.new.items ≡ broken_before word phase bytes.now (at + 32)) }
{
    if !differs(bytes, at, lanes) {
        return Ok(());
    }
    list_breaks(places, bytes, word, phase, at, at + LANES)
}

// Lists the breaks of a part behind those of what comes before it.
fn list_breaks(
    places: &mut Vec<usize>,
    bytes: &[u8],
    word: u32,
    phase: u32,
    from: usize,
    to: usize,
) -> Result<(), AllocError>
    requires order { from ≤ to }
    requires within { to ≤ length bytes.now }
    requires before { places.old.items ≡ broken_before word phase bytes.now from }
    ensures { OnOk result (places.new.items ≡ broken_before word phase bytes.now to) }
{
    for place in from..to {
        let byte = bytes[place];
        if byte != expected(word, phase, place) {
            places.push(place)?;
        }
    }
    Ok(())
}

// Whether one byte of a block isn't that of the lanes.
#[inline(always)]
fn block_differs(bytes: &[u8], at: usize, lanes: u8x32) -> bool
    requires room { at + 128 ≤ length bytes.now }
    requires len { length lanes ≡ 32 }
    ensures { OnFalse result ((k : ℕ) → k < 128 → slice_index bytes.now (at + k) ≡ slice_index lanes (k % 32)) }
{
    let first = u8x32::from_slice(&bytes[at..]).simd_ne(lanes);
    let second = u8x32::from_slice(&bytes[at + LANES..]).simd_ne(lanes);
    let third = u8x32::from_slice(&bytes[at + 2 * LANES..]).simd_ne(lanes);
    let fourth = u8x32::from_slice(&bytes[at + 3 * LANES..]).simd_ne(lanes);
    ((first | second) | (third | fourth)).to_bitmask() != 0
}

// Whether one of 32 bytes isn't that of the lanes.
#[inline(always)]
fn differs(bytes: &[u8], at: usize, lanes: u8x32) -> bool
    requires { at + 32 ≤ length bytes.now }
    ensures { OnFalse result ((k : ℕ) → k < 32 → slice_index bytes.now (at + k) ≡ slice_index lanes k) }
{
    u8x32::from_slice(&bytes[at..]).simd_ne(lanes).to_bitmask() != 0
}

// Goes on with 8 bytes at a time.
#[inline(always)]
fn intact_words(bytes: &[u8], word: u32, phase: u32, from: usize) -> usize
    requires start { from ≤ length bytes.now }
    requires period { from % 4 ≡ 0 }
    requires intact { IsIntactTo word phase bytes.now from }
    ensures end { result ≤ length bytes.now }
    ensures intact { IsIntactTo word phase bytes.now result }
{
    let pair = word_pair(word, phase);
    let mut at = from;
    while at + 8 <= bytes.len() {
        if pair_differs(bytes, at, pair) {
            return at;
        }
        at += 8;
    }
    at
}

// Whether one of 8 bytes isn't that of the pair.
#[inline(always)]
fn pair_differs(bytes: &[u8], at: usize, pair: u8x8) -> bool
    requires { at + 8 ≤ length bytes.now }
    ensures { OnFalse result ((k : ℕ) → k < 8 → slice_index bytes.now (at + k) ≡ slice_index pair k) }
{
    u8x8::from_slice(&bytes[at..]).simd_ne(pair).to_bitmask() != 0
}

// The canary of 32 bytes, the first of which has the address `phase`.
#[inline(always)]
fn lanes(word: u32, phase: u32) -> u8x32
    ensures len { length result ≡ 32 }
    ensures intact { IsIntactTo word phase result 32 }
{
    u32x8::splat(turned(word, phase)).to_le_bytes()
}

// The same of 8 bytes.
#[inline(always)]
fn word_pair(word: u32, phase: u32) -> u8x8
    ensures len { length result ≡ 8 }
    ensures intact { IsIntactTo word phase result 8 }
{
    u32x2::splat(turned(word, phase)).to_le_bytes()
}

// The word whose lowest byte is the canary's at `phase`.
#[inline(always)]
fn turned(word: u32, phase: u32) -> u32
    ensures { (k : ℕ) → canary_byte result k ≡ canary_byte word (phase + k) }
{
    word.rotate_right(phase % 4 * 8)
}

// The canary's byte at a place, where the first byte has the address `phase`.
#[inline(always)]
fn expected(word: u32, phase: u32, place: usize) -> u8
    ensures { result ≡ canary_byte word (phase + place) }
{
    word.to_le_bytes()[(phase as usize % 4 + place % 4) % 4]
}

#[cfg(test)]
mod tests;
