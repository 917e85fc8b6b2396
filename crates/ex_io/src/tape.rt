// The input, kept for its readers.
ghost use Rattle.std.specs.Prelude.{◌≡◌, ◌≢◌, ◌+◌, ◌-◌, ◌^◌, ◌<◌, ◌≤◌, true, false, Ok, Some, max, take, drop, length, IfOk, IfSome, OnOk};
ghost use Rattle.std.specs.Io.KnownBytes.{Consumes, prepend_known};
ghost use Rattle.std.specs.Result.{is_err};
ghost use Rattle.ex_io.specs.Tape.{CountsTape, FillsUpTo, HasAnswered, InputStays, Limits, LimitsPart, TakesAtMost, begins, input, most_kept, new_tape, part};

use crate::traits::Source;
use std::alloc::{AllocError, Global};
use std::marker::Model;
use thiserror::Error;

/// Why a tape refuses.
#[derive(Clone, Copy, Debug, PartialEq, Eq, Error)]
pub enum TapeFault {
    /// The source failed: its count of faults rose in this call.
    #[error("the source failed")]
    Source,
    /// The input is longer than the 67,108,864 bytes that are kept.
    #[error("the input is too long to be kept")]
    Limit,
    /// Memory is wanting.
    #[error("memory is wanting")]
    Memory,
}

/// The input of a source, for one reader who reads on from where it ended, or, where it keeps, for
/// several who each have a place of their own. Places are counted from 0 at the input's start.
///
/// The input is what the tape keeps, followed by what the source has left.
#[derive(Drop)]
pub struct Tape {
    bytes: Vec<u8>,
    high: u128,
    keep: bool,
    refused: bool,
}

impl Model for Tape {
    ghost use Rattle.std.specs.Prelude.{vec_len};
    ghost use Rattle.ex_io.specs.Tape.{HasAnswered, Track};

    ghost Value = { Track };

    ghost view = { λ t. record { kept = t.bytes.items; high = t.high; keep = t.keep; refused = t.refused } };

    ghost invariant = { λ t. HasAnswered (vec_len t.bytes) t.high t.keep t.refused };
}

const MOST_KEPT: usize = 67_108_864;

const PIECE: usize = 4096;

// Takes bytes until there are so many, or the input ends. It takes none past that.
fn take_up_to<S: Source>(
    bytes: &mut Vec<u8>,
    source: &mut S,
    wanted: usize,
) -> Result<(), TapeFault>
    ensures taken { FillsUpTo bytes.old.items bytes.new.items (S.left source.old) (S.left source.new) wanted result }
    ensures cause { CountsTape (S.faults source.old) (S.faults source.new) result }
    ensures limit { result ≢ Err TapeFault.Limit }
{
    let mut piece = [0u8; PIECE];
    while bytes.len() < wanted {
        let most = PIECE.min(wanted - bytes.len());
        match source.fill(&mut piece[..most]) {
            Err(_) => return Err(TapeFault::Source),
            Ok(0) => return Ok(()),
            Ok(count) => {
                let Ok(()) = bytes.extend_from_slice(&piece[..count]) else {
                    return Err(TapeFault::Memory);
                };
            }
        }
    }
    Ok(())
}

// At most `len` bytes from a place on.
fn part_of(alloc: Global, bytes: &[u8], from: usize, len: usize) -> Result<Vec<u8>, AllocError>
    requires { from ≤ length bytes.now }
    ensures { IfOk result (λ part. part.items ≡ take len (drop from bytes.now)) }
{
    let (_, rest) = bytes.split_at(from);
    let (front, _) = rest.split_at(rest.len().min(len));
    Vec::from_slice(alloc, front)
}

// The part of an input that is kept, for which the bytes that are wanting are taken. It is refused
// where more than `MOST_KEPT` bytes would be kept for it.
fn kept_part<S: Source>(
    alloc: Global,
    bytes: &mut Vec<u8>,
    source: &mut S,
    from: usize,
    len: usize,
) -> Result<Vec<u8>, TapeFault>
    requires begun { from ≤ length bytes.old.items }
    requires kept { length bytes.old.items ≤ most_kept }
    requires fits { len < 2 ^ 32 }
    ensures part { IfOk result (λ part. IfSome (prepend_known bytes.old.items (S.left source.old)) (λ all. part.items ≡ take len (drop from all))) }
    ensures short { IfOk result (λ part. length part.items ≤ len) }
    ensures stays { OnOk result (IfSome (prepend_known bytes.old.items (S.left source.old)) (λ all. prepend_known bytes.new.items (S.left source.new) ≡ Some all)) }
    ensures count { IfOk result (λ part. length bytes.new.items ≡ max (length bytes.old.items) (from + length part.items)) }
    ensures most { OnOk result (length bytes.new.items ≤ most_kept) }
    ensures takes { TakesAtMost (S.left source.old) (S.left source.new) (from + len - length bytes.old.items) }
    ensures limit { LimitsPart (prepend_known bytes.old.items (S.left source.old)) (from + len) result }
    ensures cause { CountsTape (S.faults source.old) (S.faults source.new) result }
{
    if let Err(fault) = take_up_to(bytes, source, (from + len).min(MOST_KEPT + 1)) {
        return Err(fault);
    }
    if bytes.len() > MOST_KEPT {
        return Err(TapeFault::Limit);
    }
    match part_of(alloc, bytes, from, len) {
        Ok(part) => Ok(part),
        Err(_) => Err(TapeFault::Memory),
    }
}

// The next bytes of an input of which none are kept.
fn next_part<S: Source>(alloc: Global, source: &mut S, len: usize) -> Result<Vec<u8>, TapeFault>
    ensures part { IfOk result (λ part. IfSome (S.left source.old) (λ all. part.items ≡ take len all)) }
    ensures short { IfOk result (λ part. length part.items ≤ len) }
    ensures rest { IfOk result (λ part. Consumes (S.left source.old) (S.left source.new) part.items) }
    ensures takes { TakesAtMost (S.left source.old) (S.left source.new) len }
    ensures limit { result ≢ Err TapeFault.Limit }
    ensures cause { CountsTape (S.faults source.old) (S.faults source.new) result }
{
    let mut part = Vec::new(alloc);
    match take_up_to(&mut part, source, len) {
        Ok(()) => Ok(part),
        Err(fault) => Err(fault),
    }
}

impl Tape {
    /// A tape at the start of the input. It takes nothing of the source, and no memory.
    pub fn new<S: Source>(alloc: Global, source: &mut S, keep: bool) -> Result<Tape, TapeFault>
        ensures tape { result ≡ Ok (new_tape keep) }
        ensures left { S.left source.new ≡ S.left source.old }
        ensures faults { S.faults source.new ≡ S.faults source.old }
    {
        let _ = source;
        Ok(Tape {
            bytes: Vec::new(alloc),
            high: 0,
            keep,
            refused: false,
        })
    }

    /// At most `len` bytes of the input at the place `from`, fewer only where the input ends. It asks
    /// the source for those that it hasn't taken yet, also where the input had ended before, and for
    /// none past them.
    ///
    /// The high place is where the bytes end that were answered so far. A tape that keeps can be
    /// read at any place up to it, another one only there. After a refusal neither can be read.
    ///
    /// `Limit` comes exactly where the tape keeps, `from + len` is above 67,108,864, and the input has
    /// more bytes than that.
    pub fn read_at<S: Source>(
        &mut self,
        alloc: Global,
        source: &mut S,
        from: u128,
        len: u32,
    ) -> Result<Vec<u8>, TapeFault>
        requires going { self.old.refused ≡ false }
        requires small { from < 2 ^ 96 }
        requires known { from ≤ self.old.high }
        requires onward { self.old.keep ≡ false → from ≡ self.old.high }
        ensures bytes { IfOk result (λ bytes. IfSome (input self.old (S.left source.old)) (λ all. bytes.items ≡ part self.old from len all)) }
        ensures short { IfOk result (λ bytes. length bytes.items ≤ len) }
        ensures input { OnOk result (InputStays self.old self.new (S.left source.old) (S.left source.new)) }
        ensures high { IfOk result (λ bytes. self.new.high ≡ max self.old.high (from + length bytes.items)) }
        ensures keep { self.new.keep ≡ self.old.keep }
        ensures refused { self.new.refused ≡ is_err result }
        ensures takes { TakesAtMost (S.left source.old) (S.left source.new) (from + len - (begins self.old + length self.old.kept)) }
        ensures limit { Limits self.old (S.left source.old) from len result }
        ensures cause { CountsTape (S.faults source.old) (S.faults source.new) result }
    {
        self.refused = true;
        let read = if self.keep {
            kept_part(alloc, &mut self.bytes, source, from as usize, len as usize)
        } else {
            next_part(alloc, source, len as usize)
        };
        match read {
            Ok(part) => {
                self.high = self.high.max(from + part.len() as u128);
                self.refused = false;
                Ok(part)
            }
            Err(fault) => Err(fault),
        }
    }

    /// While no read was refused, a tape that keeps has what it answered, up to its high place and at
    /// most 67,108,864 bytes, and another one has nothing. The body is empty: a caller has the clause.
    pub fn has_answered(&self)
        ensures { HasAnswered (length self.now.kept) self.now.high self.now.keep self.now.refused }
    {
        let _ = &self.bytes;
    }
}

#[cfg(test)]
mod tests;
