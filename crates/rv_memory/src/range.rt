// One mapped range with its bytes.
ghost use Rattle.std.specs.Prelude.{◌≡◌, ℕ, ◌+◌, ◌-◌, ◌%◌, ◌≤◌, ◌<◌, ◌^◌, true, false, Some, nat_lt, length, take, drop, slice_index, EachIndex, OnOk, OnErr, if◌then◌else◌};
ghost use Rattle.std.specs.Bool.{OnTrue};
ghost use Rattle.rv_memory.specs.Memory.{within};

use crate::access::{Rest, Width};
use diefast_canary::{fill, first_break};
use std::alloc::AllocError;

/// What an address is used for.
#[derive(Clone, Copy, Debug, PartialEq, Eq)]
pub(crate) enum Purpose {
    Reading,
    Writing,
    Running,
}

// Its bytes are made on the first write to one of them. Until then it holds `rest`.
#[derive(Drop)]
pub(crate) struct Range {
    pub(crate) from: u32,
    pub(crate) len: u32,
    // All of them, or none yet.
    pub(crate) bytes: Vec<u8>,
    pub(crate) rest: Rest,
    pub(crate) writable: bool,
    pub(crate) runs: bool,
    ghost ends: { from + len ≤ 2 ^ 32 },
    ghost fits: { length bytes.items ≤ len },
    ghost whole: { 0 < length bytes.items → length bytes.items ≡ len },
    // No other range has an address in a page of what isn't made.
    ghost paged: { length bytes.items < len → (from % 4096 ≡ 0) × (len % 4096 ≡ 0) },
    ghost small: { (k : ℕ) → slice_index bytes.items k < 256 },
}

impl Range {
    ghost use Rattle.diefast_canary.specs.Canary.{canary_byte};
    ghost use Rattle.rv_memory.specs.Access.{number_of, bytes_in, bytes_of, rest_byte};
    ghost use Rattle.rv_memory.specs.Ranges.{holds, end_of, byte_at, is_whole, grants, Overwrites, Joins, IsBreakIn};

    // The place of an address, past the end where this range doesn't hold it.
    #[inline(always)]
    pub(crate) fn place(&self, addr: u32) -> usize
        ensures held { nat_lt result self.now.len ≡ holds self.now addr }
        ensures begins { result < self.now.len → self.now.from ≤ addr }
        ensures place { result < self.now.len → result ≡ addr - self.now.from }
        ensures small { result < 2 ^ 32 }
    {
        addr.wrapping_sub(self.from) as usize
    }

    pub(crate) fn holds(&self, addr: u64) -> bool
        ensures { result ≡ holds self.now addr }
    {
        let from = u64::from(self.from);
        from <= addr && addr - from < u64::from(self.len)
    }

    pub(crate) fn end(&self) -> u64
        ensures { result ≡ end_of self.now }
    {
        u64::from(self.from) + u64::from(self.len)
    }

    // Makes the bytes. An `Err` changes nothing.
    pub(crate) fn make(&mut self) -> Result<(), AllocError>
        ensures same { Overwrites self.old self.new self.old.from 0 (byte_at self.old) }
        ensures whole { OnOk result (is_whole self.new ≡ true) }
        ensures wanting { OnErr result (is_whole self.old ≡ false) }
    {
        let len = self.len as usize;
        if self.bytes.len() == len {
            return Ok(());
        }
        self.bytes.resize(len, 0)?;
        if let Rest::Canary(word) = self.rest {
            fill(&mut self.bytes, word, self.from);
        }
        Ok(())
    }

    // Takes the bytes of a range that begins where this one ends. An `Err` changes nothing.
    pub(crate) fn append(&mut self, more: &Range) -> Result<(), AllocError>
        requires whole { is_whole self.old ≡ true }
        requires made { is_whole more.now ≡ true }
        requires behind { more.now.from ≡ end_of self.old }
        requires above { 0 < self.old.from }
        ensures joined { OnOk result (Joins self.old more.now self.new) }
        ensures kept { OnErr result (Overwrites self.old self.new self.old.from 0 (byte_at self.old)) }
    {
        self.bytes.extend_from_slice(&more.bytes)?;
        self.len += more.len;
        Ok(())
    }

    pub(crate) fn grants(&self, purpose: Purpose) -> bool
        ensures { result ≡ grants purpose (Some self.now) }
    {
        match purpose {
            Purpose::Reading => true,
            Purpose::Writing => self.writable,
            Purpose::Running => self.runs,
        }
    }

    // Whether bytes from an address on are zeros that aren't made.
    pub(crate) fn is_zero(&self, addr: u32, width: Width) -> bool
        ensures { OnTrue result ((holds self.now addr ≡ true) × (addr + bytes_in width ≤ end_of self.now) × ((a : ℕ) → byte_at self.now a ≡ 0)) }
    {
        match self.rest {
            Rest::Zero if self.bytes.is_empty() => {
                self.place(addr) + width.bytes() <= self.len as usize
            }
            _ => false,
        }
    }

    // The number whose bytes begin at a place of this range.
    #[inline(always)]
    pub(crate) fn read(&self, at: usize, width: Width) -> u32
        requires { at + bytes_in width ≤ length self.now.bytes.items }
        ensures { result ≡ number_of (take (bytes_in width) (drop at self.now.bytes.items)) }
    {
        match width {
            Width::One => u32::from(self.bytes[at]),
            Width::Two => match <&[u8; 2]>::try_from(&self.bytes[at..at + 2]) {
                Ok(chunk) => u32::from(u16::from_le_bytes(*chunk)),
                Err(_) => 0,
            },
            Width::Four => match <&[u8; 4]>::try_from(&self.bytes[at..at + 4]) {
                Ok(chunk) => u32::from_le_bytes(*chunk),
                Err(_) => 0,
            },
        }
    }

    // Puts the bytes of a number at a place of this range.
    #[inline(always)]
    pub(crate) fn write(&mut self, at: usize, width: Width, value: u32)
        requires { at + bytes_in width ≤ length self.old.bytes.items }
        ensures { Overwrites self.old self.new (self.old.from + at) (bytes_in width) (λ a. slice_index (bytes_of (bytes_in width) value) (a - (self.old.from + at))) }
    {
        match width {
            Width::One => put(&mut self.bytes, at, &((value % 256) as u8).to_le_bytes()),
            Width::Two => put(&mut self.bytes, at, &((value % 65536) as u16).to_le_bytes()),
            Width::Four => put(&mut self.bytes, at, &value.to_le_bytes()),
        }
    }

    // Reads as many bytes from an address as this range holds and the buffer has room for from a place
    // on, and says up to where.
    pub(crate) fn read_piece(&self, from: u64, buf: &mut [u8], done: usize) -> usize
        requires held { holds self.now from ≡ true }
        requires room { done < length buf.old }
        ensures more { done < result }
        ensures end { result ≤ length buf.old }
        ensures ends { from + (result - done) ≤ end_of self.now }
        ensures kept { (k : ℕ) → k < done → slice_index buf.new k ≡ slice_index buf.old k }
        ensures read { (k : ℕ) → done ≤ k → k < result → slice_index buf.new k ≡ byte_at self.now (from + (k - done)) }
    {
        let at = (from - u64::from(self.from)) as usize;
        let count = (buf.len() - done).min(self.len as usize - at);
        if self.bytes.is_empty() {
            lay(buf, done, count, from as u32, self.rest);
        } else {
            put(buf, done, &self.bytes[at..at + count]);
        }
        done + count
    }

    // Writes as many of the bytes of a span as this range holds, from a place of the bytes on, and says
    // up to where.
    pub(crate) fn write_piece(&mut self, addr: u32, bytes: &[u8], done: usize) -> usize
        requires whole { is_whole self.old ≡ true }
        requires held { holds self.old (addr + done) ≡ true }
        requires room { done < length bytes.now }
        ensures more { done < result }
        ensures end { result ≤ length bytes.now }
        ensures written { Overwrites self.old self.new (addr + done) (result - done) (λ a. slice_index bytes.now (a - addr)) }
    {
        let at = (u64::from(addr) + done as u64 - u64::from(self.from)) as usize;
        let end = done + (bytes.len() - done).min(self.bytes.len() - at);
        put(&mut self.bytes, at, &bytes[done..end]);
        end
    }

    // Fills the addresses from one that this range holds up to its own end or the given one, and says
    // up to where.
    pub(crate) fn cover(&mut self, from: u64, end: u64, rest: Rest) -> u64
        requires whole { is_whole self.old ≡ true }
        requires held { holds self.old from ≡ true }
        requires more { from < end }
        ensures more { from < result }
        ensures end { result ≤ end }
        ensures covered { Overwrites self.old self.new from (result - from) (rest_byte rest) }
    {
        let at = (from - u64::from(self.from)) as usize;
        let count = (self.bytes.len() - at).min((end - from) as usize);
        lay(&mut self.bytes, at, count, from as u32, rest);
        from + count as u64
    }

    // The first break of the canary from an address that this range holds up to its own end or the
    // given one, or up to where there is none.
    pub(crate) fn break_in(&self, from: u64, end: u64, word: u32) -> Result<u64, u32>
        requires held { holds self.now from ≡ true }
        requires more { from < end }
        ensures { IsBreakIn self.now from end word result }
    {
        if self.bytes.is_empty() {
            return self.break_in_rest(from, end, word);
        }
        let at = (from - u64::from(self.from)) as usize;
        let count = (self.bytes.len() - at).min((end - from) as usize);
        match first_break(&self.bytes[at..at + count], word, from as u32) {
            Some(place) => Err(from as u32 + place as u32),
            None => Ok(from + count as u64),
        }
    }

    // The same where no byte is made: the canary of one word has no break by this word, and that of
    // another one has it among the first.
    fn break_in_rest(&self, from: u64, end: u64, word: u32) -> Result<u64, u32>
        requires absent { length self.now.bytes.items ≡ 0 }
        requires held { holds self.now from ≡ true }
        requires more { from < end }
        ensures { IsBreakIn self.now from end word result }
    {
        let end = end.min(self.end());
        if self.rest.is_canary_of(word) {
            return Ok(end);
        }
        let mut bytes = [0; SAMPLE];
        let count = SAMPLE.min((end - from) as usize);
        lay(&mut bytes, 0, count, from as u32, self.rest);
        match first_break(&bytes[..count], word, from as u32) {
            Some(place) => Err(from as u32 + place as u32),
            None => Ok(from + count as u64),
        }
    }
}

// How many bytes of what isn't made are looked at at a time.
const SAMPLE: usize = 16;

// Puts some bytes at a place.
#[inline(always)]
pub(crate) fn put(bytes: &mut [u8], at: usize, piece: &[u8])
    requires { at + length piece.now ≤ length bytes.old }
    ensures len { length bytes.new ≡ length bytes.old }
    ensures each { EachIndex bytes.new (λ k. slice_index bytes.new k ≡ (if within at (length piece.now) k then slice_index piece.now (k - at) else slice_index bytes.old k)) }
{
    bytes[at..at + piece.len()].copy_from_slice(piece);
}

ghost use Rattle.rv_memory.specs.Access.{rest_byte};

// Fills a part that begins at an address.
pub(crate) fn lay(bytes: &mut [u8], at: usize, count: usize, addr: u32, rest: Rest)
    requires { at + count ≤ length bytes.old }
    ensures len { length bytes.new ≡ length bytes.old }
    ensures each { EachIndex bytes.new (λ k. slice_index bytes.new k ≡ (if within at count k then rest_byte rest (addr + (k - at)) else slice_index bytes.old k)) }
{
    match rest {
        Rest::Zero => bytes[at..at + count].fill(0),
        Rest::Canary(word) => fill(&mut bytes[at..at + count], word, addr),
    }
}
