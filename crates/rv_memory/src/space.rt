// All mapped ranges, and how they come to be.
ghost use Rattle.std.specs.Prelude.{◌≡◌, ℕ, ◌+◌, ◌≤◌, ◌<◌, ◌^◌, true, false, is_some, length, vec_len, vec_capacity, IsTrue, OnOk, OnErr, IfOk};

use crate::access::Rest;
use crate::hints::Hints;
use crate::parts::{Mapping, PART, make_part, make_parts};
use crate::range::Range;
use std::alloc::{AllocError, Global};

// From so many ranges on a fetch has hints of its own.
const MANY: usize = 1024;

/// The bytes of a guest.
///
/// Contracts see it by `memory_of`, a byte and two flags at each address, and by `taken_of`, the
/// pages of 4,096 addresses in which a store wants no memory.
#[derive(Drop)]
pub struct Space {
    // The first range that runs and isn't writable, empty where there is none yet.
    pub(crate) code: Range,
    pub(crate) ranges: Vec<Range>,
    pub(crate) hints: Hints,
    alloc: Global,
    ghost apart: { IsApart (code ∷ ranges.items) },
    ghost order: { IsInOrder ranges.items },
    ghost code_runs: { code.runs ≡ true },
    ghost code_fixed: { code.writable ≡ false },
    ghost code_made: { is_whole code ≡ true },
}

ghost use Rattle.std.specs.Prelude.{◌∷◌};
ghost use Rattle.std.specs.Bool.{OnTrue};
ghost use Rattle.rv_memory.specs.Ranges.{byte_at, end_of, is_whole, IsApart, IsInOrder, IsPlace, HaveBegun, AreToCome};

impl Space {
    ghost use Rattle.rv_memory.specs.Access.{new_byte};
    ghost use Rattle.rv_memory.specs.Memory.{no_memory, page_of, is_mapped, is_unmapped, with_range, is_taken, KeepsTaken, IsBounded};
    ghost use Rattle.rv_memory.specs.Spaces.{memory_of, taken_of};

    /// A space with nothing mapped.
    #[tactic(auto, unfolding(crate::specs::Spaces::memory_of))]
    pub fn new(alloc: Global) -> Space
        ensures { memory_of result ≡ no_memory }
    {
        Space {
            code: Range {
                from: 0,
                len: 0,
                bytes: Vec::new(alloc),
                rest: Rest::Zero,
                writable: false,
                runs: true,
            },
            ranges: Vec::new(alloc),
            hints: Hints::new(alloc),
            alloc,
        }
    }

    /// Maps `len` addresses from `from` on. They hold `first` and then `rest`.
    pub fn map(
        &mut self,
        from: u32,
        len: u32,
        first: &[u8],
        rest: Rest,
        writable: bool,
        runs: bool,
    ) -> Result<(), AllocError>
        requires ends { from + len ≤ 2 ^ 32 }
        requires room { length first.now ≤ len }
        requires unmapped { IsTrue (is_unmapped (memory_of self.old) from len) }
        ensures mapped { OnOk result (memory_of self.new ≡ with_range (memory_of self.old) from len (new_byte first.now rest from) writable runs) }
        ensures refused { OnErr result (memory_of self.new ≡ memory_of self.old) }
        ensures taken { KeepsTaken (taken_of self.old) (taken_of self.new) }
    {
        if len == 0 {
            return Ok(());
        }
        let mapping = Mapping {
            from,
            len,
            rest,
            writable,
            runs,
        };
        if self.lacks_code(mapping, first) {
            let mut code = make_part(self.alloc, mapping, first, from, len)?;
            code.make()?;
            self.put_code(code);
            return Ok(());
        }
        if self.continues_code(mapping, first) {
            let mut code = make_part(self.alloc, mapping, first, from, len)?;
            code.make()?;
            return self.append_code(&code);
        }
        let mut parts = make_parts(self.alloc, mapping, first)?;
        self.make_room(parts.len())?;
        while let Some(part) = parts.pop() {
            self.add_range(part);
        }
        Ok(())
    }

    /// Makes the pages of a span, so that a store in it wants no more memory.
    #[tactic(auto, unfolding(crate::specs::Spaces::taken_of))]
    pub fn take_pages(&mut self, addr: u32, len: u32) -> Result<(), AllocError>
        requires { IsTrue (is_mapped (memory_of self.old) addr len) }
        ensures memory { memory_of self.new ≡ memory_of self.old }
        ensures sure { OnOk result (IsTrue (is_taken (taken_of self.new) addr len)) }
        ensures taken { KeepsTaken (taken_of self.old) (taken_of self.new) }
    {
        self.make(addr, u64::from(len))
    }

    /// What holds of every space: bytes are below 256, nothing is mapped at or past 2^32, and only
    /// mapped addresses may be written to or run.
    #[tactic(auto, unfolding(crate::specs::Spaces::memory_of))]
    pub fn bounds(&self)
        ensures { IsBounded (memory_of self.now) }
    {
        let _code = &self.code;
    }

    // Makes the bytes of a mapped span.
    pub(crate) fn make(&mut self, addr: u32, len: u64) -> Result<(), AllocError>
        requires fits { len < 2 ^ 63 }
        requires mapped { IsTrue (is_mapped (memory_of self.old) addr len) }
        ensures memory { memory_of self.new ≡ memory_of self.old }
        ensures sure { OnOk result (IsTrue (is_taken (taken_of self.new) addr len)) }
        ensures wanting { OnErr result (is_taken (taken_of self.old) addr len ≡ false) }
        ensures taken { KeepsTaken (taken_of self.old) (taken_of self.new) }
    {
        let end = u64::from(addr) + len;
        let mut at = u64::from(addr);
        while at < end {
            at = self.make_range(at)?;
        }
        Ok(())
    }

    // Makes the bytes of the range that holds an address, and says up to where.
    fn make_range(&mut self, addr: u64) -> Result<u64, AllocError>
        requires mapped { is_some ((memory_of self.old).bytes addr) ≡ true }
        ensures memory { memory_of self.new ≡ memory_of self.old }
        ensures more { IfOk result (λ next. addr < next) }
        ensures sure { IfOk result (λ next. (a : ℕ) → addr ≤ a → a < next → taken_of self.new (page_of a) ≡ true) }
        ensures wanting { OnErr result (taken_of self.old (page_of addr) ≡ false) }
        ensures taken { KeepsTaken (taken_of self.old) (taken_of self.new) }
    {
        match self.find(addr) {
            Some(i) => {
                let range = &mut self.ranges[i];
                range.make()?;
                Ok(range.end())
            }
            None => Ok(self.code.end()),
        }
    }

    // Makes room for so many more ranges.
    fn make_room(&mut self, count: usize) -> Result<(), AllocError>
        ensures memory { memory_of self.new ≡ memory_of self.old }
        ensures taken { KeepsTaken (taken_of self.old) (taken_of self.new) }
        ensures room { OnOk result (vec_len self.new.ranges + count ≤ vec_capacity self.new.ranges) }
    {
        if self.ranges.len() >= MANY {
            self.hints.refine()?;
        }
        self.ranges.reserve(count)
    }

    // Whether a mapping is the first code. That is made as a whole, so one with a long rest isn't.
    fn lacks_code(&self, mapping: Mapping, first: &[u8]) -> bool
        requires { length first.now ≤ mapping.len }
        ensures { OnTrue result ((mapping.runs ≡ true) × (mapping.writable ≡ false) × (self.now.code.len ≡ 0)) }
    {
        if !mapping.runs || mapping.writable || self.code.len != 0 {
            return false;
        }
        mapping.len - (first.len() as u32) < PART
    }

    // Whether a mapping is code that begins where the first code ends, so that both are one range.
    fn continues_code(&self, mapping: Mapping, first: &[u8]) -> bool
        requires { length first.now ≤ mapping.len }
        ensures { OnTrue result ((mapping.runs ≡ true) × (mapping.writable ≡ false) × (mapping.from ≡ end_of self.now.code) × (0 < self.now.code.from)) }
    {
        if !mapping.runs || mapping.writable || self.code.from == 0 {
            return false;
        }
        if self.code.end() != u64::from(mapping.from) {
            return false;
        }
        mapping.len - (first.len() as u32) < PART
    }

    fn append_code(&mut self, range: &Range) -> Result<(), AllocError>
        requires runs { range.now.runs ≡ true }
        requires fixed { range.now.writable ≡ false }
        requires made { is_whole range.now ≡ true }
        requires behind { range.now.from ≡ end_of self.old.code }
        requires above { 0 < self.old.code.from }
        requires unmapped { IsTrue (is_unmapped (memory_of self.old) range.now.from range.now.len) }
        ensures mapped { OnOk result (memory_of self.new ≡ with_range (memory_of self.old) range.now.from range.now.len (byte_at range.now) range.now.writable range.now.runs) }
        ensures refused { OnErr result (memory_of self.new ≡ memory_of self.old) }
        ensures taken { KeepsTaken (taken_of self.old) (taken_of self.new) }
    {
        self.code.append(range)
    }

    fn put_code(&mut self, range: Range)
        requires runs { range.runs ≡ true }
        requires fixed { range.writable ≡ false }
        requires made { is_whole range ≡ true }
        requires lacking { self.old.code.len ≡ 0 }
        requires unmapped { IsTrue (is_unmapped (memory_of self.old) range.from range.len) }
        ensures mapped { memory_of self.new ≡ with_range (memory_of self.old) range.from range.len (byte_at range) range.writable range.runs }
        ensures taken { KeepsTaken (taken_of self.old) (taken_of self.new) }
    {
        self.code = range;
    }

    // Adds a range where there is room for one more. The ranges stay in order of their addresses.
    fn add_range(&mut self, range: Range)
        requires some { 0 < range.len }
        requires unmapped { IsTrue (is_unmapped (memory_of self.old) range.from range.len) }
        requires room { vec_len self.old.ranges < vec_capacity self.old.ranges }
        ensures mapped { memory_of self.new ≡ with_range (memory_of self.old) range.from range.len (byte_at range) range.writable range.runs }
        ensures taken { KeepsTaken (taken_of self.old) (taken_of self.new) }
        ensures len { vec_len self.new.ranges ≡ vec_len self.old.ranges + 1 }
        ensures capacity { vec_capacity self.old.ranges ≤ vec_capacity self.new.ranges }
    {
        let at = begun_by(&self.ranges, u64::from(range.from));
        match self.ranges.insert(at, range) {
            Ok(()) => {}
            Err(_) => unreachable!(),
        }
    }
}

// The place of the range that holds an address.
pub(crate) fn place_of(ranges: &[Range], addr: u64) -> Option<usize>
    requires { IsInOrder ranges.now }
    ensures { IsPlace ranges.now addr result }
{
    let begun = begun_by(ranges, addr);
    if begun > 0 && ranges[begun - 1].holds(addr) {
        Some(begun - 1)
    } else {
        None
    }
}

// How many of the ranges begin at an address or before it.
fn begun_by(ranges: &[Range], addr: u64) -> usize
    requires { IsInOrder ranges.now }
    ensures fits { result ≤ length ranges.now }
    ensures begun { HaveBegun ranges.now result addr }
    ensures to_come { AreToCome ranges.now result addr }
{
    let mut low = 0;
    let mut high = ranges.len();
    while low < high {
        let middle = low + (high - low) / 2;
        if u64::from(ranges[middle].from) <= addr {
            low = middle + 1;
        } else {
            high = middle;
        }
    }
    low
}
