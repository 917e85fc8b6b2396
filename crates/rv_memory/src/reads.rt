// What doesn't change a space.
ghost use Rattle.std.specs.Prelude.{◌≡◌, ℕ, ◌+◌, ◌-◌, ◌≤◌, ◌<◌, ◌%◌, ◌^◌, true, false, None, Some, Ok, is_some, length, slice_index, IsTrue, OnOk, OnErr, IfSome, IfNone};
ghost use Rattle.std.specs.Option.{option_copied};

use crate::access::{Unmapped, Width};
use crate::range::{Purpose, Range};
use crate::space::{Space, place_of};

impl Space {
    ghost use Rattle.rv_memory.specs.Access.{bytes_in, loaded, fetched};
    ghost use Rattle.rv_memory.specs.Memory.{all_in_span, span, is_mapped, is_lawful, first_broken, IsIntact, IsLeastBreak};
    ghost use Rattle.rv_memory.specs.Ranges.{range_at, granted, IsPlace};
    ghost use Rattle.rv_memory.specs.Spaces.{ranges_of, memory_of, IsFoundAt, IsNowhere};

    /// The little-endian number of the bytes from an aligned address on; refused exactly where one
    /// isn't mapped.
    #[inline(always)]
    pub fn load(&self, addr: u32, width: Width) -> Result<u32, Unmapped>
        requires { addr % bytes_in width ≡ 0 }
        ensures { result ≡ loaded (memory_of self.now) addr width }
    {
        if let Some(value) = self.load_hinted(addr, width) {
            return Ok(value);
        }
        self.load_elsewhere(addr, width)
    }

    /// The little-endian number of the four bytes from an aligned address on; refused exactly where
    /// one may not be run.
    #[inline(always)]
    pub fn fetch(&self, addr: u32) -> Result<u32, Unmapped>
        requires { addr % 4 ≡ 0 }
        ensures { result ≡ fetched (memory_of self.now) addr }
    {
        if let Some(word) = self.fetch_first(addr) {
            return Ok(word);
        }
        self.fetch_elsewhere(addr)
    }

    /// The same number where the code that was mapped first holds it, and None elsewhere.
    #[inline(always)]
    pub fn fetch_first(&self, addr: u32) -> Option<u32>
        ensures { IfSome result (λ word. Ok word ≡ fetched (memory_of self.now) addr) }
    {
        let at = self.code.place(addr);
        if at + 4 <= self.code.bytes.len() {
            return Some(self.code.read(at, Width::Four));
        }
        None
    }

    /// Whether a span ends at 2^32 at most and each of its bytes is mapped, and may be written to
    /// where `writing` is true.
    pub fn span_ok(&self, addr: u32, len: u32, writing: bool) -> bool
        ensures { result ≡ is_lawful (memory_of self.now) addr len writing }
    {
        let len = u64::from(len);
        let purpose = if writing {
            Purpose::Writing
        } else {
            Purpose::Reading
        };
        u64::from(addr) + len <= 0x1_0000_0000 && self.allows(addr, len, purpose)
    }

    /// Reads a whole span; refused exactly where one of its bytes isn't mapped.
    pub fn span_read(&self, addr: u32, buf: &mut [u8]) -> Result<(), Unmapped>
        ensures read { OnOk result (span (memory_of self.now).bytes addr (length buf.old) ≡ Some buf.new) }
        ensures unmapped { OnErr result (span (memory_of self.now).bytes addr (length buf.old) ≡ None) }
        ensures kept { OnErr result (buf.new ≡ buf.old) }
    {
        if !self.allows(addr, buf.len() as u64, Purpose::Reading) {
            return Err(Unmapped);
        }
        let mut done = 0;
        while done < buf.len() {
            done = self.read_piece(addr, buf, done);
        }
        Ok(())
    }

    /// The least address of a mapped span that doesn't hold the canary's byte of `word`; None exactly
    /// where each does.
    pub fn first_break_at(&self, addr: u32, len: u32, word: u32) -> Option<u32>
        requires { IsTrue (is_mapped (memory_of self.now) addr len) }
        ensures first { result ≡ first_broken (memory_of self.now) word addr len }
        ensures intact { IfNone result (IsIntact (memory_of self.now) word addr len) }
        ensures least { IfSome result (IsLeastBreak (memory_of self.now) word addr len) }
    {
        let end = u64::from(addr) + u64::from(len);
        let mut at = u64::from(addr);
        while at < end {
            let Some(range) = self.range_at(at) else {
                unreachable!()
            };
            match range.break_in(at, end, word) {
                Ok(next) => at = next,
                Err(broken) => return Some(broken),
            }
        }
        None
    }

    // A load where the last one in this part of the addresses was.
    #[inline(always)]
    fn load_hinted(&self, addr: u32, width: Width) -> Option<u32>
        ensures { IfSome result (λ value. Ok value ≡ loaded (memory_of self.now) addr width) }
    {
        let hint = self.hints.get(addr);
        if hint < self.ranges.len() {
            let range = &self.ranges[hint];
            let at = range.place(addr);
            if at + width.bytes() <= range.bytes.len() {
                return Some(range.read(at, width));
            }
        }
        None
    }

    // A load that its hint didn't help.
    #[inline(never)]
    fn load_elsewhere(&self, addr: u32, width: Width) -> Result<u32, Unmapped>
        ensures { result ≡ loaded (memory_of self.now) addr width }
    {
        let at = self.code.place(addr);
        if at + width.bytes() <= self.code.bytes.len() {
            return Ok(self.code.read(at, width));
        }
        if let Some(value) = self.load_zero(addr, width) {
            return Ok(value);
        }
        self.remember(addr);
        if let Some(value) = self.load_hinted(addr, width) {
            return Ok(value);
        }
        match width {
            Width::One => {
                let mut bytes = [0; 1];
                self.span_read(addr, &mut bytes)?;
                Ok(u32::from(u8::from_le_bytes(bytes)))
            }
            Width::Two => {
                let mut bytes = [0; 2];
                self.span_read(addr, &mut bytes)?;
                Ok(u32::from(u16::from_le_bytes(bytes)))
            }
            Width::Four => {
                let mut bytes = [0; 4];
                self.span_read(addr, &mut bytes)?;
                Ok(u32::from_le_bytes(bytes))
            }
        }
    }

    // A load of zeros that aren't made, where the last access in this part of the addresses was.
    fn load_zero(&self, addr: u32, width: Width) -> Option<u32>
        ensures { IfSome result (λ value. Ok value ≡ loaded (memory_of self.now) addr width) }
    {
        let hint = self.hints.get(addr);
        if hint < self.ranges.len() && self.ranges[hint].is_zero(addr, width) {
            return Some(0);
        }
        None
    }

    // A fetch from other code than the first.
    #[inline(never)]
    fn fetch_elsewhere(&self, addr: u32) -> Result<u32, Unmapped>
        ensures { result ≡ fetched (memory_of self.now) addr }
    {
        if let Some(word) = self.fetch_hinted(addr) {
            return Ok(word);
        }
        self.remember_code(addr);
        if let Some(word) = self.fetch_hinted(addr) {
            return Ok(word);
        }
        if !self.allows(addr, 4, Purpose::Running) {
            return Err(Unmapped);
        }
        let mut bytes = [0; 4];
        self.span_read(addr, &mut bytes)?;
        Ok(u32::from_le_bytes(bytes))
    }

    fn fetch_hinted(&self, addr: u32) -> Option<u32>
        ensures { IfSome result (λ word. Ok word ≡ fetched (memory_of self.now) addr) }
    {
        let hint = self.hints.get_code(addr);
        if hint < self.ranges.len() {
            let range = &self.ranges[hint];
            let at = range.place(addr);
            if range.runs && at + 4 <= range.bytes.len() {
                return Some(range.read(at, Width::Four));
            }
        }
        None
    }

    // Notes where an address was found.
    pub(crate) fn remember(&self, addr: u32) {
        if let Some(place) = place_of(&self.ranges, u64::from(addr)) {
            self.hints.set(addr, place);
        }
    }

    // The same, for code.
    fn remember_code(&self, addr: u32) {
        if let Some(place) = place_of(&self.ranges, u64::from(addr)) {
            self.hints.set_code(addr, place);
        }
    }

    // The range that holds an address.
    pub(crate) fn range_at(&self, addr: u64) -> Option<&Range>
        ensures found { IfSome result (λ range. IsFoundAt self.now addr range.now) }
        ensures missed { IfNone result (IsNowhere self.now addr) }
    {
        match self.locate(addr) {
            Some(range) => Some(range),
            None => None,
        }
    }

    fn locate(&self, addr: u64) -> Option<&Range>
        ensures { option_copied result ≡ range_at (ranges_of self.now) addr }
    {
        if self.code.holds(addr) {
            return Some(&self.code);
        }
        match self.find(addr) {
            Some(i) => Some(&self.ranges[i]),
            None => None,
        }
    }

    // The place of the range that holds an address: that of the last one in this part of the addresses, or
    // else the one that is looked for.
    pub(crate) fn find(&self, addr: u64) -> Option<usize>
        ensures { IsPlace self.now.ranges.items addr result }
    {
        let part = (addr % 0x1_0000_0000) as u32;
        let hint = self.hints.get(part);
        if hint < self.ranges.len() && self.ranges[hint].holds(addr) {
            return Some(hint);
        }
        let place = place_of(&self.ranges, addr);
        if let Some(found) = place {
            self.hints.set(part, found);
        }
        place
    }

    // Whether each address of a span may be used so.
    pub(crate) fn allows(&self, addr: u32, len: u64, purpose: Purpose) -> bool
        requires { len < 2 ^ 63 }
        ensures { result ≡ all_in_span (granted purpose (memory_of self.now)) addr len }
    {
        let end = u64::from(addr) + len;
        let mut at = u64::from(addr);
        while at < end {
            match self.allowed_up_to(at, purpose) {
                Some(next) => at = next,
                None => return false,
            }
        }
        true
    }

    // The end of the range that holds an address, where it may be used so.
    fn allowed_up_to(&self, addr: u64, purpose: Purpose) -> Option<u64>
        ensures more { IfSome result (λ next. addr < next) }
        ensures granted { IfSome result (λ next. (a : ℕ) → addr ≤ a → a < next → granted purpose (memory_of self.now) a ≡ true) }
        ensures none { IfNone result (granted purpose (memory_of self.now) addr ≡ false) }
    {
        let range = self.range_at(addr)?;
        if range.grants(purpose) {
            Some(range.end())
        } else {
            None
        }
    }

    // Reads as much of a span as one range holds, from a place of the buffer on, and says up to where.
    fn read_piece(&self, addr: u32, buf: &mut [u8], done: usize) -> usize
        requires room { done < length buf.old }
        requires mapped { is_some ((memory_of self.now).bytes (addr + done)) ≡ true }
        ensures more { done < result }
        ensures end { result ≤ length buf.old }
        ensures kept { (k : ℕ) → k < done → slice_index buf.new k ≡ slice_index buf.old k }
        ensures read { (k : ℕ) → done ≤ k → k < result → (memory_of self.now).bytes (addr + k) ≡ Some (slice_index buf.new k) }
    {
        let from = u64::from(addr) + done as u64;
        let Some(range) = self.range_at(from) else {
            unreachable!()
        };
        range.read_piece(from, buf, done)
    }
}
