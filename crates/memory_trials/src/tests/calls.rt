// The calls of a space, each where its condition holds.
ghost use Rattle.std.specs.Prelude.{◌≡◌, ◌≤◌, ◌+◌, ◌^◌, true};
ghost use Rattle.std.specs.Bool.{OnTrue};
ghost use Rattle.rv_memory.specs.Memory.{is_unmapped};
ghost use Rattle.rv_memory.specs.Spaces.{memory_of};

use rv_memory::{Rest, Space, StoreFault, Width};

// Whether nothing of a span is mapped, tested byte by byte.
fn is_free(space: &Space, from: u32, len: u32) -> bool
    requires { from + len ≤ 2 ^ 32 }
    ensures { OnTrue result (is_unmapped (memory_of space.now) from len ≡ true) }
{
    for i in 0..len {
        if space.span_ok(from + i, 1, false) {
            return false;
        }
    }
    true
}

/// Maps a range where nothing of it is mapped, and says whether it did.
pub fn map(
    space: &mut Space,
    (from, len): (u32, u32),
    first: &[u8],
    rest: Rest,
    (writable, runs): (bool, bool),
) -> bool {
    let fits = u64::from(from) + u64::from(len) <= 0x1_0000_0000;
    if !fits || first.len() > len as usize || !is_free(space, from, len) {
        return false;
    }
    space.map(from, len, first, rest, writable, runs).is_ok()
}

/// Loads at the last multiple of a width up to an address.
pub fn load(space: &Space, addr: u32, width: Width) -> Option<u32> {
    match width {
        Width::One => space.load(addr, Width::One).ok(),
        Width::Two => space.load(addr - addr % 2, Width::Two).ok(),
        Width::Four => space.load(addr - addr % 4, Width::Four).ok(),
    }
}

pub fn fetch(space: &Space, addr: u32) -> Option<u32> {
    space.fetch(addr - addr % 4).ok()
}

/// Stores at the last multiple of a width up to an address.
pub fn store(space: &mut Space, addr: u32, width: Width, value: u32) -> Result<(), StoreFault> {
    match width {
        Width::One => space.store(addr, Width::One, value),
        Width::Two => space.store(addr - addr % 2, Width::Two, value),
        Width::Four => space.store(addr - addr % 4, Width::Four, value),
    }
}

pub fn write(space: &mut Space, addr: u32, bytes: &[u8]) -> Result<(), StoreFault> {
    space.span_write(addr, bytes)
}

/// Reads a span where it is mapped, and says whether it was.
pub fn read(space: &Space, addr: u32, bytes: &mut [u8]) -> bool {
    space.span_read(addr, bytes).is_ok()
}

pub fn allows(space: &Space, addr: u32, len: u32, writing: bool) -> bool {
    space.span_ok(addr, len, writing)
}

/// The first break of a canary in a span. None where the span isn't mapped.
pub fn first_break(space: &Space, addr: u32, len: u32, word: u32) -> Option<Option<u32>> {
    if space.span_ok(addr, len, false) {
        Some(space.first_break_at(addr, len, word))
    } else {
        None
    }
}

/// Fills a span where it is mapped, and says whether it was.
pub fn fill(space: &mut Space, addr: u32, len: u32, rest: Rest) -> bool {
    if !space.span_ok(addr, len, false) || space.take_pages(addr, len).is_err() {
        return false;
    }
    match rest {
        Rest::Zero => space.zero(addr, len),
        Rest::Canary(word) => space.paint(addr, len, word),
    }
    true
}

/// Copies a span where it may be, and says whether it did.
pub fn copy(space: &mut Space, from: u32, to: u32, len: u32) -> bool {
    if !space.span_ok(from, len, false) || !space.span_ok(to, len, false) {
        return false;
    }
    if space.take_pages(to, len).is_err() {
        return false;
    }
    let (low, high) = (from.min(to), from.max(to));
    if u64::from(low) + u64::from(len) > u64::from(high) {
        return false;
    }
    space.copy(from, to, len);
    true
}
