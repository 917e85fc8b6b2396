// The addresses that programs may use, and how much may lie there: docs/elf.md.

/// Programs may use the addresses from here on ..
pub const LOWEST_ADDRESS: u32 = 4096;

/// .. and below this one, where the heap region begins.
pub const REGION_FROM: u32 = 0x4000_0000;

/// The most bytes that the segments of a program have together.
pub const MOST_SEGMENT_BYTES: u32 = 67_108_864;
