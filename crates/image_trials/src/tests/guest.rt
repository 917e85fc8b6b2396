// A random guest that allocates, frees and stores, also where no object is.
ghost use Rattle.std.specs.Prelude.{◌<◌, max};

use infinite_heap::{Bytes, HeapCall, HeapName, HeapNames, Program, Segment, Segments};
use std::alloc::{AllocError, Global};

// Numbers by the recurrence of Numerical Recipes, of which the upper bits are drawn.
#[derive(Clone, Copy)]
pub struct Draws {
    state: u32,
}

impl Draws {
    pub fn new(seed: u32) -> Draws {
        Draws {
            state: seed.wrapping_mul(0x9e37_79b9).wrapping_add(1),
        }
    }

    pub fn next(&mut self) -> u32 {
        self.state = self
            .state
            .wrapping_mul(1_664_525)
            .wrapping_add(1_013_904_223);
        self.state.rotate_left(16)
    }

    // A number below `n`, or 0.
    pub fn below(&mut self, n: u32) -> u32
        ensures { result < max 1 n }
    {
        self.next() % n.max(1)
    }
}

const FIRST: u32 = 0x10000;

const SIZE: u32 = 0x2000;

// Heap functions, by their place.
const MALLOC: u32 = 0;

const FREE: u32 = 4;

const CALLOC: u32 = 8;

// An immediate of twelve bits, in the upper ones of a word.
fn upper(n: u32) -> u32 {
    n.wrapping_mul(0x10_0000)
}

// addi rd, x0, n
fn load_number(rd: u32, n: u32) -> u32 {
    upper(n) | rd.wrapping_mul(0x80) | 0x13
}

// jal ra, to a function, from the word at this place
fn call(function: u32, place: u32) -> u32 {
    let offset = function.wrapping_sub(place);
    (offset >> 20 & 1) << 31
        | (offset >> 1 & 0x3ff) << 21
        | (offset >> 11 & 1) << 20
        | (offset >> 12 & 0xff) << 12
        | 0xef
}

// sw a0, 4k(s0)
fn keep(k: u32) -> u32 {
    (k >> 3 & 3) << 25 | 0x00a4_2023 | (k & 7) << 9
}

// lw rd, 4k(s0)
fn kept(rd: u32, k: u32) -> u32 {
    upper(k.wrapping_mul(4)) | 0x0004_2003 | rd.wrapping_mul(0x80)
}

// sb a2, n(a1)
fn store_byte(n: u32) -> u32 {
    (n >> 5 & 0x7f) << 25 | 0x00c5_8023 | (n & 0x1f) << 7
}

// beq a1, x0, over the two words behind it
const UNLESS_NONE: u32 = 0x0005_8663;

fn place_behind(words: &[u32], more: u32) -> u32 {
    let count = u32::try_from(words.len()).unwrap_or(0);
    count.wrapping_add(more).wrapping_mul(4)
}

// One of an allocation, a free, and a store to an object that may be too far, too early or too late.
fn push_action(words: &mut Vec<u32>, draws: &mut Draws) -> Result<(), AllocError> {
    let k = draws.below(16);
    match draws.below(8) {
        0 | 1 | 2 => {
            let size = load_number(10, draws.below(200));
            let at = place_behind(words.as_slice(), 1);
            words.extend_from_slice(&[size, call(MALLOC, at), keep(k)])
        }
        3 => {
            let count = load_number(10, draws.below(9));
            let each = load_number(11, draws.below(50));
            let at = place_behind(words.as_slice(), 2);
            words.extend_from_slice(&[count, each, call(CALLOC, at), keep(k)])
        }
        4 | 5 => {
            let at = place_behind(words.as_slice(), 1);
            words.extend_from_slice(&[kept(10, k), call(FREE, at)])
        }
        _ => {
            let byte = load_number(12, draws.below(256));
            let offset = draws.below(240).wrapping_sub(20);
            words.extend_from_slice(&[kept(11, k), UNLESS_NONE, byte, store_byte(offset)])
        }
    }
}

// Three heap functions, whose words are never fetched, and the guest's own code behind them.
fn words_of(alloc: Global, draws: &mut Draws) -> Result<Vec<u32>, AllocError> {
    let mut words = vec![in alloc; 0x0010_0073u32; 3]?;
    // addi s0, sp, -64
    words.push(0xfc01_0413)?;
    for _ in 0..20 + draws.below(60) {
        push_action(&mut words, draws)?;
    }
    // li a0, 3; li a7, 93; ecall
    words.extend_from_slice(&[0x0030_0513, 0x05d0_0893, 0x0000_0073])?;
    Ok(words)
}

pub fn program_of(alloc: Global, draws: &mut Draws) -> Result<Program, AllocError> {
    let words = words_of(alloc, draws)?;
    let mut bytes = Vec::new(alloc);
    for word in words.as_slice() {
        bytes.extend_from_slice(&word.to_le_bytes())?;
    }
    bytes.truncate(SIZE as usize);
    let code = Segment {
        from: FIRST,
        len: SIZE,
        bytes: Bytes::new(bytes),
        writable: false,
        runs: true,
    };
    let malloc = HeapName {
        at: FIRST + MALLOC,
        call: HeapCall::Malloc,
    };
    let free = HeapName {
        at: FIRST + FREE,
        call: HeapCall::Free,
    };
    let calloc = HeapName {
        at: FIRST + CALLOC,
        call: HeapCall::Calloc,
    };
    Ok(Program {
        segments: Segments::new(vec![in alloc; code]?),
        entry: 0x1000c,
        names: HeapNames::new(vec![in alloc; malloc, free, calloc]?),
        tag: u64::from(draws.next()),
    })
}
