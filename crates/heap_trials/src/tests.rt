// The guest's heap, call by call. The words of the seed 1 are, from word 1 on, 0x01112f35, 0xd3509d35, 0x0b932f4a and
// 0x8aa46776, and its canary is 0xe2393051. A class below 17 has 2^16 bytes of slots at first, one above has four slots.
mod draws;
mod fronts;
mod guest;
mod limits;
mod model;
mod rows;
mod rules;

use exact_heap::{Place, Signal, SlotRow};
use guest::Call::{Calloc, Free, Malloc, Realloc};
use rows::Row::{Answers, Bytes, Counts, Ends, Places, Signals, Slots, Stores};
use rows::{Trial, first_miss};
use std::test::Fail;

const BASE: u32 = 0x4000_0000;

// Where the first object of 16 bytes lies.
const FIRST: u32 = BASE + 16 * 0xf35;

// Where an object of 64 bytes lies that is the second of all, behind the slots of 16 bytes.
const SECOND: u32 = BASE + 0x1_0000 + 64 * 0x135;

const NO_PATCHES: &[u8] = b"exterm-patches 2\n";

const ZEROS: [u8; 16] = [0; 16];

const CANARY: [u8; 16] = [
    0x51, 0x30, 0x39, 0xe2, 0x51, 0x30, 0x39, 0xe2, 0x51, 0x30, 0x39, 0xe2, 0x51, 0x30, 0x39, 0xe2,
];

// The canary's bytes but for the first.
const BEGINS_WITH_5: [u8; 16] = [
    5, 0x30, 0x39, 0xe2, 0x51, 0x30, 0x39, 0xe2, 0x51, 0x30, 0x39, 0xe2, 0x51, 0x30, 0x39, 0xe2,
];

// Zeros but for the first byte.
const SEVEN: [u8; 16] = [7, 0, 0, 0, 0, 0, 0, 0, 0, 0, 0, 0, 0, 0, 0, 0];

// Answers and counts of calloc and realloc.
static REALLOCATES: Trial = Trial {
    patches: NO_PATCHES,
    zero: false,
    rows: &[
        Answers(Calloc(4, 4, 1), FIRST),
        Bytes(FIRST, ZEROS),
        Answers(Calloc(65536, 65536, 1), 0),
        Answers(Realloc(FIRST, 40, 1), SECOND),
        Bytes(SECOND, ZEROS),
        Bytes(SECOND + 16, CANARY),
        Bytes(SECOND + 48, CANARY),
        Answers(Realloc(FIRST, 8, 1), 0),
        Answers(Realloc(SECOND, 1_048_577, 1), 0),
        Counts(2, 1, 5, 0),
    ],
};

#[test]
fn callocs_and_reallocs(rt: HostRuntime) -> Result<(), Fail> {
    assert_eq!(&rt; first_miss(rt.alloc(), &REALLOCATES)?, None);
    Ok(())
}

// A byte past the end of an object is seen when that is freed, and one in a free slot at the end.
static SIGNALS: Trial = Trial {
    patches: NO_PATCHES,
    zero: false,
    rows: &[
        Answers(Malloc(16, 7), FIRST),
        Stores(FIRST + 16, 0),
        Answers(Free(FIRST, 9), 0),
        Counts(1, 1, 2, 1),
        Answers(Free(FIRST, 9), 0),
        Counts(1, 1, 3, 1),
        Stores(FIRST + 65, 0),
        Ends,
        Ends,
        Signals(&[
            Signal {
                place: Place::Call(2),
                addr: FIRST + 16,
                byte: 0,
            },
            Signal {
                place: Place::End,
                addr: FIRST + 65,
                byte: 0,
            },
        ]),
        Slots(&[
            SlotRow {
                addr: FIRST,
                state: 2,
                object: 0,
                size: 16,
                front: 0,
                site: 7,
                free_site: 9,
                freed: 1,
            },
            SlotRow {
                addr: FIRST + 16,
                state: 4,
                object: 0,
                size: 0,
                front: 0,
                site: 0,
                free_site: 0,
                freed: 0,
            },
        ]),
    ],
};

#[test]
fn signals_broken_canaries(rt: HostRuntime) -> Result<(), Fail> {
    assert_eq!(&rt; first_miss(rt.alloc(), &SIGNALS)?, None);
    Ok(())
}

// A free that is put off keeps the object's bytes until two more objects were placed.
static PUTS_OFF: Trial = Trial {
    patches: b"exterm-patches 2\ndefer 00000007 00000009 2\n",
    zero: false,
    rows: &[
        Answers(Malloc(16, 7), FIRST),
        Stores(FIRST, 5),
        Answers(Free(FIRST, 9), 0),
        Bytes(FIRST, BEGINS_WITH_5),
        Places(Malloc(16, 7)),
        Bytes(FIRST, BEGINS_WITH_5),
        Places(Malloc(16, 7)),
        Bytes(FIRST, CANARY),
        Counts(3, 1, 4, 0),
    ],
};

#[test]
fn puts_off_a_free(rt: HostRuntime) -> Result<(), Fail> {
    assert_eq!(&rt; first_miss(rt.alloc(), &PUTS_OFF)?, None);
    Ok(())
}

// A new object's slot is all zero, and a released one has its canary again.
static ZEROED: Trial = Trial {
    patches: NO_PATCHES,
    zero: true,
    rows: &[
        Answers(Malloc(5, 1), FIRST),
        Bytes(FIRST, ZEROS),
        Bytes(FIRST + 16, CANARY),
        Stores(FIRST, 7),
        Answers(Realloc(FIRST, 40, 1), SECOND),
        Bytes(FIRST, CANARY),
        Bytes(SECOND, SEVEN),
        Bytes(SECOND + 16, ZEROS),
        Bytes(SECOND + 32, ZEROS),
        Bytes(SECOND + 48, ZEROS),
        Counts(2, 1, 2, 0),
    ],
};

#[test]
fn sets_new_objects_to_zero(rt: HostRuntime) -> Result<(), Fail> {
    assert_eq!(&rt; first_miss(rt.alloc(), &ZEROED)?, None);
    Ok(())
}
