// Room before objects, and objects at multiples of an alignment.
use super::guest::Call::{Free, Malloc, Memalign, Realloc};
use super::rows::Row::{Answers, Bytes, Counts, Places, Slots, Stores};
use super::rows::{Trial, first_miss};
use super::{BASE, BEGINS_WITH_5, CANARY};
use exact_heap::SlotRow;
use std::test::Fail;

// Site 7 has a front of 16.
const FRONT: &[u8] = b"exterm-patches 2\nfront 00000007 16\n";

// Slots of 32 bytes, of which there are 2,048 at first: that of the first object, and that of the second.
const SLOT: u32 = BASE + 32 * 0x735;

const NEXT: u32 = BASE + 32 * 0x535;

// A store into a front isn't seen, and only the object's own address frees it.
static UNDERFLOWS: Trial = Trial {
    patches: FRONT,
    zero: false,
    rows: &[
        Answers(Malloc(16, 7), SLOT + 16),
        Stores(SLOT, 9),
        Stores(SLOT + 16, 5),
        Answers(Free(SLOT, 9), 0),
        Answers(Free(SLOT + 8, 9), 0),
        Answers(Free(SLOT + 17, 9), 0),
        Counts(1, 0, 4, 0),
        Answers(Realloc(SLOT + 16, 32, 1), NEXT),
        Bytes(NEXT, BEGINS_WITH_5),
        Bytes(SLOT, CANARY),
        Counts(2, 1, 5, 0),
        Slots(&[
            SlotRow {
                addr: NEXT,
                state: 0,
                object: 1,
                size: 32,
                front: 0,
                site: 1,
                free_site: 0,
                freed: 0,
            },
            SlotRow {
                addr: SLOT,
                state: 2,
                object: 0,
                size: 16,
                front: 16,
                site: 7,
                free_site: 1,
                freed: 2,
            },
        ]),
    ],
};

#[test]
fn keeps_room_before_objects(rt: HostRuntime) -> Result<(), Fail> {
    assert_eq!(&rt; first_miss(rt.alloc(), &UNDERFLOWS)?, None);
    Ok(())
}

// Both objects get slot 1 of class 16, the second one behind a front.
static ONE_SLOT: Trial = Trial {
    patches: FRONT,
    zero: false,
    rows: &[
        Answers(Malloc(0x1_0000, 8), BASE + 0x1_0000),
        Answers(Free(BASE + 0x1_0000, 9), 0),
        Answers(Malloc(0x8000, 7), BASE + 0x1_0010),
        Slots(&[SlotRow {
            addr: BASE + 0x1_0000,
            state: 0,
            object: 1,
            size: 0x8000,
            front: 16,
            site: 7,
            free_site: 0,
            freed: 0,
        }]),
    ],
};

#[test]
fn keeps_one_row_for_a_slot(rt: HostRuntime) -> Result<(), Fail> {
    assert_eq!(&rt; first_miss(rt.alloc(), &ONE_SLOT)?, None);
    Ok(())
}

// A front of 16 becomes one of 64 where the alignment is 64, and a slot is at least as large as that. Class 8 has 256
// slots at first, and class 12 has 16.
static ALIGNED: Trial = Trial {
    patches: FRONT,
    zero: false,
    rows: &[
        Answers(Memalign(64, 100, 7), BASE + 256 * 0x35 + 64),
        Answers(Memalign(4096, 1, 8), BASE + 0x1_0000 + 4096 * 5),
        Answers(Memalign(0, 16, 8), 0),
        Answers(Memalign(3, 16, 8), 0),
        Answers(Memalign(24, 16, 8), 0),
        Answers(Memalign(4097, 16, 8), 0),
        Answers(Memalign(8192, 16, 8), 0),
        Answers(Memalign(16, 0x10_0001, 8), 0),
        Counts(2, 0, 8, 0),
        Places(Memalign(1, 16, 8)),
        Places(Memalign(2, 16, 8)),
        Places(Memalign(4, 16, 8)),
        Places(Memalign(8, 16, 8)),
        Places(Memalign(16, 16, 8)),
        Counts(7, 0, 13, 0),
    ],
};

#[test]
fn places_at_multiples_of_an_alignment(rt: HostRuntime) -> Result<(), Fail> {
    assert_eq!(&rt; first_miss(rt.alloc(), &ALIGNED)?, None);
    Ok(())
}
