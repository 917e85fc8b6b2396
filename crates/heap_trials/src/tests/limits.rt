// The greatest sizes, and the end of the heap's room.
ghost use Rattle.exact_heap.specs.Heaps.{HasHome};

use super::guest::Call::{Calloc, Free, Malloc, Realloc};
use super::guest::{Guest, guest_with};
use super::rows::Row::{Answers, Bytes, Counts, Places, Stores};
use super::rows::{Trial, counts, ensure, first_miss};
use super::{BASE, NO_PATCHES, ZEROS};
use exact_heap::HeapRefusal;
use std::test::Fail;

// The greatest size of an object, and where the last 16 bytes of such an object begin.
const LARGEST: u32 = 0x10_0000;

const LAST: u32 = LARGEST - 16;

// The first three objects of that size. There are four slots for them, and from the third object on eight more.
const ONE: u32 = BASE + LARGEST;

const TWO: u32 = BASE + 2 * LARGEST;

const THREE: u32 = BASE + 10 * LARGEST;

// The last bytes of an object that was full of the canary, but for the very last.
const ENDS_WITH_9: [u8; 16] = [
    0x51, 0x30, 0x39, 0xe2, 0x51, 0x30, 0x39, 0xe2, 0x51, 0x30, 0x39, 0xe2, 0x51, 0x30, 0x39, 9,
];

static LARGE_SIZES: Trial = Trial {
    patches: NO_PATCHES,
    zero: false,
    rows: &[
        Answers(Malloc(LARGEST, 1), ONE),
        Answers(Malloc(LARGEST + 1, 1), 0),
        Answers(Malloc(0x20_0000, 1), 0),
        Answers(Malloc(u32::MAX, 1), 0),
        Counts(1, 0, 4, 0),
        Answers(Calloc(1024, 1024, 1), TWO),
        Bytes(TWO + LAST, ZEROS),
        Answers(Calloc(1024, 1025, 1), 0),
        Stores(ONE + LARGEST - 1, 9),
        Answers(Realloc(ONE, LARGEST, 1), THREE),
        Bytes(THREE + LAST, ENDS_WITH_9),
        Answers(Realloc(THREE, LARGEST + 1, 1), 0),
        Places(Malloc(0, 1)),
        Counts(4, 1, 9, 0),
    ],
};

#[test]
fn knows_the_greatest_size(rt: HostRuntime) -> Result<(), Fail> {
    assert_eq!(&rt; first_miss(rt.alloc(), &LARGE_SIZES)?, None);
    Ok(())
}

// The first byte of each slot of 2 MiB is broken, where only such slots are there.
fn break_slots(guest: &mut Guest) -> bool
    requires { HasHome guest.old.heap guest.old.space }
    ensures { HasHome guest.new.heap guest.new.space }
{
    let minis = guest.heap.grid().classes().len().min(7);
    let slots = 4 * ((1u32 << minis) - 1);
    for number in 0..slots {
        if !guest.store(BASE + number * 0x20_0000, 0) {
            return false;
        }
    }
    true
}

// Why the first allocation was refused. Each has a slot of 2 MiB.
fn refusal(guest: &mut Guest) -> Option<HeapRefusal>
    requires { HasHome guest.old.heap guest.old.space }
    ensures { HasHome guest.new.heap guest.new.space }
{
    for _ in 0..256 {
        match guest.make(Malloc(LARGEST, 7)) {
            Ok(_) => {
                if !break_slots(guest) {
                    return None;
                }
            }
            Err(refusal) => return Some(refusal),
        }
    }
    None
}

// After seven miniheaps of class 21 the eighth has no room, once 254 of the 508 slots are held or bad.
// One of class 4 has.
fn exhaust(guest: &mut Guest) -> Result<(), Fail>
    requires { HasHome guest.old.heap guest.old.space }
{
    let full = HeapRefusal::Room {
        used: 1_065_353_216,
        wanted: 1_073_741_824,
    };
    ensure(refusal(guest) == Some(full), "seven miniheaps")?;
    let [clock, _, _, signals] = counts(guest);
    ensure(clock.saturating_add(signals) == 254, "half of the slots")?;
    let kept = guest.heap.signals().len() as u64;
    ensure(kept == signals.min(64), "at most 64 signals")?;
    let small = guest.make(Malloc(16, 1))?;
    ensure(small / 0x1_0000 == 0x7f80, "a slot of 16 bytes")?;
    guest.make(Free(small, 2))?;
    let full = HeapRefusal::Room {
        used: 1_065_418_752,
        wanted: 1_073_741_824,
    };
    let again = guest.make(Malloc(LARGEST, 7));
    ensure(again == Err(full), "no room again")
}

#[test]
fn runs_out_of_room(rt: HostRuntime) -> Result<(), Fail> {
    let pad = b"exterm-patches 2\npad 00000007 1\n";
    let mut guest = guest_with(rt.alloc(), 1, pad, false).ok_or("a guest")?;
    exhaust(&mut guest)
}
