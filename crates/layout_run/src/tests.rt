// Runs that are stopped after a heap call, runs that no call stops, and their images. The guests were assembled by GNU as; malloc
// stands at 0x10000, free at 0x10004 and memalign at 0x10008, and the words below from 0x10010 on.
use crate::{Ending, Ran, RunRefusal, run_one};
use ex_io::{SureSink, SureSource, Tape};
use exact_heap::Place;
use infinite_heap::{Bytes, HeapCall, HeapName, HeapNames, Program, Segment, Segments};
use patch_table::Patches;
use rv_machine::Settings;
use std::alloc::{AllocError, Global};
use std::process::Abort;
use std::test::Fail;

// Allocates 16 bytes, breaks the canary behind them, frees 0, allocates once more, and exits with 3.
static THREE_CALLS: [u32; 10] = [
    0x01000513, // addi a0, x0, 16
    0xfedff0ef, // jal ra, malloc
    0x00050823, // sb x0, 16(a0)
    0x00000513, // addi a0, x0, 0
    0xfe5ff0ef, // jal ra, free
    0x01000513, // addi a0, x0, 16
    0xfd9ff0ef, // jal ra, malloc
    0x00300513, // addi a0, x0, 3
    0x05d00893, // addi a7, x0, 93
    0x00000073, // ecall
];

// Allocates 2^20 bytes again and again. Call 511 meets no room.
static FILLS: [u32; 10] = [
    0x00100537, // lui a0, 0x100
    0xfedff0ef, // jal ra, malloc
    0xff9ff06f, // jal x0, -8
    0, 0, 0, 0, 0, 0, 0,
];

// Allocates 16 bytes, breaks the canary behind them, frees them, by which that is seen, allocates once more, and exits with 3.
static SIGNALS: [u32; 10] = [
    0x01000513, // addi a0, x0, 16
    0xfedff0ef, // jal ra, malloc
    0x00050823, // sb x0, 16(a0)
    0xfe9ff0ef, // jal ra, free
    0x01000513, // addi a0, x0, 16
    0xfddff0ef, // jal ra, malloc
    0x00300513, // addi a0, x0, 3
    0x05d00893, // addi a7, x0, 93
    0x00000073, // ecall
    0,
];

// Allocates 100 bytes at 1,024, and exits with 3 more than the address has above a multiple of that.
static ALIGNS: [u32; 10] = [
    0x40000513, // addi a0, x0, 1024
    0x06400593, // addi a1, x0, 100
    0xff1ff0ef, // jal ra, memalign
    0x3ff57513, // andi a0, a0, 1023
    0x00350513, // addi a0, a0, 3
    0x05d00893, // addi a7, x0, 93
    0x00000073, // ecall
    0, 0, 0,
];

fn program_of(alloc: Global, words: &[u32; 10]) -> Result<Program, AllocError> {
    let mut bytes = vec![in alloc; 0u8; 16]?;
    for word in words {
        bytes.extend_from_slice(&word.to_le_bytes())?;
    }
    let segment = Segment {
        from: 0x10000,
        len: 4096,
        bytes: Bytes::new(bytes),
        writable: false,
        runs: true,
    };
    let malloc = HeapName {
        at: 0x10000,
        call: HeapCall::Malloc,
    };
    let free = HeapName {
        at: 0x10004,
        call: HeapCall::Free,
    };
    let memalign = HeapName {
        at: 0x10008,
        call: HeapCall::Memalign,
    };
    Ok(Program {
        segments: Segments::new(vec![in alloc; segment]?),
        entry: 0x10010,
        names: HeapNames::new(vec![in alloc; malloc, free, memalign]?),
        tag: 0,
    })
}

// What a run comes to, with the seed 1, no patches and no input.
fn run(
    alloc: Global,
    words: &[u32; 10],
    budget: u32,
    stop_at: Option<u64>,
    imaged: bool,
) -> Result<Ran, RunRefusal> {
    let (Ok(program), Ok(mut tape)) = (
        program_of(alloc, words),
        Tape::new(alloc, &mut SureSource::new(Vec::new(alloc)), true),
    ) else {
        return Err(RunRefusal::Memory);
    };
    let settings = Settings {
        seed: 1,
        zero: false,
        patches: Patches::new(alloc),
    };
    run_one(
        alloc,
        program,
        &[],
        settings,
        budget as u64,
        &mut tape,
        &mut SureSource::new(Vec::new(alloc)),
        &mut SureSink::new(alloc),
        &mut SureSink::new(alloc),
        stop_at,
        imaged,
    )
}

// How a run ends, its steps, allocations, frees and signals, and when the first of them was seen.
type Told = (Ending, [u64; 4], Option<Place>);

// The place of an image, its clock, its rows and its broken bytes.
type Pictured = (Place, u64, usize, usize);

fn told(ran: &Ran) -> Told {
    (
        ran.ending,
        [ran.steps, ran.clock, ran.frees, ran.signals],
        ran.first,
    )
}

fn pictured(ran: &Ran) -> Option<Pictured> {
    ran.image.as_ref().map(|image| {
        (
            image.place,
            image.clock,
            image.rows.len(),
            image.broken.len(),
        )
    })
}

const EXIT: Ending = Ending::Exit { code: 3 };

const ROOM: Ending = Ending::Room {
    used: 1_069_547_520,
    wanted: 1_073_741_824,
};

#[derive(Clone, Copy, Debug, Drop)]
enum Guest {
    ThreeCalls,
    Fills,
    Signals,
    Aligns,
}

fn words_of(guest: Guest) -> &'static [u32; 10] {
    match guest {
        Guest::ThreeCalls => &THREE_CALLS,
        Guest::Fills => &FILLS,
        Guest::Signals => &SIGNALS,
        Guest::Aligns => &ALIGNS,
    }
}

// A guest, the budget, the call to stop at, how the run ends, and its steps, allocations and signals.
type Case = (Guest, u32, Option<u64>, Ending, [u64; 3]);

static CASES: [Case; 14] = [
    (Guest::ThreeCalls, 100, None, EXIT, [13, 2, 1]),
    (Guest::ThreeCalls, 100, Some(0), EXIT, [13, 2, 1]),
    (Guest::ThreeCalls, 100, Some(1), Ending::Stopped, [3, 1, 0]),
    (Guest::ThreeCalls, 100, Some(2), Ending::Stopped, [7, 1, 0]),
    (Guest::ThreeCalls, 100, Some(3), Ending::Stopped, [10, 2, 0]),
    (Guest::ThreeCalls, 100, Some(4), EXIT, [13, 2, 1]),
    (Guest::ThreeCalls, 100, Some(u64::MAX), EXIT, [13, 2, 1]),
    (Guest::ThreeCalls, 10, Some(3), Ending::Stopped, [10, 2, 0]),
    (Guest::ThreeCalls, 9, Some(3), Ending::Budget, [9, 1, 1]),
    (Guest::ThreeCalls, 0, Some(1), Ending::Budget, [0, 0, 0]),
    (
        Guest::Fills,
        4000,
        Some(511),
        Ending::Stopped,
        [2042, 510, 0],
    ),
    (Guest::Fills, 4000, Some(512), ROOM, [2042, 510, 0]),
    (Guest::Aligns, 100, None, EXIT, [8, 1, 0]),
    (Guest::Aligns, 100, Some(1), Ending::Stopped, [4, 1, 0]),
];

#[test]
fn runs_stop_right_after_the_heap_call(rt: HostRuntime) -> Result<(), Fail> {
    let alloc = rt.alloc();
    for (guest, budget, stop_at, ending, [steps, clock, signals]) in CASES {
        let first = if signals == 0 { None } else { Some(Place::End) };
        let want = (ending, [steps, clock, 0, signals], first);
        let ran = run(alloc, words_of(guest), budget, stop_at, false);
        assert_eq!(rt; ran.as_ref().map(told), Ok(want), "{stop_at:?}");
        assert_eq!(rt;
            ran.ok().and_then(|ran| pictured(&ran)),
            None,
            "{stop_at:?}"
        );
    }
    Ok(())
}

const STOPPED: Ending = Ending::Stopped;

// The budget, the call to stop at, how the run of `Signals` ends, its steps, allocations, frees and signals, when the first was
// seen, and its image.
type ImageCase = (u32, Option<u64>, Told, Pictured);

static IMAGE_CASES: [ImageCase; 12] = [
    // call 2 has the first signal
    (
        100,
        None,
        (EXIT, [12, 2, 1, 1], AT_2),
        (Place::Call(2), 1, 2, 1),
    ),
    (
        6,
        None,
        (Ending::Budget, [6, 1, 1, 1], AT_2),
        (Place::Call(2), 1, 2, 1),
    ),
    // by then it has not come
    (
        5,
        None,
        (Ending::Budget, [5, 1, 0, 1], AT_END),
        (Place::End, 1, 1, 1),
    ),
    (
        0,
        None,
        (Ending::Budget, [0, 0, 0, 0], None),
        (Place::End, 0, 0, 0),
    ),
    (
        100,
        Some(1),
        (STOPPED, [3, 1, 0, 0], None),
        (Place::Call(1), 1, 1, 0),
    ),
    (
        100,
        Some(2),
        (STOPPED, [6, 1, 1, 1], AT_2),
        (Place::Call(2), 1, 2, 1),
    ),
    (
        100,
        Some(3),
        (STOPPED, [9, 2, 1, 1], AT_2),
        (Place::Call(3), 2, 3, 1),
    ),
    // no such call is made
    (
        100,
        Some(0),
        (EXIT, [12, 2, 1, 1], AT_2),
        (Place::End, 2, 3, 1),
    ),
    (
        100,
        Some(4),
        (EXIT, [12, 2, 1, 1], AT_2),
        (Place::End, 2, 3, 1),
    ),
    (
        100,
        Some(u64::MAX),
        (EXIT, [12, 2, 1, 1], AT_2),
        (Place::End, 2, 3, 1),
    ),
    (
        8,
        Some(3),
        (Ending::Budget, [8, 1, 1, 1], AT_2),
        (Place::End, 1, 2, 1),
    ),
    (
        0,
        Some(1),
        (Ending::Budget, [0, 0, 0, 0], None),
        (Place::End, 0, 0, 0),
    ),
];

const AT_2: Option<Place> = Some(Place::Call(2));

const AT_END: Option<Place> = Some(Place::End);

#[test]
fn images_are_of_the_first_signal_or_the_stop_or_the_end(rt: HostRuntime) -> Result<(), Fail> {
    let alloc = rt.alloc();
    for (budget, stop_at, want, image) in IMAGE_CASES {
        let ran = run(alloc, &SIGNALS, budget, stop_at, true);
        assert_eq!(rt; ran.as_ref().map(told), Ok(want), "{budget} {stop_at:?}");
        assert_eq!(rt;
            ran.ok().and_then(|ran| pictured(&ran)),
            Some(image),
            "{budget} {stop_at:?}"
        );
    }
    Ok(())
}
