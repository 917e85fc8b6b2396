// Guests with heap functions: what they print, how they end, what is counted, and the patches that they are given.
use super::Row::{self, Answers, Ran, Refused};
use super::all_hold;
use std::test::Fail;

static ALIKE_UNDER_EACH_SEED: &[Row] = &[
    Ran(
        "run copies_input",
        0,
        b"",
        [1, 0, 0],
        "exit 0 after 13 steps",
    ),
    Ran(
        "run empty_objects
         run --seed 2 empty_objects
         run --seed 3 empty_objects
         run --seed 2020 empty_objects",
        1,
        b"",
        [2, 0, 0],
        "exit 1 after 11 steps",
    ),
    Ran(
        "run largest
         run --seed 2 largest
         run --seed 2020 largest
         run --patches widest largest",
        0,
        b"",
        [1, 0, 0],
        "exit 0 after 12 steps",
    ),
    Ran(
        "run --patches pad1 overflows
         run --patches four2 overflows
         run --patches pad1 --seed 3 overflows
         run --seed 0 --patches pad1 overflows
         run --seed 1 --patches pad1 overflows
         run --seed 2 --patches pad1 overflows
         run --seed 3 --patches pad1 overflows
         run --seed 4 --patches pad1 overflows
         run --seed 5 --patches pad1 overflows
         run --seed 6 --patches pad1 overflows
         run --seed 7 --patches pad1 overflows
         run --seed 8 --patches pad1 overflows
         run --seed 9 --patches pad1 overflows
         run --seed 10 --patches pad1 overflows
         run --seed 11 --patches pad1 overflows
         run --seed 12 --patches pad1 overflows
         run --seed 13 --patches pad1 overflows
         run --seed 14 --patches pad1 overflows
         run --seed 15 --patches pad1 overflows
         run --seed 17712909713610808234 --patches pad1 overflows
         run --seed 17851655661675046594 --patches pad1 overflows
         run --seed 11513718950527929656 --patches pad1 overflows
         run --seed 2020 --patches pad1 overflows",
        0,
        b"o",
        [1, 1, 0],
        "exit 0 after 18 steps",
    ),
    Ran(
        "run frees_twice
         run --seed 0 frees_twice
         run --seed 1 frees_twice
         run --seed 2 frees_twice
         run --seed 3 frees_twice
         run --seed 4 frees_twice
         run --seed 5 frees_twice
         run --seed 6 frees_twice
         run --seed 7 frees_twice
         run --seed 8 frees_twice
         run --seed 9 frees_twice
         run --seed 10 frees_twice
         run --seed 11 frees_twice
         run --seed 12 frees_twice
         run --seed 13 frees_twice
         run --seed 14 frees_twice
         run --seed 15 frees_twice
         run --seed 3451446737949981885 frees_twice
         run --seed 1491401365605109989 frees_twice
         run --seed 11711086114305850987 frees_twice
         run --seed 2020 frees_twice
         run --patches defers_first frees_twice",
        0,
        b"",
        [1, 1, 0],
        "exit 0 after 13 steps",
    ),
    Ran(
        "run frees_again
         run --seed 2 frees_again
         run --seed 3 frees_again",
        0,
        b"",
        [2, 1, 0],
        "exit 0 after 16 steps",
    ),
    Ran(
        "run --patches defer2 dangles
         run --seed 0 --patches defer2 dangles
         run --seed 1 --patches defer2 dangles
         run --seed 2 --patches defer2 dangles
         run --seed 3 --patches defer2 dangles
         run --seed 4 --patches defer2 dangles
         run --seed 5 --patches defer2 dangles
         run --seed 6 --patches defer2 dangles
         run --seed 7 --patches defer2 dangles
         run --seed 8 --patches defer2 dangles
         run --seed 9 --patches defer2 dangles
         run --seed 10 --patches defer2 dangles
         run --seed 11 --patches defer2 dangles
         run --seed 12 --patches defer2 dangles
         run --seed 13 --patches defer2 dangles
         run --seed 14 --patches defer2 dangles
         run --seed 15 --patches defer2 dangles
         run --seed 9164325045648539753 --patches defer2 dangles
         run --seed 9956169419595926138 --patches defer2 dangles
         run --seed 2249041075057952730 --patches defer2 dangles
         run --seed 2020 --patches defer2 dangles",
        0,
        b"\x07",
        [2, 1, 0],
        "exit 0 after 23 steps",
    ),
    Ran(
        "run --patches defer3 dangles_on
         run --seed 2 --patches defer3 dangles_on",
        0,
        b"\x07",
        [3, 1, 0],
        "exit 0 after 26 steps",
    ),
    Ran(
        "run copies_pointer
         run --seed 0 copies_pointer
         run --seed 1 copies_pointer
         run --seed 2 copies_pointer
         run --seed 3 copies_pointer
         run --seed 4 copies_pointer
         run --seed 5 copies_pointer
         run --seed 6 copies_pointer
         run --seed 7 copies_pointer
         run --seed 8 copies_pointer
         run --seed 9 copies_pointer
         run --seed 10 copies_pointer
         run --seed 11 copies_pointer
         run --seed 12 copies_pointer
         run --seed 13 copies_pointer
         run --seed 14 copies_pointer
         run --seed 15 copies_pointer
         run --seed 3781229758296157502 copies_pointer
         run --seed 2278738890569520816 copies_pointer
         run --seed 13910573416736053168 copies_pointer
         run --seed 2020 copies_pointer",
        0,
        b"k",
        [2, 0, 0],
        "exit 0 after 34 steps",
    ),
    Ran(
        "run finds_zero
         run --seed 2 finds_zero
         run --zero finds_zero
         run --zero --seed 0 finds_zero
         run --zero --seed 1 finds_zero
         run --zero --seed 2 finds_zero
         run --zero --seed 3 finds_zero
         run --zero --seed 4 finds_zero
         run --zero --seed 5 finds_zero
         run --zero --seed 6 finds_zero
         run --zero --seed 7 finds_zero
         run --zero --seed 8 finds_zero
         run --zero --seed 9 finds_zero
         run --zero --seed 10 finds_zero
         run --zero --seed 11 finds_zero
         run --zero --seed 12 finds_zero
         run --zero --seed 13 finds_zero
         run --zero --seed 14 finds_zero
         run --zero --seed 15 finds_zero
         run --zero --seed 9599962833378005268 finds_zero
         run --zero --seed 5109588573956025063 finds_zero
         run --zero --seed 9333245914014188335 finds_zero",
        8,
        b"",
        [1, 0, 0],
        "exit 8 after 37 steps",
    ),
    Ran(
        "run counts
         run --seed 2 counts
         run --seed 2020 counts",
        0,
        b"",
        [2, 2, 0],
        "exit 0 after 29 steps",
    ),
    Ran(
        "run returns_odd
         run --seed 2 returns_odd",
        1,
        b"",
        [1, 0, 0],
        "exit 1 after 8 steps",
    ),
    Ran(
        "run returns_amiss
         run --seed 2 returns_amiss",
        123,
        b"",
        [0, 0, 0],
        "fault jump pc 0x00010000 addr 0x00010012 after 4 steps",
    ),
];

#[test]
fn ends_alike_under_each_seed(rt: HostRuntime) -> Result<(), Fail> {
    all_hold(rt.alloc(), ALIKE_UNDER_EACH_SEED)
}

// The canary of the seed 0 is 0xe4c14789, that of 1 is 0xe2393051; those of 2, 3 and 2020 have the lowest bytes a9, 91
// and 89.
static BY_THE_SEED: &[Row] = &[
    Ran(
        "run prints_pointer",
        0,
        b"\x50\xf3\x00\x40",
        [1, 0, 0],
        "exit 0 after 13 steps",
    ),
    Ran(
        "run --seed 2 prints_pointer",
        0,
        b"\x40\xb8\x00\x40",
        [1, 0, 0],
        "exit 0 after 13 steps",
    ),
    Ran(
        "run --seed 3 prints_pointer",
        0,
        b"\x00\x05\x00\x40",
        [1, 0, 0],
        "exit 0 after 13 steps",
    ),
    Ran(
        "run --seed 2020 prints_pointer",
        0,
        b"\xf0\xff\x00\x40",
        [1, 0, 0],
        "exit 0 after 13 steps",
    ),
    Ran(
        "run dangles
         run --patches defer1 dangles",
        0,
        b"\x51",
        [2, 1, 0],
        "exit 0 after 23 steps",
    ),
    Ran(
        "run --seed 2 dangles",
        0,
        b"\xa9",
        [2, 1, 0],
        "exit 0 after 23 steps",
    ),
    Ran(
        "run --patches defer2 dangles_on",
        0,
        b"\x51",
        [3, 1, 0],
        "exit 0 after 26 steps",
    ),
    Ran(
        "run --seed 2 --patches defer2 dangles_on",
        0,
        b"\xa9",
        [3, 1, 0],
        "exit 0 after 26 steps",
    ),
    Ran(
        "run --seed 3 --patches defer2 dangles_on",
        0,
        b"\x91",
        [3, 1, 0],
        "exit 0 after 26 steps",
    ),
    Ran(
        "run --seed 2020 --patches defer2 dangles_on",
        0,
        b"\x89",
        [3, 1, 0],
        "exit 0 after 26 steps",
    ),
    Ran(
        "run prints_unset",
        0,
        b"\
            \x51\x30\x39\xe2\x51\x30\x39\xe2\x51\x30\x39\xe2\x51\x30\x39\xe2\
            \x51\x30\x39\xe2\x51\x30\x39\xe2\x51\x30\x39\xe2\x51\x30\x39\xe2",
        [1, 1, 0],
        "exit 0 after 20 steps",
    ),
    Ran(
        "run --zero prints_unset",
        0,
        b"\
            \0\0\0\0\0\0\0\0\0\0\0\0\0\0\0\0\
            \x51\x30\x39\xe2\x51\x30\x39\xe2\x51\x30\x39\xe2\x51\x30\x39\xe2",
        [1, 1, 0],
        "exit 0 after 20 steps",
    ),
    Ran(
        "run --seed 0 --zero prints_unset",
        0,
        b"\
            \0\0\0\0\0\0\0\0\0\0\0\0\0\0\0\0\
            \x89\x47\xc1\xe4\x89\x47\xc1\xe4\x89\x47\xc1\xe4\x89\x47\xc1\xe4",
        [1, 1, 0],
        "exit 0 after 20 steps",
    ),
    Ran(
        "run resizes",
        0,
        b"\
            \0\0\0\0\0\0\0\0\0\0\0\0\0\0\0\0\
            \0\0\0\0\0\0\0\0\0\0\0\0\0\0\0a\
            \x51\x30\x39\xe2\x51\x30\x39\xe2\x51\x30\x39\xe2\x51\x30\x39\xe2\
            \x51\x30\x39\xe2\x51\x30\x39\xe2\x51\x30\x39\xe2\x51\x30\x39\xe2\
            \x51\x30\x39\xe2\x51\x30\x39\xe2\x51\x30\x39\xe2\x51\x30\x39\xe2",
        [2, 1, 0],
        "exit 0 after 41 steps",
    ),
    Ran(
        "run --seed 0 resizes",
        0,
        b"\
            \0\0\0\0\0\0\0\0\0\0\0\0\0\0\0\0\
            \0\0\0\0\0\0\0\0\0\0\0\0\0\0\0a\
            \x89\x47\xc1\xe4\x89\x47\xc1\xe4\x89\x47\xc1\xe4\x89\x47\xc1\xe4\
            \x89\x47\xc1\xe4\x89\x47\xc1\xe4\x89\x47\xc1\xe4\x89\x47\xc1\xe4\
            \x89\x47\xc1\xe4\x89\x47\xc1\xe4\x89\x47\xc1\xe4\x89\x47\xc1\xe4",
        [2, 1, 0],
        "exit 0 after 41 steps",
    ),
    Ran(
        "run --zero resizes
         run --zero --seed 2 resizes",
        0,
        b"\
            \0\0\0\0\0\0\0\0\0\0\0\0\0\0\0\0\
            \0\0\0\0\0\0\0\0\0\0\0\0\0\0\0a\
            \0\0\0\0\0\0\0\0\0\0\0\0\0\0\0\0\
            \0\0\0\0\0\0\0\0\0\0\0\0\0\0\0\0\
            \0\0\0\0\0\0\0\0\0\0\0\0\0\0\0\0",
        [2, 1, 0],
        "exit 0 after 41 steps",
    ),
];

#[test]
fn prints_addresses_and_canaries_by_the_seed(rt: HostRuntime) -> Result<(), Fail> {
    all_hold(rt.alloc(), BY_THE_SEED)
}

// A broken slot is found by the free of its neighbour, by a placement that draws it, or at the end, and counts once.
static BROKEN_SLOTS: &[Row] = &[
    Ran(
        "run overflows
         run --seed 2 overflows
         run --seed 3 overflows",
        0,
        b"o",
        [1, 1, 1],
        "exit 0 after 18 steps",
    ),
    Ran(
        "run --seed 2020 overflows",
        123,
        b"",
        [1, 0, 0],
        "fault store pc 0x00010018 addr 0x40010000 after 3 steps",
    ),
    Ran(
        "run restores
         run --seed 2 restores
         run --seed 3 restores",
        0,
        b"",
        [1, 1, 0],
        "exit 0 after 11 steps",
    ),
    Ran(
        "run --seed 2020 restores",
        123,
        b"",
        [1, 0, 0],
        "fault load pc 0x00010018 addr 0x40010000 after 3 steps",
    ),
    Ran(
        "run breaks_canary
         run --seed 2 breaks_canary",
        123,
        b"",
        [1, 0, 1],
        "fault break pc 0x0001001c addr 0x0001001c after 4 steps",
    ),
    Ran(
        "run --steps 4 breaks_canary",
        124,
        b"",
        [1, 0, 1],
        "budget after 4 steps",
    ),
    Ran(
        "run --steps 3 breaks_canary",
        124,
        b"",
        [1, 0, 0],
        "budget after 3 steps",
    ),
    Ran(
        "run --steps 2 breaks_canary",
        124,
        b"",
        [0, 0, 0],
        "budget after 2 steps",
    ),
    Ran(
        "run breaks_100
         run --seed 2 breaks_100",
        0,
        b"",
        [1, 0, 100],
        "exit 0 after 308 steps",
    ),
    Ran(
        "run --seed 3 breaks_100",
        0,
        b"",
        [1, 0, 99],
        "exit 0 after 308 steps",
    ),
    Ran(
        "run breaks_all
         run --seed 2 breaks_all
         run --seed 3 breaks_all
         run --seed 2020 breaks_all",
        0,
        b"",
        [2, 0, 3],
        "exit 0 after 28 steps",
    ),
    Ran(
        "run reentrant
         run --seed 2 reentrant
         run --seed 3 reentrant",
        7,
        b"",
        [3, 2, 1],
        "exit 7 after 25 steps",
    ),
];

#[test]
fn counts_broken_slots(rt: HostRuntime) -> Result<(), Fail> {
    all_hold(rt.alloc(), BROKEN_SLOTS)
}

static FRONTS_AND_ALIGNMENTS: &[Row] = &[
    Ran(
        "run --patches front16 underflows
         run --seed 0 --patches front16 underflows
         run --seed 1 --patches front16 underflows
         run --seed 2 --patches front16 underflows
         run --seed 3 --patches front16 underflows
         run --seed 4 --patches front16 underflows
         run --seed 5 --patches front16 underflows
         run --seed 6 --patches front16 underflows
         run --seed 7 --patches front16 underflows
         run --seed 8 --patches front16 underflows
         run --seed 9 --patches front16 underflows
         run --seed 10 --patches front16 underflows
         run --seed 11 --patches front16 underflows
         run --seed 12 --patches front16 underflows
         run --seed 13 --patches front16 underflows
         run --seed 14 --patches front16 underflows
         run --seed 15 --patches front16 underflows
         run --seed 4402 --patches front16 underflows",
        0,
        b"o",
        [1, 1, 0],
        "exit 0 after 18 steps",
    ),
    Ran(
        "run underflows
         run --seed 2 underflows
         run --seed 3 underflows",
        0,
        b"o",
        [1, 1, 1],
        "exit 0 after 18 steps",
    ),
    Ran(
        "run --seed 4402 underflows",
        123,
        b"",
        [1, 0, 0],
        "fault store pc 0x00010018 addr 0x3ffffff0 after 3 steps",
    ),
    Ran(
        "run --seed 0 aligns
         run --seed 1 aligns
         run --seed 2 aligns
         run --seed 3 aligns
         run --seed 4 aligns
         run --seed 5 aligns
         run --seed 6 aligns
         run --seed 7 aligns
         run --seed 8 aligns
         run --seed 9 aligns
         run --seed 10 aligns
         run --seed 11 aligns
         run --seed 12 aligns
         run --seed 13 aligns
         run --seed 14 aligns
         run --seed 15 aligns",
        0,
        b"",
        [1, 0, 0],
        "exit 0 after 9 steps",
    ),
    Ran(
        "run --seed 0 aligns_to_24
         run --seed 1 aligns_to_24
         run --seed 2 aligns_to_24
         run --seed 3 aligns_to_24
         run --seed 4 aligns_to_24
         run --seed 5 aligns_to_24
         run --seed 6 aligns_to_24
         run --seed 7 aligns_to_24
         run --seed 8 aligns_to_24
         run --seed 9 aligns_to_24
         run --seed 10 aligns_to_24
         run --seed 11 aligns_to_24
         run --seed 12 aligns_to_24
         run --seed 13 aligns_to_24
         run --seed 14 aligns_to_24
         run --seed 15 aligns_to_24",
        0,
        b"",
        [0, 0, 0],
        "exit 0 after 9 steps",
    ),
];

// The seed 4402 draws the first slot of all.
#[test]
fn gives_room_before_objects_and_aligns_them(rt: HostRuntime) -> Result<(), Fail> {
    all_hold(rt.alloc(), FRONTS_AND_ALIGNMENTS)
}

// 510 objects are half of the 1,020 slots of eight miniheaps, and the ninth has no room.
static WITHOUT_ROOM: &[Row] = &[
    Ran(
        "run fills",
        125,
        b"",
        [510, 0, 0],
        "room used 1069547520 wanted 1073741824 after 2042 steps",
    ),
    Answers(
        "run --seed 2 prints_and_fills",
        125,
        b"o",
        "eexterm: heap allocations 511 frees 0 signals 1
exterm: room used 1069613056 wanted 1073741824 after 2059 steps
",
    ),
];

#[test]
fn ends_where_the_heap_has_no_room(rt: HostRuntime) -> Result<(), Fail> {
    all_hold(rt.alloc(), WITHOUT_ROOM)
}

static PATCH_FILES: &[Row] = &[
    Refused("run --patches cut overflows", 122, "patches 1 line 2"),
    Refused(
        "run --seed 2 --patches falls overflows",
        122,
        "patches 1 order line 3",
    ),
    Refused("run --patches zero_pad hi", 122, "patches 1 limit line 2"),
    Refused("run --patches empty hi", 122, "patches 1 head"),
    Refused("run --patches falls flags", 121, "elf flags"),
    Refused("run --patches falls nothing", 113, "name 4 absent"),
    Refused("run --patches p a", 113, "name 3 absent"),
    Refused("run --seed 2 --patches p --zero a", 113, "name 5 absent"),
    Refused("run --patches long a", 113, "name 3 long"),
];

#[test]
fn refuses_patch_files(rt: HostRuntime) -> Result<(), Fail> {
    all_hold(rt.alloc(), PATCH_FILES)
}
