// Heap images as files: how they are shown, what they call for and refused.
use super::Row::{self, Answers, Leaves, Refused};
use super::all_hold;
use super::guests::File::{self, Joined};
use std::test::Fail;

// The parts of images. In each an object of 16 bytes was freed, or there is none.
const ONE: &[u8] = b"EXIMAGE1\x07\0\0\0\0\0\0\0";

const TWO: &[u8] = b"EXIMAGE2\x07\0\0\0\0\0\0\0";

const SEED_1: &[u8] = b"\x01\0\0\0\0\0\0\0";

const SEED_2: &[u8] = b"\x02\0\0\0\0\0\0\0";

const SEED_3: &[u8] = b"\x03\0\0\0\0\0\0\0";
// The place and the clock.
const START: &[u8] = b"\xff\xff\xff\xff\xff\xff\xff\xff\0\0\0\0\0\0\0\0";

const END: &[u8] = b"\xff\xff\xff\xff\xff\xff\xff\xff\x01\0\0\0\0\0\0\0";

const CALL_2: &[u8] = b"\x02\0\0\0\0\0\0\0\x01\0\0\0\0\0\0\0";

const TEXT_1: &[u8] = b"\x11\0\0\0exterm-patches 1\n";

const TEXT_2: &[u8] = b"\x11\0\0\0exterm-patches 2\n";

const NOTHING: &[u8] = b"\0\0\0\0\0\0\0\0\0\0\0\0";

const MINI: &[u8] = b"\x01\0\0\0\x04\0\0\0";
// The numbers of rows and of broken bytes.
const N1: &[u8] = b"\x01\0\0\0";

const N2: &[u8] = b"\x02\0\0\0";
// Where the object lies under a seed, and the slots before and behind it.
const AT_1: &[u8] = b"\x50\xf3\0\x40";

const AT_2: &[u8] = b"\x40\xb8\0\x40";

const AT_3: &[u8] = b"\0\x05\0\x40";

const PAST_1: &[u8] = b"\x60\xf3\0\x40";

const PAST_2: &[u8] = b"\x50\xb8\0\x40";

const PAST_3: &[u8] = b"\x10\x05\0\x40";

const BEFORE_1: &[u8] = b"\x40\xf3\0\x40";

const BEFORE_2: &[u8] = b"\x30\xb8\0\x40";

const BEFORE_3: &[u8] = b"\xf0\x04\0\x40";
// The rest of its row, and that of a bad slot's.
const FREED_ONE: &[u8] =
    b"\x02\0\0\0\0\0\0\0\0\x10\0\0\0\x3d\x4c\x32\x22\x49\x72\x0b\x23\x01\0\0\0\0\0\0\0";

const BAD_ONE: &[u8] = b"\x04\0\0\0\0\0\0\0\0\0\0\0\0\0\0\0\0\0\0\0\0\0\0\0\0\0\0\0\0";

const FREED: &[u8] =
    b"\x02\0\0\0\0\0\0\0\0\x10\0\0\0\0\0\0\0\x3d\x4c\x32\x22\x49\x72\x0b\x23\x01\0\0\0\0\0\0\0";

const BAD: &[u8] = b"\x04\0\0\0\0\0\0\0\0\0\0\0\0\0\0\0\0\0\0\0\0\0\0\0\0\0\0\0\0\0\0\0\0";
// The broken byte's value.
const ZERO: &[u8] = b"\0";

/// The images by their names.
pub static IMAGES: &[(&str, File)] = &[
    ("f", Joined(&[TWO, SEED_1, START, TEXT_2, NOTHING])),
    ("f_one", Joined(&[ONE, SEED_1, START, TEXT_1, NOTHING])),
    (
        "f_cut",
        Joined(&[TWO, SEED_1, START, TEXT_2, b"\0\0\0\0\0\0\0\0\0\0\0"]),
    ),
    (
        "f_more",
        Joined(&[TWO, SEED_1, START, TEXT_2, NOTHING, ZERO]),
    ),
    (
        "mark0",
        Joined(&[
            b"\0XIMAGE1\x07\0\0\0\0\0\0\0",
            SEED_1,
            START,
            TEXT_1,
            NOTHING,
        ]),
    ),
    (
        "mark3",
        Joined(&[
            b"EXIMAGE3\x07\0\0\0\0\0\0\0",
            SEED_1,
            START,
            TEXT_2,
            NOTHING,
        ]),
    ),
    (
        "text0",
        Joined(&[
            ONE,
            SEED_1,
            START,
            b"\x11\0\0\0\0xterm-patches 1\n",
            NOTHING,
        ]),
    ),
    (
        "past1",
        Joined(&[
            TWO, SEED_1, CALL_2, TEXT_2, MINI, N2, AT_1, FREED, PAST_1, BAD, N1, PAST_1, ZERO,
        ]),
    ),
    (
        "one1",
        Joined(&[
            ONE, SEED_1, CALL_2, TEXT_1, MINI, N2, AT_1, FREED_ONE, PAST_1, BAD_ONE, N1, PAST_1,
            ZERO,
        ]),
    ),
    (
        "class3",
        Joined(&[
            ONE,
            SEED_1,
            CALL_2,
            TEXT_1,
            b"\x01\0\0\0\x03\0\0\0",
            N2,
            AT_1,
            FREED_ONE,
            PAST_1,
            BAD_ONE,
            N1,
            PAST_1,
            ZERO,
        ]),
    ),
    (
        "state5",
        Joined(&[
            ONE,
            SEED_1,
            CALL_2,
            TEXT_1,
            MINI,
            N2,
            AT_1,
            b"\x05\0\0\0\0\0\0\0\0\x10\0\0\0\x3d\x4c\x32\x22\x49\x72\x0b\x23\x01\0\0\0\0\0\0\0",
            PAST_1,
            BAD_ONE,
            N1,
            PAST_1,
            ZERO,
        ]),
    ),
    (
        "odd_front",
        Joined(&[
            TWO,
            SEED_1,
            CALL_2,
            TEXT_2,
            MINI,
            N2,
            AT_1,
            b"\x02\0\0\0\0\0\0\0\0\x10\0\0\0\x08\0\0\0\x3d\x4c\x32\x22\x49\x72\x0b\x23\x01\0\0\0\0\0\0\0",
            PAST_1,
            BAD,
            N1,
            PAST_1,
            ZERO,
        ]),
    ),
    (
        "past2",
        Joined(&[
            TWO, SEED_2, CALL_2, TEXT_2, MINI, N2, AT_2, FREED, PAST_2, BAD, N1, PAST_2, ZERO,
        ]),
    ),
    (
        "past3",
        Joined(&[
            TWO, SEED_3, CALL_2, TEXT_2, MINI, N2, AT_3, FREED, PAST_3, BAD, N1, PAST_3, ZERO,
        ]),
    ),
    (
        "one2",
        Joined(&[
            ONE, SEED_2, CALL_2, TEXT_1, MINI, N2, AT_2, FREED_ONE, PAST_2, BAD_ONE, N1, PAST_2,
            ZERO,
        ]),
    ),
    (
        "one3",
        Joined(&[
            ONE, SEED_3, CALL_2, TEXT_1, MINI, N2, AT_3, FREED_ONE, PAST_3, BAD_ONE, N1, PAST_3,
            ZERO,
        ]),
    ),
    (
        "before1",
        Joined(&[
            TWO, SEED_1, CALL_2, TEXT_2, MINI, N2, BEFORE_1, BAD, AT_1, FREED, N1, BEFORE_1, ZERO,
        ]),
    ),
    (
        "before2",
        Joined(&[
            TWO, SEED_2, CALL_2, TEXT_2, MINI, N2, BEFORE_2, BAD, AT_2, FREED, N1, BEFORE_2, ZERO,
        ]),
    ),
    (
        "before3",
        Joined(&[
            TWO, SEED_3, CALL_2, TEXT_2, MINI, N2, BEFORE_3, BAD, AT_3, FREED, N1, BEFORE_3, ZERO,
        ]),
    ),
    (
        "after1",
        Joined(&[
            TWO, SEED_1, END, TEXT_2, MINI, N1, AT_1, FREED, N1, AT_1, ZERO,
        ]),
    ),
    (
        "after2",
        Joined(&[
            TWO, SEED_2, END, TEXT_2, MINI, N1, AT_2, FREED, N1, AT_2, ZERO,
        ]),
    ),
    (
        "clock3",
        Joined(&[
            TWO,
            SEED_2,
            b"\xff\xff\xff\xff\xff\xff\xff\xff\x03\0\0\0\0\0\0\0",
            TEXT_2,
            MINI,
            N1,
            AT_2,
            FREED,
            N1,
            AT_2,
            ZERO,
        ]),
    ),
    (
        "byte1",
        Joined(&[
            TWO, SEED_2, END, TEXT_2, MINI, N1, AT_2, FREED, N1, AT_2, b"\x01",
        ]),
    ),
    (
        "padded1",
        Joined(&[
            TWO,
            SEED_1,
            CALL_2,
            b"\x20\0\0\0exterm-patches 2\npad 22324c3d 9\n",
            MINI,
            N2,
            AT_1,
            FREED,
            PAST_1,
            BAD,
            N1,
            PAST_1,
            ZERO,
        ]),
    ),
    (
        "padded2",
        Joined(&[
            TWO,
            SEED_2,
            CALL_2,
            b"\x20\0\0\0exterm-patches 2\npad 22324c3d 9\n",
            MINI,
            N2,
            AT_2,
            FREED,
            PAST_2,
            BAD,
            N1,
            PAST_2,
            ZERO,
        ]),
    ),
    (
        "other1",
        Joined(&[
            TWO,
            SEED_1,
            END,
            b"\x23\0\0\0exterm-patches 2\nfront 00000001 32\n",
            MINI,
            N1,
            AT_1,
            FREED,
            N1,
            AT_1,
            ZERO,
        ]),
    ),
    (
        "other2",
        Joined(&[
            TWO,
            SEED_2,
            END,
            b"\x23\0\0\0exterm-patches 2\nfront 00000001 32\n",
            MINI,
            N1,
            AT_2,
            FREED,
            N1,
            AT_2,
            ZERO,
        ]),
    ),
    (
        "tag8",
        Joined(&[
            b"EXIMAGE2\x08\0\0\0\0\0\0\0",
            SEED_2,
            CALL_2,
            TEXT_2,
            MINI,
            N2,
            AT_2,
            FREED,
            PAST_2,
            BAD,
            N1,
            PAST_2,
            ZERO,
        ]),
    ),
    (
        "freed2",
        Joined(&[
            TWO,
            SEED_2,
            CALL_2,
            TEXT_2,
            MINI,
            N2,
            AT_2,
            b"\x02\0\0\0\0\0\0\0\0\x10\0\0\0\0\0\0\0\x3d\x4c\x32\x22\x02\x72\x0b\x23\x01\0\0\0\0\0\0\0",
            PAST_2,
            BAD,
            N1,
            PAST_2,
            ZERO,
        ]),
    ),
];

static SHOWN: &[Row] = &[
    // The image at the end of a run that placed no object has 73 bytes.
    Answers(
        "show f\nshow f_one",
        0,
        b"image seed 1 place end clock 0 miniheaps 0 rows 0 broken 0\n",
        "",
    ),
    Answers(
        "show past1\nshow one1",
        0,
        b"image seed 1 place 2 clock 1 miniheaps 1 rows 2 broken 1
mini 0 class 4 base 0x40000000 slots 4096
slot 0x4000f350 released object 0 size 16 front 0 site 22324c3d free 230b7249 freed 1
slot 0x4000f360 bad
break 0x4000f360 00
",
        "",
    ),
    Refused("show f_cut", 119, "image 1 short"),
    Refused("show f_more", 119, "image 1 tail"),
    // The last two are patch files, and begin neither as an ELF file nor as an image.
    Refused(
        "show mark0\nshow mark3\nshow four\nshow empty",
        119,
        "image 1 head",
    ),
    Refused("show text0", 119, "image 1 bad at 44"),
    Refused("show class3", 119, "image 1 bad at 65"),
    Refused("show state5", 119, "image 1 bad at 77"),
    Refused("show odd_front", 119, "image 1 bad at 90"),
    Refused("show nothing", 113, "name 2 absent"),
];

#[test]
fn shows_images_of_both_versions(rt: HostRuntime) -> Result<(), Fail> {
    all_hold(rt.alloc(), SHOWN)
}

static ISOLATED: &[Row] = &[
    Answers(
        "isolate past1 past2 past3\nisolate one1 one2 one3\nisolate past3 one1 past2",
        0,
        b"exterm-patches 2\npad 22324c3d 1\n",
        "exterm: images 3 pads 1 defers 0\n",
    ),
    Answers(
        "isolate before1 before2 before3",
        0,
        b"exterm-patches 2\nfront 22324c3d 16\n",
        "exterm: images 3 pads 1 defers 0\n",
    ),
    Answers(
        "isolate after1 after2",
        0,
        b"exterm-patches 2\ndefer 22324c3d 230b7249 1\n",
        "exterm: images 2 pads 0 defers 1\n",
    ),
    // The greatest clock counts, twice the time since the free, and one more.
    Answers(
        "isolate after1 clock3",
        0,
        b"exterm-patches 2\ndefer 22324c3d 230b7249 5\n",
        "exterm: images 2 pads 0 defers 1\n",
    ),
    // What the old table covers is counted as well.
    Answers(
        "isolate padded1 padded2",
        0,
        b"exterm-patches 2\npad 22324c3d 9\n",
        "exterm: images 2 pads 1 defers 0\n",
    ),
    Answers(
        "isolate other1 other2",
        0,
        b"exterm-patches 2\nfront 00000001 32\ndefer 22324c3d 230b7249 1\n",
        "exterm: images 2 pads 0 defers 1\n",
    ),
    // The images say something else of the object, or of the byte.
    Answers(
        "isolate past1 freed2\nisolate after1 byte1",
        0,
        b"exterm-patches 2\n",
        "exterm: images 2 pads 0 defers 0\n",
    ),
];

#[test]
fn isolates_what_images_share(rt: HostRuntime) -> Result<(), Fail> {
    all_hold(rt.alloc(), ISOLATED)
}

static NOT_ISOLATED: &[Row] = &[
    Refused("isolate f\nisolate past1", 117, "isolate few"),
    Refused(
        "isolate f f\nisolate past1 past2 past1\nisolate past1 after2\nisolate past1 padded2\nisolate past1 tag8",
        117,
        "isolate mixed",
    ),
    Refused("isolate past1 mark0 nothing", 119, "image 2 head"),
    Refused("isolate f_cut", 119, "image 1 short"),
    Refused("isolate past1 past1 state5", 119, "image 3 bad at 77"),
    Refused("isolate past1 nothing mark0", 113, "name 3 absent"),
    Refused("isolate past1 --out p", 120, "words 3 unknown"),
    Leaves(
        "isolate --out p past1 past2",
        (b"", 0),
        [0, 0, 0, 0],
        0,
        b"",
        "exterm: images 2 pads 1 defers 0\n",
        ("p", Some(b"exterm-patches 2\npad 22324c3d 1\n")),
    ),
    Leaves(
        "isolate --out p past1 past1",
        (b"", 0),
        [0, 0, 0, 0],
        117,
        b"",
        "exterm: isolate mixed\n",
        ("p", None),
    ),
    Leaves(
        "isolate --out p past1 past2",
        (b"", 0),
        [0, 0, 0, 2],
        127,
        b"",
        "exterm: outside file\n",
        ("p", None),
    ),
    Leaves(
        "isolate --out p past1 past2",
        (b"", 0),
        [0, 0, 0, 3],
        127,
        b"",
        "exterm: outside file\n",
        ("p", None),
    ),
];

#[test]
fn refuses_images_of_different_runs(rt: HostRuntime) -> Result<(), Fail> {
    all_hold(rt.alloc(), NOT_ISOLATED)
}

static TAKEN: &[Row] = &[
    // At the end of a run that placed no object.
    Leaves(
        "run --image g hi",
        (b"", 0),
        [0, 0, 0, 0],
        3,
        b"hi\n",
        "exterm: heap allocations 0 frees 0 signals 0\nexterm: exit 3 after 9 steps\n",
        (
            "g",
            Some(
                b"EXIMAGE2/\x97\xf8'\x0c\x861s\x01\x00\x00\x00\x00\x00\x00\x00\xff\xff\xff\xff\xff\xff\xff\xff\x00\x00\x00\x00\x00\x00\x00\x00\x11\x00\x00\x00exterm-patches 2\x0a\x00\x00\x00\x00\x00\x00\x00\x00\x00\x00\x00\x00",
            ),
        ),
    ),
    // After the free that saw the byte behind its object.
    Leaves(
        "run --image g overflows",
        (b"", 0),
        [0, 0, 0, 0],
        0,
        b"o",
        "exterm: heap allocations 1 frees 1 signals 1\nexterm: exit 0 after 18 steps\n",
        (
            "g",
            Some(
                b"EXIMAGE2q\x12R5\x8e\"\xd6j\x01\x00\x00\x00\x00\x00\x00\x00\x02\x00\x00\x00\x00\x00\x00\x00\x01\x00\x00\x00\x00\x00\x00\x00\x11\x00\x00\x00exterm-patches 2\x0a\x01\x00\x00\x00\x04\x00\x00\x00\x02\x00\x00\x00P\xf3\x00@\x02\x00\x00\x00\x00\x00\x00\x00\x00\x10\x00\x00\x00\x00\x00\x00\x00=L2\"Ir\x0b#\x01\x00\x00\x00\x00\x00\x00\x00`\xf3\x00@\x04\x00\x00\x00\x00\x00\x00\x00\x00\x00\x00\x00\x00\x00\x00\x00\x00\x00\x00\x00\x00\x00\x00\x00\x00\x00\x00\x00\x00\x00\x00\x00\x00\x01\x00\x00\x00`\xf3\x00@\x00",
            ),
        ),
    ),
    Leaves(
        "run --image g overflows",
        (b"", 0),
        [0, 0, 0, 2],
        127,
        b"o",
        "exterm: outside file\n",
        ("g", None),
    ),
    Leaves(
        "run --image g overflows",
        (b"", 0),
        [0, 1, 0, 0],
        127,
        b"",
        "exterm: outside output\n",
        ("g", None),
    ),
    Leaves(
        "run --image g empty",
        (b"", 0),
        [0, 0, 0, 0],
        121,
        b"",
        "exterm: elf short\n",
        ("g", None),
    ),
];

#[test]
fn takes_images(rt: HostRuntime) -> Result<(), Fail> {
    all_hold(rt.alloc(), TAKEN)
}
