// Repairs: what the run prints, what is reported, and the patches that are written.
use super::Row::{self, Leaves, Ran, Refused};
use super::all_hold;
use std::test::Fail;

static REPAIRS: &[Row] = &[
    Leaves(
        "repair --out g overflows
         repair --images 3 --seed 1 --out g overflows",
        (b"", 0),
        [0, 0, 0, 0],
        0,
        b"o",
        "exterm: heap allocations 1 frees 1 signals 1\nexterm: images 3 pads 1 defers 0\nexterm: exit 0 after 18 steps\n",
        ("g", Some(b"exterm-patches 2\npad 22324c3d 1\n")),
    ),
    // After the greatest seed comes 0.
    Leaves(
        "repair --seed 18446744073709551615 --out g overflows
         repair --seed 18446744073709551614 --patches none --images 3 --out g overflows",
        (b"", 0),
        [0, 0, 0, 0],
        0,
        b"o",
        "exterm: heap allocations 1 frees 1 signals 1\nexterm: images 3 pads 1 defers 0\nexterm: exit 0 after 18 steps\n",
        ("g", Some(b"exterm-patches 2\npad 22324c3d 1\n")),
    ),
    Leaves(
        "repair --out g underflows",
        (b"", 0),
        [0, 0, 0, 0],
        0,
        b"o",
        "exterm: heap allocations 1 frees 1 signals 1\nexterm: images 3 pads 1 defers 0\nexterm: exit 0 after 18 steps\n",
        ("g", Some(b"exterm-patches 2\nfront 22324c3d 16\n")),
    ),
    // What was given stays beside what is found.
    Leaves(
        "repair --patches defers_first --out g overflows",
        (b"", 0),
        [0, 0, 0, 0],
        0,
        b"o",
        "exterm: heap allocations 1 frees 1 signals 1\nexterm: images 3 pads 1 defers 0\nexterm: exit 0 after 18 steps\n",
        (
            "g",
            Some(b"exterm-patches 2\npad 22324c3d 1\ndefer 22324c3d 230b7249 5\n"),
        ),
    ),
    // A table that serves already is written anew.
    Leaves(
        "repair --patches pad1 --out g overflows
         repair --patches pad1 --seed 2019 --out g overflows",
        (b"", 0),
        [0, 0, 0, 0],
        0,
        b"o",
        "exterm: heap allocations 1 frees 1 signals 0\nexterm: images 0 pads 0 defers 0\nexterm: exit 0 after 18 steps\n",
        ("g", Some(b"exterm-patches 2\npad 22324c3d 1\n")),
    ),
    Leaves(
        "repair --images 2 --out g stores_freed
         repair --images 2 --seed 7 --out g stores_freed",
        (b"", 0),
        [0, 0, 0, 0],
        0,
        b"",
        "exterm: heap allocations 1 frees 1 signals 1\nexterm: images 2 pads 0 defers 1\nexterm: exit 0 after 11 steps\n",
        ("g", Some(b"exterm-patches 2\ndefer 22324c3d 230b7249 1\n")),
    ),
    // No signal, and so no image and no patch.
    Leaves(
        "repair --out g hi",
        (b"", 0),
        [0, 0, 0, 0],
        3,
        b"hi\n",
        "exterm: heap allocations 0 frees 0 signals 0\nexterm: images 0 pads 0 defers 0\nexterm: exit 3 after 9 steps\n",
        ("g", Some(b"exterm-patches 2\n")),
    ),
    // The object of the second run is in the last slot, and its store is a fault before any signal.
    Leaves(
        "repair --seed 2019 --out g overflows",
        (b"", 0),
        [0, 0, 0, 0],
        117,
        b"o",
        "exterm: isolate mixed\n",
        ("g", None),
    ),
    Leaves(
        "repair --out g overflows",
        (b"", 0),
        [0, 0, 0, 2],
        127,
        b"o",
        "exterm: outside file\n",
        ("g", None),
    ),
    Refused("repair --out g empty", 121, "elf short"),
    // What was found leaves no signal.
    Ran(
        "run --patches held1 stores_freed
         run --seed 0 --patches held1 stores_freed
         run --seed 2 --patches held1 stores_freed
         run --seed 3 --patches held1 stores_freed
         run --seed 18446744073709551615 --patches held1 stores_freed",
        0,
        b"",
        [1, 1, 0],
        "exit 0 after 11 steps",
    ),
];

#[test]
fn repairs(rt: HostRuntime) -> Result<(), Fail> {
    all_hold(rt.alloc(), REPAIRS)
}
