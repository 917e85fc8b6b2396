// Replicas: what is voted, who is retired, what is isolated at gates, and the last table.
use super::Row::{self, Given, Leaves};
use super::all_hold;
use std::test::Fail;

// The parities of the seeds 1 to 9 are 1, 0, 0, 1, 0, 0, 0, 1, 1.
static VOTES: &[Row] = &[
    Given(
        "replicate prints_parity
         replicate --quantum 1 prints_parity
         replicate --quantum 7 prints_parity
         replicate --replicas 3 --quantum 1000000 prints_parity",
        (b"", 0),
        [0, 0, 0, 0],
        0,
        b"\0",
        "exterm: retired 0 gate 1\nexterm: exit 0 at gate 2\n",
    ),
    Given(
        "replicate --seed 7 prints_parity",
        (b"", 0),
        [0, 0, 0, 0],
        0,
        b"\x01",
        "exterm: retired 0 gate 1\nexterm: exit 0 at gate 2\n",
    ),
    Given(
        "replicate --seed 5 prints_parity",
        (b"", 0),
        [0, 0, 0, 0],
        0,
        b"\0",
        "exterm: exit 0 at gate 2\n",
    ),
    Given(
        "replicate --replicas 5 prints_parity",
        (b"", 0),
        [0, 0, 0, 0],
        0,
        b"\0",
        "exterm: retired 0 gate 1\nexterm: retired 3 gate 1\nexterm: exit 0 at gate 2\n",
    ),
    // Half of them aren't enough.
    Given(
        "replicate --replicas 4 prints_parity",
        (b"", 0),
        [0, 0, 0, 0],
        118,
        b"",
        "exterm: vote largest 2 live 4\n",
    ),
    Leaves(
        "replicate --out g prints_pointer",
        (b"", 0),
        [0, 0, 0, 0],
        118,
        b"",
        "exterm: vote largest 1 live 3\n",
        ("g", Some(b"exterm-patches 2\n")),
    ),
];

#[test]
fn prints_what_more_than_half_print(rt: HostRuntime) -> Result<(), Fail> {
    all_hold(rt.alloc(), VOTES)
}

static CURES: &[Row] = &[
    Leaves(
        "replicate --out g overflows
         replicate --quantum 1 --out g overflows
         replicate --quantum 1000 --out g overflows",
        (b"", 0),
        [0, 0, 0, 0],
        0,
        b"o",
        "exterm: patched gate 1 pads 1 defers 0\nexterm: exit 0 at gate 2\n",
        ("g", Some(b"exterm-patches 2\npad 22324c3d 1\n")),
    ),
    // In the last slot, where replica 1 has it, the store is a fault.
    Leaves(
        "replicate --seed 2019 --out g overflows",
        (b"", 0),
        [0, 0, 0, 0],
        0,
        b"o",
        "exterm: retired 1 gate 1\nexterm: patched gate 1 pads 1 defers 0\nexterm: exit 0 at gate 2\n",
        ("g", Some(b"exterm-patches 2\npad 22324c3d 1\n")),
    ),
    // A table that serves already isn't changed.
    Leaves(
        "replicate --patches pad1 --out g overflows
         replicate --patches pad1 --seed 2019 --out g overflows",
        (b"", 0),
        [0, 0, 0, 0],
        0,
        b"o",
        "exterm: exit 0 at gate 2\n",
        ("g", Some(b"exterm-patches 2\npad 22324c3d 1\n")),
    ),
    // Nothing is looked for at the end.
    Leaves(
        "replicate --out g stores_freed",
        (b"", 0),
        [0, 0, 0, 0],
        0,
        b"",
        "exterm: exit 0 at gate 1\n",
        ("g", Some(b"exterm-patches 2\n")),
    ),
    Leaves(
        "replicate --out g overflows",
        (b"", 0),
        [0, 0, 0, 2],
        127,
        b"o",
        "exterm: outside file\n",
        ("g", None),
    ),
];

#[test]
fn cures_what_the_winners_signal(rt: HostRuntime) -> Result<(), Fail> {
    all_hold(rt.alloc(), CURES)
}

static ENDS: &[Row] = &[
    Given(
        "replicate hi",
        (b"", 0),
        [0, 0, 0, 0],
        3,
        b"hi\n",
        "exterm: exit 3 at gate 2\n",
    ),
    Given(
        "replicate breaks",
        (b"", 0),
        [0, 0, 0, 0],
        123,
        b"",
        "exterm: fault break pc 0x00010000 at gate 1\n",
    ),
    Given(
        "replicate --steps 5 stays",
        (b"", 0),
        [0, 0, 0, 0],
        124,
        b"",
        "exterm: budget at gate 1\n",
    ),
    Given(
        "replicate fills",
        (b"", 0),
        [0, 0, 0, 0],
        125,
        b"",
        "exterm: room used 1069547520 wanted 1073741824 at gate 1\n",
    ),
    // Each has the whole input.
    Given(
        "replicate echoes",
        (b"hello, x", 0),
        [0, 0, 0, 0],
        0,
        b"",
        "hello, xexterm: exit 0 at gate 3\n",
    ),
    Given(
        "replicate --steps 6 echoes",
        (b"hello, x", 3),
        [0, 0, 0, 0],
        124,
        b"",
        "exterm: budget at gate 1\n",
    ),
    Given(
        "replicate echoes",
        (b"hello, x", 8),
        [1, 0, 0, 0],
        127,
        b"",
        "exterm: outside input\n",
    ),
    Leaves(
        "replicate --out g hi",
        (b"", 0),
        [0, 1, 0, 0],
        127,
        b"h",
        "exterm: outside output\n",
        ("g", None),
    ),
];

#[test]
fn ends_as_its_replicas_do(rt: HostRuntime) -> Result<(), Fail> {
    all_hold(rt.alloc(), ENDS)
}
