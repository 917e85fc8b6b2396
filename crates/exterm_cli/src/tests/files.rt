// Commands over files alone: `show` of ELF files, and `merge`.
use super::Row::{self, Answers, Leaves, Refused};
use super::all_hold;
use std::test::Fail;

// What is printed, with nothing to report. The file `before` has a segment from 0xfffe on, and that of `zeros` ends in
// four zero bytes.
static PRINTED: &[Row] = &[
    Answers(
        "show hi",
        0,
        b"00010000: 000105b7 lui x11, 0x10
00010004: 02458593 addi x11, x11, 36
00010008: 00100513 addi x10, x0, 1
0001000c: 00300613 addi x12, x0, 3
00010010: 04000893 addi x17, x0, 64
00010014: 00000073 ecall
00010018: 00300513 addi x10, x0, 3
0001001c: 05d00893 addi x17, x0, 93
00010020: 00000073 ecall
00010024: 000a6968 word
",
        "",
    ),
    Answers(
        "show zeros",
        0,
        b"00010000: 000105b7 lui x11, 0x10
00010004: 02458593 addi x11, x11, 36
00010008: 00100513 addi x10, x0, 1
0001000c: 00300613 addi x12, x0, 3
00010010: 04000893 addi x17, x0, 64
00010014: 00000073 ecall
00010018: 00300513 addi x10, x0, 3
0001001c: 05d00893 addi x17, x0, 93
00010020: 00000073 ecall
00010024: 000a6968 word
00010028: 00000000 word
",
        "",
    ),
    Answers(
        "show before",
        0,
        b"00010000: 85930001 word
00010004: 05130245 word
00010008: 06130010 word
0001000c: 08930030 word
00010010: 00730400 word
00010014: 05130000 word
00010018: 08930030 word
0001001c: 007305d0 word
00010020: 69680000 word
",
        "",
    ),
    Answers(
        "merge four nine
         merge nine four",
        0,
        b"exterm-patches 2\npad 22324c3d 9\n",
        "",
    ),
    Answers(
        "merge four
         merge four four
         merge four none
         merge none four
         merge four2",
        0,
        b"exterm-patches 2\npad 22324c3d 4\n",
        "",
    ),
    Answers(
        "merge none
         merge none2
         merge none none none none none none none none none none none none none none none none none none none none none none none none none none none none none none none none none none none none none none none none none none none none none none none none none none none none none none none none none none none none none none none none",
        0,
        b"exterm-patches 2\n",
        "",
    ),
    Answers(
        "merge pad1 front16
         merge front16 pad1",
        0,
        b"exterm-patches 2\npad 22324c3d 1\nfront 22324c3d 16\n",
        "",
    ),
    Answers(
        "merge front32 front16 four2
         merge front16 front32",
        0,
        b"exterm-patches 2\npad 22324c3d 9\nfront 22324c3d 32\ndefer 22324c3d 239c3651 1\n",
        "",
    ),
    Answers(
        "merge defers later four",
        0,
        b"exterm-patches 2\npad 00000001 1048576\npad 22324c3d 5\ndefer 22324c3d 00000000 1\ndefer 22324c3d 239c3651 2\n",
        "",
    ),
];

#[test]
fn shows_programs_and_merges_tables(rt: HostRuntime) -> Result<(), Fail> {
    all_hold(rt.alloc(), PRINTED)
}

static REFUSALS: &[Row] = &[
    Refused("show magic", 121, "elf short"),
    Refused("show flags", 121, "elf flags"),
    Refused(
        "show nothing
         merge nothing falls",
        113,
        "name 2 absent",
    ),
    Refused(
        "merge falls
         merge falls nothing",
        122,
        "patches 1 order line 3",
    ),
    Refused(
        "merge four falls head
         merge four front_first",
        122,
        "patches 2 order line 3",
    ),
    Refused(
        "merge zero_pad
         merge front8",
        122,
        "patches 1 limit line 2",
    ),
    Refused("merge cut", 122, "patches 1 line 2"),
    Refused("merge four four2 front_in_1", 122, "patches 3 line 2"),
    Refused("merge four nine head", 122, "patches 3 head"),
    Refused("merge empty", 122, "patches 1 head"),
    Refused("merge four --out p", 120, "words 3 unknown"),
    Refused(
        "merge none none none none none none none none none none none none none none none none none none none none none none none none none none none none none none none none none none none none none none none none none none none none none none none none none none none none none none none none none none none none none none none none none",
        120,
        "words 66 excess",
    ),
];

#[test]
fn refuses_the_first_broken_file(rt: HostRuntime) -> Result<(), Fail> {
    all_hold(rt.alloc(), REFUSALS)
}

// Merges to a file. A folder in memory keeps its files where it fails.
static WRITTEN: &[Row] = &[
    Leaves(
        "merge --out p four nine",
        (b"", 0),
        [0, 0, 0, 0],
        0,
        b"",
        "",
        ("p", Some(b"exterm-patches 2\npad 22324c3d 9\n")),
    ),
    Leaves(
        "merge --out nine four",
        (b"", 0),
        [0, 0, 0, 0],
        0,
        b"",
        "",
        ("nine", Some(b"exterm-patches 2\npad 22324c3d 4\n")),
    ),
    Leaves(
        "merge --out p four nine",
        (b"", 0),
        [1, 1, 1, 4],
        0,
        b"",
        "",
        ("p", Some(b"exterm-patches 2\npad 22324c3d 9\n")),
    ),
    Leaves(
        "merge --out p four nine",
        (b"", 0),
        [0, 0, 0, 1],
        127,
        b"",
        "exterm: outside file\n",
        ("p", None),
    ),
    Leaves(
        "merge --out p four nine",
        (b"", 0),
        [0, 0, 0, 2],
        127,
        b"",
        "exterm: outside file\n",
        ("p", None),
    ),
    Leaves(
        "merge --out p four nine",
        (b"", 0),
        [0, 0, 0, 3],
        127,
        b"",
        "exterm: outside file\n",
        ("p", None),
    ),
    Leaves(
        "merge --out nine four",
        (b"", 0),
        [0, 0, 1, 2],
        127,
        b"",
        "exterm: ou",
        ("nine", Some(b"exterm-patches 1\npad 22324c3d 9\n")),
    ),
    Leaves(
        "merge --out p four",
        (b"", 0),
        [0, 0, 0, 2],
        127,
        b"",
        "exterm: outside file\n",
        ("p", None),
    ),
    Leaves(
        "merge --out p four falls",
        (b"", 0),
        [0, 0, 0, 0],
        122,
        b"",
        "exterm: patches 2 order line 3\n",
        ("p", None),
    ),
    Leaves(
        "merge --out p four nothing",
        (b"", 0),
        [0, 0, 0, 0],
        113,
        b"",
        "exterm: name 5 absent\n",
        ("p", None),
    ),
];

#[test]
fn merges_to_a_file(rt: HostRuntime) -> Result<(), Fail> {
    all_hold(rt.alloc(), WRITTEN)
}
