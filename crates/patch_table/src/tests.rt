// Texts and how they are answered, and tables that are raised, joined and copied.
use super::*;
use crate::PatchRefusal::{Head, Limit, Line, Order};
use std::alloc::{AllocError, Global};
use std::test::*;

const ONE: &[u8] = b"exterm-patches 1\n";

const TWO: &[u8] = b"exterm-patches 2\n";

// The lines behind the first one, and the refusal, None where they are accepted.
type Row = (&'static [u8], Option<PatchRefusal>);

// Lines without a front: both versions answer the same.
static ROWS: [Row; 99] = [
    // accepted
    (b"", None),
    (b"pad 00000000 1\n", None),
    (b"pad ffffffff 1048576\n", None),
    (b"pad 22324c3d 1\n", None),
    (b"pad 22324c3d 9\n", None),
    (
        b"pad 00000009 10\npad 0000000a 100\npad 0000000f 1048575\npad 00000010 2\n",
        None,
    ),
    (b"defer 00000000 00000000 1\n", None),
    (b"defer ffffffff ffffffff 4294967295\n", None),
    (
        b"defer 00000001 ffffffff 2\ndefer 00000002 00000000 1\n",
        None,
    ),
    (
        b"defer 00000001 00000002 3\ndefer 00000001 00000003 3\n",
        None,
    ),
    (
        b"pad 00000001 5\npad 0000abcd 1048576\ndefer 00000001 ffffffff 4294967295\ndefer 00000002 00000001 4294967294\n",
        None,
    ),
    // a line of no form
    (b"\n", Some(Line { n: 2 })),
    (b" \n", Some(Line { n: 2 })),
    (b"pad 00000001 1", Some(Line { n: 2 })),
    (b"pad 00000001 ", Some(Line { n: 2 })),
    (b"x", Some(Line { n: 2 })),
    (b"pad 00000001 0", Some(Line { n: 2 })),
    (b"pad 00000001 1\n\n", Some(Line { n: 3 })),
    (b"pad 00000001 1\nx", Some(Line { n: 3 })),
    (b"pad 00000001 1\npad 00000002 1", Some(Line { n: 3 })),
    (b"pad 00000002 1\npad 00000001 1", Some(Line { n: 3 })),
    (b"pad 00000001 1\r\n", Some(Line { n: 2 })),
    (b"pad 00000001 1 \n", Some(Line { n: 2 })),
    (b" pad 00000001 1\n", Some(Line { n: 2 })),
    (b"pad  00000001 1\n", Some(Line { n: 2 })),
    (b"pad 00000001  1\n", Some(Line { n: 2 })),
    (b"pad\t00000001 1\n", Some(Line { n: 2 })),
    (b"pad 00000001\t1\n", Some(Line { n: 2 })),
    (b"pad 00000001 1\0\n", Some(Line { n: 2 })),
    (b"pad\n", Some(Line { n: 2 })),
    (b"pad 00000001\n", Some(Line { n: 2 })),
    (b"pad 00000001 \n", Some(Line { n: 2 })),
    (b"pad 000000011\n", Some(Line { n: 2 })),
    (b"pad 0000001 1\n", Some(Line { n: 2 })),
    (b"pad 000000001 1\n", Some(Line { n: 2 })),
    (b"pad 0x000001 1\n", Some(Line { n: 2 })),
    (b"pad 0000000A 1\n", Some(Line { n: 2 })),
    (b"pad 0000000g 1\n", Some(Line { n: 2 })),
    (b"pad 0000000` 1\n", Some(Line { n: 2 })),
    (b"pad 0000000/ 1\n", Some(Line { n: 2 })),
    (b"pad 0000000: 1\n", Some(Line { n: 2 })),
    (b"pad 00000001 01\n", Some(Line { n: 2 })),
    (b"pad 00000001 00\n", Some(Line { n: 2 })),
    (b"pad 00000001 000000000000000000001\n", Some(Line { n: 2 })),
    (b"pad 00000001 +1\n", Some(Line { n: 2 })),
    (b"pad 00000001 -1\n", Some(Line { n: 2 })),
    (b"pad 00000001 1a\n", Some(Line { n: 2 })),
    (b"pad 00000001 1/\n", Some(Line { n: 2 })),
    (b"pad 00000001 1:\n", Some(Line { n: 2 })),
    (b"pad 00000001 1.0\n", Some(Line { n: 2 })),
    (b"pad 00000001 1 1\n", Some(Line { n: 2 })),
    (b"Pad 00000001 1\n", Some(Line { n: 2 })),
    (b"pads 00000001 1\n", Some(Line { n: 2 })),
    (b"exterm-patches 1\n", Some(Line { n: 2 })),
    (b"exterm-patches 2\n", Some(Line { n: 2 })),
    (b"# pad 00000001 1\n", Some(Line { n: 2 })),
    (b"defer 00000001 1\n", Some(Line { n: 2 })),
    (b"defer 00000001 00000002\n", Some(Line { n: 2 })),
    (b"defer 00000001 00000002 01\n", Some(Line { n: 2 })),
    (b"defer 00000001  00000002 1\n", Some(Line { n: 2 })),
    (b"defer 0000000F 00000002 1\n", Some(Line { n: 2 })),
    (b"defer 00000001 0000000F 1\n", Some(Line { n: 2 })),
    (b"defer 00000001 00000002 1 1\n", Some(Line { n: 2 })),
    (b"defer 00000001 00000002 1", Some(Line { n: 2 })),
    (b"pad 00000001 00000002 1\n", Some(Line { n: 2 })),
    (b"pad 00000002 1\npad 00000001 01\n", Some(Line { n: 3 })),
    (b"pad 1\npad 00000001 0\n", Some(Line { n: 2 })),
    // a number out of range
    (b"pad 00000001 0\n", Some(Limit { n: 2 })),
    (b"pad 00000001 1048577\n", Some(Limit { n: 2 })),
    (b"pad 00000001 4294967295\n", Some(Limit { n: 2 })),
    (b"pad 00000001 4294967297\n", Some(Limit { n: 2 })),
    (b"pad 00000001 18446744073709551615\n", Some(Limit { n: 2 })),
    (b"pad 00000001 18446744073709551617\n", Some(Limit { n: 2 })),
    (b"pad 00000001 36893488147419103233\n", Some(Limit { n: 2 })),
    (
        b"pad 00000001 1000000000000000000000000000000000000000000000000000000000000\n",
        Some(Limit { n: 2 }),
    ),
    (b"defer 00000001 00000002 0\n", Some(Limit { n: 2 })),
    (
        b"defer 00000001 00000002 4294967296\n",
        Some(Limit { n: 2 }),
    ),
    (
        b"defer 00000001 00000002 4294967297\n",
        Some(Limit { n: 2 }),
    ),
    (
        b"defer 00000001 00000002 18446744073709551615\n",
        Some(Limit { n: 2 }),
    ),
    (
        b"defer 00000001 00000002 18446744073709551617\n",
        Some(Limit { n: 2 }),
    ),
    (
        b"pad 00000001 1048576\npad 00000002 1048577\n",
        Some(Limit { n: 3 }),
    ),
    (b"pad 00000002 1\npad 00000001 0\n", Some(Limit { n: 3 })),
    (
        b"defer 00000001 00000002 4294967295\npad 00000001 0\n",
        Some(Limit { n: 3 }),
    ),
    (b"pad 00000001 0\npad\n", Some(Limit { n: 2 })),
    // a line out of order
    (b"pad 00000002 1\npad 00000001 1\n", Some(Order { n: 3 })),
    (b"pad 00000001 1\npad 00000001 1\n", Some(Order { n: 3 })),
    (b"pad 00000001 1\npad 00000001 2\n", Some(Order { n: 3 })),
    (b"pad ffffffff 1\npad 00000000 1\n", Some(Order { n: 3 })),
    (b"pad 0000000a 1\npad 00000009 1\n", Some(Order { n: 3 })),
    (
        b"pad 00000001 1\npad 00000003 1\npad 00000002 1\n",
        Some(Order { n: 4 }),
    ),
    (
        b"pad 00000001 1\npad 00000003 1\npad 00000001 1\n",
        Some(Order { n: 4 }),
    ),
    (
        b"defer 00000001 00000002 1\npad 00000003 1\n",
        Some(Order { n: 3 }),
    ),
    (
        b"defer 00000001 00000002 1\npad 00000001 1\n",
        Some(Order { n: 3 }),
    ),
    (
        b"pad 00000001 1\ndefer 00000001 00000002 1\npad 00000002 1\n",
        Some(Order { n: 4 }),
    ),
    (
        b"defer 00000001 00000002 1\ndefer 00000001 00000002 2\n",
        Some(Order { n: 3 }),
    ),
    (
        b"defer 00000001 00000002 1\ndefer 00000001 00000001 1\n",
        Some(Order { n: 3 }),
    ),
    (
        b"defer 00000002 00000001 1\ndefer 00000001 00000002 1\n",
        Some(Order { n: 3 }),
    ),
    (
        b"defer 00000002 00000001 1\ndefer 00000001 00000001 1\n",
        Some(Order { n: 3 }),
    ),
    (
        b"pad 00000002 1\npad 00000001 1\npad 00000003 0\n",
        Some(Order { n: 3 }),
    ),
];

// Lines of fronts, as version 2 answers them.
static FRONTS: [Row; 40] = [
    // accepted
    (b"front 00000001 16\n", None),
    (b"front 00000001 32\n", None),
    (b"front ffffffff 65520\n", None),
    (b"front 00000000 65536\n", None),
    (b"pad 22324c3d 1\nfront 22324c3d 16\n", None),
    (b"pad 00000002 1\nfront 00000001 16\n", None),
    (b"front 00000009 32\nfront 0000000a 16\n", None),
    (b"front 00000002 16\ndefer 00000001 00000001 1\n", None),
    (
        b"pad 00000003 5\npad 00000004 1\nfront 00000001 65536\nfront 00000003 48\ndefer 00000000 ffffffff 9\n",
        None,
    ),
    // a line of no form
    (b"front 00000001 16", Some(Line { n: 2 })),
    (b"front 00000001 016\n", Some(Line { n: 2 })),
    (b"front 00000001 0x10\n", Some(Line { n: 2 })),
    (b"front 0000000A 16\n", Some(Line { n: 2 })),
    (b"front 0000001 16\n", Some(Line { n: 2 })),
    (b"front  00000001 16\n", Some(Line { n: 2 })),
    (b"front 00000001 16 \n", Some(Line { n: 2 })),
    (b"front 00000001\n", Some(Line { n: 2 })),
    (b"front 00000001 00000002 16\n", Some(Line { n: 2 })),
    (b"fronts 00000001 16\n", Some(Line { n: 2 })),
    (b"Front 00000001 16\n", Some(Line { n: 2 })),
    // a number out of range, or no multiple of 16
    (b"front 00000001 0\n", Some(Limit { n: 2 })),
    (b"front 00000001 1\n", Some(Limit { n: 2 })),
    (b"front 00000001 8\n", Some(Limit { n: 2 })),
    (b"front 00000001 15\n", Some(Limit { n: 2 })),
    (b"front 00000001 17\n", Some(Limit { n: 2 })),
    (b"front 00000001 24\n", Some(Limit { n: 2 })),
    (b"front 00000001 65535\n", Some(Limit { n: 2 })),
    (b"front 00000001 65552\n", Some(Limit { n: 2 })),
    (b"front 00000001 4294967312\n", Some(Limit { n: 2 })),
    (
        b"front 00000001 18446744073709551632\n",
        Some(Limit { n: 2 }),
    ),
    (
        b"front 00000002 16\nfront 00000001 8\n",
        Some(Limit { n: 3 }),
    ),
    (
        b"defer 00000001 00000001 1\nfront 00000001 8\n",
        Some(Limit { n: 3 }),
    ),
    // a line out of order
    (b"front 00000001 16\npad 00000001 1\n", Some(Order { n: 3 })),
    (b"front 00000001 16\npad 00000002 1\n", Some(Order { n: 3 })),
    (
        b"front 00000001 16\nfront 00000001 16\n",
        Some(Order { n: 3 }),
    ),
    (
        b"front 00000001 16\nfront 00000001 32\n",
        Some(Order { n: 3 }),
    ),
    (
        b"front 0000000a 16\nfront 00000009 16\n",
        Some(Order { n: 3 }),
    ),
    (
        b"defer 00000001 00000001 1\nfront 00000002 16\n",
        Some(Order { n: 3 }),
    ),
    (
        b"pad 00000001 1\ndefer 00000001 00000001 1\nfront 00000002 16\n",
        Some(Order { n: 4 }),
    ),
    (
        b"front 00000001 16\ndefer 00000001 00000001 1\npad 00000001 1\n",
        Some(Order { n: 4 }),
    ),
];

// Lines with a front in version 1, and the number of the one that is no line there.
static NO_FRONTS: [(&'static [u8], u64); 5] = [
    (b"front 00000001 16\n", 2),
    (b"front 00000001 8\n", 2),
    (b"pad 00000001 1\nfront 00000001 16\n", 3),
    (b"defer 00000001 00000001 1\nfront 00000001 16\n", 3),
    (b"front 00000001 16\npad 00000001 0\n", 2),
];

// Texts without a first line.
static HEADLESS: [&'static [u8]; 17] = [
    b"",
    b"\n",
    b"exterm-patches 1",
    b"exterm-patches 2",
    b"exterm-patches 1\r\n",
    b"exterm-patches 2\r\n",
    b"exterm-patches 0\n",
    b"exterm-patches 3\n",
    b"exterm-patches 12\n",
    b"exterm-patches 01\n",
    b"exterm-patches 1 \n",
    b"exterm-patches  1\n",
    b" exterm-patches 1\n",
    b"Exterm-patches 1\n",
    b"exterm-patches\n",
    b"\nexterm-patches 2\n",
    b"front 00000001 16\n",
];

// Lines of a table, of another, and of their join.
type Joined = (&'static [u8], &'static [u8], &'static [u8]);

static JOINS: [Joined; 8] = [
    (
        b"pad 22324c3d 4\n",
        b"pad 22324c3d 9\n",
        b"pad 22324c3d 9\n",
    ),
    (
        b"pad 22324c3d 9\n",
        b"pad 22324c3d 9\n",
        b"pad 22324c3d 9\n",
    ),
    (b"pad 22324c3d 9\n", b"", b"pad 22324c3d 9\n"),
    (
        b"pad 22324c3d 1\n",
        b"front 22324c3d 16\n",
        b"pad 22324c3d 1\nfront 22324c3d 16\n",
    ),
    (
        b"front 00000001 16\nfront 00000002 64\n",
        b"front 00000001 32\nfront 00000002 48\n",
        b"front 00000001 32\nfront 00000002 64\n",
    ),
    (b"front 00000007 65536\n", b"", b"front 00000007 65536\n"),
    (
        b"",
        b"defer 00000001 00000002 3\n",
        b"defer 00000001 00000002 3\n",
    ),
    (
        b"pad 00000003 4\ndefer 00000001 00000002 3\ndefer 00000002 00000001 9\n",
        b"pad 00000001 2\npad 00000003 1\ndefer 00000002 00000001 10\n",
        b"pad 00000001 2\npad 00000003 4\ndefer 00000001 00000002 3\ndefer 00000002 00000001 10\n",
    ),
];

// The tables as slices: a test that sees them whole takes long to prove.
fn rows() -> &'static [Row] {
    &ROWS
}

fn fronts() -> &'static [Row] {
    &FRONTS
}

fn no_fronts() -> &'static [(&'static [u8], u64)] {
    &NO_FRONTS
}

fn headless() -> &'static [&'static [u8]] {
    &HEADLESS
}

fn joins() -> &'static [Joined] {
    &JOINS
}

fn text_of(alloc: Global, head: &[u8], body: &[u8]) -> Result<Vec<u8>, AllocError> {
    let mut text = Vec::new(alloc);
    text.extend_from_slice(head)?;
    text.extend_from_slice(body)?;
    Ok(text)
}

fn is_text_of(alloc: Global, text: &[u8], patches: &Patches) -> bool {
    match patches.write(alloc) {
        Ok(written) => written.as_slice() == text,
        Err(_) => false,
    }
}

// Whether a text is refused so, or is accepted and written as this text.
fn is_answered(alloc: Global, text: &[u8], written: &[u8], want: &Option<PatchRefusal>) -> bool {
    match Patches::read(alloc, text) {
        Ok(patches) => want.is_none() && is_text_of(alloc, written, &patches),
        Err(why) => match want {
            Some(want) => *want == why,
            None => false,
        },
    }
}

// The same of the lines behind a first line. What is written is of version 2.
fn is_row(
    alloc: Global,
    head: &[u8],
    body: &[u8],
    want: &Option<PatchRefusal>,
) -> Result<bool, AllocError> {
    let text = text_of(alloc, head, body)?;
    let written = text_of(alloc, TWO, body)?;
    Ok(is_answered(alloc, text.as_slice(), written.as_slice(), want))
}

// The text with one byte changed to `!`.
fn changed(alloc: Global, text: &[u8], i: usize) -> Result<Vec<u8>, AllocError> {
    let mut changed = Vec::new(alloc);
    for (j, byte) in text.iter().enumerate() {
        changed.push(if j == i { b'!' } else { *byte })?;
    }
    Ok(changed)
}

fn table(alloc: Global, body: &[u8]) -> Result<Patches, Fail> {
    let text = text_of(alloc, TWO, body)?;
    Ok(
        Patches::read(alloc, text.as_slice())
            .ok()
            .ok_or("a patch text")?,
    )
}

#[test]
fn each_text_is_a_table_or_has_its_refusal(rt: HostRuntime) -> Result<(), Fail> {
    let alloc = rt.alloc();
    for (i, (body, want)) in rows().iter().enumerate() {
        assert!(rt; is_row(alloc, ONE, body, want)?, "version 1, row {i}");
        assert!(rt; is_row(alloc, TWO, body, want)?, "version 2, row {i}");
    }
    for (i, text) in headless().iter().enumerate() {
        assert!(rt; is_answered(alloc, text, text, &Some(Head)), "head {i}");
    }
    Ok(())
}

#[test]
fn reads_fronts_in_version_2_alone(rt: HostRuntime) -> Result<(), Fail> {
    let alloc = rt.alloc();
    for (i, (body, want)) in fronts().iter().enumerate() {
        assert!(rt; is_row(alloc, TWO, body, want)?, "row {i}");
    }
    for (i, (body, n)) in no_fronts().iter().enumerate() {
        assert!(rt;
            is_row(alloc, ONE, body, &Some(Line { n: *n }))?,
            "version 1, row {i}"
        );
    }
    Ok(())
}

#[test]
fn refuses_each_byte_changed_and_each_end_cut(rt: HostRuntime) -> Result<(), Fail> {
    let alloc = rt.alloc();
    let lines: [&[u8]; 3] = [
        b"pad 0000abcd 1048576\n",
        b"front 0000abcd 65536\n",
        b"defer 00000001 ffffffff 4294967295\n",
    ];
    for line in lines {
        let text = text_of(alloc, TWO, line)?;
        let bytes = text.as_slice();
        for i in 0..bytes.len() {
            let changed = changed(alloc, bytes, i)?;
            let want = if i < 17 { Head } else { Line { n: 2 } };
            assert!(rt;
                is_answered(alloc, changed.as_slice(), bytes, &Some(want)),
                "byte {i}"
            );
        }
        for end in 0..bytes.len() {
            let want = match end {
                0..=16 => Some(Head),
                17 => None,
                _ => Some(Line { n: 2 }),
            };
            assert!(rt;
                is_answered(alloc, &bytes[..end], &bytes[..end], &want),
                "cut at {end}"
            );
        }
    }
    Ok(())
}

#[test]
fn keeps_the_greater_number(rt: HostRuntime) -> Result<(), Fail> {
    let mut patches = Patches::new(rt.alloc());
    patches.raise_pad(7, 5)?;
    patches.raise_pad(7, 3)?;
    patches.raise_pad(4294967295, 1048576)?;
    patches.raise_front(7, 32)?;
    patches.raise_front(7, 16)?;
    patches.raise_front(9, 16)?;
    patches.raise_front(9, 65536)?;
    patches.raise_front(0, 16)?;
    patches.raise_defer(1, 2, 4294967295)?;
    patches.raise_defer(1, 2, 6)?;
    patches.raise_defer(3, 1, 6)?;
    patches.raise_defer(3, 1, 8)?;
    assert!(rt; patches.pad_of(7) == 5 && patches.pad_of(4294967295) == 1048576);
    assert!(rt; patches.pad_of(8) == 0 && patches.defer_of(2, 1) == 0);
    assert!(rt; patches.defer_of(1, 2) == 4294967295 && patches.defer_of(3, 1) == 8);
    assert!(rt; patches.front_of(7) == 32 && patches.front_of(9) == 65536);
    assert!(rt; patches.front_of(0) == 16 && patches.front_of(4294967295) == 0);
    assert!(rt; patches.counts() == (2, 3, 2));
    Ok(())
}

#[test]
fn joins_to_the_greater_entries(rt: HostRuntime) -> Result<(), Fail> {
    let alloc = rt.alloc();
    for (i, (left, right, both)) in joins().iter().enumerate() {
        let mut patches = table(alloc, left)?;
        let others = table(alloc, right)?;
        patches.join(&others)?;
        let want = text_of(alloc, TWO, both)?;
        assert!(rt; is_text_of(alloc, want.as_slice(), &patches), "row {i}");
        assert!(rt; patches.is_same(&table(alloc, both)?), "row {i}");
        assert!(rt; patches.is_same(&others) == (both == right), "row {i}");
    }
    Ok(())
}

#[test]
fn copies_the_table(rt: HostRuntime) -> Result<(), Fail> {
    let mut patches = Patches::new(rt.alloc());
    patches.raise_pad(7, 5)?;
    patches.raise_front(7, 16)?;
    patches.raise_defer(1, 2, 3)?;
    let copy = patches.copy()?;
    assert!(rt; copy.is_same(&patches));
    patches.raise_front(7, 32)?;
    assert!(rt; !copy.is_same(&patches) && copy.front_of(7) == 16);
    patches.raise_pad(8, 1)?;
    assert!(rt; copy.pad_of(7) == 5 && copy.pad_of(8) == 0 && copy.defer_of(1, 2) == 3);
    assert!(rt; copy.counts() == (1, 1, 1));
    Ok(())
}
