// Images as bytes of both versions, how they are refused, and how they are shown.
use super::*;
use crate::ImageRefusal::{Bad, Head, Short, Tail};
use std::alloc::{AllocError, Global};
use std::test::*;

// A slot whose object was freed in heap call 2, and the slot after it, in which a zero byte stands.
static TWO: [&'static [u8]; 25] = [
    b"EXIMAGE2",
    b"\x07\0\0\0\0\0\0\0",
    b"\x01\0\0\0\0\0\0\0",
    b"\x02\0\0\0\0\0\0\0",
    b"\x01\0\0\0\0\0\0\0",
    b"\x11\0\0\0exterm-patches 2\n",
    b"\x01\0\0\0",
    b"\x04\0\0\0",
    b"\x02\0\0\0",
    b"\x50\xf3\0\x40",
    b"\x02",
    b"\0\0\0\0\0\0\0\0",
    b"\x10\0\0\0",
    b"\0\0\0\0",
    b"\x3d\x4c\x32\x22",
    b"\x49\x72\x0b\x23",
    b"\x01\0\0\0\0\0\0\0",
    b"\x60\xf3\0\x40",
    b"\x04",
    b"\0\0\0\0\0\0\0\0\0\0\0\0",
    b"\0\0\0\0",
    b"\0\0\0\0\0\0\0\0\0\0\0\0\0\0\0\0",
    b"\x01\0\0\0",
    b"\x60\xf3\0\x40",
    b"\0",
];

// The same in version 1: without the two fronts.
static ONE: [&'static [u8]; 23] = [
    b"EXIMAGE1",
    b"\x07\0\0\0\0\0\0\0",
    b"\x01\0\0\0\0\0\0\0",
    b"\x02\0\0\0\0\0\0\0",
    b"\x01\0\0\0\0\0\0\0",
    b"\x11\0\0\0exterm-patches 1\n",
    b"\x01\0\0\0",
    b"\x04\0\0\0",
    b"\x02\0\0\0",
    b"\x50\xf3\0\x40",
    b"\x02",
    b"\0\0\0\0\0\0\0\0",
    b"\x10\0\0\0",
    b"\x3d\x4c\x32\x22",
    b"\x49\x72\x0b\x23",
    b"\x01\0\0\0\0\0\0\0",
    b"\x60\xf3\0\x40",
    b"\x04",
    b"\0\0\0\0\0\0\0\0\0\0\0\0",
    b"\0\0\0\0\0\0\0\0\0\0\0\0\0\0\0\0",
    b"\x01\0\0\0",
    b"\x60\xf3\0\x40",
    b"\0",
];

// The end of a run that placed no object.
static EMPTY: [&'static [u8]; 7] = [
    b"EXIMAGE2",
    b"\x07\0\0\0\0\0\0\0",
    b"\x01\0\0\0\0\0\0\0",
    b"\xff\xff\xff\xff\xff\xff\xff\xff",
    b"\0\0\0\0\0\0\0\0",
    b"\x11\0\0\0exterm-patches 2\n",
    b"\0\0\0\0\0\0\0\0\0\0\0\0",
];

const SHOWN: &[u8] = b"image seed 1 place 2 clock 1 miniheaps 1 rows 2 broken 1
mini 0 class 4 base 0x40000000 slots 4096
slot 0x4000f350 released object 0 size 16 front 0 site 22324c3d free 230b7249 freed 1
slot 0x4000f360 bad
break 0x4000f360 00
";

const SHOWN_EMPTY: &[u8] = b"image seed 1 place end clock 0 miniheaps 0 rows 0 broken 0\n";

// A byte that is changed, what it becomes, and the refusal, None where the bytes are accepted.
type Change = (usize, u8, Option<ImageRefusal>);

static CHANGES_ONE: [Change; 28] = [
    (0, 0, Some(Head)),
    (7, b'3', Some(Head)),
    (40, 18, Some(Bad { at: 44 })),
    (43, 255, Some(Short)),
    (44, 0, Some(Bad { at: 44 })),
    (59, b'2', Some(Bad { at: 44 })),
    (65, 3, Some(Bad { at: 65 })),
    (65, 22, Some(Bad { at: 65 })),
    (72, 255, Some(Bad { at: 139 })),
    (73, 0x51, Some(Bad { at: 73 })),
    (76, 0x80, Some(Bad { at: 73 })),
    (77, 0, Some(Bad { at: 94 })),
    (77, 1, Some(Short)),
    (77, 3, None),
    (77, 5, Some(Bad { at: 77 })),
    (78, 1, Some(Bad { at: 78 })),
    (86, 17, Some(Bad { at: 86 })),
    (98, 0, Some(Bad { at: 98 })),
    (98, 2, Some(Bad { at: 98 })),
    (106, 0x50, Some(Bad { at: 106 })),
    (119, 1, Some(Bad { at: 119 })),
    (123, 1, Some(Bad { at: 123 })),
    (131, 1, Some(Bad { at: 131 })),
    (139, 0, Some(Tail)),
    (139, 2, Some(Short)),
    (143, 0x50, None),
    (145, 1, Some(Bad { at: 143 })),
    (147, 0x51, Some(Bad { at: 147 })),
];

static CHANGES_TWO: [Change; 8] = [
    (7, b'1', Some(Bad { at: 44 })),
    (59, b'1', Some(Bad { at: 44 })),
    (65, 22, Some(Bad { at: 73 })),
    (65, 23, Some(Bad { at: 65 })),
    (90, 8, Some(Bad { at: 90 })),
    (90, 16, Some(Bad { at: 90 })),
    (127, 16, Some(Bad { at: 127 })),
    (155, 0x51, Some(Bad { at: 155 })),
];

// The tables as slices: a test that sees them whole takes long to prove.
fn one() -> &'static [&'static [u8]] {
    &ONE
}

fn two() -> &'static [&'static [u8]] {
    &TWO
}

fn empty() -> &'static [&'static [u8]] {
    &EMPTY
}

fn changes_one() -> &'static [Change] {
    &CHANGES_ONE
}

fn changes_two() -> &'static [Change] {
    &CHANGES_TWO
}

fn joined(alloc: Global, pieces: &[&'static [u8]]) -> Result<Vec<u8>, AllocError> {
    let mut bytes = Vec::new(alloc);
    for piece in pieces {
        bytes.extend_from_slice(piece)?;
    }
    Ok(bytes)
}

fn changed(alloc: Global, bytes: &[u8], at: usize, value: u8) -> Result<Vec<u8>, AllocError> {
    let mut changed = Vec::new(alloc);
    for (i, byte) in bytes.iter().enumerate() {
        changed.push(if i == at { value } else { *byte })?;
    }
    Ok(changed)
}

// Whether bytes are refused so, or accepted.
fn is_answered(alloc: Global, bytes: &[u8], want: &Option<ImageRefusal>) -> bool {
    match Image::read(alloc, bytes) {
        Ok(_) => want.is_none(),
        Err(why) => *want == Some(why),
    }
}

// The bytes of an image whose patch text is short enough for them.
fn written(alloc: Global, image: &Image) -> Result<Vec<u8>, Fail> {
    let text = image.patches.write(alloc)?;
    if text.len() >= 1 << 32 {
        return Err("a short patch text".into());
    }
    Ok(image.write(alloc)?)
}

fn shown(alloc: Global, bytes: &[u8]) -> Result<Vec<u8>, Fail> {
    let image = Image::read(alloc, bytes).ok().ok_or("an image")?;
    Ok(image.text(alloc)?)
}

#[test]
fn reads_shows_and_writes_both_versions(rt: HostRuntime) -> Result<(), Fail> {
    let alloc = rt.alloc();
    let new = joined(alloc, two())?;
    assert!(rt; new.len() == 156);
    for pieces in [one(), two()] {
        let bytes = joined(alloc, pieces)?;
        let image = Image::read(alloc, bytes.as_slice()).ok().ok_or("an image")?;
        assert!(rt; image.text(alloc)?.as_slice() == SHOWN);
        assert!(rt; written(alloc, &image)?.as_slice() == new.as_slice());
    }
    let bytes = joined(alloc, empty())?;
    assert!(rt; shown(alloc, bytes.as_slice())?.as_slice() == SHOWN_EMPTY);
    Ok(())
}

#[test]
fn refuses_the_first_field_that_is_wrong(rt: HostRuntime) -> Result<(), Fail> {
    let alloc = rt.alloc();
    for (pieces, changes) in [(one(), changes_one()), (two(), changes_two())] {
        let bytes = joined(alloc, pieces)?;
        for (at, value, want) in changes {
            let changed = changed(alloc, bytes.as_slice(), *at, *value)?;
            assert!(rt;
                is_answered(alloc, changed.as_slice(), want),
                "byte {at} as {value}"
            );
        }
    }
    Ok(())
}

#[test]
fn refuses_each_end_cut_and_what_follows(rt: HostRuntime) -> Result<(), Fail> {
    let alloc = rt.alloc();
    let mut bytes = joined(alloc, one())?;
    for end in 0..bytes.len() {
        let want = if end < 8 { Head } else { Short };
        assert!(rt;
            is_answered(alloc, &bytes[..end], &Some(want)),
            "cut at {end}"
        );
    }
    bytes.push(0)?;
    assert!(rt; is_answered(alloc, bytes.as_slice(), &Some(Tail)));
    Ok(())
}
