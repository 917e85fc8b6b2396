// One broken byte beside an object, in images under two seeds.
use super::*;
use heap_image::{Image, IsoRefusal};
use std::alloc::{AllocError, Global};
use std::test::*;

// Before the seed, between it and the last broken byte's address, and behind. The object has the 16
// bytes from 0x4000f350 on.
const HEAD: &[u8] = b"EXIMAGE2\x07\0\0\0\0\0\0\0";

static PARTS: [&'static [u8]; 14] = [
    b"\0\0\0\0\0\0\0",
    b"\xff\xff\xff\xff\xff\xff\xff\xff",
    b"\x01\0\0\0\0\0\0\0",
    b"\x11\0\0\0exterm-patches 2\n",
    b"\x01\0\0\0",
    b"\x04\0\0\0",
    b"\x01\0\0\0",
    b"\x50\xf3\0\x40",
    b"\x02",
    b"\0\0\0\0\0\0\0\0",
    b"\x10\0\0\0\0\0\0\0",
    b"\x3d\x4c\x32\x22\x49\x72\x0b\x23",
    b"\x01\0\0\0\0\0\0\0",
    b"\x01\0\0\0",
];

fn parts() -> &'static [&'static [u8]] {
    &PARTS
}

fn bytes_under(alloc: Global, seed: u8, broken: u8) -> Result<Vec<u8>, AllocError> {
    let mut bytes = Vec::new(alloc);
    bytes.extend_from_slice(HEAD)?;
    bytes.push(seed)?;
    for part in parts() {
        bytes.extend_from_slice(part)?;
    }
    bytes.push(broken)?;
    bytes.extend_from_slice(b"\xf3\0\x40\0")?;
    Ok(bytes)
}

// The images with the byte at 0x4000f300 and this broken, one for each seed.
fn images_under(alloc: Global, seeds: &[u8], broken: u8) -> Result<Vec<Image>, Fail> {
    let mut images = Vec::new(alloc);
    for seed in seeds {
        let bytes = bytes_under(alloc, *seed, broken)?;
        let image = Image::read(alloc, bytes.as_slice()).ok().ok_or("an image")?;
        images.push(image)?;
    }
    Ok(images)
}

#[test]
fn finds_a_store_behind_an_object(rt: HostRuntime) -> Result<(), Fail> {
    let alloc = rt.alloc();
    let images = images_under(alloc, &[1, 2], 0x62)?;
    let found = overflows(alloc, &images).ok().ok_or("a list")?;
    assert!(rt; found.len() == 1);
    let one = found.first().ok_or("an object")?;
    assert!(rt; one.object == 0 && one.site == 0x2232_4c3d && one.size == 16 && one.extent == 19);
    assert!(rt; underflows(alloc, &images).ok().ok_or("a list")?.is_empty());
    Ok(())
}

#[test]
fn finds_a_store_before_an_object(rt: HostRuntime) -> Result<(), Fail> {
    let alloc = rt.alloc();
    let images = images_under(alloc, &[1, 2], 0x4d)?;
    let found = underflows(alloc, &images).ok().ok_or("a list")?;
    assert!(rt; found.len() == 1);
    let one = found.first().ok_or("an object")?;
    assert!(rt; one.object == 0 && one.site == 0x2232_4c3d && one.extent == 3);
    assert!(rt; overflows(alloc, &images).ok().ok_or("a list")?.is_empty());
    let twice = images_under(alloc, &[1, 1], 0x4d)?;
    assert!(rt; overflows(alloc, &twice).err() == Some(IsoRefusal::Mixed));
    assert!(rt; underflows(alloc, &twice).err() == Some(IsoRefusal::Mixed));
    Ok(())
}
