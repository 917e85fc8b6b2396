// A byte stored through a pointer to a freed object, in images under two seeds.
use super::*;
use heap_image::{Image, IsoRefusal};
use std::alloc::{AllocError, Global};
use std::test::*;

// Before the seed, between it and the state, between that and the broken byte's address, and behind that
// address's lowest byte.
const HEAD: &[u8] = b"EXIMAGE2\x07\0\0\0\0\0\0\0";

const TO_STATE: &[u8] =
    b"\0\0\0\0\0\0\0\xff\xff\xff\xff\xff\xff\xff\xff\x01\0\0\0\0\0\0\0\x11\0\0\0exterm-patches 2\n\x01\0\0\0\x04\0\0\0\x01\0\0\0\x50\xf3\0\x40";

const TO_BROKEN: &[u8] =
    b"\0\0\0\0\0\0\0\0\x10\0\0\0\0\0\0\0\x3d\x4c\x32\x22\x49\x72\x0b\x23\x01\0\0\0\0\0\0\0\x01\0\0\0";

const TAIL: &[u8] = b"\xf3\0\x40\0";

// A slot of 16 bytes at 0x4000f350, whose object was freed, and one broken byte at 0x4000f300 + `low`.
#[derive(Clone, Copy)]
struct Heap {
    state: u8,
    low: u8,
}

fn bytes_under(alloc: Global, seed: u8, heap: Heap) -> Result<Vec<u8>, AllocError> {
    let mut bytes = Vec::new(alloc);
    bytes.extend_from_slice(HEAD)?;
    bytes.push(seed)?;
    bytes.extend_from_slice(TO_STATE)?;
    bytes.push(heap.state)?;
    bytes.extend_from_slice(TO_BROKEN)?;
    bytes.push(heap.low)?;
    bytes.extend_from_slice(TAIL)?;
    Ok(bytes)
}

fn found_under(
    alloc: Global,
    seeds: &[u8],
    heap: Heap,
) -> Result<Result<Vec<Dangling>, IsoRefusal>, Fail> {
    let mut images = Vec::new(alloc);
    for seed in seeds {
        let bytes = bytes_under(alloc, *seed, heap)?;
        let image = Image::read(alloc, bytes.as_slice()).ok().ok_or("an image")?;
        images.push(image)?;
    }
    Ok(danglings(alloc, images.as_slice()))
}

const RELEASED: Heap = Heap {
    state: 2,
    low: 0x50,
};

#[test]
fn finds_a_store_after_a_free(rt: HostRuntime) -> Result<(), Fail> {
    let alloc = rt.alloc();
    let found = found_under(alloc, &[1, 2], RELEASED)?.ok().ok_or("a list")?;
    assert!(rt; found.len() == 1);
    let one = found.first().ok_or("an object")?;
    assert!(rt; one.object == 0 && one.site == 0x2232_4c3d && one.free_site == 0x230b_7249);
    assert!(rt; one.freed == 1 && one.seen == 1 && one.deferral() == 1);
    assert!(rt; found_under(alloc, &[1], RELEASED)?.err() == Some(IsoRefusal::Few));
    assert!(rt; found_under(alloc, &[1, 1], RELEASED)?.err() == Some(IsoRefusal::Mixed));
    Ok(())
}

// The state, the broken byte, and whether the object is found.
static CASES: [(u8, u8, bool); 5] = [
    (2, 0x50, true),
    (2, 0x5f, true),
    (2, 0x60, false),
    (3, 0x50, true),
    (3, 0x4f, false),
];

#[test]
fn finds_it_where_the_byte_is_in_its_slot(rt: HostRuntime) -> Result<(), Fail> {
    for (state, low, is_found) in &CASES {
        let heap = Heap {
            state: *state,
            low: *low,
        };
        let found = found_under(rt.alloc(), &[1, 2], heap)?
            .ok()
            .ok_or("a list")?;
        assert!(rt; found.is_empty() != *is_found);
    }
    Ok(())
}
