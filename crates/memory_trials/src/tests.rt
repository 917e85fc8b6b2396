// A space against a plain list of places, and at its edges.
mod calls;
mod plain;
mod rows;

use calls::{copy, map, read};
use plain::first_difference;
use rows::Row::{
    Allows, Breaks, Bytes, Copies, Fetches, Fills, Loads, Maps, RefusesStore, RefusesWrite, Stores,
    Writes,
};
use rows::{Row, first_miss};
use rv_memory::Rest::{Canary, Zero};
use rv_memory::Space;
use rv_memory::Width::{Four, One, Two};

#[test]
fn agrees_with_a_plain_list(rt: HostRuntime) {
    for seed in 1..13u32 {
        let mut space = Space::new(rt.alloc());
        assert_eq!(&rt; first_difference(&mut space, seed * 2_654_435), None);
    }
}

const WORD: u32 = 0x4433_2211;

static LAST_ADDRESSES: [Row; 15] = [
    Maps((0xffff_f000, 0x1000), &[], Canary(WORD), (true, false)),
    Allows((0xffff_f000, 0x1000), true, true),
    Allows((0xffff_f001, 0x1000), false, false),
    Allows((0xffff_efff, 0x1000), false, false),
    Allows((0xffff_ffff, 1), true, true),
    Allows((0xffff_ffff, 2), false, false),
    Allows((0xffff_ffff, 0), true, true),
    Allows((0, 1), false, false),
    Allows((0, 0), true, true),
    Loads(0xffff_fffc, Four, Some(0x4433_2211)),
    Stores(0xffff_fffe, Two, 7),
    Loads(0xffff_fffc, Four, Some(0x0007_2211)),
    RefusesWrite(0xffff_fffe, &[1, 2, 3]),
    Loads(0xffff_fffc, Four, Some(0x0007_2211)),
    RefusesStore(0xffff_e000, One),
];

#[test]
fn spans_end_at_the_last_address_at_most(rt: HostRuntime) {
    assert_eq!(&rt;
        first_miss(&mut Space::new(rt.alloc()), &LAST_ADDRESSES),
        None
    );
}

static LOWEST_BYTE_FIRST: [Row; 11] = [
    Maps((0x1000, 8), &[1, 2, 3, 4, 0x85, 0x86], Zero, (true, false)),
    Loads(0x1000, Four, Some(0x0403_0201)),
    Loads(0x1004, Four, Some(0x0000_8685)),
    Loads(0x1002, Two, Some(0x0403)),
    Loads(0x1004, Two, Some(0x8685)),
    Loads(0x1003, One, Some(4)),
    Loads(0x1005, One, Some(0x86)),
    Stores(0x1000, Four, 0xa1b2_c3d4),
    Stores(0x1004, Two, 0x1234_5678),
    Stores(0x1007, One, 0x1234_5678),
    Bytes(0x1000, [0xd4, 0xc3, 0xb2, 0xa1, 0x78, 0x56, 0, 0x78]),
];

#[test]
fn numbers_have_their_lowest_byte_first(rt: HostRuntime) {
    assert_eq!(&rt;
        first_miss(&mut Space::new(rt.alloc()), &LOWEST_BYTE_FIRST),
        None
    );
}

static REFUSED_STORES: [Row; 12] = [
    Maps((0x2000, 3), &[1, 2, 3], Zero, (true, false)),
    Maps((0x2004, 4), &[5, 6, 7, 8], Zero, (true, false)),
    Loads(0x2000, Four, None),
    RefusesStore(0x2000, Four),
    RefusesWrite(0x2001, &[9, 9, 9, 9]),
    Maps((0x2003, 1), &[4], Zero, (false, false)),
    Bytes(0x2000, [1, 2, 3, 4, 5, 6, 7, 8]),
    RefusesStore(0x2000, Four),
    RefusesWrite(0x2001, &[9, 9, 9, 9]),
    Writes(0x2000, &[9, 9, 9]),
    Bytes(0x2000, [9, 9, 9, 4, 5, 6, 7, 8]),
    Allows((0x2000, 8), true, false),
];

#[test]
fn a_refused_store_leaves_every_byte(rt: HostRuntime) {
    assert_eq!(&rt;
        first_miss(&mut Space::new(rt.alloc()), &REFUSED_STORES),
        None
    );
}

static FETCHES: [Row; 11] = [
    Maps((0x3000, 3), &[1, 2, 3], Zero, (false, true)),
    Maps((0x3003, 3), &[4, 5, 6], Zero, (true, true)),
    Maps((0x3006, 3), &[7, 8, 9], Zero, (false, true)),
    Maps((0x3009, 3), &[10, 11, 12], Zero, (false, false)),
    Fetches(0x3000, Some(0x0403_0201)),
    Fetches(0x3004, Some(0x0807_0605)),
    Fetches(0x3008, None),
    Fetches(0x300c, None),
    Loads(0x3008, Four, Some(0x0c0b_0a09)),
    Stores(0x3004, One, 0xff),
    Fetches(0x3004, Some(0x0807_06ff)),
];

#[test]
fn fetches_over_ranges_that_run(rt: HostRuntime) {
    assert_eq!(&rt; first_miss(&mut Space::new(rt.alloc()), &FETCHES), None);
}

static CODE_IN_TWO_RANGES: [Row; 13] = [
    Maps((0x3000, 3), &[1, 2, 3], Zero, (false, true)),
    Maps((0x3003, 3), &[4, 5, 6], Zero, (false, true)),
    Maps((0x3006, 3), &[7, 8, 9], Zero, (false, false)),
    Maps((0x3009, 3), &[10, 11, 12], Zero, (false, true)),
    Loads(0x3000, Four, Some(0x0403_0201)),
    Fetches(0x3000, Some(0x0403_0201)),
    RefusesStore(0x3000, Four),
    Loads(0x3004, Four, Some(0x0807_0605)),
    Fetches(0x3004, None),
    RefusesStore(0x3004, Four),
    Loads(0x3008, Four, Some(0x0c0b_0a09)),
    Fetches(0x3008, None),
    RefusesStore(0x3008, Four),
];

#[test]
fn code_goes_on_in_the_range_behind_it(rt: HostRuntime) {
    assert_eq!(&rt;
        first_miss(&mut Space::new(rt.alloc()), &CODE_IN_TWO_RANGES),
        None
    );
}

static FILLS: [Row; 11] = [
    Maps((0x5000, 5), &[1, 1, 1, 1, 1], Zero, (true, false)),
    Maps((0x5005, 3), &[1, 1, 1], Zero, (true, false)),
    Fills((0x5001, 6), Canary(WORD), true),
    Bytes(0x5000, [1, 0x22, 0x33, 0x44, 0x11, 0x22, 0x33, 1]),
    Breaks((0x5001, 6), WORD, None),
    Breaks((0x5001, 7), WORD, Some(0x5007)),
    Breaks((0x5000, 8), WORD, Some(0x5000)),
    Breaks((0x5003, 0), WORD, None),
    Fills((0x5004, 2), Zero, true),
    Bytes(0x5000, [1, 0x22, 0x33, 0x44, 0, 0, 0x33, 1]),
    Fills((0x5004, 5), Zero, false),
];

#[test]
fn fills_by_the_address(rt: HostRuntime) {
    assert_eq!(&rt; first_miss(&mut Space::new(rt.alloc()), &FILLS), None);
}

// The number at each place of 1,400, modulo 251.
fn numbers() -> [u8; 1400] {
    let mut numbers = [0; 1400];
    for (i, byte) in numbers.iter_mut().enumerate() {
        *byte = (i % 251) as u8;
    }
    numbers
}

// Whether bytes are the last of a copied span's source, the copied span, and a zero.
fn are_copied(bytes: &[u8; 1401]) -> bool {
    for (i, byte) in bytes.iter().enumerate() {
        let want = match i {
            0 => 1399 % 251,
            1400 => 0,
            _ => i % 251,
        };
        if usize::from(*byte) != want {
            return false;
        }
    }
    true
}

fn copies_a_long_span(space: &mut Space) -> bool {
    let is_mapped = map(space, (0x5000, 3000), &numbers(), Zero, (false, true));
    let is_copied = copy(space, 0x5001, 0x5001 + 1399, 1399);
    let overlaps = copy(space, 0x5001, 0x5001 + 1398, 1399);
    let mut bytes = [0; 1401];
    let is_read = read(space, 0x5001 + 1398, &mut bytes);
    is_mapped && is_copied && !overlaps && is_read && are_copied(&bytes)
}

#[test]
fn copies_more_than_a_buffer_has(rt: HostRuntime) {
    assert!(&rt; copies_a_long_span(&mut Space::new(rt.alloc())));
}

static BEFORE_A_WRITE: [Row; 19] = [
    Maps((0x1_e000, 0x1_4000), &[], Zero, (true, true)),
    Maps((0x3_2000, 0x1_0000), &[], Canary(WORD), (true, true)),
    Loads(0x1_e000, Four, Some(0)),
    Loads(0x1_e000, Four, Some(0)),
    Fetches(0x1_e000, Some(0)),
    Loads(0x3_1ffc, Four, Some(0)),
    Loads(0x3_1ffc, Four, Some(0)),
    Fetches(0x3_1ffc, Some(0)),
    Loads(0x3_2000, Four, Some(WORD)),
    Loads(0x3_2000, Four, Some(WORD)),
    Fetches(0x3_2000, Some(WORD)),
    Loads(0x4_1ffc, Four, Some(WORD)),
    Loads(0x4_1ffc, Four, Some(WORD)),
    Fetches(0x4_1ffc, Some(WORD)),
    Breaks((0x3_2000, 0x1_0000), WORD, None),
    Breaks((0x3_1fff, 0x1_0000), WORD, Some(0x3_1fff)),
    Breaks((0x3_2001, 0x1000), 0x4455_2211, Some(0x3_2002)),
    Breaks((0x1_e000, 0x1_4000), 0, None),
    Breaks((0x1_e000, 0x1_4001), 0, Some(0x3_2000)),
];

#[test]
fn holds_what_it_was_mapped_with_before_a_write(rt: HostRuntime) {
    assert_eq!(&rt;
        first_miss(&mut Space::new(rt.alloc()), &BEFORE_A_WRITE),
        None
    );
}

static BESIDE_A_WRITE: [Row; 8] = [
    Maps((0x2_f000, 0x2_2000), &[], Canary(WORD), (true, false)),
    Stores(0x3_0000, Four, 0xa1b2_c3d4),
    Writes(0x3_fffe, &[1, 2, 3, 4]),
    Bytes(0x2_fffc, [0x11, 0x22, 0x33, 0x44, 0xd4, 0xc3, 0xb2, 0xa1]),
    Bytes(0x3_fffc, [0x11, 0x22, 1, 2, 3, 4, 0x33, 0x44]),
    Copies(0x3_fffe, 0x2_f001, 4, true),
    Bytes(0x2_f000, [0x11, 1, 2, 3, 4, 0x22, 0x33, 0x44]),
    Breaks((0x3_0004, 0x1000), WORD, None),
];

#[test]
fn a_write_leaves_the_bytes_beside_it(rt: HostRuntime) {
    assert_eq!(&rt;
        first_miss(&mut Space::new(rt.alloc()), &BESIDE_A_WRITE),
        None
    );
}
