use miniheap::{Grid, GrowRefusal, Places, SlotPlace, SlotState, Words};
use size_class::{GREATEST, LEAST};
use std::alloc::Global;
use std::process::Abort;
use std::test::Fail;

const START: u32 = 0x4000_0000;

// A class grows alone until there is no room: the slots of its first miniheap, how many miniheaps there
// are, each with twice the slots of the one before it, and the bytes used and wanted at the end.
fn grows_alone(
    rt: &impl Abort,
    alloc: Global,
    class: u8,
    first: u32,
    minis: u32,
    end: (u32, u32),
) -> Result<(), Fail> {
    assert!(rt; class >= LEAST && class <= GREATEST);
    let mut grid = Grid::new(alloc);
    let mut base = START;
    let mut slots = first;
    for _mini in 0..minis {
        match grid.grow(alloc, class) {
            Ok(address) => assert_eq!(rt; address, base, "class {class}"),
            Err(_) => assert!(rt; false, "class {class}"),
        }
        let last = slots.wrapping_sub(1);
        match grid.slot_at(base.wrapping_add(last.wrapping_mul(1 << class))) {
            Some(slot) => assert!(rt; slot.nth == last && grid.after(&slot).is_none()),
            None => assert!(rt; false, "class {class}"),
        }
        base = base.wrapping_add(slots.wrapping_mul(1 << class));
        slots = slots.wrapping_mul(2);
    }
    match grid.grow(alloc, class) {
        Err(GrowRefusal::Room { used, wanted }) => assert_eq!(rt;
            (used, wanted),
            end,
            "class {class}"
        ),
        _ => assert!(rt; false, "class {class}"),
    }
    Ok(())
}

#[test]
fn grows_each_class_until_there_is_no_room(rt: HostRuntime) -> Result<(), Fail> {
    for (class, first, minis, end) in [
        (4, 4096, 13, (536_805_376, 536_870_912)),
        (5, 2048, 13, (536_805_376, 536_870_912)),
        (6, 1024, 13, (536_805_376, 536_870_912)),
        (7, 512, 13, (536_805_376, 536_870_912)),
        (8, 256, 13, (536_805_376, 536_870_912)),
        (9, 128, 13, (536_805_376, 536_870_912)),
        (10, 64, 13, (536_805_376, 536_870_912)),
        (11, 32, 13, (536_805_376, 536_870_912)),
        (12, 16, 13, (536_805_376, 536_870_912)),
        (13, 8, 13, (536_805_376, 536_870_912)),
        (14, 4, 13, (536_805_376, 536_870_912)),
        (15, 4, 12, (536_739_840, 536_870_912)),
        (16, 4, 11, (536_608_768, 536_870_912)),
        (17, 4, 10, (536_346_624, 536_870_912)),
        (18, 4, 9, (535_822_336, 536_870_912)),
        (19, 4, 9, (1_071_644_672, 1_073_741_824)),
        (20, 4, 8, (1_069_547_520, 1_073_741_824)),
        (21, 4, 7, (1_065_353_216, 1_073_741_824)),
        (22, 4, 6, (1_056_964_608, 1_073_741_824)),
    ] {
        grows_alone(&rt, rt.alloc(), class, first, minis, end)?;
    }
    Ok(())
}

// A slot of the class is drawn and held, after growth where that is due.
fn placed(
    rt: &impl Abort,
    alloc: Global,
    grid: &mut Grid,
    words: &mut Words,
    class: u8,
) -> Result<u32, Fail> {
    assert!(rt; class >= LEAST && class <= GREATEST);
    if grid.must_grow(class) {
        assert!(rt; grid.grow(alloc, class).is_ok());
    }
    assert!(rt; !grid.must_grow(class));
    let address = grid.draw(class, words);
    grid.hold(address);
    Ok(address)
}

// Objects of these classes are placed one after the other, and after every fifth one the one before
// the last is released. The words are those of the reference implementation of PCG32.
fn draws_by_words(
    rt: &impl Abort,
    alloc: Global,
    seed: u64,
    canary: u32,
    addresses: [u32; 16],
    next: u32,
) -> Result<(), Fail> {
    let classes = [21, 4, 21, 20, 21, 4, 21, 21, 20, 20, 21, 21, 4, 21, 20, 21];
    let mut words = Words::new(seed);
    assert_eq!(rt; words.canary(), canary, "seed {seed}");
    let mut grid = Grid::new(alloc);
    for i in 0..16 {
        let address = placed(rt, alloc, &mut grid, &mut words, classes[i])?;
        assert_eq!(rt; address, addresses[i], "seed {seed}");
        if i % 5 == 4 {
            match grid.slot_at(addresses[i - 2]) {
                Some(slot) if slot.state == SlotState::Held && slot.addr == addresses[i - 2] =>
                    grid.release(slot.addr),
                _ => assert!(rt; false, "seed {seed}"),
            }
        }
    }
    assert_eq!(rt; words.next(), next, "seed {seed}");
    Ok(())
}

#[test]
fn draws_by_the_words_of_a_seed(rt: HostRuntime) -> Result<(), Fail> {
    for (seed, canary, addresses, next) in [
        (
            1,
            0xe2393051,
            [
                0x40200000, 0x4080d350, 0x40400000, 0x40a10000, 0x41010000, 0x40801d80, 0x40c10000,
                0x41a10000, 0x40810000, 0x42010000, 0x40000000, 0x40400000, 0x4080eec0, 0x40e10000,
                0x42310000, 0x44210000,
            ],
            0x52dec4eb,
        ),
        (
            7,
            0xf2393151,
            [
                0x40400000, 0x4080acf0, 0x40600000, 0x40810000, 0x40c10000, 0x40802a50, 0x40e10000,
                0x41210000, 0x40910000, 0x42310000, 0x40600000, 0x41810000, 0x40809690, 0x41610000,
                0x42210000, 0x43010000,
            ],
            0xaaf5f878,
        ),
        (
            18_446_744_073_709_551_614,
            0x44726f5d,
            [
                0x40600000, 0x4080ad60, 0x40000000, 0x40b10000, 0x40400000, 0x40805990, 0x40c10000,
                0x41210000, 0x40a10000, 0x41f10000, 0x40000000, 0x41410000, 0x40808750, 0x41210000,
                0x42310000, 0x43a10000,
            ],
            0xf781f991,
        ),
    ] {
        draws_by_words(&rt, rt.alloc(), seed, canary, addresses, next)?;
    }
    Ok(())
}

#[test]
fn answers_both_numbers_where_there_is_no_room(rt: HostRuntime) -> Result<(), Fail> {
    let mut places = Places::new(rt.alloc());
    for base in [
        0x4000_0000,
        0x4080_0000,
        0x4180_0000,
        0x4380_0000,
        0x4780_0000,
        0x4f80_0000,
        0x5f80_0000,
    ] {
        match places.grow(21) {
            Ok(address) => assert_eq!(rt; address, base),
            Err(_) => assert!(rt; false),
        }
    }
    match places.grow(21) {
        Err(GrowRefusal::Room { used, wanted }) => assert_eq!(rt;
            (used, wanted),
            (1_065_353_216, 1_073_741_824)
        ),
        _ => assert!(rt; false),
    }
    match places.grow(4) {
        Ok(address) => assert_eq!(rt; address, 0x7f80_0000),
        Err(_) => assert!(rt; false),
    }
    assert!(rt; places.classes() == [21, 21, 21, 21, 21, 21, 21, 4].as_slice());
    assert_eq!(rt; places.end(), 0x7f81_0000);
    Ok(())
}

// Two miniheaps: four slots of 64 KiB, and behind them, from 0x40040000, 4,096 slots of 16 bytes.
fn two_miniheaps(rt: &impl Abort, alloc: Global) -> Result<Places, Fail> {
    let mut places = Places::new(alloc);
    assert!(rt; places.slot_at(START).is_none() && places.first().is_none());
    assert!(rt; places.grow(16).is_ok());
    assert!(rt; places.grow(4).is_ok());
    Ok(places)
}

// The address of a place, and 0 for none.
fn address_of(place: Option<SlotPlace>) -> u32 {
    match place {
        Some(place) => place.addr,
        None => 0,
    }
}

#[test]
fn finds_places_by_address_and_their_neighbours(rt: HostRuntime) -> Result<(), Fail> {
    let places = two_miniheaps(&rt, rt.alloc())?;
    assert_eq!(rt; address_of(places.first()), START);
    for (address, class, mini, nth, around) in [
        (0x4000_0000, 16, 0, 0, (0, 0x4001_0000, 0x4001_0000)),
        (
            0x4001_ffff,
            16,
            0,
            1,
            (0x4000_0000, 0x4002_0000, 0x4002_0000),
        ),
        (0x4003_ffff, 16, 0, 3, (0x4002_0000, 0, 0x4004_0000)),
        (0x4004_0000, 4, 1, 0, (0, 0x4004_0010, 0x4004_0010)),
        (0x4004_ffff, 4, 1, 4095, (0x4004_ffe0, 0, 0)),
    ] {
        match places.slot_at(address) {
            Some(place) => {
                let is = (place.class, place.mini, place.nth);
                assert!(rt; is == (class, mini, nth), "at {address}");
                let before = address_of(places.before(&place));
                let after = address_of(places.after(&place));
                let next = address_of(places.next(&place));
                assert!(rt; (before, after, next) == around, "at {address}");
            }
            None => assert!(rt; false, "at {address}"),
        }
    }
    assert!(rt; places.slot_at(0x3fff_ffff).is_none() && places.slot_at(0x4005_0000).is_none());
    Ok(())
}

#[test]
fn tells_the_miniheaps(rt: HostRuntime) -> Result<(), Fail> {
    let places = two_miniheaps(&rt, rt.alloc())?;
    for (number, is) in [(0, (16, START, 4)), (1, (4, 0x4004_0000, 4096))] {
        match places.miniheap(number) {
            Some(mini) => assert!(rt; (mini.class, mini.base, mini.slots) == is),
            None => assert!(rt; false),
        }
    }
    assert!(rt; places.miniheap(2).is_none());
    Ok(())
}

// Of 128 slots that lie side by side, those of these numbers are held or bad, and their neighbours free.
#[test]
fn keeps_the_states_of_neighbours_apart(rt: HostRuntime) -> Result<(), Fail> {
    let mut grid = Grid::new(rt.alloc());
    assert!(rt; grid.grow(rt.alloc(), 4).is_ok());
    for (nth, is_bad) in [(0, false), (62, true), (64, false), (127, true)] {
        let address = START + nth * 16;
        match grid.slot_at(address) {
            Some(slot) if slot.state == SlotState::Free && slot.addr == address => if is_bad {
                grid.spoil(address)
            } else {
                grid.hold(address)
            },
            _ => assert!(rt; false, "slot {nth}"),
        }
    }
    for nth in 0..129 {
        let state = match nth {
            0 | 64 => SlotState::Held,
            62 | 127 => SlotState::Bad,
            _ => SlotState::Free,
        };
        match grid.slot_at(START + nth * 16) {
            Some(slot) => assert!(rt; slot.state == state, "slot {nth}"),
            None => assert!(rt; false, "slot {nth}"),
        }
    }
    Ok(())
}
