// Images of one heap under several seeds, made up from a number: five objects in slots of 32 bytes, and
// broken bytes, most of them at the same distance from an object in all images.
use exact_heap::SlotRow;
use heap_image::Image;
use std::alloc::{AllocError, Global};
use std::collections::BTreeMap;

const BASE: u32 = 0x4000_0000;
// Two miniheaps of class 5, of 2,048 and 4,096 slots.
const END: u32 = 0x4003_0000;

// Numbers of a linear congruential generator.
#[derive(Clone, Copy)]
struct Numbers {
    state: u64,
}

impl Numbers {
    fn next(&mut self) -> u32 {
        self.state = self
            .state
            .wrapping_mul(6_364_136_223_846_793_005)
            .wrapping_add(1_442_695_040_888_963_407);
        (self.state >> 33) as u32
    }

    fn is_one_in(&mut self, many: u32) -> bool {
        self.next() % many.max(1) == 0
    }
}

// A byte that is written so far behind an object's address, less 70,000.
#[derive(Clone, Copy)]
struct Fault {
    object: u64,
    distance: u32,
    byte: u8,
}

// ---- what all images of a list share

fn distance_by(kind: u32, number: u32) -> u32 {
    match kind % 6 {
        0 => 70_000 + number % 40,
        1 => 69_999 - number % 40,
        2 => 70_000 + 65_500 + number % 80,
        3 => 70_000 - 65_500 - number % 72,
        4 => 70_000 + number % 65_600,
        _ => 70_000 - number % 65_600,
    }
}

fn faults_of(alloc: Global, numbers: &mut Numbers) -> Result<Vec<Fault>, AllocError> {
    let mut faults = Vec::new(alloc);
    for _ in 0..8u32 {
        let kind = numbers.next();
        let distance = distance_by(kind, numbers.next());
        faults.push(Fault {
            object: u64::from(numbers.next() % 5),
            distance,
            byte: (numbers.next() % 256) as u8,
        })?;
    }
    Ok(faults)
}

// What a list says of an object: its state, size and front.
fn shape_of(list: u32, object: u32) -> (u8, u32, u32) {
    let mixed = list
        .wrapping_mul(2_654_435_761)
        .wrapping_add(object.wrapping_mul(40_503))
        >> 7;
    let state = [0u8, 1, 2, 2][(mixed % 4) as usize];
    (state, (mixed >> 4) % 17, (mixed >> 9) % 2 * 16)
}

// ---- an image

fn row_at(list: u32, object: u32, addr: u32, numbers: &mut Numbers) -> SlotRow {
    let (shared, size, front) = shape_of(list, object);
    let state = match numbers.next() % 12 {
        0 => shared.max(1).min(2) ^ 3,
        1 | 2 if shared == 2 => 3,
        _ => shared,
    };
    let is_freed = state != 0;
    SlotRow {
        addr,
        state,
        object: u64::from(object),
        size: if numbers.is_one_in(24) {
            size / 2
        } else {
            size
        },
        front,
        site: 100 + object % 3,
        free_site: if is_freed { 200 + object % 2 } else { 0 },
        freed: if is_freed { 10 + u64::from(object) } else { 0 },
    }
}

fn bad_row(addr: u32) -> SlotRow {
    SlotRow {
        addr,
        state: 4,
        object: 0,
        size: 0,
        front: 0,
        site: 0,
        free_site: 0,
        freed: 0,
    }
}

// Slots by rising address: those of five objects in some order, and a bad one now and then.
fn rows_of(alloc: Global, list: u32, numbers: &mut Numbers) -> Result<Vec<SlotRow>, AllocError> {
    let mut rows = Vec::new(alloc);
    let step = 1 + numbers.next() % 4;
    let first = numbers.next() % 5;
    let mut slot = numbers.next() % 900;
    for k in 0..5u32 {
        let object = (first + k * step) % 5;
        let addr = BASE + slot % 6_000 * 32;
        if !numbers.is_one_in(40) {
            rows.push(row_at(list, object, addr, numbers))?;
        }
        if numbers.is_one_in(10) {
            rows.push(bad_row(addr + 32))?;
        }
        slot = slot.wrapping_add(2 + numbers.next() % 900) % 6_000;
    }
    Ok(rows)
}

fn is_owned_at(rows: &[SlotRow], addr: u32) -> bool {
    for row in rows {
        if row.state <= 1 && row.addr == addr / 32 * 32 {
            return true;
        }
    }
    false
}

fn put_byte(
    broken: &mut BTreeMap<u32, u8>,
    rows: &[SlotRow],
    addr: u32,
    byte: u8,
) -> Result<(), AllocError> {
    if addr >= BASE && addr < END && !is_owned_at(rows, addr) {
        broken.insert(addr, byte)?;
    }
    Ok(())
}

fn put_fault(
    broken: &mut BTreeMap<u32, u8>,
    rows: &[SlotRow],
    fault: Fault,
    numbers: &mut Numbers,
) -> Result<(), AllocError> {
    for row in rows {
        if row.state != 4 && row.object == fault.object && !numbers.is_one_in(20) {
            let addr = row
                .addr
                .wrapping_add(row.front)
                .wrapping_add(fault.distance)
                .wrapping_sub(70_000);
            let byte = if numbers.is_one_in(16) { 7 } else { fault.byte };
            put_byte(broken, rows, addr, byte)?;
        }
    }
    Ok(())
}

fn broken_of(
    alloc: Global,
    rows: &[SlotRow],
    faults: &[Fault],
    numbers: &mut Numbers,
) -> Result<BTreeMap<u32, u8>, AllocError> {
    let mut broken = BTreeMap::new(alloc);
    for fault in faults {
        put_fault(&mut broken, rows, *fault, numbers)?;
    }
    let stray = BASE + numbers.next() % 0x3_0000;
    put_byte(&mut broken, rows, stray, (numbers.next() % 256) as u8)?;
    Ok(broken)
}

// ---- its bytes

fn put_word(bytes: &mut Vec<u8>, number: u32) -> Result<(), AllocError> {
    bytes.extend_from_slice(&number.to_le_bytes())
}

fn put_long(bytes: &mut Vec<u8>, number: u64) -> Result<(), AllocError> {
    bytes.extend_from_slice(&number.to_le_bytes())
}

fn put_head(bytes: &mut Vec<u8>, seed: u64, clock: u64) -> Result<(), AllocError> {
    bytes.extend_from_slice(b"EXIMAGE2")?;
    for number in [7, seed, u64::MAX, clock] {
        put_long(bytes, number)?;
    }
    bytes.extend_from_slice(b"\x11\0\0\0exterm-patches 2\n\x02\0\0\0\x05\0\0\0\x05\0\0\0")
}

fn put_row(bytes: &mut Vec<u8>, row: &SlotRow) -> Result<(), AllocError> {
    put_word(bytes, row.addr)?;
    bytes.push(row.state)?;
    put_long(bytes, row.object)?;
    for number in [row.size, row.front, row.site, row.free_site] {
        put_word(bytes, number)?;
    }
    put_long(bytes, row.freed)
}

fn put_rows(bytes: &mut Vec<u8>, rows: &[SlotRow]) -> Result<(), AllocError> {
    put_word(bytes, (rows.len() % 100) as u32)?;
    for row in rows {
        put_row(bytes, row)?;
    }
    Ok(())
}

fn put_contents(bytes: &mut Vec<u8>, rows: &[SlotRow]) -> Result<(), AllocError> {
    for row in rows {
        if row.state <= 1 {
            bytes.extend_from_slice(&[0; 32])?;
        }
    }
    Ok(())
}

fn put_broken(bytes: &mut Vec<u8>, broken: &BTreeMap<u32, u8>) -> Result<(), AllocError> {
    put_word(bytes, (broken.len() % 100) as u32)?;
    for (addr, byte) in broken.iter() {
        put_word(bytes, *addr)?;
        bytes.push(*byte)?;
    }
    Ok(())
}

fn image_of(
    alloc: Global,
    list: u32,
    seed: u64,
    faults: &[Fault],
    numbers: &mut Numbers,
) -> Result<Option<Image>, AllocError> {
    let rows = rows_of(alloc, list, numbers)?;
    let broken = broken_of(alloc, &rows, faults, numbers)?;
    let mut bytes = Vec::new(alloc);
    put_head(&mut bytes, seed, 20 + u64::from(numbers.next() % 3))?;
    put_rows(&mut bytes, &rows)?;
    put_contents(&mut bytes, &rows)?;
    put_broken(&mut bytes, &broken)?;
    Ok(Image::read(alloc, bytes.as_slice()).ok())
}

/// The images of a list; None where a broken byte happens to be the canary's.
pub fn images_of(alloc: Global, list: u32) -> Result<Option<Vec<Image>>, AllocError> {
    let mut numbers = Numbers {
        state: u64::from(list),
    };
    let faults = faults_of(alloc, &mut numbers)?;
    let count = 2 + numbers.next() % 3;
    let mut images = Vec::new(alloc);
    for seed in 0..count {
        match image_of(alloc, list, u64::from(seed), &faults, &mut numbers)? {
            None => return Ok(None),
            Some(image) => images.push(image)?,
        }
    }
    Ok(Some(images))
}
