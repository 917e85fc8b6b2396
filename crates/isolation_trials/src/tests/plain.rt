// Plain searches: every object, every distance and every offset, in every image.
use dangling_isolator::Dangling;
use exact_heap::SlotRow;
use heap_image::Image;
use overflow_isolator::{Overflow, Underflow};
use std::alloc::{AllocError, Global};

fn row_in(rows: &[SlotRow], object: u64) -> Option<SlotRow> {
    for row in rows {
        if row.state != 4 && row.object == object {
            return Some(*row);
        }
    }
    None
}

fn is_alike(a: &SlotRow, b: &SlotRow) -> bool {
    a.size == b.size
        && a.front == b.front
        && a.site == b.site
        && a.free_site == b.free_site
        && a.freed == b.freed
}

// The object's row in each image, where all images agree on it.
fn agreed_rows(
    alloc: Global,
    images: &[Image],
    object: u64,
) -> Result<Option<Vec<SlotRow>>, AllocError> {
    let mut rows: Vec<SlotRow> = Vec::new(alloc);
    for image in images {
        let Some(row) = row_in(&image.rows, object) else {
            return Ok(None);
        };
        if let Some(first) = rows.first() {
            if !is_alike(first, &row) {
                return Ok(None);
            }
        }
        rows.push(row)?;
    }
    Ok(Some(rows))
}

fn addr_from(row: &SlotRow, distance: u32) -> u32 {
    row.addr.wrapping_add(row.front).wrapping_add(distance)
}

fn byte_at(image: &Image, addr: u32) -> Option<u8> {
    for byte in &image.broken {
        if byte.addr == addr {
            return Some(byte.byte);
        }
    }
    None
}

// Whether each image has the byte broken that lies so far from the object's address.
fn are_broken(images: &[Image], rows: &[SlotRow], distance: u32) -> bool {
    for (image, row) in images.iter().zip(rows) {
        if byte_at(image, addr_from(row, distance)).is_none() {
            return false;
        }
    }
    true
}

fn next_broken(image: &Image, addr: u32) -> u32 {
    for byte in &image.broken {
        if byte.addr >= addr {
            return byte.addr;
        }
    }
    u32::MAX
}

// At which of the 65,536 distances from one on the byte is broken in every image, counted from that one.
fn shared_places(
    alloc: Global,
    images: &[Image],
    rows: &[SlotRow],
    from: u32,
) -> Result<Vec<u32>, AllocError> {
    let mut places = Vec::new(alloc);
    let (Some(image), Some(row)) = (images.first(), rows.first()) else {
        return Ok(places);
    };
    let start = addr_from(row, from);
    let mut next = next_broken(image, start);
    for k in 0..65_536u32 {
        if start.wrapping_add(k) == next {
            if are_broken(images, rows, from.wrapping_add(k)) {
                places.push(k)?;
            }
            next = next_broken(image, next.wrapping_add(1));
        }
    }
    Ok(places)
}

fn overflow_of(
    alloc: Global,
    images: &[Image],
    rows: &[SlotRow],
) -> Result<Option<Overflow>, AllocError> {
    let Some(row) = rows.first() else {
        return Ok(None);
    };
    let places = shared_places(alloc, images, rows, row.size)?;
    Ok(
        places.last().map(|k| Overflow {
            object: row.object,
            site: row.site,
            size: row.size,
            extent: row.size.wrapping_add(*k).wrapping_add(1),
        }),
    )
}

pub fn overflowing_objects(alloc: Global, images: &[Image]) -> Result<Vec<Overflow>, AllocError> {
    let mut all = Vec::new(alloc);
    for object in 0..5 {
        if let Some(rows) = agreed_rows(alloc, images, object)? {
            if let Some(found) = overflow_of(alloc, images, &rows)? {
                all.push(found)?;
            }
        }
    }
    Ok(all)
}

fn underflow_of(
    alloc: Global,
    images: &[Image],
    rows: &[SlotRow],
) -> Result<Option<Underflow>, AllocError> {
    let Some(row) = rows.first() else {
        return Ok(None);
    };
    let places = shared_places(alloc, images, rows, 0u32.wrapping_sub(65_536))?;
    Ok(
        places.first().map(|k| Underflow {
            object: row.object,
            site: row.site,
            extent: 65_536u32.wrapping_sub(*k),
        }),
    )
}

pub fn underflowing_objects(alloc: Global, images: &[Image]) -> Result<Vec<Underflow>, AllocError> {
    let mut all = Vec::new(alloc);
    for object in 0..5 {
        if let Some(rows) = agreed_rows(alloc, images, object)? {
            if let Some(found) = underflow_of(alloc, images, &rows)? {
                all.push(found)?;
            }
        }
    }
    Ok(all)
}

// ---- written to after they were freed

// The broken byte so far from the start of the object's slot, where it is one and the same in all images.
fn has_one_byte(images: &[Image], object: u64, offset: u32) -> bool {
    let mut shared = None;
    for image in images {
        let byte = match row_in(&image.rows, object) {
            None => None,
            Some(row) => byte_at(image, row.addr.wrapping_add(offset)),
        };
        if byte.is_none() || (shared.is_some() && shared != byte) {
            return false;
        }
        shared = byte;
    }
    true
}

fn is_written_late(images: &[Image], object: u64) -> bool {
    for offset in 0..32 {
        if has_one_byte(images, object, offset) {
            return true;
        }
    }
    false
}

fn are_released(rows: &[SlotRow]) -> bool {
    rows.iter().all(|row| row.state == 2 || row.state == 3)
}

fn last_clock(images: &[Image]) -> u64 {
    let mut last = 0;
    for image in images {
        last = last.max(image.clock);
    }
    last
}

pub fn dangling_objects(alloc: Global, images: &[Image]) -> Result<Vec<Dangling>, AllocError> {
    let mut all = Vec::new(alloc);
    for object in 0..5 {
        if let Some(rows) = agreed_rows(alloc, images, object)? {
            if are_released(&rows) && is_written_late(images, object) {
                if let Some(row) = rows.first() {
                    all.push(Dangling {
                        object,
                        site: row.site,
                        free_site: row.free_site,
                        freed: row.freed,
                        seen: last_clock(images),
                    })?;
                }
            }
        }
    }
    Ok(all)
}
