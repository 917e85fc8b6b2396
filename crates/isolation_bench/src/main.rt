//! Isolates 16 images of 100,000 objects and 10,000 broken bytes each.
#![tactic(auto)]

use dangling_isolator::danglings;
use heap_image::Image;
use miniheap::Words;
use overflow_isolator::out_of_bounds;
use std::alloc::{AllocError, Global};
use std::io;
use std::time::Instant;

const IMAGES: u32 = 16;

const OBJECTS: u32 = 100_000;

const BREAKS: u32 = 10_000;

// Eight miniheaps of class 5, whose slots have 32 bytes.
const BASE: u32 = 0x4000_0000;

// The next number of a linear congruential generator.
fn next(number: u32) -> u32 {
    number.wrapping_mul(1_664_525).wrapping_add(1_013_904_223)
}

fn put_word(bytes: &mut Vec<u8>, number: u32) -> Result<(), AllocError> {
    bytes.extend_from_slice(&number.to_le_bytes())
}

fn put_long(bytes: &mut Vec<u8>, number: u64) -> Result<(), AllocError> {
    bytes.extend_from_slice(&number.to_le_bytes())
}

fn put_head(bytes: &mut Vec<u8>, seed: u32) -> Result<(), AllocError> {
    bytes.extend_from_slice(b"EXIMAGE2")?;
    for number in [7, u64::from(seed), u64::MAX, u64::from(OBJECTS)] {
        put_long(bytes, number)?;
    }
    bytes.extend_from_slice(b"\x11\0\0\0exterm-patches 2\n")?;
    put_word(bytes, 8)?;
    for _ in 0..8u32 {
        put_word(bytes, 5)?;
    }
    Ok(())
}

fn put_row(bytes: &mut Vec<u8>, k: u32, object: u32) -> Result<(), AllocError> {
    put_word(bytes, BASE.wrapping_add(k.wrapping_mul(64)))?;
    bytes.push(2)?;
    put_long(bytes, u64::from(object))?;
    for number in [16, 0, 1 + object % 50, 2] {
        put_word(bytes, number)?;
    }
    put_long(bytes, u64::from(OBJECTS))
}

// Objects lie in every second slot, in an order of the seed's; the last lies in the last of them.
fn put_rows(bytes: &mut Vec<u8>, seed: u32) -> Result<(), AllocError> {
    put_word(bytes, OBJECTS)?;
    let others = OBJECTS - 1;
    for k in 0..others {
        let turned = u64::from(k).wrapping_mul(1 << (seed % 20));
        put_row(bytes, k, (turned % u64::from(others)) as u32)?;
    }
    put_row(bytes, others, others)
}

fn put_break(bytes: &mut Vec<u8>, word: u32, addr: u32) -> Result<(), AllocError> {
    put_word(bytes, addr)?;
    let canary = word.to_le_bytes()[addr as usize % 4];
    bytes.push(canary ^ 0x55)?;
    Ok(())
}

// Broken bytes all over the heap, and one behind the last object.
fn put_breaks(bytes: &mut Vec<u8>, seed: u32) -> Result<(), AllocError> {
    let word = Words::new(u64::from(seed)).canary();
    put_word(bytes, BREAKS)?;
    let mut number = seed;
    for k in 0..BREAKS - 1 {
        number = next(number);
        put_break(bytes, word, BASE + 640 * k + (number >> 8) % 600)?;
    }
    put_break(bytes, word, BASE + 64 * (OBJECTS - 1) + 20)
}

fn bytes_under(alloc: Global, seed: u32) -> Result<Vec<u8>, AllocError> {
    let mut bytes = Vec::new(alloc);
    put_head(&mut bytes, seed)?;
    put_rows(&mut bytes, seed)?;
    put_breaks(&mut bytes, seed)?;
    Ok(bytes)
}

fn images_of(alloc: Global) -> Result<Vec<Image>, AllocError> {
    let mut images = Vec::new(alloc);
    for seed in 1..IMAGES + 1 {
        let bytes = bytes_under(alloc, seed)?;
        if let Ok(image) = Image::read(alloc, bytes.as_slice()) {
            images.push(image)?;
        }
    }
    Ok(images)
}

fn main(rt: HostRuntime) -> io::Result<()> {
    let alloc = rt.alloc();
    let images = images_of(alloc)?;
    let start = Instant::now(&rt)?;
    let (past, before) = out_of_bounds(alloc, &images).map_or((0, 0), |found| {
        (found.overflows.len(), found.underflows.len())
    });
    let first = start.elapsed(&rt)?.as_millis();
    let late = danglings(alloc, &images).map_or(0, |list| list.len());
    let second = start.elapsed(&rt)?.as_millis();
    eprintln!(&rt; "milliseconds up to overflows and underflows {first}, danglings {second}")?;
    let count = images.len();
    println!(&rt; "images {count} overflows {past} underflows {before} danglings {late}")
}
