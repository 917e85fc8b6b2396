// An image from its bytes.
ghost use Rattle.std.specs.Prelude.{◌≡◌, ◌≤◌, ◌<◌, ◌∷◌, ◌++◌, ◌^◌, [], IfOk, IsTrue, Ok, length};
ghost use Rattle.heap_image.specs.Fields.{Word};
ghost use Rattle.heap_image.specs.Formats.{place_of, head_format, class_format, freed_format, front_format, sized_format, row_format, broken_format};
ghost use Rattle.heap_image.specs.Rules.{class_fits, addr_fits, site_fits, is_unfreed, free_site_fits, freed_fits, size_fits, front_fits, contents_len, broken_addr_fits, broken_byte_fits, canary_at};
ghost use Rattle.miniheap.specs.WordList.{canary_of};
ghost use Rattle.heap_image.specs.Steps.{Gives, read_at, items_at, counted_at};
ghost use Rattle.heap_image.specs.Versions.{greatest_class};

use crate::breaks::Breaks;
use crate::fields::{byte_at, keeps, long_at, word_at};
use crate::image::{Broken, Head};
use crate::refusal::ImageRefusal;
use crate::rows::Rows;
use crate::slots::{canary_byte, canary_of, is_unowned, slot_bytes};
use crate::version::Version;
use exact_heap::{Place, SlotRow};
use miniheap::Places;
use std::alloc::{AllocError, Global};

const START: u32 = 0x4000_0000;

// The bytes of all miniheaps, at most.
const LIMIT: u64 = 1_071_644_672;

/// The first fields of a row.
#[derive(Clone, Copy)]
pub struct Owner {
    addr: u32,
    state: u8,
    object: u64,
}

fn place_of(number: u64) -> Place
    ensures { result ≡ place_of number }
{
    if number == u64::MAX {
        Place::End
    } else {
        Place::Call(number)
    }
}

#[tactic(auto, unfolding(crate::specs::Steps::read_at, crate::specs::Steps::rule))]
pub fn head_of(whole: usize, bytes: &[u8]) -> Result<(Head, &[u8]), ImageRefusal>
    ensures { Gives (λ x. (x.0, x.1.now)) result (read_at whole head_format bytes.now) }
{
    let (tag, rest) = long_at(bytes)?;
    let (seed, rest) = long_at(rest)?;
    let (place, rest) = long_at(rest)?;
    let (clock, rest) = long_at(rest)?;
    Ok((
        Head {
            tag,
            seed,
            place: place_of(place),
            clock,
        },
        rest,
    ))
}

// ---- miniheaps

fn greatest_class(version: Version) -> u32
    ensures value { result ≡ greatest_class version }
    ensures most { result ≤ 22 }
{
    match version {
        Version::One => 21,
        Version::Two => 22,
    }
}

fn class_fits(version: Version, places: &Places, class: u32) -> bool
    ensures fits { result ≡ class_fits (greatest_class version) places.now class }
    ensures low { IsTrue result → 4 ≤ class }
    ensures high { IsTrue result → class ≤ 22 }
{
    if class < 4 || class > greatest_class(version) {
        return false;
    }
    let used = places.end() - START;
    u64::from(used) + u64::from(places.wanted(class as u8)) <= LIMIT
}

#[tactic(auto, unfolding(crate::specs::Steps::read_at))]
fn class_of<'a>(
    version: Version,
    whole: usize,
    places: &Places,
    bytes: &'a [u8],
) -> Result<(u8, &'a [u8]), ImageRefusal>
    ensures gives { Gives (λ x. (x.0, x.1.now)) result (read_at whole (class_format version places.now) bytes.now) }
    ensures low { IfOk result (λ x. 4 ≤ x.0) }
    ensures high { IfOk result (λ x. x.0 ≤ 22) }
{
    let (class, rest) = word_at(bytes)?;
    keeps(whole, bytes, class_fits(version, places, class))?;
    Ok((class as u8, rest))
}

// These miniheaps and one more.
pub fn with_class(mut places: Places, class: u8) -> Result<Places, AllocError>
    requires low { 4 ≤ class }
    requires high { class ≤ 22 }
    ensures { IfOk result (λ more. more ≡ places ++ class ∷ []) }
{
    match places.grow(class) {
        Ok(_) => Ok(places),
        Err(_) => Err(AllocError),
    }
}

fn classes_of(
    alloc: Global,
    version: Version,
    whole: usize,
    count: u32,
    bytes: &[u8],
) -> Result<(Places, &[u8]), ImageRefusal>
    ensures { Gives (λ x. (x.0, x.1.now)) result (items_at whole (class_format version) [] count bytes.now) }
{
    let mut places = Places::new(alloc);
    let mut rest = bytes;
    for _ in 0..count {
        let (class, after) = class_of(version, whole, &places, rest)?;
        places = with_class(places, class)?;
        rest = after;
    }
    Ok((places, rest))
}

#[tactic(auto, unfolding(crate::specs::Steps::counted_at))]
pub fn minis_of(
    alloc: Global,
    version: Version,
    whole: usize,
    bytes: &[u8],
) -> Result<(Places, &[u8]), ImageRefusal>
    ensures { Gives (λ x. (x.0, x.1.now)) result (counted_at whole (class_format version) bytes.now) }
{
    let (count, rest) = word_at(bytes)?;
    classes_of(alloc, version, whole, count, rest)
}

// ---- rows

fn addr_fits(places: &Places, rows: &Rows, addr: u32) -> bool
    ensures { result ≡ addr_fits places.now rows.now addr }
{
    let slot = slot_bytes(places, addr);
    let above = rows.is_above(addr);
    slot > 0 && above
}

fn size_fits(slot: u32, state: u8, size: u32) -> bool
    ensures { result ≡ size_fits slot state size }
{
    if state == 4 {
        size == 0
    } else {
        size <= 1_048_576 && size <= slot
    }
}

fn front_fits(slot: u32, state: u8, size: u32, front: u32) -> bool
    ensures { result ≡ front_fits slot state size front }
{
    if state == 4 {
        front == 0
    } else {
        front % 16 == 0
            && front <= 65_536
            && u64::from(front) + u64::from(size.max(1)) <= u64::from(slot)
    }
}

fn site_fits(state: u8, site: u32) -> bool
    ensures { result ≡ site_fits state site }
{
    state != 4 || site == 0
}

fn is_unfreed(state: u8) -> bool
    ensures { result ≡ is_unfreed state }
{
    state == 0 || state == 4
}

fn free_site_fits(state: u8, free_site: u32) -> bool
    ensures { result ≡ free_site_fits state free_site }
{
    !is_unfreed(state) || free_site == 0
}

fn freed_fits(clock: u64, state: u8, object: u64, freed: u64) -> bool
    ensures { result ≡ freed_fits clock state object freed }
{
    if is_unfreed(state) {
        freed == 0
    } else {
        object < freed && freed <= clock
    }
}

// The fields from the site on.
#[tactic(auto, unfolding(crate::specs::Steps::read_at))]
fn freed_of<'a>(
    whole: usize,
    clock: u64,
    owner: Owner,
    size: u32,
    front: u32,
    bytes: &'a [u8],
) -> Result<(SlotRow, &'a [u8]), ImageRefusal>
    ensures { Gives (λ x. (x.0, x.1.now)) result (read_at whole (freed_format clock owner size front) bytes.now) }
{
    let (site, rest) = word_at(bytes)?;
    keeps(whole, bytes, site_fits(owner.state, site))?;
    let (free_site, after) = word_at(rest)?;
    keeps(whole, rest, free_site_fits(owner.state, free_site))?;
    let (freed, last) = long_at(after)?;
    keeps(
        whole,
        after,
        freed_fits(clock, owner.state, owner.object, freed),
    )?;
    Ok((
        SlotRow {
            addr: owner.addr,
            state: owner.state,
            object: owner.object,
            size,
            front,
            site,
            free_site,
            freed,
        },
        last,
    ))
}

#[tactic(auto, unfolding(crate::specs::Steps::read_at))]
fn front_of<'a>(
    version: Version,
    whole: usize,
    slot: u32,
    clock: u64,
    owner: Owner,
    size: u32,
    bytes: &'a [u8],
) -> Result<(SlotRow, &'a [u8]), ImageRefusal>
    ensures { Gives (λ x. (x.0, x.1.now)) result (read_at whole (front_format version slot clock owner size) bytes.now) }
{
    match version {
        Version::One => freed_of(whole, clock, owner, size, 0, bytes),
        Version::Two => {
            let (front, rest) = word_at(bytes)?;
            keeps(whole, bytes, front_fits(slot, owner.state, size, front))?;
            freed_of(whole, clock, owner, size, front, rest)
        }
    }
}

// The fields from the size on.
#[tactic(auto, unfolding(crate::specs::Steps::read_at))]
fn sized_of<'a>(
    version: Version,
    whole: usize,
    slot: u32,
    clock: u64,
    owner: Owner,
    bytes: &'a [u8],
) -> Result<(SlotRow, &'a [u8]), ImageRefusal>
    ensures { Gives (λ x. (x.0, x.1.now)) result (read_at whole (sized_format version slot clock owner) bytes.now) }
{
    let (size, rest) = word_at(bytes)?;
    keeps(whole, bytes, size_fits(slot, owner.state, size))?;
    front_of(version, whole, slot, clock, owner, size, rest)
}

#[tactic(auto, unfolding(crate::specs::Steps::read_at))]
fn row_of<'a>(
    version: Version,
    whole: usize,
    places: &Places,
    clock: u64,
    earlier: &Rows,
    bytes: &'a [u8],
) -> Result<(SlotRow, &'a [u8]), ImageRefusal>
    ensures { Gives (λ x. (x.0, x.1.now)) result (read_at whole (row_format version places.now clock earlier.now) bytes.now) }
{
    let (addr, rest) = word_at(bytes)?;
    keeps(whole, bytes, addr_fits(places, earlier, addr))?;
    let (state, after) = byte_at(rest)?;
    keeps(whole, rest, state <= 4)?;
    let (object, last) = long_at(after)?;
    keeps(whole, after, earlier.object_fits(clock, state, object))?;
    let owner = Owner {
        addr,
        state,
        object,
    };
    sized_of(version, whole, slot_bytes(places, addr), clock, owner, last)
}

fn rows_from<'a>(
    alloc: Global,
    version: Version,
    whole: usize,
    places: &Places,
    clock: u64,
    count: u32,
    bytes: &'a [u8],
) -> Result<(Rows, &'a [u8]), ImageRefusal>
    ensures { Gives (λ x. (x.0, x.1.now)) result (items_at whole (row_format version places.now clock) [] count bytes.now) }
{
    let mut rows = Rows::new(alloc);
    let mut rest = bytes;
    for _ in 0..count {
        let (row, after) = row_of(version, whole, places, clock, &rows, rest)?;
        rows = rows.with(row)?;
        rest = after;
    }
    Ok((rows, rest))
}

#[tactic(auto, unfolding(crate::specs::Steps::counted_at))]
pub fn rows_of<'a>(
    alloc: Global,
    version: Version,
    whole: usize,
    places: &Places,
    clock: u64,
    bytes: &'a [u8],
) -> Result<(Rows, &'a [u8]), ImageRefusal>
    ensures { Gives (λ x. (x.0, x.1.now)) result (counted_at whole (row_format version places.now clock) bytes.now) }
{
    let (count, rest) = word_at(bytes)?;
    rows_from(alloc, version, whole, places, clock, count, rest)
}

// ---- broken bytes

fn broken_addr_fits(places: &Places, rows: &Rows, earlier: &Breaks, addr: u32) -> bool
    ensures { result ≡ broken_addr_fits places.now rows.now earlier.now addr }
{
    let unowned = is_unowned(places, rows, addr);
    let above = earlier.is_above(addr);
    unowned && above
}

fn byte_fits(seed: u64, canary: u32, addr: u32, byte: u8) -> bool
    requires { canary ≡ canary_of seed }
    ensures { result ≡ broken_byte_fits seed addr byte }
{
    byte != canary_byte(canary, addr)
}

#[tactic(auto, unfolding(crate::specs::Steps::read_at))]
fn broken_of<'a>(
    whole: usize,
    seed: u64,
    canary: u32,
    places: &Places,
    rows: &Rows,
    earlier: &Breaks,
    bytes: &'a [u8],
) -> Result<(Broken, &'a [u8]), ImageRefusal>
    requires { canary ≡ canary_of seed }
    ensures { Gives (λ x. (x.0, x.1.now)) result (read_at whole (broken_format seed places.now rows.now earlier.now) bytes.now) }
{
    let (addr, rest) = word_at(bytes)?;
    keeps(whole, bytes, broken_addr_fits(places, rows, earlier, addr))?;
    let (byte, last) = byte_at(rest)?;
    keeps(whole, rest, byte_fits(seed, canary, addr, byte))?;
    Ok((Broken { addr, byte }, last))
}

fn breaks_from<'a>(
    alloc: Global,
    whole: usize,
    seed: u64,
    places: &Places,
    rows: &Rows,
    count: u32,
    bytes: &'a [u8],
) -> Result<(Breaks, &'a [u8]), ImageRefusal>
    ensures { Gives (λ x. (x.0, x.1.now)) result (items_at whole (broken_format seed places.now rows.now) [] count bytes.now) }
{
    let canary = canary_of(seed);
    let mut breaks = Breaks::new(alloc);
    let mut rest = bytes;
    for _ in 0..count {
        let (broken, after) = broken_of(whole, seed, canary, places, rows, &breaks, rest)?;
        breaks = breaks.with(broken)?;
        rest = after;
    }
    Ok((breaks, rest))
}

#[tactic(auto, unfolding(crate::specs::Steps::counted_at))]
pub fn breaks_of<'a>(
    alloc: Global,
    whole: usize,
    seed: u64,
    places: &Places,
    rows: &Rows,
    bytes: &'a [u8],
) -> Result<(Breaks, &'a [u8]), ImageRefusal>
    ensures { Gives (λ x. (x.0, x.1.now)) result (counted_at whole (broken_format seed places.now rows.now) bytes.now) }
{
    let (count, rest) = word_at(bytes)?;
    breaks_from(alloc, whole, seed, places, rows, count, rest)
}
