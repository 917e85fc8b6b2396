// The objects that were written to after they were freed.
ghost use Rattle.std.specs.Prelude.{◌≡◌, ◌++◌, ◌<◌, length, map, filter, MatchResult, IfOk, OnOk};
ghost use Rattle.std.specs.List.{flat_map};
ghost use Rattle.dangling_isolator.specs.Marks.{break_marks, row_marks, marks_in, common_in, is_among, AreByObject};
ghost use Rattle.dangling_isolator.specs.Danglings.{AreDanglings, is_released, mark_of, dangling_of, greatest_clock};
ghost use Rattle.heap_image.specs.Agreement.{AreComparable, IsRefused};

use crate::mark::Mark;
use culprits::Dangling;
use exact_heap::SlotRow;
use heap_image::{Broken, Image, IsoRefusal, agree, slot_bytes};
use miniheap::Places;
use std::alloc::{AllocError, Global};
use std::collections::{BTreeMap, BTreeSet};

/// The objects that were written to after they were freed, by rising number: each that all images have
/// as a released one, alike, and in whose slot all of them have one broken byte alike.
///
/// Few comes below two images, and Mixed where two of them aren't of one program, place and patches or
/// are of one seed.
pub fn danglings(alloc: Global, images: &[Image]) -> Result<Vec<Dangling>, IsoRefusal>
    ensures { MatchResult result (λ list. AreComparable images.now × AreDanglings images.now list.items) (IsRefused images.now) }
{
    match agree(images) {
        Err(refusal) => Err(refusal),
        Ok(_) => match found(alloc, images) {
            Err(_) => Err(IsoRefusal::Memory),
            Ok(list) => Ok(list),
        },
    }
}

fn found(alloc: Global, images: &[Image]) -> Result<Vec<Dangling>, AllocError>
    requires { 0 < length images.now }
    ensures { IfOk result (λ list. AreDanglings images.now list.items) }
{
    images[0].rules();
    let seen = greatest_clock(images);
    let marks = common_marks(alloc, images)?;
    let found = by_object(alloc, &marks, seen)?;
    in_order(alloc, &found)
}

fn greatest_clock(images: &[Image]) -> u64
    ensures { result ≡ greatest_clock images.now }
{
    let mut seen = 0;
    for image in images {
        seen = seen.max(image.clock);
    }
    seen
}

// ---- marks

// The marks that all images have.
fn common_marks(alloc: Global, images: &[Image]) -> Result<Vec<Mark>, AllocError>
    requires { 0 < length images.now }
    ensures { IfOk result (λ marks. marks.items ≡ common_in images.now) }
{
    let mut common = marks_of(alloc, &images[0])?;
    for image in &images[1..] {
        let marks = marks_of(alloc, image)?;
        keep_those_among(alloc, &mut common, &marks)?;
    }
    Ok(common)
}

fn keep_those_among(alloc: Global, common: &mut Vec<Mark>, marks: &[Mark]) -> Result<(), AllocError>
    ensures { OnOk result (common.new.items ≡ filter (is_among marks.now) common.old.items) }
{
    let among = set_of(alloc, marks)?;
    common.retain(|mark| is_among(mark, &among));
    Ok(())
}

fn is_among(mark: &Mark, marks: &BTreeSet<Mark>) -> bool
    ensures { result ≡ is_among marks.now.keys mark.now }
{
    marks.contains(mark)
}

fn set_of(alloc: Global, marks: &[Mark]) -> Result<BTreeSet<Mark>, AllocError>
    ensures { IfOk result (λ set. (m : _) → is_among set.keys m ≡ is_among marks.now m) }
{
    marks.iter().copied().collect(alloc)
}

fn marks_of(alloc: Global, image: &Image) -> Result<Vec<Mark>, AllocError>
    ensures { IfOk result (λ marks. marks.items ≡ marks_in image.now) }
{
    let places = image.places(alloc)?;
    let mut marks = Vec::new(alloc);
    for row in &image.rows {
        put_row_marks(&mut marks, &places, row, image)?;
    }
    Ok(marks)
}

fn is_released(row: &SlotRow) -> bool
    ensures { result ≡ is_released row.now }
{
    row.state == 2 || row.state == 3
}

fn put_row_marks(
    marks: &mut Vec<Mark>,
    places: &Places,
    row: &SlotRow,
    image: &Image,
) -> Result<(), AllocError>
    ensures { OnOk result (marks.new.items ≡ marks.old.items ++ row_marks places.now image.now.broken row.now) }
{
    if !is_released(row) {
        return Ok(());
    }
    put_slot_marks(marks, slot_bytes(places, row.addr), row, image)
}

fn put_slot_marks(
    marks: &mut Vec<Mark>,
    len: u32,
    row: &SlotRow,
    image: &Image,
) -> Result<(), AllocError>
    ensures { OnOk result (marks.new.items ≡ marks.old.items ++ flat_map (break_marks len row.now) image.now.broken) }
{
    let from = u64::from(row.addr);
    let breaks = image.breaks_within(from, from + u64::from(len));
    for b in breaks {
        put_break_mark(marks, len, row, b)?;
    }
    Ok(())
}

fn put_break_mark(
    marks: &mut Vec<Mark>,
    len: u32,
    row: &SlotRow,
    b: &Broken,
) -> Result<(), AllocError>
    ensures { OnOk result (marks.new.items ≡ marks.old.items ++ break_marks len row.now b.now) }
{
    if row.addr <= b.addr && b.addr - row.addr < len {
        marks.push(mark_of(row, b.addr - row.addr, b.byte))?;
    }
    Ok(())
}

fn mark_of(row: &SlotRow, offset: u32, byte: u8) -> Mark
    ensures { result ≡ mark_of row.now offset byte }
{
    Mark {
        object: row.object,
        size: row.size,
        front: row.front,
        site: row.site,
        free_site: row.free_site,
        freed: row.freed,
        offset,
        byte,
    }
}

// ---- objects

fn dangling_of(mark: &Mark, seen: u64) -> Dangling
    ensures { result ≡ dangling_of seen mark.now }
{
    Dangling {
        object: mark.object,
        site: mark.site,
        free_site: mark.free_site,
        freed: mark.freed,
        seen,
    }
}

fn by_object(
    alloc: Global,
    marks: &[Mark],
    seen: u64,
) -> Result<BTreeMap<u64, Dangling>, AllocError>
    ensures { IfOk result (λ found. AreByObject seen marks.now found.entries) }
{
    let mut found = BTreeMap::new(alloc);
    for mark in marks {
        found.insert(mark.object, dangling_of(mark, seen))?;
    }
    let _ = found.len();
    Ok(found)
}

fn in_order(alloc: Global, found: &BTreeMap<u64, Dangling>) -> Result<Vec<Dangling>, AllocError>
    ensures { IfOk result (λ list. list.items ≡ map (λ e. e.1) found.now.entries) }
{
    let mut list = Vec::new(alloc);
    for dangling in found.values() {
        list.push(*dangling)?;
    }
    Ok(list)
}
