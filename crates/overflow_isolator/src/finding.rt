// The objects that overflow, by rising number (`docs/isolation.md`).
ghost use Rattle.std.specs.Prelude.{◌≡◌, ◌<◌, length, map, Contains, IfOk, OnOk, MatchResult};
ghost use Rattle.std.specs.List.Sorted.{IsStrictlySortedBy};
ghost use Rattle.std.specs.Ordering.{nat_cmp};
ghost use Rattle.heap_image.specs.Agreement.{AreComparable, IsRefused};
ghost use Rattle.overflow_isolator.specs.Found.{AreFoundIn, entries_with};
ghost use Rattle.overflow_isolator.specs.Overflows.{AreOverflowsOf, IsGreatestOverflow};

use crate::Overflow;
use crate::greatest_overflow::overflow_of;
use exact_heap::SlotRow;
use heap_image::{Image, Indexed, IsoRefusal, agree, indexed_images};
use std::alloc::{AllocError, Global};
use std::collections::BTreeMap;

/// The objects that overflow in all images, by rising number, each with its greatest extent.
///
/// Few comes below two images, and Mixed where two of them aren't of one program, place and patches or
/// are of one seed.
pub fn overflows(alloc: Global, images: &[Image]) -> Result<Vec<Overflow>, IsoRefusal>
    ensures { MatchResult result (λ list. AreComparable images.now × AreOverflowsOf images.now list.items) (IsRefused images.now) }
{
    match agree(images) {
        Err(refusal) => Err(refusal),
        Ok(_) => match found_overflows(alloc, images) {
            Err(_) => Err(IsoRefusal::Memory),
            Ok(list) => Ok(list),
        },
    }
}

fn found_overflows(alloc: Global, images: &[Image]) -> Result<Vec<Overflow>, AllocError>
    requires { 0 < length images.now }
    ensures { IfOk result (λ list. AreOverflowsOf images.now list.items) }
{
    let images = indexed_images(alloc, images)?;
    overflows_by(alloc, &images, &images[0])
}

/// The same; the image is one of the images.
pub fn overflows_by(
    alloc: Global,
    images: &[Indexed<'_>],
    image: &Indexed<'_>,
) -> Result<Vec<Overflow>, AllocError>
    requires { Contains images.now image.now }
    ensures { IfOk result (λ list. AreOverflowsOf images.now list.items) }
{
    let first = image.image();
    let found = overflows_by_object(alloc, images, image, &first.rows)?;
    overflows_in_order(alloc, &found)
}

fn overflows_by_object(
    alloc: Global,
    images: &[Indexed<'_>],
    image: &Indexed<'_>,
    rows: &[SlotRow],
) -> Result<BTreeMap<u64, Overflow>, AllocError>
    requires { Contains images.now image.now }
    ensures rising { IfOk result (λ found. IsStrictlySortedBy nat_cmp (map (λ e. e.0) found.entries)) }
    ensures found { IfOk result (λ found. AreFoundIn (λ f. f.object) (IsGreatestOverflow images.now) rows.now found.entries) }
{
    let mut found = BTreeMap::new(alloc);
    for row in rows {
        let overflow = overflow_of(alloc, images, image, row.object)?;
        put_overflow(&mut found, row.object, overflow)?;
    }
    let _ = found.len();
    Ok(found)
}

fn put_overflow(
    found: &mut BTreeMap<u64, Overflow>,
    object: u64,
    overflow: Option<Overflow>,
) -> Result<(), AllocError>
    ensures { OnOk result (found.new.entries ≡ entries_with found.old.entries object overflow) }
{
    match overflow {
        None => Ok(()),
        Some(overflow) => {
            found.insert(object, overflow)?;
            Ok(())
        }
    }
}

fn overflows_in_order(
    alloc: Global,
    found: &BTreeMap<u64, Overflow>,
) -> Result<Vec<Overflow>, AllocError>
    ensures { IfOk result (λ list. list.items ≡ map (λ e. e.1) found.now.entries) }
{
    let mut list = Vec::new(alloc);
    for overflow in found.values() {
        list.push(*overflow)?;
    }
    Ok(list)
}
