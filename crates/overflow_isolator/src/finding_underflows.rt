// The objects that underflow, by rising number (`docs/isolation.md`).
ghost use Rattle.std.specs.Prelude.{◌≡◌, ◌<◌, length, map, Contains, IfOk, OnOk, MatchResult};
ghost use Rattle.std.specs.List.Sorted.{IsStrictlySortedBy};
ghost use Rattle.std.specs.Ordering.{nat_cmp};
ghost use Rattle.heap_image.specs.Agreement.{AreComparable, IsRefused};
ghost use Rattle.overflow_isolator.specs.Found.{AreFoundIn, entries_with};
ghost use Rattle.overflow_isolator.specs.Overflows.{AreUnderflowsOf, IsGreatestUnderflow};

use crate::Underflow;
use crate::greatest_underflow::underflow_of;
use exact_heap::SlotRow;
use heap_image::{Image, Indexed, IsoRefusal, agree, indexed_images};
use std::alloc::{AllocError, Global};
use std::collections::BTreeMap;

/// The objects that underflow in all images, by rising number, each with its greatest extent.
///
/// Few comes below two images, and Mixed where two of them aren't of one program, place and patches or
/// are of one seed.
pub fn underflows(alloc: Global, images: &[Image]) -> Result<Vec<Underflow>, IsoRefusal>
    ensures { MatchResult result (λ list. AreComparable images.now × AreUnderflowsOf images.now list.items) (IsRefused images.now) }
{
    match agree(images) {
        Err(refusal) => Err(refusal),
        Ok(_) => match found_underflows(alloc, images) {
            Err(_) => Err(IsoRefusal::Memory),
            Ok(list) => Ok(list),
        },
    }
}

fn found_underflows(alloc: Global, images: &[Image]) -> Result<Vec<Underflow>, AllocError>
    requires { 0 < length images.now }
    ensures { IfOk result (λ list. AreUnderflowsOf images.now list.items) }
{
    let images = indexed_images(alloc, images)?;
    underflows_by(alloc, &images, &images[0])
}

/// The same; the image is one of the images.
pub fn underflows_by(
    alloc: Global,
    images: &[Indexed<'_>],
    image: &Indexed<'_>,
) -> Result<Vec<Underflow>, AllocError>
    requires { Contains images.now image.now }
    ensures { IfOk result (λ list. AreUnderflowsOf images.now list.items) }
{
    let first = image.image();
    let found = underflows_by_object(alloc, images, image, &first.rows)?;
    underflows_in_order(alloc, &found)
}

fn underflows_by_object(
    alloc: Global,
    images: &[Indexed<'_>],
    image: &Indexed<'_>,
    rows: &[SlotRow],
) -> Result<BTreeMap<u64, Underflow>, AllocError>
    requires { Contains images.now image.now }
    ensures rising { IfOk result (λ found. IsStrictlySortedBy nat_cmp (map (λ e. e.0) found.entries)) }
    ensures found { IfOk result (λ found. AreFoundIn (λ f. f.object) (IsGreatestUnderflow images.now) rows.now found.entries) }
{
    let mut found = BTreeMap::new(alloc);
    for row in rows {
        let underflow = underflow_of(alloc, images, image, row.object)?;
        put_underflow(&mut found, row.object, underflow)?;
    }
    let _ = found.len();
    Ok(found)
}

fn put_underflow(
    found: &mut BTreeMap<u64, Underflow>,
    object: u64,
    underflow: Option<Underflow>,
) -> Result<(), AllocError>
    ensures { OnOk result (found.new.entries ≡ entries_with found.old.entries object underflow) }
{
    match underflow {
        None => Ok(()),
        Some(underflow) => {
            found.insert(object, underflow)?;
            Ok(())
        }
    }
}

fn underflows_in_order(
    alloc: Global,
    found: &BTreeMap<u64, Underflow>,
) -> Result<Vec<Underflow>, AllocError>
    ensures { IfOk result (λ list. list.items ≡ map (λ e. e.1) found.now.entries) }
{
    let mut list = Vec::new(alloc);
    for underflow in found.values() {
        list.push(*underflow)?;
    }
    Ok(list)
}
