// The greatest overflow of an object.
ghost use Rattle.std.specs.Prelude.{◌≡◌, ◌<◌, ◌≤◌, ◌^◌, Contains, IfOk, length};
ghost use Rattle.heap_image.specs.Agreement.{AgreeOn, Allocation, allocation_of};
ghost use Rattle.overflow_isolator.specs.Found.{IsFoundOf};
ghost use Rattle.overflow_isolator.specs.Overflows.{IsGreatestOverflow};

use crate::Overflow;
use crate::agreed::windows_of;
use crate::search::nearest;
use exact_heap::SlotRow;
use heap_image::Indexed;
use std::alloc::{AllocError, Global};

/// An object's greatest overflow; the image is one of the images.
pub fn overflow_of(
    alloc: Global,
    images: &[Indexed<'_>],
    image: &Indexed<'_>,
    object: u64,
) -> Result<Option<Overflow>, AllocError>
    requires { Contains images.now image.now }
    ensures { IfOk result (λ found. IsFoundOf (λ f. f.object) (IsGreatestOverflow images.now) object found) }
{
    image.image().rules();
    match image.row_of(object) {
        None => Ok(None),
        Some(row) => overflow_of_row(alloc, images, object, &row),
    }
}

// The same, where the images agree on nothing of the object but what the row says.
fn overflow_of_row(
    alloc: Global,
    images: &[Indexed<'_>],
    object: u64,
    row: &SlotRow,
) -> Result<Option<Overflow>, AllocError>
    requires some { 0 < length images.now }
    requires small { row.now.size ≤ 2 ^ 20 }
    requires told { (a : Allocation) → AgreeOn images.now object a → allocation_of row.now ≡ a }
    ensures { IfOk result (λ found. IsFoundOf (λ f. f.object) (IsGreatestOverflow images.now) object found) }
{
    let gap = row.size + 65536;
    match windows_of(alloc, images, object, row, gap)? {
        None => Ok(None),
        Some(windows) => match nearest(&windows) {
            None => Ok(None),
            Some(distance) => Ok(Some(Overflow {
                object,
                site: row.site,
                size: row.size,
                extent: gap - distance + 1,
            })),
        },
    }
}
