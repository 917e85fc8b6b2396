// The greatest underflow of an object.
ghost use Rattle.std.specs.Prelude.{◌≡◌, ◌<◌, Contains, IfOk, length};
ghost use Rattle.heap_image.specs.Agreement.{AgreeOn, Allocation, allocation_of};
ghost use Rattle.overflow_isolator.specs.Found.{IsFoundOf};
ghost use Rattle.overflow_isolator.specs.Overflows.{IsGreatestUnderflow};

use crate::Underflow;
use crate::agreed::windows_of;
use crate::search::farthest;
use exact_heap::SlotRow;
use heap_image::Indexed;
use std::alloc::{AllocError, Global};

/// An object's greatest underflow; the image is one of the images.
pub fn underflow_of(
    alloc: Global,
    images: &[Indexed<'_>],
    image: &Indexed<'_>,
    object: u64,
) -> Result<Option<Underflow>, AllocError>
    requires { Contains images.now image.now }
    ensures { IfOk result (λ found. IsFoundOf (λ f. f.object) (IsGreatestUnderflow images.now) object found) }
{
    match image.row_of(object) {
        None => Ok(None),
        Some(row) => underflow_of_row(alloc, images, object, &row),
    }
}

// The same, where the images agree on nothing of the object but what the row says.
fn underflow_of_row(
    alloc: Global,
    images: &[Indexed<'_>],
    object: u64,
    row: &SlotRow,
) -> Result<Option<Underflow>, AllocError>
    requires some { 0 < length images.now }
    requires told { (a : Allocation) → AgreeOn images.now object a → allocation_of row.now ≡ a }
    ensures { IfOk result (λ found. IsFoundOf (λ f. f.object) (IsGreatestUnderflow images.now) object found) }
{
    match windows_of(alloc, images, object, row, 0)? {
        None => Ok(None),
        Some(windows) => match farthest(&windows) {
            None => Ok(None),
            Some(extent) => Ok(Some(Underflow {
                object,
                site: row.site,
                extent,
            })),
        },
    }
}
