// What all images say alike of an object, and its windows in them.
ghost use Rattle.std.specs.Prelude.{◌≡◌, ◌≢◌, ◌<◌, length, slice_index_or, IfOk, IsSomeAnd, MatchOption};
ghost use Rattle.std.specs.Bool.{OnTrue, OnFalse};
ghost use Rattle.std.specs.List.{AllZip};
ghost use Rattle.heap_image.specs.Agreement.{AgreeOn, allocation_of, row_of};
ghost use Rattle.overflow_isolator.specs.Windows.{IsApartIn, IsWindowOf, ShareNothing};

use crate::window::{Window, are_apart};
use exact_heap::SlotRow;
use heap_image::Indexed;
use std::alloc::{AllocError, Global};

/// An object's windows, which end so far behind its address, where all images say the same of it as a row.
/// There are none where a window has no broken byte in common with the first.
pub fn windows_of<'a>(
    alloc: Global,
    images: &[Indexed<'a>],
    object: u64,
    row: &SlotRow,
    gap: u32,
) -> Result<Option<Vec<Window<'a>>>, AllocError>
    requires { 0 < length images.now }
    ensures { IfOk result (λ found. MatchOption found (ShareNothing images.now object gap (allocation_of row.now)) (λ windows. AgreeOn images.now object (allocation_of row.now) × AllZip (IsWindowOf object gap) images.now windows.items)) }
{
    match window_in(&images[0], object, row, gap) {
        None => Ok(None),
        Some(first) => windows_beside(alloc, images, &first, object, row, gap),
    }
}

// The same; the first window is the object's in the first image.
fn windows_beside<'a>(
    alloc: Global,
    images: &[Indexed<'a>],
    first: &Window<'a>,
    object: u64,
    row: &SlotRow,
    gap: u32,
) -> Result<Option<Vec<Window<'a>>>, AllocError>
    requires some { 0 < length images.now }
    requires first { (d : _) → IsWindowOf object gap (slice_index_or images.now 0 d) first.now }
    ensures { IfOk result (λ found. MatchOption found (ShareNothing images.now object gap (allocation_of row.now)) (λ windows. AgreeOn images.now object (allocation_of row.now) × AllZip (IsWindowOf object gap) images.now windows.items)) }
{
    let mut windows = Vec::new(alloc);
    for image in images {
        match window_beside(first, image, object, row, gap) {
            None => return Ok(None),
            Some(window) => windows.push(window)?,
        }
    }
    Ok(Some(windows))
}

// The window in one image, where it says the same of the object as the row and has a broken byte in
// common with the first window.
fn window_beside<'a>(
    first: &Window<'a>,
    image: &Indexed<'a>,
    object: u64,
    row: &SlotRow,
    gap: u32,
) -> Option<Window<'a>>
    ensures { MatchOption result (IsApartIn first.now object gap (allocation_of row.now) image.now) (λ window. IsSomeAnd (row_of object image.now) (λ r. allocation_of r ≡ allocation_of row.now) × IsWindowOf object gap image.now window) }
{
    match window_in(image, object, row, gap) {
        None => None,
        Some(window) => {
            if are_apart(first, &window) {
                return None;
            }
            Some(window)
        }
    }
}

// The window in one image, where it says the same of the object as the row.
fn window_in<'a>(image: &Indexed<'a>, object: u64, row: &SlotRow, gap: u32) -> Option<Window<'a>>
    ensures { MatchOption result (¬ IsSomeAnd (row_of object image.now) (λ r. allocation_of r ≡ allocation_of row.now)) (λ window. IsSomeAnd (row_of object image.now) (λ r. allocation_of r ≡ allocation_of row.now) × IsWindowOf object gap image.now window) }
{
    match image.row_of(object) {
        None => None,
        Some(found) => {
            if !is_same_allocation(&found, row) {
                return None;
            }
            let end = u64::from(found.addr) + u64::from(found.front) + u64::from(gap);
            Some(Window {
                image: image.image(),
                end,
            })
        }
    }
}

fn is_same_allocation(a: &SlotRow, b: &SlotRow) -> bool
    ensures same { OnTrue result (allocation_of a.now ≡ allocation_of b.now) }
    ensures other { OnFalse result (allocation_of a.now ≢ allocation_of b.now) }
{
    if a.size != b.size {
        return false;
    }
    if a.front != b.front {
        return false;
    }
    if a.site != b.site {
        return false;
    }
    if a.free_site != b.free_site {
        return false;
    }
    a.freed == b.freed
}
