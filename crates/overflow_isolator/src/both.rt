// Overflows and underflows at once.
ghost use Rattle.std.specs.Prelude.{◌<◌, length, IfOk, MatchResult};
ghost use Rattle.heap_image.specs.Agreement.{AreComparable, IsRefused};
ghost use Rattle.overflow_isolator.specs.Overflows.{AreOverflowsOf, AreUnderflowsOf};

use crate::finding::overflows_by;
use crate::finding_underflows::underflows_by;
use crate::{Overflow, Underflow};
use heap_image::{Image, IsoRefusal, agree, indexed_images};
use std::alloc::{AllocError, Global};

/// The objects that were written to past their end, and those that were written to before their start.
#[derive(Drop)]
pub struct OutOfBounds {
    pub overflows: Vec<Overflow>,
    pub underflows: Vec<Underflow>,
}

/// What `overflows` and `underflows` answer, with each image's rows put into order only once.
pub fn out_of_bounds(alloc: Global, images: &[Image]) -> Result<OutOfBounds, IsoRefusal>
    ensures { MatchResult result (λ found. AreComparable images.now × AreOverflowsOf images.now found.overflows.items × AreUnderflowsOf images.now found.underflows.items) (IsRefused images.now) }
{
    match agree(images) {
        Err(refusal) => Err(refusal),
        Ok(_) => match found_out_of_bounds(alloc, images) {
            Err(_) => Err(IsoRefusal::Memory),
            Ok(found) => Ok(found),
        },
    }
}

fn found_out_of_bounds(alloc: Global, images: &[Image]) -> Result<OutOfBounds, AllocError>
    requires { 0 < length images.now }
    ensures { IfOk result (λ found. AreOverflowsOf images.now found.overflows.items × AreUnderflowsOf images.now found.underflows.items) }
{
    let images = indexed_images(alloc, images)?;
    let overflows = overflows_by(alloc, &images, &images[0])?;
    let underflows = underflows_by(alloc, &images, &images[0])?;
    Ok(OutOfBounds {
        overflows,
        underflows,
    })
}
