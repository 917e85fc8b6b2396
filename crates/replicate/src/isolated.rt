// What images of the winners call for.
ghost use Rattle.std.specs.Prelude.{IfOk, MatchOption, ◌≤◌, length};
ghost use Rattle.culprits.specs.Isolated.{IsIsolatedFrom};
ghost use Rattle.dangling_isolator.specs.Danglings.{AreDanglings};
ghost use Rattle.heap_image.specs.Agreement.{AreComparable, AreMixed};
ghost use Rattle.overflow_isolator.specs.Overflows.{AreOverflowsOf, AreUnderflowsOf};

use culprits::{Isolated, patches_for};
use dangling_isolator::danglings;
use heap_image::{Image, IsoRefusal};
use overflow_isolator::{found_is_in_reach, out_of_bounds};
use patch_table::Patches;
use std::alloc::{AllocError, Global};

/// The table that these images call for, where the runs had the table `old`; none where they can't be compared.
pub(crate) fn isolated_at(
    alloc: Global,
    images: &[Image],
    old: &Patches,
) -> Result<Option<Isolated>, AllocError>
    ensures { IfOk result (λ isolated. MatchOption isolated (2 ≤ length images.now → AreMixed images.now) (λ isolated. AreComparable images.now × IsIsolatedFrom (AreOverflowsOf images.now) (AreUnderflowsOf images.now) (AreDanglings images.now) old.now isolated)) }
{
    let found = match out_of_bounds(alloc, images) {
        Ok(found) => found,
        Err(IsoRefusal::Memory) => return Err(AllocError),
        Err(_) => return Ok(None),
    };
    let late = match danglings(alloc, images) {
        Ok(found) => found,
        Err(IsoRefusal::Memory) => return Err(AllocError),
        Err(_) => return Ok(None),
    };
    found_is_in_reach();
    let isolated = patches_for(alloc, &found.overflows, &found.underflows, &late, old)?;
    Ok(Some(isolated))
}
