// The patches that images call for.
ghost use Rattle.std.specs.Prelude.{MatchResult};
ghost use Rattle.heap_image.specs.Agreement.{IsRefused};
ghost use Rattle.iterate.specs.Isolated.{IsIsolated};

use culprits::{Isolated, patches_for};
use dangling_isolator::danglings;
use heap_image::{Image, IsoRefusal};
use overflow_isolator::{found_is_in_reach, out_of_bounds};
use patch_table::Patches;
use std::alloc::Global;

/// The table that images of runs with the table `old` call for. They have to be of one program at one place, with the same
/// patches and under different seeds.
pub fn isolate(alloc: Global, images: &[Image], old: &Patches) -> Result<Isolated, IsoRefusal>
    ensures { MatchResult result (IsIsolated images.now old.now) (IsRefused images.now) }
{
    let found = match out_of_bounds(alloc, images) {
        Ok(found) => found,
        Err(refused) => return Err(refused),
    };
    let late = match danglings(alloc, images) {
        Ok(found) => found,
        Err(refused) => return Err(refused),
    };
    found_is_in_reach();
    match patches_for(alloc, &found.overflows, &found.underflows, &late, old) {
        Ok(isolated) => Ok(isolated),
        Err(_) => Err(IsoRefusal::Memory),
    }
}
