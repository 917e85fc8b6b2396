// Which images can be compared: those of one program at one place, with the same patches and under
// different seeds (`docs/isolation.md`, "Agreement").
ghost use Rattle.std.specs.Prelude.{◌≡◌, ◌<◌, ◌≤◌, length, All, Any, MatchResult};
ghost use Rattle.std.specs.Bool.{OnTrue, OnFalse};
ghost use Rattle.heap_image.specs.Agreement.{AreAlike, AreComparable, Differ, IsRefused};

use crate::image::Image;
use std::alloc::AllocError;
use thiserror::Error;

/// Why images weren't compared.
#[derive(Clone, Copy, Debug, PartialEq, Eq, Drop, Error)]
pub enum IsoRefusal {
    /// There are fewer than two.
    #[error("too few images")]
    Few,
    /// Two differ in program, place or patches, or have the same seed.
    #[error("images of different runs")]
    Mixed,
    #[error("out of memory")]
    Memory,
}

impl From<AllocError> for IsoRefusal {
    ghost use Rattle.std.specs.Prelude.{◌≡◌};
    ghost use Rattle.heap_image.specs.declared.agreement.IsoRefusal.TheVariants.{Memory};

    ghost from_gives = { λ _ e. e ≡ Memory };

    fn from(_e: AllocError) -> IsoRefusal {
        IsoRefusal::Memory
    }
}

/// Whether images can be compared. It takes no memory, and a step for each pair of them.
pub fn agree(images: &[Image]) -> Result<(), IsoRefusal>
    ensures { MatchResult result (λ _. AreComparable images.now) (IsRefused images.now) }
{
    if images.len() < 2 {
        return Err(IsoRefusal::Few);
    }
    for i in 0..images.len() {
        if differs_from_any(&images[..i], &images[i]) {
            return Err(IsoRefusal::Mixed);
        }
    }
    Ok(())
}

fn differs_from_any(images: &[Image], image: &Image) -> bool
    ensures differs { OnTrue result (Any (λ s. Differ s image.now) images.now) }
    ensures alike { OnFalse result (All (λ s. AreAlike s image.now) images.now) }
{
    for earlier in images {
        if !are_alike(earlier, image) {
            return true;
        }
    }
    false
}

fn are_alike(a: &Image, b: &Image) -> bool
    ensures alike { OnTrue result (AreAlike a.now b.now) }
    ensures differ { OnFalse result (Differ a.now b.now) }
{
    if a.tag != b.tag {
        return false;
    }
    if a.place != b.place {
        return false;
    }
    if !a.patches.is_same(&b.patches) {
        return false;
    }
    a.seed != b.seed
}
