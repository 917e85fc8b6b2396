// The patches from their text in an image.
ghost use Rattle.std.specs.Prelude.{ℕ, ◌≡◌, ◌++◌, true, drop, List, length, IfOk};
ghost use Rattle.heap_image.specs.Reading.{IsAnswer, IsAnyAnswer};
ghost use Rattle.heap_image.specs.Versions.{text_head};

use crate::version::Version;
use patch_table::{PatchRefusal, Patches, one_text_a_table};
use std::alloc::{AllocError, Global};

const HEAD_ONE: [u8; 17] = *b"exterm-patches 1\n";

const HEAD_TWO: [u8; 17] = *b"exterm-patches 2\n";

/// The table of a patch text of that version, and none where it is no table's.
pub fn patches_of(
    alloc: Global,
    version: Version,
    text: &[u8],
) -> Result<Option<Patches>, AllocError>
    ensures { IfOk result (IsAnswer version text.now) }
{
    one_text_a_table();
    if !has_head(version, text) {
        return Ok(None);
    }
    any_patches(alloc, text)
}

// The same, of either version.
fn any_patches(alloc: Global, text: &[u8]) -> Result<Option<Patches>, AllocError>
    ensures { IfOk result (IsAnyAnswer text.now) }
{
    match Patches::read(alloc, text) {
        Ok(patches) => Ok(Some(patches)),
        Err(PatchRefusal::Head) => Ok(None),
        Err(PatchRefusal::Line { .. }) => Ok(None),
        Err(PatchRefusal::Limit { .. }) => Ok(None),
        Err(PatchRefusal::Order { .. }) => Ok(None),
        Err(PatchRefusal::Memory) => Err(AllocError),
    }
}

// Whether a text begins with the first line of the version.
fn has_head(version: Version, text: &[u8]) -> bool
    ensures begins { result ≡ true → text.now ≡ text_head version ++ drop 17 text.now }
    ensures all { (rest : List ℕ) → text.now ≡ text_head version ++ rest → result ≡ true }
{
    match version {
        Version::One => text.starts_with(&HEAD_ONE),
        Version::Two => text.starts_with(&HEAD_TWO),
    }
}
