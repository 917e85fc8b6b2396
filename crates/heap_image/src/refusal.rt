use std::alloc::AllocError;
use thiserror::Error;

/// Why bytes are no image: the first field, from the front, that is wrong (`docs/images.md`,
/// "Refusals").
#[derive(Clone, Copy, Debug, PartialEq, Eq, Drop, Error)]
pub enum ImageRefusal {
    /// The bytes don't begin with the mark of a version.
    #[error("no mark of a heap image")]
    Head,
    /// They end inside a field.
    #[error("cut off")]
    Short,
    /// The field that begins at this byte breaks its rule.
    #[error("bad at {at}")]
    Bad { at: u64 },
    /// Bytes follow the last field.
    #[error("bytes behind the end")]
    Tail,
    #[error("out of memory")]
    Memory,
}

impl From<AllocError> for ImageRefusal {
    ghost use Rattle.std.specs.Prelude.{◌≡◌};
    ghost use Rattle.heap_image.specs.declared.refusal.ImageRefusal.TheVariants.{Memory};

    ghost from_gives = { λ _ e. e ≡ Memory };

    fn from(_e: AllocError) -> ImageRefusal {
        ImageRefusal::Memory
    }
}
