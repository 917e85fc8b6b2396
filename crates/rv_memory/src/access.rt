// What an access is, and how it is refused.
ghost use Rattle.std.specs.Prelude.{◌≡◌, ℕ};
ghost use Rattle.std.specs.Bool.{OnTrue};
ghost use Rattle.diefast_canary.specs.Canary.{canary_byte};
ghost use Rattle.rv_memory.specs.Access.{bytes_in, rest_byte};

use thiserror::Error;

/// How many bytes an access has.
#[derive(Clone, Copy, Debug, PartialEq, Eq)]
pub enum Width {
    One,
    Two,
    Four,
}

impl Width {
    #[inline(always)]
    pub(crate) fn bytes(self) -> usize
        ensures { result ≡ bytes_in self }
    {
        match self {
            Width::One => 1,
            Width::Two => 2,
            Width::Four => 4,
        }
    }
}

/// A byte isn't mapped, or, at a fetch, may not be run.
#[derive(Clone, Copy, Debug, PartialEq, Eq, Error)]
#[error("an address is not mapped")]
pub struct Unmapped;

/// Why a store was refused.
#[derive(Clone, Copy, Debug, PartialEq, Eq, Error)]
pub enum StoreFault {
    /// A byte isn't mapped, or may not be written to.
    #[error("an address is not mapped for writing")]
    Unmapped,
    /// Memory for a page was wanting.
    #[error("memory is wanting")]
    Memory,
}

/// What a new range holds behind its first bytes.
#[derive(Clone, Copy, Debug, PartialEq, Eq)]
pub enum Rest {
    /// Zero bytes.
    Zero,
    /// The canary of this word (docs/canary.md).
    Canary(u32),
}

impl Rest {
    pub(crate) fn is_canary_of(self, word: u32) -> bool
        ensures { OnTrue result ((address : ℕ) → rest_byte self address ≡ canary_byte word address) }
    {
        match self {
            Rest::Zero => false,
            Rest::Canary(own) => own == word,
        }
    }
}
