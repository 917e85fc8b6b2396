// An image and its parts.
ghost use Rattle.std.specs.Prelude.{◌≡◌};

use exact_heap::{Place, SlotRow};
use patch_table::Patches;
use std::marker::Model;

/// A byte of a slot without an owner that isn't the canary's.
#[derive(Clone, Copy, Debug, PartialEq, Eq)]
pub struct Broken {
    pub addr: u32,
    pub byte: u8,
}

/// A heap at a place of a run. The rules of its parts are in `docs/images.md`, and every image keeps
/// them.
#[derive(Drop)]
pub struct Image {
    /// The tag of the program's file.
    pub tag: u64,
    /// The seed of the heap.
    pub seed: u64,
    /// The heap call, or the end of the run.
    pub place: Place,
    /// How many objects were placed.
    pub clock: u64,
    pub patches: Patches,
    /// The class of each miniheap, in order of creation.
    pub miniheaps: Vec<u8>,
    /// The slots that ever had an owner or are bad, by rising address.
    pub rows: Vec<SlotRow>,
    /// The bytes of the slots of states 0 and 1, in the order of their rows.
    pub contents: Vec<u8>,
    /// By rising address.
    pub broken: Vec<Broken>,
}

impl Model for Image {
    ghost use Rattle.std.specs.Coded.{codes};
    ghost use Rattle.patch_table.specs.Table.{table_code};
    ghost use Rattle.heap_image.specs.Snapshot.{Snapshot};

    ghost Value = { Snapshot };

    ghost coded = { Prim.hlevel (codes, table_code) };

    ghost use Rattle.heap_image.specs.View.{snapshot_of};
    ghost use Rattle.heap_image.specs.Lawful.{IsLawful};

    ghost view = { snapshot_of };

    ghost invariant = { λ a. IsLawful (snapshot_of a) };
}

/// What stands before the patches.
#[derive(Clone, Copy)]
pub struct Head {
    pub tag: u64,
    pub seed: u64,
    pub place: Place,
    pub clock: u64,
}

impl Image {
    ghost use Rattle.heap_image.specs.Lawful.{IsLawful};

    /// What holds of every image.
    pub fn rules(&self)
        ensures { IsLawful self.now }
    {
        let _ = &self.rows;
    }
}
