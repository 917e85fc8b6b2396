// Broken bytes as they are read.
ghost use Rattle.std.specs.Prelude.{◌≡◌, ◌∷◌, ◌++◌, [], IfOk, nat_lt};
ghost use Rattle.std.specs.List.{list_all};

use crate::image::Broken;
use std::alloc::{AllocError, Global};
use std::marker::Model;

/// Broken bytes, with the least address that a further one may have.
#[derive(Drop)]
pub struct Breaks {
    items: Vec<Broken>,
    floor: u64,
}

impl Model for Breaks {
    ghost use Rattle.std.specs.Prelude.{List};
    ghost use Rattle.heap_image.specs.declared.image.Broken.{Broken};

    ghost Value = { List Broken };

    ghost use Rattle.heap_image.specs.Known.{KnowsBreaks};

    ghost view = { λ a. a.items.items };

    ghost invariant = { KnowsBreaks };
}

impl Breaks {
    pub fn new(alloc: Global) -> Breaks
        ensures { result ≡ [] }
    {
        Breaks {
            items: Vec::new(alloc),
            floor: 0,
        }
    }

    /// Whether all addresses are below this one.
    pub fn is_above(&self, addr: u32) -> bool
        ensures { result ≡ list_all (λ b. nat_lt b.addr addr) self.now }
    {
        self.floor <= u64::from(addr)
    }

    pub fn into_vec(self) -> Vec<Broken>
        ensures { result.items ≡ self }
    {
        let Breaks { items, .. } = self;
        items
    }

    /// These and one more.
    pub fn with(self, broken: Broken) -> Result<Breaks, AllocError>
        ensures { IfOk result (λ breaks. breaks ≡ self ++ broken ∷ []) }
    {
        let Breaks { mut items, floor } = self;
        items.push(broken)?;
        Ok(Breaks {
            items,
            floor: floor.max(u64::from(broken.addr) + 1),
        })
    }
}
