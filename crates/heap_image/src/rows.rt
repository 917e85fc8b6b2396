// Rows as they are read.
ghost use Rattle.std.specs.Prelude.{◌≡◌, ◌∷◌, ◌++◌, ◌==◌, ◌||◌, not, [], IfOk};
ghost use Rattle.std.specs.List.{list_all};
ghost use Rattle.std.specs.Prelude.{nat_lt};
ghost use Rattle.heap_image.specs.Rules.{is_fresh, is_owned, object_fits};

use exact_heap::SlotRow;
use std::alloc::{AllocError, Global};
use std::collections::BTreeSet;
use std::marker::Model;

/// Rows, with what tells whether a further one may follow: the least address that it may have, the
/// objects that have a row, and the slots that an object has.
#[derive(Drop)]
pub struct Rows {
    rows: Vec<SlotRow>,
    floor: u64,
    objects: BTreeSet<u64>,
    owned: BTreeSet<u32>,
}

impl Model for Rows {
    ghost use Rattle.std.specs.Prelude.{List};
    ghost use Rattle.exact_heap.specs.declared.row.SlotRow.{SlotRow};

    ghost Value = { List SlotRow };

    ghost use Rattle.heap_image.specs.Known.{KnowsRows};

    ghost view = { λ a. a.rows.items };

    ghost invariant = { KnowsRows };
}

impl Rows {
    pub fn new(alloc: Global) -> Rows
        ensures { result ≡ [] }
    {
        Rows {
            rows: Vec::new(alloc),
            floor: 0,
            objects: BTreeSet::new(alloc),
            owned: BTreeSet::new(alloc),
        }
    }

    /// Whether all addresses are below this one.
    pub fn is_above(&self, addr: u32) -> bool
        ensures { result ≡ list_all (λ r. nat_lt r.addr addr) self.now }
    {
        self.floor <= u64::from(addr)
    }

    fn is_fresh(&self, object: u64) -> bool
        ensures { result ≡ is_fresh self.now object }
    {
        !self.objects.contains(&object)
    }

    pub fn object_fits(&self, clock: u64, state: u8, object: u64) -> bool
        ensures { result ≡ object_fits clock self.now state object }
    {
        if state == 4 {
            object == 0
        } else {
            object < clock && self.is_fresh(object)
        }
    }

    /// Whether no object has the slot at this address.
    pub fn is_unowned(&self, addr: u32) -> bool
        ensures { result ≡ list_all (λ r. not (is_owned r) || not (r.addr == addr)) self.now }
    {
        !self.owned.contains(&addr)
    }

    pub fn as_slice(&self) -> &[SlotRow]
        ensures { result.now ≡ self.now }
    {
        &self.rows
    }

    pub fn into_vec(self) -> Vec<SlotRow>
        ensures { result.items ≡ self }
    {
        let Rows { rows, .. } = self;
        rows
    }

    /// These rows and one more.
    pub fn with(self, row: SlotRow) -> Result<Rows, AllocError>
        ensures { IfOk result (λ rows. rows ≡ self ++ row ∷ []) }
    {
        let Rows {
            mut rows,
            floor,
            mut objects,
            mut owned,
        } = self;
        rows.push(row)?;
        if row.state != 4 {
            objects.insert(row.object)?;
        }
        if row.state <= 1 {
            owned.insert(row.addr)?;
        }
        Ok(Rows {
            rows,
            floor: floor.max(u64::from(row.addr) + 1),
            objects,
            owned,
        })
    }
}
