// The slots of a heap, and the last owner of each.
ghost use Rattle.std.specs.Prelude.{◌≡◌, Some, None, IsSome, IfSome, IfNone};

use crate::parts::slot_laws;
use crate::rows::{Row, Rows};
use miniheap::{Grid, Slot};

/// The slots, and the row of each that ever had an owner.
#[derive(Drop)]
pub(crate) struct SlotTable {
    pub(crate) grid: Grid,
    pub(crate) rows: Rows,
}

// An owned object: its slot, and its row.
#[derive(Clone, Copy, Debug)]
pub(crate) struct Holding {
    pub(crate) slot: Slot,
    pub(crate) row: Row,
}

impl SlotTable {
    ghost use Rattle.miniheap.specs.Slots.{slot_at, IsSlotOf, IsInOrder};
    ghost use Rattle.exact_heap.specs.History.{History};
    ghost use Rattle.exact_heap.specs.Owners.{owner_of};
    ghost use Rattle.exact_heap.specs.Lawful.{IsLawful};
    ghost use Rattle.exact_heap.specs.RowStore.{kept_row, HaveChunks, RowsChange};
    ghost use Rattle.exact_heap.specs.Stands.{TableStandsFor};

    // The owned object at an address: its slot, and its row.
    pub(crate) fn owner(&self, addr: u32) -> Option<Holding>
        requires { IsInOrder self.now.grid }
        ensures found { IfSome result (λ w. slot_at self.now.grid w.slot.addr ≡ Some w.slot) }
        ensures row { IfSome result (λ w. kept_row self.now.grid.classes self.now.rows w.slot.addr ≡ Some w.row) }
        ensures owned { IfSome result (λ w. w.row.freed ≡ 0) }
        ensures address { IfSome result (λ w. w.row.addr ≡ addr) }
        ensures none { IfNone result ((h : History) → IsLawful h → TableStandsFor self.now h → owner_of h.objects addr ≡ None) }
    {
        slot_laws();
        let Some(slot) = self.grid.slot_at(addr) else {
            return None;
        };
        match self.rows.get(&slot) {
            Some(row) if row.freed == 0 && row.addr == addr => Some(Holding { slot, row }),
            _ => None,
        }
    }

    // The row of a slot changes, which takes no memory where there is one.
    pub(crate) fn set_row(&mut self, slot: &Slot, row: Row)
        requires known { IsSlotOf self.old.grid slot.now }
        requires chunks { HaveChunks self.old.grid.classes self.old.rows }
        requires there { IsSome (kept_row self.old.grid.classes self.old.rows slot.now.addr) }
        ensures changes { RowsChange self.old.grid.classes self.old.rows self.new.rows slot.now.addr row }
        ensures rest { self.new ≡ record self.old { rows = self.new.rows } }
    {
        slot_laws();
        match self.rows.set(slot, row) {
            Ok(_) => {}
            Err(_) => unreachable!(),
        }
    }
}
