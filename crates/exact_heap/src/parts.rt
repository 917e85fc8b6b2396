// What a heap keeps.
use crate::counts::Counts;
use crate::rules::Rules;
use crate::signals::Signals;
use crate::slot_table::SlotTable;
use deferral_queue::Queue;
use miniheap::{Words, draws_find_free_slots, slots_are_counted, slots_have_their_places};
use std::alloc::Global;

// What each object's address is a multiple of.
pub(crate) const ALIGNMENT: u32 = 16;

// An object that is to be placed in a slot of a class.
#[derive(Clone, Copy, Debug)]
pub(crate) struct Request {
    pub(crate) class: u8,
    pub(crate) front: u32,
    pub(crate) alignment: u32,
    pub(crate) size: u32,
    pub(crate) site: u32,
}

// All that a heap keeps.
#[derive(Drop)]
pub(crate) struct Parts {
    pub(crate) alloc: Global,
    pub(crate) seed: u64,
    pub(crate) rules: Rules,
    pub(crate) words: Words,
    pub(crate) queue: Queue,
    pub(crate) slots: SlotTable,
    pub(crate) counts: Counts,
    pub(crate) signals: Signals,
    pub(crate) ended: bool,
}

ghost use Rattle.std.specs.Prelude.{◌≡◌, ◌≤◌, ◌^◌};
ghost use Rattle.miniheap.specs.Laws.{SlotLaws};

// The bytes of a slot of that class.
pub(crate) fn slot_bytes(class: u8) -> u32
    requires { class ≤ 22 }
    ensures { result ≡ 2 ^ class }
{
    1 << class
}

// What holds of the slots of every heap. It does nothing: a caller has the clause.
pub(crate) fn slot_laws()
    ensures { SlotLaws }
{
    slots_have_their_places();
    slots_are_counted();
    draws_find_free_slots();
}
