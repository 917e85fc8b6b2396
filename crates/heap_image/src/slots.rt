// Where slots lie, and what their canary is.
ghost use Rattle.std.specs.Prelude.{◌≡◌, ◌+◌, ◌<◌, ◌≤◌, ◌^◌};
ghost use Rattle.diefast_canary.specs.Canary.{canary_byte};
ghost use Rattle.heap_image.specs.Rules.{slot_bytes, is_unowned, canary_at};
ghost use Rattle.miniheap.specs.Slots.{end_of};
ghost use Rattle.miniheap.specs.WordList.{canary_of};

use crate::rows::Rows;
use miniheap::{Grid, Places, Slot, Words};

/// The bytes of the slot that begins at an address, and 0 where none begins there.
#[tactic(auto, unfolding(crate::specs::Rules::slot_bytes))]
pub fn slot_bytes(places: &Places, addr: u32) -> u32
    ensures { result ≡ slot_bytes places.now addr }
{
    match places.slot_at(addr) {
        None => 0,
        Some(place) => {
            if place.addr == addr {
                1 << place.class
            } else {
                0
            }
        }
    }
}

/// The bytes of a slot that lies within its heap's miniheaps.
pub fn slot_len(grid: &Grid, slot: &Slot) -> u32
    requires { slot.now.addr + 2 ^ slot.now.class ≤ end_of grid.now }
    ensures len { result ≡ 2 ^ slot.now.class }
    ensures ends { slot.now.addr + result ≤ 2 ^ 31 }
{
    let _classes = grid.classes();
    1 << slot.class
}

/// Whether an address lies in a slot that no object has.
#[tactic(auto, unfolding(crate::specs::Rules::is_unowned))]
pub fn is_unowned(places: &Places, rows: &Rows, addr: u32) -> bool
    ensures { result ≡ is_unowned places.now rows.now addr }
{
    match places.slot_at(addr) {
        None => false,
        Some(place) => rows.is_unowned(place.addr),
    }
}

/// The canary's word of a seed.
pub fn canary_of(seed: u64) -> u32
    ensures { result ≡ canary_of seed }
{
    Words::new(seed).canary()
}

/// The canary's byte at an address.
pub fn canary_byte(word: u32, addr: u32) -> u8
    ensures { result ≡ canary_byte word addr }
{
    word.to_le_bytes()[addr as usize % 4]
}
