// The bytes of free slots that aren't the canary's, as they stand.
ghost use Rattle.std.specs.Prelude.{◌≡◌, ◌+◌, ◌++◌, ◌^◌, ◌≤◌, OnOk, IfOk, IsTrue, Some};
ghost use Rattle.rv_memory.specs.Memory.{is_mapped};
ghost use Rattle.rv_memory.specs.Spaces.{memory_of};
ghost use Rattle.miniheap.specs.Slots.{slot_at};
ghost use Rattle.miniheap.specs.Sound.{is_held_state};
ghost use Rattle.exact_heap.specs.Placing.{byte_at};
ghost use Rattle.heap_image.specs.Taken.{broken_at, broken_of};
ghost use Rattle.heap_image.specs.Taking.{AreMapped, breaks_in, broken_within};

use crate::image::Broken;
use crate::slots::slot_len;
use miniheap::{Grid, Slot, SlotState, slots_have_their_places};
use rv_memory::{Space, spans_are_their_bytes};
use std::alloc::{AllocError, Global};

/// The broken bytes of all slots that no object holds, by rising address.
pub fn broken_of(
    alloc: Global,
    grid: &Grid,
    space: &Space,
    word: u32,
) -> Result<Vec<Broken>, AllocError>
    requires mapped { AreMapped grid.now (memory_of space.now) }
    ensures { IfOk result (λ broken. broken.items ≡ broken_of grid.now (memory_of space.now) word) }
{
    slots_have_their_places();
    let mut broken = Vec::new(alloc);
    let mut next = grid.first();
    while let Some(slot) = next {
        put_slot(&mut broken, grid, space, word, &slot)?;
        next = grid.next(&slot);
    }
    Ok(broken)
}

fn put_slot(
    out: &mut Vec<Broken>,
    grid: &Grid,
    space: &Space,
    word: u32,
    slot: &Slot,
) -> Result<(), AllocError>
    requires mapped { AreMapped grid.now (memory_of space.now) }
    requires found { slot_at grid.now slot.now.addr ≡ Some slot.now }
    ensures { OnOk result (out.new.items ≡ out.old.items ++ broken_within grid.now (memory_of space.now) word slot.now.addr (2 ^ slot.now.class)) }
{
    slots_have_their_places();
    if is_held(slot.state) {
        return Ok(());
    }
    put_breaks(out, space, word, slot.addr, slot_len(grid, slot))
}

fn is_held(state: SlotState) -> bool
    ensures { result ≡ is_held_state state }
{
    match state {
        SlotState::Held => true,
        SlotState::Free | SlotState::Bad => false,
    }
}

// Adds each byte of a mapped span that isn't the canary's.
fn put_breaks(
    out: &mut Vec<Broken>,
    space: &Space,
    word: u32,
    addr: u32,
    len: u32,
) -> Result<(), AllocError>
    requires mapped { IsTrue (is_mapped (memory_of space.now) addr len) }
    requires fits { addr + len ≤ 2 ^ 31 }
    ensures { OnOk result (out.new.items ≡ out.old.items ++ breaks_in (memory_of space.now) word addr len) }
{
    spans_are_their_bytes();
    let end = addr + len;
    let mut at = addr;
    while let Some(found) = space.first_break_at(at, end - at, word) {
        out.push(broken_at(space, found))?;
        at = found + 1;
    }
    Ok(())
}

fn broken_at(space: &Space, addr: u32) -> Broken
    ensures { result ≡ broken_at (memory_of space.now) addr }
{
    let byte = byte_at(space, addr);
    Broken { addr, byte }
}

// The byte at an address, 0 where none is mapped.
fn byte_at(space: &Space, addr: u32) -> u8
    ensures { result ≡ byte_at (memory_of space.now) addr }
{
    let mut byte = [0];
    let _ = space.span_read(addr, &mut byte);
    byte[0]
}
