// The bytes of the slots that objects have, as they stand.
ghost use Rattle.std.specs.Prelude.{◌≡◌, ◌++◌, OnOk, IfOk, IsTrue};
ghost use Rattle.std.specs.List.{AllByRecursion};
ghost use Rattle.rv_memory.specs.Memory.{is_mapped};
ghost use Rattle.rv_memory.specs.Spaces.{memory_of};
ghost use Rattle.heap_image.specs.Laws.{IsTyped};
ghost use Rattle.heap_image.specs.Rules.{slot_bytes, content_bytes};
ghost use Rattle.heap_image.specs.Taken.{bytes_at, row_contents, contents_of};
ghost use Rattle.heap_image.specs.Taking.{AreMapped};

use crate::slots::slot_len;
use exact_heap::SlotRow;
use miniheap::{Grid, places_hold_the_slots};
use rv_memory::{Space, spans_are_their_bytes};
use std::alloc::{AllocError, Global};

/// The bytes of the rows' slots, where objects have them, in the order of the rows.
#[tactic(auto, unfolding(crate::specs::Taken::contents_of))]
pub fn contents_of(
    alloc: Global,
    grid: &Grid,
    space: &Space,
    rows: &[SlotRow],
) -> Result<Vec<u8>, AllocError>
    requires mapped { AreMapped grid.now (memory_of space.now) }
    ensures contents { IfOk result (λ bytes. bytes.items ≡ contents_of (memory_of space.now) grid.now.classes rows.now) }
    ensures typed { OnOk result (AllByRecursion IsTyped rows.now) }
{
    let mut contents = Vec::new(alloc);
    for row in rows {
        put_row(&mut contents, grid, space, row)?;
    }
    Ok(contents)
}

fn put_row(out: &mut Vec<u8>, grid: &Grid, space: &Space, row: &SlotRow) -> Result<(), AllocError>
    requires mapped { AreMapped grid.now (memory_of space.now) }
    ensures contents { OnOk result (out.new.items ≡ out.old.items ++ row_contents (memory_of space.now) grid.now.classes row.now) }
    ensures typed { IsTyped row.now }
{
    places_hold_the_slots();
    row_is_typed(
        row.addr,
        row.state,
        row.object,
        row.size,
        row.front,
        row.site,
        row.free_site,
        row.freed,
    );
    let len = content_bytes(grid, row);
    put_bytes(out, space, row.addr, len)
}

// The numbers of a row are those of their types.
fn row_is_typed(
    addr: u32,
    state: u8,
    object: u64,
    size: u32,
    front: u32,
    site: u32,
    free_site: u32,
    freed: u64,
)
    ensures { IsTyped (record { addr = addr; state = state; object = object; size = size; front = front; site = site; free_site = free_site; freed = freed }) }
{}

fn content_bytes(grid: &Grid, row: &SlotRow) -> u32
    ensures { result ≡ content_bytes grid.now.classes row.now }
{
    if row.state <= 1 {
        slot_bytes(grid, row.addr)
    } else {
        0
    }
}

fn slot_bytes(grid: &Grid, addr: u32) -> u32
    ensures { result ≡ slot_bytes grid.now.classes addr }
{
    places_hold_the_slots();
    match grid.slot_at(addr) {
        None => 0,
        Some(slot) => {
            if slot.addr == addr {
                slot_len(grid, &slot)
            } else {
                0
            }
        }
    }
}

// Adds the bytes of a mapped span.
fn put_bytes(out: &mut Vec<u8>, space: &Space, addr: u32, len: u32) -> Result<(), AllocError>
    requires mapped { IsTrue (is_mapped (memory_of space.now) addr len) }
    ensures { OnOk result (out.new.items ≡ out.old.items ++ bytes_at (memory_of space.now) addr len) }
{
    spans_are_their_bytes();
    let from = out.len();
    out.resize(from + len as usize, 0)?;
    let _ = space.span_read(addr, &mut out[from..]);
    Ok(())
}
