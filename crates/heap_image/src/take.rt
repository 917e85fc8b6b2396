// The image of a guest as it stands.
ghost use Rattle.std.specs.Prelude.{◌≡◌, IfOk};
ghost use Rattle.exact_heap.specs.History.{History};
ghost use Rattle.exact_heap.specs.Heaps.{StandsFor, IsSpent, HasHome, rules_of};
ghost use Rattle.exact_heap.specs.Stands.{state_at};
ghost use Rattle.rv_machine.specs.Guest.{Guest};
ghost use Rattle.rv_machine.specs.Stands.{AwaitsAt, tag_in};
ghost use Rattle.rv_machine.specs.declared.stop.Waiting.{Waiting};
ghost use Rattle.heap_image.specs.Lawful.{IsPlace};
ghost use Rattle.heap_image.specs.Laws.{IsTyped};
ghost use Rattle.heap_image.specs.Taken.{image_of_guest, image_of_heap};

use crate::broken::broken_of;
use crate::contents::contents_of;
use crate::image::Image;
use crate::laws::heap_images_are_lawful;
use crate::slots::canary_of;
use exact_heap::{Heap, Place, histories_stay_lawful, miniheaps_are_mapped};
use miniheap::slots_have_their_places;
use rv_machine::Machine;
use rv_memory::{Space, spans_are_their_bytes};
use std::alloc::{AllocError, Global};

// The image of a heap in its guest's memory, at a place of the run. Its goals are answered by hand, since a tactic would go
// through all of the laws.
#[tactic(none)]
fn image_of_heap(
    alloc: Global,
    tag: u64,
    place: Place,
    heap: &Heap,
    space: &Space,
) -> Result<Image, AllocError>
    requires place { IsPlace place }
    requires stands { ∥ ((h : History) × StandsFor heap.now h) ∥₁ }
    requires lives { ¬ (IsSpent heap.now) }
    requires home { HasHome heap.now space.now }
    ensures { (h : History) → StandsFor heap.now h → IfOk result (λ image. image ≡ image_of_heap tag (rules_of heap.now).patches place (state_at h space.now)) }
{
    heap_images_are_lawful();
    histories_stay_lawful();
    miniheaps_are_mapped();
    slots_have_their_places();
    spans_are_their_bytes();
    space.bounds();
    let grid = heap.grid();
    let seed = heap.seed();
    let clock = heap.clock();
    let patches = heap.patches().copy()?;
    let miniheaps = Vec::from_slice(alloc, grid.classes())?;
    let rows = heap.rows()?;
    let contents = contents_of(alloc, grid, space, &rows)?;
    let broken = broken_of(alloc, grid, space, canary_of(seed))?;
    Ok(Image {
        tag,
        seed,
        place,
        clock,
        patches,
        miniheaps,
        rows,
        contents,
        broken,
    })
}

impl Image {
    /// The image of a guest at a place of its run, which isn't the heap call 2^64 - 1. It goes through the slots once,
    /// in order of address, and takes memory for what the image holds. A machine that wanted memory has no image.
    pub fn take(alloc: Global, machine: &Machine, place: Place) -> Result<Image, AllocError>
        requires place { IsPlace place }
        ensures { (g : Guest) (answer : Waiting) → AwaitsAt g answer machine.now → IfOk result (λ image. image ≡ image_of_guest (tag_in machine.now) place g) }
    {
        let heap = machine.heap();
        if !machine.lives() || heap.is_spent() {
            return Err(AllocError);
        }
        image_of_heap(alloc, machine.tag(), place, heap, machine.space())
    }
}
