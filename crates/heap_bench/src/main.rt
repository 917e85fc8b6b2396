//! Drives the guest's heap without a guest: a million allocations of mixed sizes, each with a free of what had its place.
#![tactic(auto)]

ghost use Rattle.std.specs.Prelude.{◌≡◌, ◌<◌, ◌^◌};
ghost use Rattle.exact_heap.specs.Heaps.{HasHome};

use exact_heap::{Heap, HeapRefusal, miniheaps_are_mapped};
use patch_table::Patches;
use rv_memory::Space;
use std::alloc::Global;
use std::process::ExitCode;

const TURNS: u32 = 1_000_000;

// How many objects are held at most.
const PLACES: usize = 64;

// The next number of a linear congruential generator.
fn next(number: u32) -> u32 {
    number.wrapping_mul(1_664_525).wrapping_add(1_013_904_223)
}

// Frees the object of a place, where there is one, and puts another there.
fn turn(
    heap: &mut Heap,
    space: &mut Space,
    places: &mut [u32; PLACES],
    number: u32,
) -> Result<(), HeapRefusal>
    requires { HasHome heap.old space.old }
    ensures { HasHome heap.new space.new }
{
    let place = (number >> 26) as usize % PLACES;
    if heap.clock() >= 1 << 60 || heap.calls() >= 1 << 60 {
        return Ok(());
    }
    heap.free(space, places[place], 2);
    if heap.clock() >= 1 << 60 || heap.calls() >= 1 << 60 {
        return Ok(());
    }
    places[place] = heap.malloc(space, 1 + (number >> 16) % 1024, 1)?;
    Ok(())
}

fn drive(heap: &mut Heap, space: &mut Space) -> Result<(), HeapRefusal>
    requires { HasHome heap.old space.old }
{
    let mut places = [0u32; PLACES];
    let mut number = 1u32;
    for _ in 0..TURNS {
        number = next(number);
        turn(heap, space, &mut places, number)?;
    }
    Ok(())
}

fn main(rt: HostRuntime) -> ExitCode {
    let alloc = rt.alloc();
    miniheaps_are_mapped();
    let mut space = Space::new(alloc);
    let Ok(mut heap) = Heap::new(alloc, 1, Patches::new(alloc), false) else {
        return ExitCode::from(1);
    };
    if drive(&mut heap, &mut space).is_err() {
        return ExitCode::from(2);
    }
    let allocations = heap.clock();
    let frees = heap.frees();
    let signals = heap.signal_count();
    match println!(&rt; "allocations {allocations} frees {frees} signals {signals}") {
        Ok(()) => ExitCode::from(0),
        Err(_) => ExitCode::from(3),
    }
}
