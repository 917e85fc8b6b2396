// A heap and a guest's memory, and what the guest does to both.
ghost use Rattle.exact_heap.specs.Heaps.{HasHome};

use exact_heap::{Heap, HeapRefusal, miniheaps_are_mapped, stores_keep_home};
use patch_table::Patches;
use rv_memory::{Space, Width};
use std::alloc::{AllocError, Global};

/// A heap call.
#[derive(Clone, Copy)]
pub enum Call {
    /// The size, and the site.
    Malloc(u32, u32),
    /// The alignment, the size, and the site.
    Memalign(u32, u32, u32),
    /// How many, the size of each, and the site.
    Calloc(u32, u32, u32),
    /// The address, the size, and the site.
    Realloc(u32, u32, u32),
    /// The address, and the site.
    Free(u32, u32),
}

/// A heap, and a memory that has the heap's miniheaps.
#[derive(Drop)]
pub struct Guest {
    pub heap: Heap,
    pub space: Space,
}

/// A guest that has made no call, with the patches of a text. None where that isn't one.
pub fn guest_with(alloc: Global, seed: u64, patches: &[u8], zero: bool) -> Option<Guest>
    ensures { IfSome result (λ guest. HasHome guest.heap guest.space) }
{
    let Ok(patches) = Patches::read(alloc, patches) else {
        return None;
    };
    match start(alloc, seed, patches, zero) {
        Ok(guest) => Some(guest),
        Err(_) => None,
    }
}

fn start(alloc: Global, seed: u64, patches: Patches, zero: bool) -> Result<Guest, AllocError>
    ensures { IfOk result (λ guest. HasHome guest.heap guest.space) }
{
    miniheaps_are_mapped();
    let space = Space::new(alloc);
    let heap = Heap::new(alloc, seed, patches, zero)?;
    Ok(Guest { heap, space })
}

ghost use Rattle.std.specs.Prelude.{◌<◌, ◌^◌, IfOk, IfSome};
ghost use Rattle.std.specs.Bool.{OnTrue};
ghost use Rattle.exact_heap.specs.Heaps.{clock_in, calls_in};

// No trial makes more.
fn has_few_calls(heap: &Heap) -> bool
    ensures clock { OnTrue result (clock_in heap.now < 2 ^ 62) }
    ensures calls { OnTrue result (calls_in heap.now < 2 ^ 62) }
{
    heap.clock() < 1 << 62 && heap.calls() < 1 << 62
}

// Stores a byte, and says whether that could be.
fn store(heap: &Heap, space: &mut Space, addr: u32, byte: u8) -> bool
    requires { HasHome heap.now space.old }
    ensures { HasHome heap.now space.new }
{
    space.bounds();
    stores_keep_home();
    match space.store(addr, Width::One, u32::from(byte)) {
        Ok(()) => true,
        Err(_) => false,
    }
}

impl Guest {
    /// Makes a call, and gives its answer, 0 for a free.
    pub fn make(&mut self, call: Call) -> Result<u32, HeapRefusal>
        requires { HasHome self.old.heap self.old.space }
        ensures { HasHome self.new.heap self.new.space }
    {
        if !has_few_calls(&self.heap) {
            return Err(HeapRefusal::Memory);
        }
        match call {
            Call::Malloc(size, site) => self.heap.malloc(&mut self.space, size, site),
            Call::Memalign(align, size, site) => {
                self.heap.memalign(&mut self.space, align, size, site)
            }
            Call::Calloc(count, each, site) => {
                self.heap.calloc(&mut self.space, count, each, site)
            }
            Call::Realloc(addr, size, site) => {
                self.heap.realloc(&mut self.space, addr, size, site)
            }
            Call::Free(addr, site) => {
                self.heap.free(&mut self.space, addr, site);
                Ok(0)
            }
        }
    }

    /// Stores a byte, and says whether that could be.
    pub fn store(&mut self, addr: u32, byte: u8) -> bool
        requires { HasHome self.old.heap self.old.space }
        ensures { HasHome self.new.heap self.new.space }
    {
        store(&self.heap, &mut self.space, addr, byte)
    }

    /// The check at the end of a run.
    pub fn end(&mut self)
        requires { HasHome self.old.heap self.old.space }
        ensures { HasHome self.new.heap self.new.space }
    {
        self.heap.check_end(&self.space);
    }

    /// Whether the memory has these bytes at an address.
    pub fn holds(&self, addr: u32, bytes: &[u8; 16]) -> bool {
        let mut found = [0xff; 16];
        self.space.span_read(addr, &mut found).is_ok() && found == *bytes
    }
}
