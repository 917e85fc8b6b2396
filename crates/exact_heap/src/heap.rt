ghost use Rattle.std.specs.Prelude.{◌≡◌, ℕ, ◌+◌, ◌<◌, ◌≤◌, ◌^◌, true, false, Err, IfOk, IsOk, IsTrue, length, take};
ghost use Rattle.rv_memory.specs.Memory.{is_unmapped, KeepsTaken};
ghost use Rattle.rv_memory.specs.Spaces.{memory_of, taken_of};
ghost use Rattle.patch_table.specs.Table.{IsBelow};
ghost use Rattle.miniheap.specs.Slots.{no_slots};

use crate::calls::is_memory;
use crate::counts::Counts;
use crate::parts::Parts;
use crate::row::SlotRow;
use crate::rows::Rows;
use crate::rules::Rules;
use crate::signal::{HeapRefusal, Signal};
use crate::signals::Signals;
use crate::slot_table::SlotTable;
use deferral_queue::Queue;
use miniheap::{Grid, Words};
use patch_table::Patches;
use rv_memory::Space;
use std::alloc::{AllocError, Global};

/// The heap of a guest: objects lie in slots that the words of a seed draw, free slots hold the canary, and
/// a broken canary is a signal.
///
/// Contracts see it by the history that it stands for (`StandsFor`). Each call takes the guest's memory, in
/// whose heap region exactly the heap's miniheaps are mapped (`HasHome`); the heap maps them there. After a
/// call that wanted memory the heap is spent.
#[derive(Drop)]
pub struct Heap {
    parts: Parts,
    spent: bool,
    ghost sound: { IsSound parts },
}

ghost use Rattle.exact_heap.specs.Stands.{IsSound};

impl Heap {
    ghost use Rattle.exact_heap.specs.History.{History, no_history, slots_of, clock_of, frees_of};
    ghost use Rattle.exact_heap.specs.Calls.{malloc, memalign, calloc, realloc, free, check_end};
    ghost use Rattle.exact_heap.specs.Rows.{rows_of};
    ghost use Rattle.exact_heap.specs.Stands.{state_at};
    ghost use Rattle.exact_heap.specs.Heaps.{StandsFor, IsSpent, HasHome, CarriesOut, Leaves, rules_of, slots_in, clock_in, calls_in};

    /// A heap that no call was made of, for a guest that has nothing mapped in the heap region.
    pub fn new(alloc: Global, seed: u64, patches: Patches, zero: bool) -> Result<Heap, AllocError>
        ensures ok { IsOk result }
        ensures stands { IfOk result (λ heap. StandsFor heap (no_history seed)) }
        ensures rules { IfOk result (λ heap. rules_of heap ≡ record { patches = patches; zero = zero }) }
        ensures slots { IfOk result (λ heap. slots_in heap ≡ no_slots) }
        ensures clock { IfOk result (λ heap. clock_in heap ≡ 0) }
        ensures calls { IfOk result (λ heap. calls_in heap ≡ 0) }
        ensures home { IfOk result (λ heap. (space : Space) → IsTrue (is_unmapped (memory_of space) 0x4000_0000 (2 ^ 30)) → HasHome heap space) }
    {
        let parts = Parts {
            alloc,
            seed,
            rules: Rules { patches, zero },
            words: Words::new(seed),
            queue: Queue::new(alloc),
            slots: SlotTable {
                grid: Grid::new(alloc),
                rows: Rows::new(alloc),
            },
            counts: Counts::new(),
            signals: Signals::new(),
            ended: false,
        };
        Ok(Heap {
            parts,
            spent: false,
        })
    }

    /// Places an object of `size` bytes for the site that asks, and answers its address; 0 where the size
    /// is above 2^20.
    pub fn malloc(&mut self, space: &mut Space, size: u32, site: u32) -> Result<u32, HeapRefusal>
        requires clock { clock_in self.old < 2 ^ 62 }
        requires calls { calls_in self.old < 2 ^ 62 }
        requires home { HasHome self.old space.old }
        ensures { CarriesOut (malloc (rules_of self.old) size site) self.old space.old result self.new space.new }
    {
        if self.spent {
            return Err(HeapRefusal::Memory);
        }
        let answer = self.parts.malloc(space, size, site);
        self.spent = is_memory(&answer);
        answer
    }

    /// Places an object of `size` bytes at a multiple of `align`, and answers its address; 0 where `align`
    /// isn't a power of two or is above 4,096, or the size is above 2^20. Each address is a multiple of 16.
    pub fn memalign(
        &mut self,
        space: &mut Space,
        align: u32,
        size: u32,
        site: u32,
    ) -> Result<u32, HeapRefusal>
        requires clock { clock_in self.old < 2 ^ 62 }
        requires calls { calls_in self.old < 2 ^ 62 }
        requires home { HasHome self.old space.old }
        ensures { CarriesOut (memalign (rules_of self.old) align size site) self.old space.old result self.new space.new }
    {
        if self.spent {
            return Err(HeapRefusal::Memory);
        }
        let answer = self.parts.memalign(space, align, size, site);
        self.spent = is_memory(&answer);
        answer
    }

    /// Places an object of `count * each` bytes, all of them 0, and answers its address; 0 where the
    /// product is above 2^20. It doesn't wrap.
    pub fn calloc(
        &mut self,
        space: &mut Space,
        count: u32,
        each: u32,
        site: u32,
    ) -> Result<u32, HeapRefusal>
        requires clock { clock_in self.old < 2 ^ 62 }
        requires calls { calls_in self.old < 2 ^ 62 }
        requires home { HasHome self.old space.old }
        ensures { CarriesOut (calloc (rules_of self.old) count each site) self.old space.old result self.new space.new }
    {
        if self.spent {
            return Err(HeapRefusal::Memory);
        }
        let answer = self.parts.calloc(space, count, each, site);
        self.spent = is_memory(&answer);
        answer
    }

    /// Places an object of `size` bytes with the old one's first bytes, frees the old one, and answers the
    /// new address. An `old` of 0 is a plain allocation. 0 where the size is above 2^20 or no owned object
    /// has the address `old`; then nothing else happens.
    pub fn realloc(
        &mut self,
        space: &mut Space,
        old: u32,
        size: u32,
        site: u32,
    ) -> Result<u32, HeapRefusal>
        requires clock { clock_in self.old < 2 ^ 62 }
        requires calls { calls_in self.old < 2 ^ 62 }
        requires home { HasHome self.old space.old }
        ensures { CarriesOut (realloc (rules_of self.old) old size site) self.old space.old result self.new space.new }
    {
        if self.spent {
            return Err(HeapRefusal::Memory);
        }
        let answer = self.parts.realloc(space, old, size, site);
        self.spent = is_memory(&answer);
        answer
    }

    /// Frees the owned object at an address for the site that asks: at once, or put off by the patches.
    /// Where no owned object has the address, nothing is done. It takes no memory. A spent heap does
    /// nothing.
    pub fn free(&mut self, space: &mut Space, addr: u32, site: u32)
        requires clock { clock_in self.old < 2 ^ 62 }
        requires calls { calls_in self.old < 2 ^ 62 }
        requires home { HasHome self.old space.old }
        ensures leaves { (h : History) → StandsFor self.old h → Leaves (free (rules_of self.old) addr site (state_at h space.old)) self.new space.new }
        ensures spent { IsSpent self.old → self.new ≡ self.old }
        ensures untouched { IsSpent self.old → memory_of space.new ≡ memory_of space.old }
        ensures rules { rules_of self.new ≡ rules_of self.old }
        ensures counted { clock_in self.new ≤ clock_in self.old + 1 }
        ensures numbered { calls_in self.new ≤ calls_in self.old + 1 }
        ensures home { HasHome self.new space.new }
        ensures taken { KeepsTaken (taken_of space.old) (taken_of space.new) }
    {
        if !self.spent {
            self.parts.free(space, addr, site);
        }
    }

    /// The check at the end of a run: each free slot whose canary is broken is one more signal, in order of
    /// address. It is made once, takes no memory, and does nothing on a spent heap.
    pub fn check_end(&mut self, space: &Space)
        requires home { HasHome self.old space.now }
        ensures stands { (h : History) → StandsFor self.old h → StandsFor self.new (check_end (state_at h space.now)) }
        ensures spent { IsSpent self.old → self.new ≡ self.old }
        ensures rules { rules_of self.new ≡ rules_of self.old }
        ensures counted { clock_in self.new ≡ clock_in self.old }
        ensures numbered { calls_in self.new ≡ calls_in self.old }
        ensures home { HasHome self.new space.now }
    {
        if !self.spent {
            self.parts.check_end(space);
        }
    }

    /// Whether a call wanted memory. Where none has, the heap stands for a history.
    #[tactic(auto, unfolding(crate::specs::Heaps::IsSpent))]
    pub fn is_spent(&self) -> bool
        ensures spent { result ≡ true → IsSpent self.now }
        ensures lives { result ≡ false → ¬ (IsSpent self.now) }
        ensures stands { result ≡ false → ∥ ((h : History) × StandsFor self.now h) ∥₁ }
    {
        let _parts = &self.parts;
        self.spent
    }

    /// The first 64 signals.
    pub fn signals(&self) -> &[Signal]
        ensures { (h : History) → StandsFor self.now h → result.now ≡ take 64 h.signals }
    {
        self.parts.signals.first()
    }

    /// The number of all signals.
    pub fn signal_count(&self) -> u64
        ensures { (h : History) → StandsFor self.now h → result ≡ length h.signals }
    {
        self.parts.signals.count()
    }

    /// The number of objects that were ever placed.
    #[tactic(auto, unfolding(crate::specs::Heaps::clock_in))]
    pub fn clock(&self) -> u64
        ensures clock { result ≡ clock_in self.now }
        ensures stands { (h : History) → StandsFor self.now h → result ≡ clock_of h }
    {
        self.parts.counts.clock
    }

    /// The number of frees that took effect, those of `realloc` among them.
    pub fn frees(&self) -> u64
        ensures { (h : History) → StandsFor self.now h → result ≡ frees_of h }
    {
        self.parts.counts.frees
    }

    /// The number of heap calls.
    #[tactic(auto, unfolding(crate::specs::Heaps::calls_in))]
    pub fn calls(&self) -> u64
        ensures calls { result ≡ calls_in self.now }
        ensures stands { (h : History) → StandsFor self.now h → result ≡ h.calls }
    {
        self.parts.counts.calls
    }

    /// The seed of the heap's words.
    pub fn seed(&self) -> u64
        ensures { (h : History) → StandsFor self.now h → result ≡ h.seed }
    {
        self.parts.seed
    }

    /// The patches that the heap goes by.
    #[tactic(auto, unfolding(crate::specs::Heaps::rules_of))]
    pub fn patches(&self) -> &Patches
        ensures { result.now ≡ (rules_of self.now).patches }
    {
        &self.parts.rules.patches
    }

    /// The slots.
    #[tactic(auto, unfolding(crate::specs::Heaps::slots_in))]
    pub fn grid(&self) -> &Grid
        ensures slots { result.now ≡ slots_in self.now }
        ensures stands { (h : History) → StandsFor self.now h → result.now ≡ slots_of h }
    {
        &self.parts.slots.grid
    }

    /// The rows of all slots that ever had an owner or are bad, by rising address.
    pub fn rows(&self) -> Result<Vec<SlotRow>, AllocError>
        ensures { (h : History) → StandsFor self.now h → IfOk result (λ rows. rows.items ≡ rows_of h) }
    {
        self.parts.rows()
    }

    /// Goes by other patches from now on, none of whose entries is below the old one. Objects that are
    /// freed already keep their due.
    pub fn set_patches(&mut self, patches: Patches)
        requires { IsBelow (rules_of self.old).patches patches }
        ensures rules { rules_of self.new ≡ record (rules_of self.old) { patches = patches } }
        ensures stands { (h : History) → StandsFor self.old h → StandsFor self.new h }
        ensures spent { IsSpent self.old → IsSpent self.new }
        ensures home { (space : Space) → HasHome self.old space → HasHome self.new space }
        ensures slots { slots_in self.new ≡ slots_in self.old }
        ensures clock { clock_in self.new ≡ clock_in self.old }
        ensures calls { calls_in self.new ≡ calls_in self.old }
    {
        self.parts.rules.patches = patches;
    }
}
