// The heap calls.
ghost use Rattle.std.specs.Prelude.{◌≡◌, ℕ, ◌+◌, ◌*◌, ◌<◌, ◌≤◌, ◌^◌, Some};

use crate::parts::{ALIGNMENT, Parts, slot_laws};
use crate::signal::HeapRefusal;
use rv_memory::Space;

// The greatest size of an object.
const LARGEST: u32 = 1 << 20;

impl Parts {
    ghost use Rattle.rv_memory.specs.Memory.{KeepsTaken};
    ghost use Rattle.rv_memory.specs.Spaces.{memory_of, taken_of};
    ghost use Rattle.exact_heap.specs.History.{History};
    ghost use Rattle.exact_heap.specs.Owners.{owner_of};
    ghost use Rattle.exact_heap.specs.Placing.{HeapState};
    ghost use Rattle.exact_heap.specs.Calls.{allocate, resized, malloc, memalign, calloc, realloc, free};
    ghost use Rattle.exact_heap.specs.Lawful.{IsAlignment};
    ghost use Rattle.exact_heap.specs.Stands.{PartsStandFor, IsSound, AtHome, IsAt, Places, state_at, rules_in};

    // Places an object of that alignment and size; a size above the limit answers 0.
    fn allocate(
        &mut self,
        space: &mut Space,
        align: u32,
        size: u32,
        site: u32,
        zeroed: bool,
    ) -> Result<u32, HeapRefusal>
        requires align { IsAlignment align }
        requires clock { self.old.counts.clock < 2 ^ 62 }
        requires sound { IsSound self.old }
        requires home { AtHome self.old space.old }
        ensures { Places (allocate (rules_in self.old) zeroed align size site) 0 self.old space.old result self.new space.new }
    {
        if size > LARGEST {
            return Ok(0);
        }
        let request = self.rules.request(align, size, site);
        self.place(space, &request, zeroed)
    }

    pub(crate) fn malloc(
        &mut self,
        space: &mut Space,
        size: u32,
        site: u32,
    ) -> Result<u32, HeapRefusal>
        requires calls { self.old.counts.calls < 2 ^ 62 }
        requires clock { self.old.counts.clock < 2 ^ 62 }
        requires sound { IsSound self.old }
        requires home { AtHome self.old space.old }
        ensures { Places (malloc (rules_in self.old) size site) 1 self.old space.old result self.new space.new }
    {
        self.counts.calls += 1;
        self.allocate(space, ALIGNMENT, size, site, self.rules.zero)
    }

    pub(crate) fn memalign(
        &mut self,
        space: &mut Space,
        align: u32,
        size: u32,
        site: u32,
    ) -> Result<u32, HeapRefusal>
        requires calls { self.old.counts.calls < 2 ^ 62 }
        requires clock { self.old.counts.clock < 2 ^ 62 }
        requires sound { IsSound self.old }
        requires home { AtHome self.old space.old }
        ensures { Places (memalign (rules_in self.old) align size site) 1 self.old space.old result self.new space.new }
    {
        self.counts.calls += 1;
        if !is_alignment(align) {
            return Ok(0);
        }
        self.allocate(space, align.max(ALIGNMENT), size, site, self.rules.zero)
    }

    pub(crate) fn calloc(
        &mut self,
        space: &mut Space,
        count: u32,
        each: u32,
        site: u32,
    ) -> Result<u32, HeapRefusal>
        requires calls { self.old.counts.calls < 2 ^ 62 }
        requires clock { self.old.counts.clock < 2 ^ 62 }
        requires sound { IsSound self.old }
        requires home { AtHome self.old space.old }
        ensures { Places (calloc (rules_in self.old) count each site) 1 self.old space.old result self.new space.new }
    {
        self.counts.calls += 1;
        match count.checked_mul(each) {
            Some(size) => self.allocate(space, ALIGNMENT, size, site, true),
            None => Ok(0),
        }
    }

    pub(crate) fn realloc(
        &mut self,
        space: &mut Space,
        old: u32,
        size: u32,
        site: u32,
    ) -> Result<u32, HeapRefusal>
        requires calls { self.old.counts.calls < 2 ^ 62 }
        requires clock { self.old.counts.clock < 2 ^ 62 }
        requires sound { IsSound self.old }
        requires home { AtHome self.old space.old }
        ensures { Places (realloc (rules_in self.old) old size site) 1 self.old space.old result self.new space.new }
    {
        self.counts.calls += 1;
        if old == 0 {
            return self.allocate(space, ALIGNMENT, size, site, self.rules.zero);
        }
        self.resize(space, old, size, site)
    }

    // An object in place of an old one. An address that no owned object has answers 0, and so does a size
    // above the limit.
    fn resize(
        &mut self,
        space: &mut Space,
        old: u32,
        size: u32,
        site: u32,
    ) -> Result<u32, HeapRefusal>
        requires clock { self.old.counts.clock < 2 ^ 62 }
        requires sound { IsSound self.old }
        requires home { AtHome self.old space.old }
        ensures { Places (λ s. resized (rules_in self.old) size site s (owner_of s.history.objects old)) 0 self.old space.old result self.new space.new }
    {
        slot_laws();
        let Some(holding) = self.slots.owner(old) else {
            return Ok(0);
        };
        if size > LARGEST {
            return Ok(0);
        }
        let request = self.rules.request(ALIGNMENT, size, site);
        let addr = match self.place(space, &request, self.rules.zero) {
            Ok(addr) => addr,
            Err(refusal) => return Err(refusal),
        };
        space.copy(old, addr, holding.row.size.min(size));
        let Some(slot) = self.slots.grid.slot_at(holding.slot.addr) else {
            unreachable!()
        };
        self.free_owned(space, &slot, &holding.row, site);
        Ok(addr)
    }

    pub(crate) fn free(&mut self, space: &mut Space, addr: u32, site: u32)
        requires calls { self.old.counts.calls < 2 ^ 62 }
        requires clock { self.old.counts.clock < 2 ^ 62 }
        requires sound { IsSound self.old }
        requires home { AtHome self.old space.old }
        ensures leaves { (h : History) → PartsStandFor self.old h → IsAt (free (rules_in self.old) addr site (state_at h space.old)) self.new (memory_of space.new) }
        ensures sound { IsSound self.new }
        ensures home { AtHome self.new space.new }
        ensures taken { KeepsTaken (taken_of space.old) (taken_of space.new) }
        ensures rules { rules_in self.new ≡ rules_in self.old }
        ensures counted { self.new.counts.clock ≡ self.old.counts.clock }
        ensures numbered { self.new.counts.calls ≡ self.old.counts.calls + 1 }
    {
        slot_laws();
        self.counts.calls += 1;
        if let Some(holding) = self.slots.owner(addr) {
            self.free_owned(space, &holding.slot, &holding.row, site);
        }
    }
}

ghost use Rattle.exact_heap.specs.Calls.{is_alignment};
ghost use Rattle.exact_heap.specs.Stands.{wanted_memory};

// Whether objects can be asked for at multiples of that number.
fn is_alignment(align: u32) -> bool
    ensures { result ≡ is_alignment align }
{
    align.is_power_of_two() && align <= 4096
}

// Whether memory was wanting.
pub(crate) fn is_memory(answer: &Result<u32, HeapRefusal>) -> bool
    ensures { result ≡ wanted_memory answer.now }
{
    matches!(answer, Err(HeapRefusal::Memory))
}
