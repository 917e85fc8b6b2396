// The machine: a guest with its heap, its start, its step, and what finishes a step that waits.
ghost use Rattle.std.specs.Prelude.{◌≡◌, ◌<◌, ◌≤◌, ◌+◌, ◌^◌, ℕ, true, false, IfOk, IsSome, Some, None, map, string_bytes, is_some};
ghost use Rattle.std.specs.Bool.{OnTrue, OnFalse};
ghost use Rattle.infinite_heap.specs.Start.{IsWithin};
ghost use Rattle.infinite_heap.specs.InfiniteHeap.{call_at};
ghost use Rattle.infinite_heap.specs.Region.{in_region};
ghost use Rattle.patch_table.specs.Table.{IsBelow};
ghost use Rattle.rv_memory.specs.Memory.{span};
ghost use Rattle.rv_memory.specs.Spaces.{memory_of};
ghost use Rattle.exact_heap.specs.Heaps.{StandsFor, HasHome, rules_of, calls_in, clock_in};
ghost use Rattle.exact_heap.specs.History.{no_history};
ghost use Rattle.rv_machine.specs.KeptCode.{AreNameless};

use crate::decoded::Decoded;
use crate::hart::Hart;
use crate::names::{Quiet, call_at, quiet_around};
use crate::outcome::Outcome;
use crate::settings::Settings;
use crate::stop::{Stop, Waiting};
use exact_heap::{Heap, stores_keep_home};
use infinite_heap::{HeapCall, HeapName, Program};
use patch_table::Patches;
use rv_memory::Space;
use std::alloc::{AllocError, Global};

/// A guest: its registers, its memory and its heap, and how far it is.
#[derive(Drop)]
pub struct Machine {
    pub(crate) hart: Hart,
    pub(crate) heap: Heap,
    pub(crate) names: Vec<HeapName>,
    // no heap function stands there
    pub(crate) quiet: Quiet,
    pub(crate) decoded: Decoded,
    pub(crate) tag: u64,
    ghost homely: { ∥ (hart.spent ≡ false → HasHome heap hart.space) ∥₁ },
    ghost counted: { hart.spent ≡ false → hart.ended ≡ None → (calls_in heap ≤ hart.steps) × (clock_in heap ≤ hart.steps) },
    ghost bounded: { quiet.from + quiet.len ≤ 2 ^ 32 },
    ghost kept: { AreNameless names.items decoded },
    ghost nameless: { (a : ℕ) → quiet.from ≤ a → a < quiet.from + quiet.len → call_at names.items a ≡ None },
}

impl Machine {
    ghost use Rattle.exact_heap.specs.History.{History};
    ghost use Rattle.rv_machine.specs.Core.{Core, Next};
    ghost use Rattle.rv_machine.specs.Going.{HasGone, Went};
    ghost use Rattle.rv_machine.specs.Guest.{Guest, guest_start, checked, with_patches};
    ghost use Rattle.rv_machine.specs.HeapCalls.{guest_next};
    ghost use Rattle.rv_machine.specs.KeptCode.{IsKept};
    ghost use Rattle.rv_machine.specs.Steps.{next};
    ghost use Rattle.rv_machine.specs.Stops.{Takes, IsPrint};
    ghost use Rattle.rv_machine.specs.Stands.{core_of, heap_in, rules_in, space_in, tag_in, waits, is_spent, guest_in, AwaitsAt, IsAt, IsReady, Steps, Gives, Finishes};

    /// A guest before its first step. The arguments are at most 1,024 strings of at most 65,536 bytes together,
    /// counting a zero byte after each; the first is the program's name.
    pub fn start(
        alloc: Global,
        program: Program,
        args: &[String],
        settings: Settings,
    ) -> Result<Machine, AllocError>
        requires { IsWithin (map string_bytes args.now) }
        ensures stands { IfOk result (IsAt (guest_start program (map string_bytes args.now) settings)) }
        ensures tag { IfOk result (λ machine. tag_in machine ≡ program.tag) }
    {
        program.rules();
        let hart = Hart::start(alloc, &program, args)?;
        let heap = new_heap(alloc, &hart.space, settings)?;
        let mut names = Vec::new(alloc);
        names.extend_from_slice(program.names())?;
        let quiet = quiet_around(names.as_slice(), hart.pc);
        Ok(Machine {
            hart,
            heap,
            names,
            quiet,
            decoded: Decoded::new(alloc)?,
            tag: program.tag(),
        })
    }

    /// The steps that were counted.
    pub fn steps(&self) -> u64
        ensures { result ≡ (core_of self.now).steps }
    {
        self.hart.steps
    }

    /// The guest's heap.
    pub fn heap(&self) -> &Heap
        ensures { result.now ≡ heap_in self.now }
    {
        &self.heap
    }

    /// The guest's memory.
    pub fn space(&self) -> &Space
        ensures space { result.now ≡ space_in self.now }
        ensures memory { memory_of result.now ≡ (core_of self.now).memory }
    {
        &self.hart.space
    }

    /// The tag of the program's file.
    pub fn tag(&self) -> u64
        ensures { result ≡ tag_in self.now }
    {
        self.tag
    }

    /// Carries out one instruction or one heap call, or says what it waits for. Nothing may wait, and fewer
    /// than 2^62 steps may have been counted.
    pub fn step(&mut self) -> Stop
        requires count { (core_of self.old).steps < 2 ^ 62 }
        requires ready { waits self.old ≡ Waiting.Nothing }
        ensures step { (g : Guest) → IsAt g self.old → Steps g (guest_next g) result self.new }
        ensures spent { is_spent self.old ≡ true → (result ≡ Stop.Memory) × (is_spent self.new ≡ true) }
        ensures count { (core_of self.new).steps ≤ (core_of self.old).steps + 1 }
        ensures tag { tag_in self.new ≡ tag_in self.old }
    {
        if self.hart.pc.wrapping_sub(self.quiet.from) >= self.quiet.len {
            if let Some(function) = self.called() {
                return self.heap_call(function);
            }
            self.renew();
        }
        self.carry_out()
    }

    /// Carries out instructions, at most `most` of them, while each goes on and none is a heap call, reads or
    /// prints, and says how many. It may stop before that.
    #[inline(never)]
    pub fn go_on(&mut self, most: u64) -> u64
        requires count { (core_of self.old).steps + most < 2 ^ 62 }
        requires ready { IsReady self.old }
        ensures most { result ≤ most }
        ensures gone { (g : Guest) → IsAt g self.old → HasGone g result self.new }
        ensures ready { IsReady self.new }
        ensures count { (core_of self.new).steps ≤ (core_of self.old).steps + result }
        ensures tag { tag_in self.new ≡ tag_in self.old }
    {
        for i in 0..most {
            if !self.goes() {
                return i;
            }
        }
        most
    }

    // Carries out the instruction at pc where it goes on and no heap function stands there, and says whether.
    #[inline(always)]
    fn goes(&mut self) -> bool
        requires count { (core_of self.old).steps < 2 ^ 62 }
        requires ready { IsReady self.old }
        ensures went { OnTrue result ((g : Guest) → IsAt g self.old → Went g (guest_next g) self.new) }
        ensures kept { OnFalse result ((g : Guest) → IsAt g self.old → IsAt g self.new) }
        ensures core { OnFalse result (core_of self.new ≡ core_of self.old) }
        ensures ready { IsReady self.new }
        ensures count { (core_of self.new).steps ≤ (core_of self.old).steps + 1 }
        ensures tag { tag_in self.new ≡ tag_in self.old }
    {
        if self.hart.is_kept(&self.decoded) {
            return self.goes_by_kept();
        }
        self.goes_anyhow()
    }

    // The same where the instruction is kept: no heap function stands there.
    #[inline(always)]
    fn goes_by_kept(&mut self) -> bool
        requires count { (core_of self.old).steps < 2 ^ 62 }
        requires ready { IsReady self.old }
        requires kept { IsKept (core_of self.old) self.old.decoded }
        ensures went { OnTrue result ((g : Guest) → IsAt g self.old → Went g (guest_next g) self.new) }
        ensures kept { OnFalse result ((g : Guest) → IsAt g self.old → IsAt g self.new) }
        ensures core { OnFalse result (core_of self.new ≡ core_of self.old) }
        ensures ready { IsReady self.new }
        ensures count { (core_of self.new).steps ≤ (core_of self.old).steps + 1 }
        ensures tag { tag_in self.new ≡ tag_in self.old }
    {
        self.hart.space.bounds();
        stores_keep_home();
        match self.hart.go_kept(&self.decoded) {
            Outcome::Going => true,
            _ => false,
        }
    }

    // The same, kept or not.
    #[inline(never)]
    fn goes_anyhow(&mut self) -> bool
        requires count { (core_of self.old).steps < 2 ^ 62 }
        requires ready { IsReady self.old }
        ensures went { OnTrue result ((g : Guest) → IsAt g self.old → Went g (guest_next g) self.new) }
        ensures kept { OnFalse result ((g : Guest) → IsAt g self.old → IsAt g self.new) }
        ensures core { OnFalse result (core_of self.new ≡ core_of self.old) }
        ensures ready { IsReady self.new }
        ensures count { (core_of self.new).steps ≤ (core_of self.old).steps + 1 }
        ensures tag { tag_in self.new ≡ tag_in self.old }
    {
        if self.hart.pc.wrapping_sub(self.quiet.from) >= self.quiet.len {
            self.renew();
            if self.hart.pc.wrapping_sub(self.quiet.from) >= self.quiet.len {
                return false;
            }
        }
        self.goes_quietly()
    }

    #[inline(always)]
    fn goes_quietly(&mut self) -> bool
        requires count { (core_of self.old).steps < 2 ^ 62 }
        requires ready { IsReady self.old }
        requires nameless { call_at self.old.names.items (core_of self.old).pc ≡ None }
        ensures went { OnTrue result ((g : Guest) → IsAt g self.old → Went g (guest_next g) self.new) }
        ensures kept { OnFalse result ((g : Guest) → IsAt g self.old → IsAt g self.new) }
        ensures core { OnFalse result (core_of self.new ≡ core_of self.old) }
        ensures ready { IsReady self.new }
        ensures count { (core_of self.new).steps ≤ (core_of self.old).steps + 1 }
        ensures tag { tag_in self.new ≡ tag_in self.old }
    {
        self.hart.space.bounds();
        stores_keep_home();
        match self.hart.go(&mut self.decoded) {
            Outcome::Going => true,
            _ => false,
        }
    }

    // The heap function that the next step calls.
    #[inline(never)]
    fn called(&self) -> Option<HeapCall>
        ensures some { IsSome result → (is_spent self.now ≡ false) × ((core_of self.now).ended ≡ None) }
        ensures call { is_spent self.now ≡ false → (core_of self.now).ended ≡ None → result ≡ call_at self.now.names.items (core_of self.now).pc }
    {
        if self.hart.spent || self.hart.ended.is_some() {
            return None;
        }
        call_at(self.names.as_slice(), self.hart.pc)
    }

    // Takes the stretch round pc, in which no heap function stands, for the quiet one.
    #[inline(never)]
    fn renew(&mut self)
        ensures hart { self.new.hart ≡ self.old.hart }
        ensures heap { self.new.heap ≡ self.old.heap }
        ensures names { self.new.names ≡ self.old.names }
        ensures tag { self.new.tag ≡ self.old.tag }
    {
        self.quiet = quiet_around(self.names.as_slice(), self.hart.pc);
    }

    // The step of the hart, where pc is at no heap function.
    fn carry_out(&mut self) -> Stop
        requires count { (core_of self.old).steps < 2 ^ 62 }
        requires ready { waits self.old ≡ Waiting.Nothing }
        requires nameless { is_spent self.old ≡ false → (core_of self.old).ended ≡ None → call_at self.old.names.items (core_of self.old).pc ≡ None }
        ensures step { is_spent self.old ≡ false → (h : History) → StandsFor (heap_in self.old) h → Steps (guest_in self.old h) (guest_next (guest_in self.old h)) result self.new }
        ensures spent { is_spent self.old ≡ true → (result ≡ Stop.Memory) × (is_spent self.new ≡ true) }
        ensures count { (core_of self.new).steps ≤ (core_of self.old).steps + 1 }
        ensures tag { tag_in self.new ≡ tag_in self.old }
    {
        self.hart.space.bounds();
        stores_keep_home();
        self.hart.step(&mut self.decoded)
    }

    /// Finishes a read with at most as many bytes as it asked for: they stand at its address, a0 gets their
    /// number, and the step is counted.
    ///
    /// # Errors
    /// Want of memory, after which the machine answers `Memory`.
    pub fn give(&mut self, bytes: &[u8]) -> Result<(), AllocError>
        requires count { (core_of self.old).steps < 2 ^ 62 }
        requires sound { is_spent self.old ≡ false }
        requires takes { Takes (next (core_of self.old)) (waits self.old) bytes.now }
        ensures gives { (g : Guest) → AwaitsAt g Waiting.ReadBytes self.old → Gives g (next g.core) bytes.now result self.new }
        ensures count { (core_of self.new).steps ≤ (core_of self.old).steps + 1 }
        ensures tag { tag_in self.new ≡ tag_in self.old }
    {
        self.hart.space.bounds();
        stores_keep_home();
        self.hart.give(bytes)
    }

    /// Finishes a write: a0 gets the number of bytes, and the step is counted.
    pub fn wrote(&mut self)
        requires count { (core_of self.old).steps < 2 ^ 62 }
        requires sound { is_spent self.old ≡ false }
        requires waits { waits self.old ≡ Waiting.WriteDone }
        requires prints { IsPrint (next (core_of self.old)) }
        ensures finishes { (g : Guest) → AwaitsAt g Waiting.WriteDone self.old → Finishes g (next g.core) self.new }
        ensures count { (core_of self.new).steps ≤ (core_of self.old).steps + 1 }
        ensures tag { tag_in self.new ≡ tag_in self.old }
    {
        self.hart.space.bounds();
        stores_keep_home();
        self.hart.wrote();
    }

    /// The bytes of a mapped span.
    pub fn bytes_of(&self, alloc: Global, addr: u32, len: u32) -> Result<Vec<u8>, AllocError>
        requires { IsSome (span (core_of self.now).memory.bytes addr len) }
        ensures { IfOk result (λ bytes. span (core_of self.now).memory.bytes addr len ≡ Some bytes.items) }
    {
        self.hart.bytes_of(alloc, addr, len)
    }

    /// The check at the end of a run: each free slot whose canary is broken is one more signal. It is made once,
    /// and takes no memory.
    pub fn check_end(&mut self)
        ensures checks { (g : Guest) (answer : Waiting) → AwaitsAt g answer self.old → AwaitsAt (checked g) answer self.new }
        ensures spent { is_spent self.new ≡ is_spent self.old }
        ensures core { core_of self.new ≡ core_of self.old }
        ensures tag { tag_in self.new ≡ tag_in self.old }
    {
        let lives = !self.hart.spent;
        if lives {
            self.heap.check_end(&self.hart.space);
        }
    }

    /// Goes by other patches from now on, none of whose entries is below the old one. Objects that are freed
    /// already keep their due.
    pub fn set_patches(&mut self, patches: Patches)
        requires { IsBelow (rules_in self.old).patches patches }
        ensures patched { (g : Guest) (answer : Waiting) → AwaitsAt g answer self.old → AwaitsAt (with_patches g patches) answer self.new }
        ensures spent { is_spent self.new ≡ is_spent self.old }
        ensures core { core_of self.new ≡ core_of self.old }
        ensures tag { tag_in self.new ≡ tag_in self.old }
    {
        self.heap.set_patches(patches);
    }
}

// A heap that no call was made of, in a memory with nothing mapped in the heap region. Its goals are all answered
// by hand, since a tactic would go through each address of the region.
#[tactic(none)]
fn new_heap(alloc: Global, space: &Space, settings: Settings) -> Result<Heap, AllocError>
    requires { (a : ℕ) → in_region a ≡ true → is_some ((memory_of space.now).bytes a) ≡ false }
    ensures stands { IfOk result (λ heap. StandsFor heap (no_history settings.seed)) }
    ensures rules { IfOk result (λ heap. rules_of heap ≡ record { patches = settings.patches; zero = settings.zero }) }
    ensures clock { IfOk result (λ heap. clock_in heap ≡ 0) }
    ensures calls { IfOk result (λ heap. calls_in heap ≡ 0) }
    ensures home { IfOk result (λ heap. HasHome heap space.now) }
{
    Heap::new(alloc, settings.seed, settings.patches, settings.zero)
}
