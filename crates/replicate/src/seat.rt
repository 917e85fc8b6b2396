// One replica with its machine, on its way to a gate.
ghost use Rattle.std.specs.Prelude.{◌≡◌, ◌≤◌, ◌<◌, ◌*◌, ◌^◌, true, false, is_some, IfOk, OnOk, Some, None, List, ℕ};
ghost use Rattle.std.specs.Bool.{OnFalse};
ghost use Rattle.rv_machine.specs.Stands.{core_of, heap_in, tag_in};
ghost use Rattle.layout_run.specs.Whole.{most_steps};
ghost use Rattle.replicate.specs.Ready.{IsReadyAs, is_writing};

use crate::law::steps_are_counted;
use ex_io::{Source, Tape};
use layout_run::{Progress, RunRefusal, advance, advances_are_steps};
use rv_machine::{Machine, steps_are_shaped};
use std::alloc::Global;

/// How far a replica was at a gate.
#[derive(Clone, Copy, Debug, PartialEq, Eq, Drop)]
pub struct Mark {
    /// The steps that were counted.
    pub steps: u64,
    /// The objects that were placed.
    pub clock: u64,
    /// The broken canaries that were seen.
    pub signals: u64,
}

// Replicas are compared whenever so many more objects were placed.
const CLOCK_PERIOD: u64 = 1024;

/// A replica: its machine, its place in the input, and what its last step came to, or `None` where that was cut short.
#[derive(Drop)]
pub(crate) struct Seat {
    pub(crate) machine: Machine,
    pub(crate) place: u128,
    pub(crate) state: Option<Progress>,
    pub(crate) live: bool,
    pub(crate) mark: Mark,
    pub(crate) budget: u64,
    ghost ready: { ∥ IsReadyAs state machine ∥₁ },
    ghost budgeted: { budget ≤ most_steps },
    ghost counted: { is_some state ≡ true → (core_of machine).steps ≤ budget },
    ghost writes: { is_writing state ≡ true → (core_of machine).steps < budget },
    ghost placed: { is_some state ≡ true → place ≤ (core_of machine).steps * 2 ^ 32 },
}

impl Seat {
    ghost use Rattle.exact_heap.specs.Heaps.{StandsFor};
    ghost use Rattle.exact_heap.specs.History.{History, clock_of};
    ghost use Rattle.rv_machine.specs.HeapCalls.{guest_next};
    ghost use Rattle.layout_run.specs.Advances.{CutsInput, ReadsPast, TellsInput};
    ghost use Rattle.layout_run.specs.Runs.{RefusesInput};
    ghost use Rattle.replicate.specs.Limits.{MeetsLimit};
    ghost use Rattle.replicate.specs.Replicas.{Replica, attempted, has_arrived, is_due, onward};
    ghost use Rattle.replicate.specs.Seats.{IsKept, IsSeat, ReadsOn};

    /// Whether as many objects were placed since the last gate as lead to the next one.
    pub(crate) fn is_due(&self) -> bool
        ensures { (h : History) → StandsFor (heap_in self.now.machine) h → result ≡ is_due self.now.mark.clock (clock_of h) }
    {
        let clock = self.machine.heap().clock();
        self.mark.clock < clock && clock % CLOCK_PERIOD == 0
    }

    /// Whether it stands before a gate.
    pub(crate) fn has_arrived(&self) -> bool
        ensures arrived { (r : Replica) → IsSeat r self.now → result ≡ has_arrived self.now.budget r }
        ensures open { OnFalse result ((self.now.state ≡ Some Progress.Going) × ((core_of self.now.machine).steps < self.now.budget)) }
    {
        match self.state {
            Some(Progress::Going) => self.is_due() || self.machine.steps() >= self.budget,
            _ => true,
        }
    }

    // One more step: a write is come to, and not made.
    fn attempt<S: Source>(
        &mut self,
        alloc: Global,
        tape: &mut Tape,
        input: &mut S,
    ) -> Result<(), RunRefusal>
        requires going { self.old.state ≡ Some Progress.Going }
        requires budget { (core_of self.old.machine).steps < self.old.budget }
        requires kept { IsKept tape.old self.old.place }
        ensures step { (r : Replica) (bytes : List ℕ) → TellsInput bytes tape.old (S.left input.old) → IsSeat r self.old → OnOk result (IsSeat (attempted bytes r (guest_next r.flat.guest)) self.new) }
        ensures whole { OnOk result (is_some self.new.state ≡ true) }
        ensures tape { OnOk result (ReadsOn tape.old tape.new (S.left input.old) (S.left input.new) self.new.place) }
        ensures moves { OnOk result (self.old.place ≤ self.new.place) }
        ensures budget { self.new.budget ≡ self.old.budget }
        ensures tag { OnOk result (tag_in self.new.machine ≡ tag_in self.old.machine) }
        ensures limit { RefusesInput result tape.old ((r : Replica) → IsSeat r self.old → ReadsPast (guest_next r.flat.guest) tape.old (S.left input.old) self.old.place) }
        ensures cause { CutsInput result (S.faults input.old) (S.faults input.new) }
    {
        advances_are_steps();
        steps_are_shaped();
        steps_are_counted();
        match advance(alloc, &mut self.machine, tape, &mut self.place, input) {
            Ok(progress) => {
                self.state = Some(progress);
                Ok(())
            }
            Err(refused) => {
                self.state = None;
                Err(refused)
            }
        }
    }

    // Carries out instructions that go on, at most `most` and fewer than the budget has left, and says how many.
    fn hurry(&mut self, most: u64) -> u64
        requires going { self.old.state ≡ Some Progress.Going }
        requires budget { (core_of self.old.machine).steps < self.old.budget }
        ensures onward { (r : Replica) (bytes : List ℕ) → IsSeat r self.old → has_arrived self.old.budget r ≡ false → IsSeat (onward bytes self.old.budget result r) self.new × (has_arrived self.old.budget (onward bytes self.old.budget result r) ≡ false) }
        ensures most { result ≤ most }
        ensures going { self.new.state ≡ Some Progress.Going }
        ensures left { (core_of self.new.machine).steps < self.new.budget }
        ensures place { self.new.place ≡ self.old.place }
        ensures budget { self.new.budget ≡ self.old.budget }
        ensures tag { tag_in self.new.machine ≡ tag_in self.old.machine }
    {
        steps_are_shaped();
        steps_are_counted();
        let left = self.budget - 1 - self.machine.steps();
        self.machine.go_on(most.min(left))
    }

    /// Goes on until it stands before a gate, or has taken `n` steps, and says whether it stands there. One that was cut
    /// short stays.
    pub(crate) fn go_on<S: Source>(
        &mut self,
        alloc: Global,
        tape: &mut Tape,
        input: &mut S,
        n: u64,
    ) -> Result<bool, RunRefusal>
        requires kept { IsKept tape.old self.old.place }
        ensures onward { (r : Replica) (bytes : List ℕ) → TellsInput bytes tape.old (S.left input.old) → IsSeat r self.old → IfOk result (λ there. IsSeat (onward bytes self.old.budget n r) self.new × (there ≡ has_arrived self.old.budget (onward bytes self.old.budget n r))) }
        ensures tape { OnOk result (ReadsOn tape.old tape.new (S.left input.old) (S.left input.new) self.new.place) }
        ensures budget { self.new.budget ≡ self.old.budget }
        ensures tag { OnOk result (tag_in self.new.machine ≡ tag_in self.old.machine) }
        ensures limit { RefusesInput result tape.old ((r : Replica) (bytes : List ℕ) → TellsInput bytes tape.old (S.left input.old) → IsSeat r self.old → MeetsLimit bytes self.old.budget n r) }
        ensures cause { CutsInput result (S.faults input.old) (S.faults input.new) }
    {
        let mut i = 0;
        while i < n {
            if self.has_arrived() {
                return Ok(true);
            }
            i += self.hurry(n - 1 - i);
            match self.attempt(alloc, tape, input) {
                Ok(()) => {}
                Err(refused) => return Err(refused),
            }
            i += 1;
        }
        Ok(self.has_arrived())
    }
}
