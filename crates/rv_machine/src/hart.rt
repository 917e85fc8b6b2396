// The hart: a guest but for its heap. Its start and its step.
ghost use Rattle.std.specs.Prelude.{◌≡◌, ◌<◌, ◌≤◌, ◌+◌, ◌%◌, ◌^◌, ℕ, List, true, false, IfOk, IsSome, IsTrue, None, Some, map, string_bytes, length};
ghost use Rattle.std.specs.Bool.{OnTrue};
ghost use Rattle.infinite_heap.specs.Start.{IsWithin};
ghost use Rattle.infinite_heap.specs.InfiniteHeap.{call_at};
ghost use Rattle.infinite_heap.specs.Row.{row};
ghost use Rattle.rv_memory.specs.Memory.{span, code_at};
ghost use Rattle.rv_machine.specs.Core.{start};
ghost use Rattle.rv_machine.specs.Steps.{next, fetched, decoded};

use crate::decoded::Decoded;
use crate::ended::Ended;
use crate::memory::lay_out;
use crate::outcome::Outcome;
use crate::stack::stack_of;
use crate::stop::{Stop, Waiting};
use infinite_heap::{FaultKind, Program};
use rv_decode::rows_are_in_range;
use rv_memory::Space;
use site_hash::Calls;
use std::alloc::{AllocError, Global};

// The callers of `Hart::execute`.
pub(crate) struct Once;

pub(crate) struct Often;

// A guest but for its heap: its registers, its memory, and how far it is.
#[derive(Drop)]
pub(crate) struct Hart {
    pub(crate) registers: [u32; 32],
    pub(crate) pc: u32,
    pub(crate) space: Space,
    pub(crate) calls: Calls,
    pub(crate) steps: u64,
    pub(crate) ended: Option<Ended>,
    pub(crate) waiting: Waiting,
    pub(crate) spent: bool,
    ghost aligned: { pc % 4 ≡ 0 },
}

impl Hart {
    ghost use Rattle.rv_machine.specs.Core.{Core, Next, Prints};
    ghost use Rattle.infinite_heap.specs.declared.program.HeapName.{HeapName};
    ghost use Rattle.rv_machine.specs.KeptCode.{AreNameless, IsKept};
    ghost use Rattle.rv_machine.specs.Harts.{core_of, waits, is_spent, IsAt, Keeps, Steps, Executes};

    // A hart before its first step. The first argument is the program's name.
    pub(crate) fn start(
        alloc: Global,
        program: &Program,
        args: &[String],
    ) -> Result<Hart, AllocError>
        requires { IsWithin (map string_bytes args.now) }
        ensures { IfOk result (IsAt (start program.now (map string_bytes args.now))) }
    {
        program.rules();
        let entry = program.entry();
        let (pointer, top) = stack_of(alloc, args)?;
        let mut space = Space::new(alloc);
        lay_out(&mut space, program, pointer, &top)?;
        let mut registers = [0; 32];
        registers[2] = pointer;
        Ok(Hart {
            registers,
            pc: entry,
            space,
            calls: Calls::new(alloc)?,
            steps: 0,
            ended: None,
            waiting: Waiting::Nothing,
            spent: false,
        })
    }

    // Carries out one instruction, or says what it waits for.
    pub(crate) fn step(&mut self, kept: &mut Decoded) -> Stop
        requires count { (core_of self.old).steps < 2 ^ 62 }
        requires ready { waits self.old ≡ Waiting.Nothing }
        ensures step { is_spent self.old ≡ false → Steps (core_of self.old) (next (core_of self.old)) result self.new }
        ensures spent { is_spent self.old ≡ true → (result ≡ Stop.Memory) × (is_spent self.new ≡ true) }
        ensures count { (core_of self.new).steps ≤ (core_of self.old).steps + 1 }
        ensures taken { Keeps self.old self.new }
        ensures nameless { (names : List HeapName) → (is_spent self.old ≡ false → self.old.ended ≡ None → call_at names self.old.pc ≡ None) → AreNameless names kept.old → AreNameless names kept.new }
    {
        if self.spent || self.ended.is_some() {
            return self.over();
        }
        match self.go(kept) {
            Outcome::Going => Stop::Going,
            Outcome::Fault { kind, addr } => self.fault(self.pc, kind, addr),
            Outcome::Call => self.call(self.pc),
            Outcome::Memory => self.give_up(),
        }
    }

    // Whether the instruction at pc is kept, and is in the code that was mapped first.
    #[inline(always)]
    pub(crate) fn is_kept(&self, kept: &Decoded) -> bool
        ensures { OnTrue result (IsKept (core_of self.now) kept.now) }
    {
        match self.space.fetch_first(self.pc) {
            Some(word) => kept.has(self.pc, word),
            None => false,
        }
    }

    // Carries out the instruction of a guest that can go on, which is kept. Where that doesn't go on, nothing has changed.
    #[inline(always)]
    pub(crate) fn go_kept(&mut self, kept: &Decoded) -> Outcome
        requires count { self.old.steps < 2 ^ 62 }
        requires ready { IsAt (core_of self.old) self.old }
        requires kept { IsKept (core_of self.old) kept.now }
        ensures step { Executes (core_of self.old) (fetched (core_of self.old) (span (code_at (core_of self.old).memory) (core_of self.old).pc 4)) result self.new }
        ensures count { (core_of self.new).steps ≤ (core_of self.old).steps + 1 }
        ensures taken { Keeps self.old self.new }
    {
        rows_are_in_range();
        let pc = self.pc;
        self.execute::<Often>(pc, kept.fields(pc))
    }

    // The same, kept or not.
    #[inline(never)]
    pub(crate) fn go(&mut self, kept: &mut Decoded) -> Outcome
        requires count { self.old.steps < 2 ^ 62 }
        requires ready { IsAt (core_of self.old) self.old }
        ensures step { Executes (core_of self.old) (fetched (core_of self.old) (span (code_at (core_of self.old).memory) (core_of self.old).pc 4)) result self.new }
        ensures count { (core_of self.new).steps ≤ (core_of self.old).steps + 1 }
        ensures taken { Keeps self.old self.new }
        ensures nameless { (names : List HeapName) → call_at names self.old.pc ≡ None → AreNameless names kept.old → AreNameless names kept.new }
    {
        let pc = self.pc;
        match self.space.fetch(pc) {
            Ok(word) => self.carry_out(kept, pc, word),
            Err(_) => Outcome::Fault {
                kind: FaultKind::Fetch,
                addr: pc,
            },
        }
    }

    #[inline(always)]
    fn carry_out(&mut self, kept: &mut Decoded, pc: u32, word: u32) -> Outcome
        requires at { pc ≡ self.old.pc }
        requires count { self.old.steps < 2 ^ 62 }
        requires ready { IsAt (core_of self.old) self.old }
        ensures step { Executes (core_of self.old) (decoded (core_of self.old) (row word)) result self.new }
        ensures count { (core_of self.new).steps ≤ (core_of self.old).steps + 1 }
        ensures taken { Keeps self.old self.new }
        ensures nameless { (names : List HeapName) → call_at names pc ≡ None → AreNameless names kept.old → AreNameless names kept.new }
    {
        rows_are_in_range();
        if !kept.holds(pc, word) {
            return Outcome::Fault {
                kind: FaultKind::Illegal,
                addr: pc,
            };
        }
        self.execute::<Once>(pc, kept.fields(pc))
    }

    // The answer of a guest that has ended, or for which memory was wanting.
    #[inline(never)]
    fn over(&self) -> Stop
        requires { waits self.now ≡ Waiting.Nothing }
        ensures spent { is_spent self.now ≡ true → result ≡ Stop.Memory }
        ensures ended { is_spent self.now ≡ false → IsSome self.now.ended → Steps (core_of self.now) (next (core_of self.now)) result self.now }
    {
        if self.spent {
            return Stop::Memory;
        }
        match self.ended {
            Some(Ended::Exited(code)) => Stop::Ended(code),
            Some(Ended::Faulted { kind, pc, addr }) => Stop::Fault { kind, pc, addr },
            Some(Ended::Roomed { used, wanted }) => Stop::Room { used, wanted },
            None => Stop::Going,
        }
    }
}
