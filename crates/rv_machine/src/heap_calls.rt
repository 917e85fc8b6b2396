// Heap calls.
ghost use Rattle.std.specs.Prelude.{◌≡◌, ◌<◌, ◌≤◌, ◌+◌, ◌%◌, ◌^◌, ℕ, true, false, None};

use crate::ended::Ended;
use crate::hart::Hart;
use crate::machine::Machine;
use crate::stop::Stop;
use exact_heap::{HeapRefusal, stores_keep_home};
use infinite_heap::{FaultKind, HeapCall};

impl Hart {
    ghost use Rattle.rv_machine.specs.Core.{Core};
    ghost use Rattle.rv_machine.specs.HeapCalls.{back_to, back_with, roomed};
    ghost use Rattle.rv_machine.specs.Harts.{core_of, is_spent, IsAt, Keeps, Comes};

    // A call returns: its return address is popped, and the step is counted.
    fn back_to(&mut self, back: u32)
        requires count { self.old.steps < 2 ^ 62 }
        requires aligned { back % 4 ≡ 0 }
        requires ready { IsAt (core_of self.old) self.old }
        ensures at { IsAt (back_to back (core_of self.old)) self.new }
        ensures space { self.new.space ≡ self.old.space }
    {
        self.calls.ret();
        self.pc = back;
        self.steps += 1;
    }

    // A call returns with an answer in a0.
    fn back_with(&mut self, back: u32, answer: u32) -> Stop
        requires count { self.old.steps < 2 ^ 62 }
        requires aligned { back % 4 ≡ 0 }
        requires ready { IsAt (core_of self.old) self.old }
        ensures at { IsAt (back_with back answer (core_of self.old)) self.new }
        ensures going { result ≡ Stop.Going }
        ensures space { self.new.space ≡ self.old.space }
    {
        self.registers[10] = answer;
        self.back_to(back);
        Stop::Going
    }

    // Want of room ends the guest.
    fn lack(&mut self, used: u32, wanted: u32) -> Stop
        requires { IsAt (core_of self.old) self.old }
        ensures at { IsAt (roomed used wanted (core_of self.old)) self.new }
        ensures stop { result ≡ Stop.Room used wanted }
        ensures space { self.new.space ≡ self.old.space }
    {
        self.ended = Some(Ended::Roomed { used, wanted });
        Stop::Room { used, wanted }
    }

    // What a heap call comes to, by the heap's answer.
    fn answer_call(&mut self, back: u32, answer: Result<u32, HeapRefusal>) -> Stop
        requires count { self.old.steps < 2 ^ 62 }
        requires aligned { back % 4 ≡ 0 }
        requires ready { IsAt (core_of self.old) self.old }
        ensures comes { Comes (core_of self.old) back answer result self.new }
        ensures space { self.new.space ≡ self.old.space }
        ensures count { (core_of self.new).steps ≤ (core_of self.old).steps + 1 }
        ensures counted { is_spent self.new ≡ false → self.new.ended ≡ None → self.new.steps ≡ self.old.steps + 1 }
    {
        match answer {
            Ok(address) => self.back_with(back, address),
            Err(HeapRefusal::Room { used, wanted }) => self.lack(used, wanted),
            Err(HeapRefusal::Memory) => self.give_up(),
        }
    }
}

impl Machine {
    ghost use Rattle.infinite_heap.specs.CallSite.{site_of};
    ghost use Rattle.exact_heap.specs.Calls.{malloc, calloc, realloc, memalign, free};
    ghost use Rattle.exact_heap.specs.Heaps.{StandsFor};
    ghost use Rattle.exact_heap.specs.History.{History};
    ghost use Rattle.exact_heap.specs.Stands.{state_at};
    ghost use Rattle.rv_machine.specs.HeapCalls.{answers, frees, called, heap_call};
    ghost use Rattle.rv_machine.specs.Stands.{core_of as core_in, heap_in, space_in, rules_in, tag_in, guest_in, IsReady, Steps};

    // A heap call by its name, which returns to `back`.
    fn call(&mut self, back: u32, function: HeapCall) -> Stop
        requires count { (core_in self.old).steps < 2 ^ 62 }
        requires aligned { back % 4 ≡ 0 }
        requires ready { IsReady self.old }
        ensures step { (h : History) → StandsFor (heap_in self.old) h → Steps (guest_in self.old h) (called (guest_in self.old h) back function) result self.new }
        ensures count { (core_in self.new).steps ≤ (core_in self.old).steps + 1 }
        ensures tag { tag_in self.new ≡ tag_in self.old }
    {
        let site = self.hart.calls.site();
        let a0 = self.hart.registers[10];
        let a1 = self.hart.registers[11];
        let a2 = self.hart.registers[12];
        match function {
            HeapCall::Malloc => self.malloc(back, a0, site),
            HeapCall::MallocR => self.malloc(back, a1, site),
            HeapCall::Free => self.free(back, a0, site),
            HeapCall::FreeR => self.free(back, a1, site),
            HeapCall::Calloc => self.calloc(back, a0, a1, site),
            HeapCall::CallocR => self.calloc(back, a1, a2, site),
            HeapCall::Realloc => self.realloc(back, a0, a1, site),
            HeapCall::ReallocR => self.realloc(back, a1, a2, site),
            HeapCall::Memalign => self.memalign(back, a0, a1, site),
            HeapCall::AlignedAlloc => self.memalign(back, a0, a1, site),
            HeapCall::MemalignR => self.memalign(back, a1, a2, site),
        }
    }

    fn malloc(&mut self, back: u32, size: u32, site: u32) -> Stop
        requires count { (core_in self.old).steps < 2 ^ 62 }
        requires aligned { back % 4 ≡ 0 }
        requires ready { IsReady self.old }
        ensures step { (h : History) → StandsFor (heap_in self.old) h → Steps (guest_in self.old h) (answers (guest_in self.old h) back (malloc (rules_in self.old) size site (state_at h (space_in self.old)))) result self.new }
        ensures count { (core_in self.new).steps ≤ (core_in self.old).steps + 1 }
        ensures tag { tag_in self.new ≡ tag_in self.old }
    {
        let answer = self.heap.malloc(&mut self.hart.space, size, site);
        self.hart.answer_call(back, answer)
    }

    fn calloc(&mut self, back: u32, count: u32, each: u32, site: u32) -> Stop
        requires count { (core_in self.old).steps < 2 ^ 62 }
        requires aligned { back % 4 ≡ 0 }
        requires ready { IsReady self.old }
        ensures step { (h : History) → StandsFor (heap_in self.old) h → Steps (guest_in self.old h) (answers (guest_in self.old h) back (calloc (rules_in self.old) count each site (state_at h (space_in self.old)))) result self.new }
        ensures count { (core_in self.new).steps ≤ (core_in self.old).steps + 1 }
        ensures tag { tag_in self.new ≡ tag_in self.old }
    {
        let answer = self.heap.calloc(&mut self.hart.space, count, each, site);
        self.hart.answer_call(back, answer)
    }

    fn realloc(&mut self, back: u32, old: u32, size: u32, site: u32) -> Stop
        requires count { (core_in self.old).steps < 2 ^ 62 }
        requires aligned { back % 4 ≡ 0 }
        requires ready { IsReady self.old }
        ensures step { (h : History) → StandsFor (heap_in self.old) h → Steps (guest_in self.old h) (answers (guest_in self.old h) back (realloc (rules_in self.old) old size site (state_at h (space_in self.old)))) result self.new }
        ensures count { (core_in self.new).steps ≤ (core_in self.old).steps + 1 }
        ensures tag { tag_in self.new ≡ tag_in self.old }
    {
        let answer = self.heap.realloc(&mut self.hart.space, old, size, site);
        self.hart.answer_call(back, answer)
    }

    fn memalign(&mut self, back: u32, align: u32, size: u32, site: u32) -> Stop
        requires count { (core_in self.old).steps < 2 ^ 62 }
        requires aligned { back % 4 ≡ 0 }
        requires ready { IsReady self.old }
        ensures step { (h : History) → StandsFor (heap_in self.old) h → Steps (guest_in self.old h) (answers (guest_in self.old h) back (memalign (rules_in self.old) align size site (state_at h (space_in self.old)))) result self.new }
        ensures count { (core_in self.new).steps ≤ (core_in self.old).steps + 1 }
        ensures tag { tag_in self.new ≡ tag_in self.old }
    {
        let answer = self.heap.memalign(&mut self.hart.space, align, size, site);
        self.hart.answer_call(back, answer)
    }

    fn free(&mut self, back: u32, addr: u32, site: u32) -> Stop
        requires count { (core_in self.old).steps < 2 ^ 62 }
        requires aligned { back % 4 ≡ 0 }
        requires ready { IsReady self.old }
        ensures step { (h : History) → StandsFor (heap_in self.old) h → Steps (guest_in self.old h) (frees (guest_in self.old h) back (free (rules_in self.old) addr site (state_at h (space_in self.old)))) result self.new }
        ensures count { (core_in self.new).steps ≤ (core_in self.old).steps + 1 }
        ensures tag { tag_in self.new ≡ tag_in self.old }
    {
        self.heap.free(&mut self.hart.space, addr, site);
        self.hart.back_to(back);
        Stop::Going
    }

    /// One whole heap call.
    #[inline(never)]
    pub(crate) fn heap_call(&mut self, function: HeapCall) -> Stop
        requires count { (core_in self.old).steps < 2 ^ 62 }
        requires ready { IsReady self.old }
        ensures step { (h : History) → StandsFor (heap_in self.old) h → Steps (guest_in self.old h) (heap_call (guest_in self.old h) function) result self.new }
        ensures count { (core_in self.new).steps ≤ (core_in self.old).steps + 1 }
        ensures tag { tag_in self.new ≡ tag_in self.old }
    {
        let ra = self.hart.registers[1];
        let back = ra - ra % 2;
        if back % 4 != 0 {
            let pc = self.hart.pc;
            stores_keep_home();
            return self.hart.fault(pc, FaultKind::Jump, back);
        }
        self.call(back, function)
    }
}
