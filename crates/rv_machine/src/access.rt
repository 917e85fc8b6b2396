// Loads and stores.
ghost use Rattle.std.specs.Prelude.{◌≡◌, ◌<◌, ◌≤◌, ◌+◌, ◌*◌, ◌%◌, ◌^◌, ◌==◌, ℕ, true, false, IsTrue};
ghost use Rattle.infinite_heap.specs.InRange.{is_load_op, is_store_op};
ghost use Rattle.infinite_heap.specs.Memory.{width_of};
ghost use Rattle.rv_memory.specs.Access.{bytes_in};
ghost use Rattle.rv_machine.specs.Extended.{extended};
ghost use Rattle.rv_machine.specs.Steps.{load, store};
ghost use Rattle.rv_machine.specs.Harts.{core_of, IsAt, Keeps, Executes};

use crate::hart::Hart;
use crate::outcome::Outcome;
use infinite_heap::{FaultKind, Op};
use rv_memory::{StoreFault, Width};

#[inline(always)]
fn load_width(op: Op) -> Width
    requires { IsTrue (is_load_op op) }
    ensures { bytes_in result ≡ width_of op }
{
    match op {
        Op::Lb | Op::Lbu => Width::One,
        Op::Lh | Op::Lhu => Width::Two,
        _ => Width::Four,
    }
}

#[inline(always)]
fn store_width(op: Op) -> Width
    requires { IsTrue (is_store_op op) }
    ensures { bytes_in result ≡ width_of op }
{
    match op {
        Op::Sb => Width::One,
        Op::Sh => Width::Two,
        _ => Width::Four,
    }
}

#[inline(always)]
fn is_aligned(addr: u32, width: Width) -> bool
    ensures { result ≡ (addr % bytes_in width == 0) }
{
    match width {
        Width::One => true,
        Width::Two => addr % 2 == 0,
        Width::Four => addr % 4 == 0,
    }
}

// A loaded number as a word.
#[inline(always)]
fn extend(op: Op, raw: u32) -> u32
    ensures { raw < 2 ^ (8 * width_of op) → result ≡ extended op raw }
{
    match op {
        Op::Lb if raw >= 128 => raw.wrapping_add(0xFFFF_FF00),
        Op::Lh if raw >= 32768 => raw.wrapping_add(0xFFFF_0000),
        _ => raw,
    }
}

impl Hart {
    #[inline(always)]
    pub(crate) fn load(&mut self, pc: u32, op: Op, rd: u8, addr: u32) -> Outcome
        requires at { pc ≡ self.old.pc }
        requires kind { IsTrue (is_load_op op) }
        requires register { rd < 32 }
        requires count { self.old.steps < 2 ^ 62 }
        requires ready { IsAt (core_of self.old) self.old }
        ensures step { Executes (core_of self.old) (load (core_of self.old) op rd addr) result self.new }
        ensures count { (core_of self.new).steps ≤ (core_of self.old).steps + 1 }
        ensures taken { Keeps self.old self.new }
    {
        let width = load_width(op);
        if !is_aligned(addr, width) {
            return Outcome::Fault {
                kind: FaultKind::LoadAlign,
                addr,
            };
        }
        self.space.bounds();
        match self.space.load(addr, width) {
            Ok(raw) => self.step_over(pc, rd, extend(op, raw)),
            Err(_) => Outcome::Fault {
                kind: FaultKind::Load,
                addr,
            },
        }
    }

    #[inline(always)]
    pub(crate) fn store(&mut self, pc: u32, op: Op, addr: u32, value: u32) -> Outcome
        requires at { pc ≡ self.old.pc }
        requires kind { IsTrue (is_store_op op) }
        requires count { self.old.steps < 2 ^ 62 }
        requires ready { IsAt (core_of self.old) self.old }
        ensures step { Executes (core_of self.old) (store (core_of self.old) op value addr) result self.new }
        ensures count { (core_of self.new).steps ≤ (core_of self.old).steps + 1 }
        ensures taken { Keeps self.old self.new }
    {
        let width = store_width(op);
        if !is_aligned(addr, width) {
            return Outcome::Fault {
                kind: FaultKind::StoreAlign,
                addr,
            };
        }
        match self.space.store(addr, width, value) {
            Ok(()) => self.pass(pc),
            Err(StoreFault::Unmapped) => Outcome::Fault {
                kind: FaultKind::Store,
                addr,
            },
            Err(StoreFault::Memory) => Outcome::Memory,
        }
    }
}
