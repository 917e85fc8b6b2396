// System calls: docs/guest.md, "System calls", and docs/infinite-run.md, "System calls".

ghost use Rattle.std.specs.Prelude.{◌≡◌, ◌<◌, ◌+◌, ◌≤◌, ℕ, List, Option, is_some};
ghost use Rattle.infinite_heap.specs.Covered.{AllCovered, Cures};
ghost use Rattle.infinite_heap.specs.InfiniteState.{InfState, cells_of_state};
ghost use Rattle.infinite_heap.specs.InfiniteSystem.{avoids_heap, inf_answers, inf_ecall, inf_prints, inf_read_at, inf_read_from, inf_served, inf_write_at, inf_write_to, is_exit, is_printed, is_read, is_write, numbers_of};
ghost use Rattle.infinite_heap.specs.Memory.{get_all};
ghost use Rattle.infinite_heap.specs.declared.access.Record.{Record};
ghost use Rattle.infinite_heap.specs.declared.value.Value.TheVariants.{Num, Ptr};
ghost use Rattle.blind_judge.specs.Flat.{flat_of, mapping_in};
ghost use Rattle.blind_judge.specs.Patches.{cures_of};
ghost use Rattle.blind_judge.specs.Stands.{Stands};
ghost use Rattle.blind_judge.specs.Steps.{StepsAs, Takes};

use crate::areas::Purpose;
use crate::decisions::REGION_END;
use crate::flat::Flat;
use crate::progress::Progress;
use crate::state::State;
use infinite_heap::{AccessKind, Cell, REGION_FROM, Value, Why};
use patch_table::Patches;
use std::alloc::AllocError;

const BAD_DESCRIPTOR: u32 = 0xffff_fff7;

const BAD_SPAN: u32 = 0xffff_fff2;

const NO_CALL: u32 = 0xffff_ffda;

const READ: u32 = 63;

const WRITE: u32 = 64;

fn is_exit(a7: u32) -> bool
    ensures { result ≡ is_exit a7 }
{
    a7 == 93 || a7 == 94
}

fn is_printed(fd: u32) -> bool
    ensures { result ≡ is_printed fd }
{
    fd == 1 || fd == 2
}

fn avoids_heap(from: u32, len: u32) -> bool
    ensures { result ≡ avoids_heap from len }
{
    u64::from(from) + u64::from(len) <= u64::from(REGION_FROM) || REGION_END <= from
}

impl Flat {
    // Whether each of `len` cells from an address on is a number.
    fn are_numbers(&self, x: u32, len: u32) -> bool
        ensures { result ≡ is_some (numbers_of (get_all (flat_of self.now) x len)) }
    {
        let mut at = x;
        let mut left = len;
        while left > 0 {
            match self.cell(at) {
                Cell::Byte(_) => {
                    at = at.wrapping_add(1);
                    left -= 1;
                }
                _ => return false,
            }
        }
        true
    }
}

impl State {
    // Whether each of `len` cells of an object from an offset on is a number.
    fn are_numbers(&self, object: u64, offset: u32, len: u32) -> bool
        ensures { (s : InfState) → Stands self.now s → result ≡ is_some (numbers_of (get_all ((cells_of_state s).heap object) offset len)) }
    {
        let mut at = offset;
        let mut left = len;
        while left > 0 {
            match self.object_cell(object, at) {
                Cell::Byte(_) => {
                    at = at.wrapping_add(1);
                    left -= 1;
                }
                _ => return false,
            }
        }
        true
    }

    // Answers in a0.
    fn answer(&mut self, n: u32) -> Result<Progress, AllocError>
        ensures step { (cures : Cures) → Takes cures self.old (λ input s. inf_answers s n) result self.new }
        ensures mapping { mapping_in self.new.flat ≡ mapping_in self.old.flat }
    {
        self.pass_with(10, Value::Num(n));
        Ok(Progress::Going)
    }

    // A write of `len` bytes, where each of its cells is a number; a0 gets the length.
    fn print(&mut self, are_numbers: bool, len: u32) -> Result<Progress, AllocError>
        ensures step { (cures : Cures) (input : List ℕ) (s : InfState) (fd : ℕ) (bytes : Option (List ℕ)) (records : List Record) → Stands self.old s → AllCovered cures s.objects records → are_numbers ≡ is_some bytes → StepsAs cures input s (inf_prints s fd len bytes records) result self.new }
        ensures mapping { mapping_in self.new.flat ≡ mapping_in self.old.flat }
    {
        if !are_numbers {
            return Ok(Progress::Blurred(Why::Output));
        }
        self.pass_with(10, Value::Num(len));
        Ok(Progress::Going)
    }

    fn write_flat(&mut self, fd: u32, n: u32, len: u32) -> Result<Progress, AllocError>
        ensures step { (cures : Cures) → Takes cures self.old (λ input s. inf_write_at (mapping_in self.old.flat) s fd (Num n) len) result self.new }
        ensures mapping { mapping_in self.new.flat ≡ mapping_in self.old.flat }
    {
        let avoids = avoids_heap(n, len);
        if !avoids {
            return Ok(Progress::Blurred(Why::Operand));
        }
        let allowed = self.flat.areas.are_span(Purpose::Reading, n, len);
        if !allowed {
            return self.answer(BAD_SPAN);
        }
        let numbers = self.flat.are_numbers(n, len);
        self.print(numbers, len)
    }

    fn write_object(
        &mut self,
        patches: &Patches,
        fd: u32,
        object: u64,
        offset: u32,
        len: u32,
    ) -> Result<Progress, AllocError>
        ensures step { Takes (cures_of patches.now) self.old (λ input s. inf_write_at (mapping_in self.old.flat) s fd (Ptr object offset) len) result self.new }
        ensures mapping { mapping_in self.new.flat ≡ mapping_in self.old.flat }
    {
        let used = self.access(AccessKind::Load, object, offset, len);
        let covered = self.is_covered(patches, &used);
        if !covered {
            return Ok(Progress::Uncovered(used));
        }
        let numbers = self.are_numbers(object, offset, len);
        self.print(numbers, len)
    }

    fn write_at(
        &mut self,
        patches: &Patches,
        fd: u32,
        at: Value,
        len: u32,
    ) -> Result<Progress, AllocError>
        ensures step { Takes (cures_of patches.now) self.old (λ input s. inf_write_at (mapping_in self.old.flat) s fd at len) result self.new }
        ensures mapping { mapping_in self.new.flat ≡ mapping_in self.old.flat }
    {
        match at {
            Value::Num(n) => self.write_flat(fd, n, len),
            Value::Ptr { object, offset } => self.write_object(patches, fd, object, offset, len),
            _ => Ok(Progress::Blurred(Why::Operand)),
        }
    }

    fn write_to(
        &mut self,
        patches: &Patches,
        fd: u32,
        at: Value,
        len: Value,
    ) -> Result<Progress, AllocError>
        ensures step { Takes (cures_of patches.now) self.old (λ input s. inf_write_to (mapping_in self.old.flat) s fd at len) result self.new }
        ensures mapping { mapping_in self.new.flat ≡ mapping_in self.old.flat }
    {
        let printed = is_printed(fd);
        if !printed {
            return self.answer(BAD_DESCRIPTOR);
        }
        match len {
            Value::Num(0) => self.answer(0),
            Value::Num(len) => self.write_at(patches, fd, at, len),
            _ => Ok(Progress::Blurred(Why::Operand)),
        }
    }

    fn read_flat(&mut self, n: u32, len: u32) -> Result<Progress, AllocError>
        ensures step { (cures : Cures) → Takes cures self.old (λ input s. inf_read_at (mapping_in self.old.flat) input s (Num n) len) result self.new }
        ensures mapping { mapping_in self.new.flat ≡ mapping_in self.old.flat }
    {
        let avoids = avoids_heap(n, len);
        if !avoids {
            return Ok(Progress::Blurred(Why::Operand));
        }
        let allowed = self.flat.areas.are_span(Purpose::Writing, n, len);
        if !allowed {
            return self.answer(BAD_SPAN);
        }
        Ok(Progress::Reads {
            at: Value::Num(n),
            len,
        })
    }

    fn read_object(
        &mut self,
        patches: &Patches,
        object: u64,
        offset: u32,
        len: u32,
    ) -> Result<Progress, AllocError>
        ensures step { Takes (cures_of patches.now) self.old (λ input s. inf_read_at (mapping_in self.old.flat) input s (Ptr object offset) len) result self.new }
        ensures mapping { mapping_in self.new.flat ≡ mapping_in self.old.flat }
    {
        let used = self.access(AccessKind::Store, object, offset, len);
        let covered = self.is_covered(patches, &used);
        if !covered {
            return Ok(Progress::Uncovered(used));
        }
        Ok(Progress::Reads {
            at: Value::Ptr { object, offset },
            len,
        })
    }

    fn read_at(&mut self, patches: &Patches, at: Value, len: u32) -> Result<Progress, AllocError>
        ensures step { Takes (cures_of patches.now) self.old (λ input s. inf_read_at (mapping_in self.old.flat) input s at len) result self.new }
        ensures mapping { mapping_in self.new.flat ≡ mapping_in self.old.flat }
    {
        match at {
            Value::Num(n) => self.read_flat(n, len),
            Value::Ptr { object, offset } => self.read_object(patches, object, offset, len),
            _ => Ok(Progress::Blurred(Why::Operand)),
        }
    }

    fn read_from(
        &mut self,
        patches: &Patches,
        fd: u32,
        at: Value,
        len: Value,
    ) -> Result<Progress, AllocError>
        ensures step { Takes (cures_of patches.now) self.old (λ input s. inf_read_from (mapping_in self.old.flat) input s fd at len) result self.new }
        ensures mapping { mapping_in self.new.flat ≡ mapping_in self.old.flat }
    {
        if fd != 0 {
            return self.answer(BAD_DESCRIPTOR);
        }
        match len {
            Value::Num(0) => self.answer(0),
            Value::Num(len) => self.read_at(patches, at, len),
            _ => Ok(Progress::Blurred(Why::Operand)),
        }
    }

    // A call that is served.
    fn serve(&mut self, patches: &Patches, a7: u32, a0: Value) -> Result<Progress, AllocError>
        ensures step { Takes (cures_of patches.now) self.old (λ input s. inf_served (mapping_in self.old.flat) input s a7 a0) result self.new }
        ensures mapping { mapping_in self.new.flat ≡ mapping_in self.old.flat }
    {
        match a0 {
            Value::Num(a0) => self.serve_by(patches, a7, a0),
            _ => Ok(Progress::Blurred(Why::Operand)),
        }
    }

    fn serve_by(&mut self, patches: &Patches, a7: u32, a0: u32) -> Result<Progress, AllocError>
        ensures step { Takes (cures_of patches.now) self.old (λ input s. inf_served (mapping_in self.old.flat) input s a7 (Num a0)) result self.new }
        ensures mapping { mapping_in self.new.flat ≡ mapping_in self.old.flat }
    {
        let exits = is_exit(a7);
        if exits {
            return Ok(Progress::Exited);
        }
        let at = self.register(11);
        let len = self.register(12);
        if a7 == READ {
            return self.read_from(patches, a0, at, len);
        }
        self.write_to(patches, a0, at, len)
    }

    fn call_by(&mut self, patches: &Patches, a7: u32) -> Result<Progress, AllocError>
        ensures step { Takes (cures_of patches.now) self.old (λ input s. inf_ecall (mapping_in self.old.flat) input s (Num a7)) result self.new }
        ensures mapping { mapping_in self.new.flat ≡ mapping_in self.old.flat }
    {
        let served = is_exit(a7) || a7 == READ || a7 == WRITE;
        if !served {
            return self.answer(NO_CALL);
        }
        let a0 = self.register(10);
        self.serve(patches, a7, a0)
    }

    /// An environment call.
    #[inline(never)]
    pub(crate) fn call(&mut self, patches: &Patches) -> Result<Progress, AllocError>
        ensures step { Takes (cures_of patches.now) self.old (λ input s. inf_ecall (mapping_in self.old.flat) input s (s.regs 17)) result self.new }
        ensures mapping { mapping_in self.new.flat ≡ mapping_in self.old.flat }
    {
        let a7 = self.register(17);
        match a7 {
            Value::Num(a7) => self.call_by(patches, a7),
            _ => Ok(Progress::Blurred(Why::Operand)),
        }
    }
}
