// Loads: docs/infinite-run.md, "Steps".

ghost use Rattle.std.specs.Prelude.{◌≡◌, ◌<◌, ◌%◌, ◌||◌, false, IsTrue};
ghost use Rattle.infinite_heap.specs.InRange.{is_load_op, is_store_op};
ghost use Rattle.infinite_heap.specs.Covered.{Cures};
ghost use Rattle.infinite_heap.specs.InfiniteState.{InfState, cells_of_state};
ghost use Rattle.infinite_heap.specs.InfiniteStep.{inf_load};
ghost use Rattle.infinite_heap.specs.Memory.{extends_sign, get_all, value_from, width_of};
ghost use Rattle.infinite_heap.specs.Objects.{begins_in};
ghost use Rattle.infinite_heap.specs.declared.value.Value.TheVariants.{Num, Ptr};
ghost use Rattle.blind_judge.specs.Flat.{mapping_in};
ghost use Rattle.blind_judge.specs.Patches.{cures_of};
ghost use Rattle.blind_judge.specs.Stands.{Stands};
ghost use Rattle.blind_judge.specs.Steps.{Takes};

use crate::areas::Purpose;
use crate::decisions::in_region;
use crate::loaded::{value_of_one, value_of_two};
use crate::objects::object_in;
use crate::progress::Progress;
use crate::state::State;
use crate::words::value_of;
use infinite_heap::{AccessKind, Cell, Op, Value, Why};
use patch_table::Patches;
use std::alloc::AllocError;

/// How many bytes a load or a store moves.
#[inline(always)]
pub(crate) fn width_of(op: Op) -> u32
    requires { IsTrue (is_load_op op || is_store_op op) }
    ensures width { result ≡ width_of op }
    ensures some { 0 < result }
{
    match op {
        Op::Lb | Op::Lbu | Op::Sb => 1,
        Op::Lh | Op::Lhu | Op::Sh => 2,
        _ => 4,
    }
}

impl State {
    // The cell that an object began with.
    fn first_cell(&self, object: u64) -> Cell
        ensures { (s : InfState) → Stands self.now s → result ≡ begins_in s.objects object }
    {
        if object_in(&self.objects, object).zeroed {
            return Cell::Byte(0);
        }
        Cell::Unset
    }

    // The cell of an object at an offset.
    pub(crate) fn object_cell(&self, object: u64, offset: u32) -> Cell
        ensures { (s : InfState) → Stands self.now s → result ≡ (cells_of_state s).heap object offset }
    {
        match self.cells.get(object, offset) {
            Some(cell) => cell,
            None => self.first_cell(object),
        }
    }

    // The value of the four cells of an object from an offset on.
    fn object_word(&self, object: u64, offset: u32) -> Value
        requires { offset % 4 ≡ 0 }
        ensures { (s : InfState) → Stands self.now s → result ≡ value_from false (get_all ((cells_of_state s).heap object) offset 4) }
    {
        value_of(self.cells.word(self.first_cell(object), object, offset))
    }

    // What a load from an object gives.
    fn object_value(&self, op: Op, object: u64, offset: u32) -> Value
        requires kind { IsTrue (is_load_op op) }
        requires whole { offset % width_of op ≡ 0 }
        ensures { (s : InfState) → Stands self.now s → result ≡ value_from (extends_sign op) (get_all ((cells_of_state s).heap object) offset (width_of op)) }
    {
        match op {
            Op::Lb => value_of_one(true, self.object_cell(object, offset)),
            Op::Lbu => value_of_one(false, self.object_cell(object, offset)),
            Op::Lh => value_of_two(
                true,
                self.object_cell(object, offset),
                self.object_cell(object, offset.wrapping_add(1)),
            ),
            Op::Lhu => value_of_two(
                false,
                self.object_cell(object, offset),
                self.object_cell(object, offset.wrapping_add(1)),
            ),
            _ => self.object_word(object, offset),
        }
    }

    #[inline(never)]
    fn load_object(
        &mut self,
        patches: &Patches,
        op: Op,
        rd: u8,
        object: u64,
        offset: u32,
    ) -> Result<Progress, AllocError>
        requires kind { IsTrue (is_load_op op) }
        requires register { rd < 32 }
        ensures step { Takes (cures_of patches.now) self.old (λ input s. inf_load (mapping_in self.old.flat) s op rd (Ptr object offset)) result self.new }
        ensures mapping { mapping_in self.new.flat ≡ mapping_in self.old.flat }
    {
        let width = width_of(op);
        if offset % width != 0 {
            return Ok(Progress::Faulted);
        }
        let used = self.access(AccessKind::Load, object, offset, width);
        if !self.is_covered(patches, &used) {
            return Ok(Progress::Uncovered(used));
        }
        let v = self.object_value(op, object, offset);
        self.pass_with(rd, v);
        Ok(Progress::Going)
    }

    #[inline(always)]
    fn load_flat(&mut self, op: Op, rd: u8, n: u32) -> Result<Progress, AllocError>
        requires kind { IsTrue (is_load_op op) }
        requires register { rd < 32 }
        ensures step { (cures : Cures) → Takes cures self.old (λ input s. inf_load (mapping_in self.old.flat) s op rd (Num n)) result self.new }
        ensures mapping { mapping_in self.new.flat ≡ mapping_in self.old.flat }
    {
        if in_region(n) {
            return Ok(Progress::Blurred(Why::Address));
        }
        let width = width_of(op);
        if n % width != 0 {
            return Ok(Progress::Faulted);
        }
        let allowed = self.flat.areas.allow(Purpose::Reading, n, width);
        if !allowed {
            return Ok(Progress::Faulted);
        }
        let v = self.flat.load(op, n);
        self.pass_with(rd, v);
        Ok(Progress::Going)
    }

    /// A load from the address that a value is.
    #[inline(always)]
    pub(crate) fn load(
        &mut self,
        patches: &Patches,
        op: Op,
        rd: u8,
        at: Value,
    ) -> Result<Progress, AllocError>
        requires kind { IsTrue (is_load_op op) }
        requires register { rd < 32 }
        ensures step { Takes (cures_of patches.now) self.old (λ input s. inf_load (mapping_in self.old.flat) s op rd at) result self.new }
        ensures mapping { mapping_in self.new.flat ≡ mapping_in self.old.flat }
    {
        match at {
            Value::Num(n) => self.load_flat(op, rd, n),
            Value::Ptr { object, offset } => self.load_object(patches, op, rd, object, offset),
            _ => Ok(Progress::Blurred(Why::Address)),
        }
    }
}
