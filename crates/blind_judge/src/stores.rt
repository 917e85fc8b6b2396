// Stores: docs/infinite-run.md, "Steps".

ghost use Rattle.std.specs.Prelude.{◌≡◌, ◌<◌, ◌%◌, ◌||◌, OnOk, IsTrue};
ghost use Rattle.infinite_heap.specs.InRange.{is_load_op, is_store_op};
ghost use Rattle.infinite_heap.specs.Covered.{Cures};
ghost use Rattle.infinite_heap.specs.InfiniteState.{InfState};
ghost use Rattle.infinite_heap.specs.InfiniteStep.{inf_store};
ghost use Rattle.infinite_heap.specs.Memory.{cells_from, put_all, store_all, width_of};
ghost use Rattle.infinite_heap.specs.declared.value.Value.TheVariants.{Num, Ptr};
ghost use Rattle.blind_judge.specs.Flat.{mapping_in};
ghost use Rattle.blind_judge.specs.Patches.{cures_of};
ghost use Rattle.blind_judge.specs.Stands.{Stands};
ghost use Rattle.blind_judge.specs.Steps.{Takes};

use crate::areas::Purpose;
use crate::decisions::in_region;
use crate::loads::width_of;
use crate::progress::Progress;
use crate::state::State;
use crate::words::cells_of;
use infinite_heap::{AccessKind, Op, Value, Why};
use patch_table::Patches;
use std::alloc::AllocError;

impl State {
    // Puts a value's lowest cells at an address.
    #[inline(always)]
    fn put_flat(&mut self, op: Op, n: u32, v: Value) -> Result<(), AllocError>
        requires kind { IsTrue (is_store_op op) }
        ensures stored { OnOk result ((s : InfState) → Stands self.old s → Stands self.new (record s { flat = put_all s.flat n (cells_from (width_of op) v) })) }
        ensures mapping { mapping_in self.new.flat ≡ mapping_in self.old.flat }
    {
        self.flat.store(op, n, v)
    }

    // Stores a value's lowest cells to an object.
    fn put_object(&mut self, op: Op, object: u64, offset: u32, v: Value) -> Result<(), AllocError>
        requires kind { IsTrue (is_store_op op) }
        ensures stored { OnOk result ((s : InfState) → Stands self.old s → Stands self.new (record s { written = store_all s.written object offset (cells_from (width_of op) v) })) }
        ensures mapping { mapping_in self.new.flat ≡ mapping_in self.old.flat }
    {
        let w = cells_of(v);
        match op {
            Op::Sb => self.cells.store(object, offset, &[w.c0]),
            Op::Sh => self.cells.store(object, offset, &[w.c0, w.c1]),
            _ => self.cells.store(object, offset, &[w.c0, w.c1, w.c2, w.c3]),
        }
    }

    #[inline(never)]
    fn store_object(
        &mut self,
        patches: &Patches,
        op: Op,
        v: Value,
        object: u64,
        offset: u32,
    ) -> Result<Progress, AllocError>
        requires kind { IsTrue (is_store_op op) }
        ensures step { Takes (cures_of patches.now) self.old (λ input s. inf_store (mapping_in self.old.flat) s op v (Ptr object offset)) result self.new }
        ensures mapping { mapping_in self.new.flat ≡ mapping_in self.old.flat }
    {
        let width = width_of(op);
        if offset % width != 0 {
            return Ok(Progress::Faulted);
        }
        let used = self.access(AccessKind::Store, object, offset, width);
        if !self.is_covered(patches, &used) {
            return Ok(Progress::Uncovered(used));
        }
        self.put_object(op, object, offset, v)?;
        self.pass();
        Ok(Progress::Going)
    }

    #[inline(always)]
    fn store_flat(&mut self, op: Op, v: Value, n: u32) -> Result<Progress, AllocError>
        requires kind { IsTrue (is_store_op op) }
        ensures step { (cures : Cures) → Takes cures self.old (λ input s. inf_store (mapping_in self.old.flat) s op v (Num n)) result self.new }
        ensures mapping { mapping_in self.new.flat ≡ mapping_in self.old.flat }
    {
        if in_region(n) {
            return Ok(Progress::Blurred(Why::Address));
        }
        let width = width_of(op);
        if n % width != 0 {
            return Ok(Progress::Faulted);
        }
        let allowed = self.flat.areas.allow(Purpose::Writing, n, width);
        if !allowed {
            return Ok(Progress::Faulted);
        }
        self.put_flat(op, n, v)?;
        self.pass();
        Ok(Progress::Going)
    }

    /// A store of a value to the address that another is.
    #[inline(always)]
    pub(crate) fn store(
        &mut self,
        patches: &Patches,
        op: Op,
        v: Value,
        at: Value,
    ) -> Result<Progress, AllocError>
        requires kind { IsTrue (is_store_op op) }
        ensures step { Takes (cures_of patches.now) self.old (λ input s. inf_store (mapping_in self.old.flat) s op v at) result self.new }
        ensures mapping { mapping_in self.new.flat ≡ mapping_in self.old.flat }
    {
        match at {
            Value::Num(n) => self.store_flat(op, v, n),
            Value::Ptr { object, offset } => self.store_object(patches, op, v, object, offset),
            _ => Ok(Progress::Blurred(Why::Address)),
        }
    }
}
