// A read of the input, made.

ghost use Rattle.std.specs.Prelude.{◌≡◌, ◌<◌, ◌^◌, length, OnOk, IfOk};
ghost use Rattle.infinite_heap.specs.InfiniteState.{InfState};
ghost use Rattle.infinite_heap.specs.InfiniteSystem.{as_cells};
ghost use Rattle.infinite_heap.specs.declared.value.Value.TheVariants.{Num, Ptr};
ghost use Rattle.infinite_heap.specs.Memory.{put_all, store_all};
ghost use Rattle.blind_judge.specs.Flat.{flat_of, mapping_in};
ghost use Rattle.blind_judge.specs.Stands.{Stands};
ghost use Rattle.blind_judge.specs.Steps.{read_into};

use crate::flat::Flat;
use crate::state::State;
use infinite_heap::{Cell, Value};
use std::alloc::{AllocError, Global};

fn as_cells(alloc: Global, bytes: &[u8]) -> Result<Vec<Cell>, AllocError>
    ensures { IfOk result (λ cells. cells.items ≡ as_cells bytes.now) }
{
    bytes.iter().map(|b| Cell::Byte(*b)).collect(alloc)
}

impl Flat {
    /// Puts bytes from an address on; addresses wrap.
    pub(crate) fn put_bytes(&mut self, x: u32, bytes: &[u8]) -> Result<(), AllocError>
        ensures put { OnOk result (flat_of self.new ≡ put_all (flat_of self.old) x (as_cells bytes.now)) }
        ensures mapping { mapping_in self.new ≡ mapping_in self.old }
    {
        let mut at = x;
        for b in bytes {
            self.put(at, Cell::Byte(*b))?;
            at = at.wrapping_add(1);
        }
        Ok(())
    }
}

impl State {
    // Fills addresses with bytes that were read.
    fn fill_flat(&mut self, x: u32, bytes: &[u8]) -> Result<(), AllocError>
        ensures step { OnOk result ((s : InfState) → Stands self.old s → Stands self.new (record s { flat = put_all s.flat x (as_cells bytes.now) })) }
        ensures mapping { mapping_in self.new.flat ≡ mapping_in self.old.flat }
    {
        self.flat.put_bytes(x, bytes)
    }

    // Fills cells of an object with bytes that were read.
    fn fill_object(
        &mut self,
        alloc: Global,
        object: u64,
        offset: u32,
        bytes: &[u8],
    ) -> Result<(), AllocError>
        ensures step { OnOk result ((s : InfState) → Stands self.old s → Stands self.new (record s { written = store_all s.written object offset (as_cells bytes.now) })) }
        ensures mapping { mapping_in self.new.flat ≡ mapping_in self.old.flat }
    {
        let cells = as_cells(alloc, bytes)?;
        self.cells.store(object, offset, cells.as_slice())
    }

    /// Gives the bytes of a read that was asked for, at the address or the object's offset that `at` is, and
    /// goes on. At most 2^32 - 1 are asked for.
    pub(crate) fn give(&mut self, alloc: Global, at: Value, bytes: &[u8]) -> Result<(), AllocError>
        requires { length bytes.now < 2 ^ 32 }
        ensures step { OnOk result ((s : InfState) → Stands self.old s → Stands self.new (read_into s at bytes.now)) }
        ensures mapping { mapping_in self.new.flat ≡ mapping_in self.old.flat }
    {
        match at {
            Value::Num(n) => self.give_flat(n, bytes),
            Value::Ptr { object, offset } => self.give_object(alloc, object, offset, bytes),
            _ => Ok(()),
        }
    }

    fn give_flat(&mut self, n: u32, bytes: &[u8]) -> Result<(), AllocError>
        requires { length bytes.now < 2 ^ 32 }
        ensures step { OnOk result ((s : InfState) → Stands self.old s → Stands self.new (read_into s (Num n) bytes.now)) }
        ensures mapping { mapping_in self.new.flat ≡ mapping_in self.old.flat }
    {
        self.fill_flat(n, bytes)?;
        self.pass_with(10, Value::Num(bytes.len() as u32));
        Ok(())
    }

    fn give_object(
        &mut self,
        alloc: Global,
        object: u64,
        offset: u32,
        bytes: &[u8],
    ) -> Result<(), AllocError>
        requires { length bytes.now < 2 ^ 32 }
        ensures step { OnOk result ((s : InfState) → Stands self.old s → Stands self.new (read_into s (Ptr object offset) bytes.now)) }
        ensures mapping { mapping_in self.new.flat ≡ mapping_in self.old.flat }
    {
        self.fill_object(alloc, object, offset, bytes)?;
        self.pass_with(10, Value::Num(bytes.len() as u32));
        Ok(())
    }
}
