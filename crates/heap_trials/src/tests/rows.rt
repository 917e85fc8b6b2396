// What is done to a guest and found there, row by row.
ghost use Rattle.exact_heap.specs.Heaps.{HasHome};

use super::guest::{Call, Guest, guest_with};
use exact_heap::{HeapRefusal, Signal, SlotRow};
use std::alloc::{AllocError, Global};
use std::test::Fail;

#[derive(Clone, Copy)]
pub enum Row {
    /// A call gives this answer.
    Answers(Call, u32),
    /// A call gives an answer other than 0, which is a multiple of 16.
    Places(Call),
    /// The guest stores a byte.
    Stores(u32, u8),
    /// The check at the end is made.
    Ends,
    /// Bytes at an address.
    Bytes(u32, [u8; 16]),
    /// The clock, the frees that took effect, the calls, and the signals.
    Counts(u64, u64, u64, u64),
    /// All signals.
    Signals(&'static [Signal]),
    /// The rows of all slots.
    Slots(&'static [SlotRow]),
}

/// A run: the patches, whether each new object is set to zero, and what is done. The seed is 1.
pub struct Trial {
    pub patches: &'static [u8],
    pub zero: bool,
    pub rows: &'static [Row],
}

/// The number of the first row that isn't met, if there is one.
pub fn first_miss(alloc: Global, trial: &Trial) -> Result<Option<usize>, Fail> {
    let mut guest = guest_with(alloc, 1, trial.patches, trial.zero).ok_or("a guest")?;
    for (number, row) in trial.rows.iter().enumerate() {
        if !meets(&mut guest, *row)? {
            return Ok(Some(number));
        }
    }
    Ok(None)
}

fn meets(guest: &mut Guest, row: Row) -> Result<bool, AllocError>
    requires { HasHome guest.old.heap guest.old.space }
    ensures { HasHome guest.new.heap guest.new.space }
{
    match row {
        Row::Answers(call, answer) => Ok(guest.make(call) == Ok(answer)),
        Row::Places(call) => Ok(places(guest.make(call))),
        Row::Stores(addr, byte) => Ok(guest.store(addr, byte)),
        Row::Ends => {
            guest.end();
            Ok(true)
        }
        Row::Bytes(addr, bytes) => Ok(guest.holds(addr, &bytes)),
        Row::Counts(clock, frees, calls, signals) => {
            Ok(counts(guest) == [clock, frees, calls, signals])
        }
        Row::Signals(signals) => Ok(guest.heap.signals() == signals),
        Row::Slots(rows) => Ok(guest.heap.rows()?.as_slice() == rows),
    }
}

fn places(answer: Result<u32, HeapRefusal>) -> bool {
    match answer {
        Ok(addr) => addr != 0 && addr % 16 == 0,
        Err(_) => false,
    }
}

/// The clock, the frees that took effect, the calls, and the signals.
pub fn counts(guest: &Guest) -> [u64; 4] {
    let heap = &guest.heap;
    [
        heap.clock(),
        heap.frees(),
        heap.calls(),
        heap.signal_count(),
    ]
}

/// Fails where something isn't so.
pub fn ensure(holds: bool, what: &'static str) -> Result<(), Fail> {
    if holds { Ok(()) } else { Err(what.into()) }
}
