// What is seen of broken canaries, and why a call was refused.
use thiserror::Error;

/// When a broken canary was seen.
#[derive(Clone, Copy, Debug, Default, PartialEq, Eq)]
pub enum Place {
    /// In the heap call of this number; heap calls are numbered from 1.
    Call(u64),
    /// In the check at the end of a run.
    #[default]
    End,
}

/// A broken canary in a slot that no object had.
#[derive(Clone, Copy, Debug, Default, PartialEq, Eq)]
pub struct Signal {
    pub place: Place,
    /// The address of the slot's first byte that wasn't the canary's.
    pub addr: u32,
    /// That byte.
    pub byte: u8,
}

/// Why a heap call placed no object.
#[derive(Clone, Copy, Debug, PartialEq, Eq, Drop, Error)]
pub enum HeapRefusal {
    /// The miniheaps have `used` bytes, and the next one would take `wanted` more than there is room for.
    #[error("no heap room: {used} bytes used, {wanted} wanted")]
    Room { used: u32, wanted: u32 },
    /// Want of memory. The heap is spent.
    #[error("out of memory")]
    Memory,
}
