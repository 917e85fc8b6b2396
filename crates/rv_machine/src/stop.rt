// What a step comes to.
use infinite_heap::FaultKind;

/// What a step comes to.
#[derive(Clone, Copy, Debug, PartialEq, Eq, Drop)]
pub enum Stop {
    /// The guest can go on.
    Going,
    /// The guest asks for at most `len` bytes of input at `addr`, a writable span; `give` finishes the step.
    /// `len` is above 0.
    Read { addr: u32, len: u32 },
    /// The guest prints the `len` bytes at `addr`, a mapped span, on descriptor `fd`, 1 or 2; `wrote` finishes
    /// the step. `len` is above 0.
    Write { fd: u32, addr: u32, len: u32 },
    /// The guest has exited with this code; so answers each later step.
    Ended(u8),
    /// The guest's instruction at `pc` has faulted, with the address that the fault speaks of; so answers
    /// each later step.
    Fault { kind: FaultKind, pc: u32, addr: u32 },
    /// A heap call has met no room: the miniheaps have `used` bytes, and the next one wants `wanted` more;
    /// so answers each later step.
    Room { used: u32, wanted: u32 },
    /// Memory was wanting; so answers each later step.
    Memory,
}

/// What a machine waits for.
#[derive(Clone, Copy, Debug, PartialEq, Eq, Drop)]
pub enum Waiting {
    Nothing,
    /// `give`, after a stop at `Read`.
    ReadBytes,
    /// `wrote`, after a stop at `Write`.
    WriteDone,
}
