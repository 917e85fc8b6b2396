// How a guest has ended.
use infinite_heap::FaultKind;

/// The end of a guest: an exit with a code, a fault at `pc` with the address that it speaks of, or a heap call
/// without room, where the miniheaps have `used` bytes and the next one wants `wanted` more.
#[derive(Clone, Copy, Debug, PartialEq, Eq, Drop)]
pub enum Ended {
    Exited(u8),
    Faulted { kind: FaultKind, pc: u32, addr: u32 },
    Roomed { used: u32, wanted: u32 },
}
