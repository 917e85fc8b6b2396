// What an instruction comes to.
use infinite_heap::FaultKind;

/// What an instruction comes to. Unless it is carried out nothing has changed.
#[derive(Clone, Copy, Debug, PartialEq, Eq, Drop)]
pub enum Outcome {
    /// It is carried out, and the guest can go on.
    Going,
    /// It faults, with the address that the fault speaks of.
    Fault { kind: FaultKind, addr: u32 },
    /// It is an environment call.
    Call,
    /// Memory was wanting.
    Memory,
}
