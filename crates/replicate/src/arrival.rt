// What a replica has come to when it stands before a gate.
ghost use Rattle.replicate.specs.Votes.{SameIsEqual};

use infinite_heap::{Bytes, FaultKind};

/// What a replica has come to. Two that have come to the same are equal: the address of a fault, which may be one of the
/// heap, is no part of it.
#[derive(Debug, Drop)]
pub enum Arrival {
    /// These bytes are to be printed on descriptor 1 or 2.
    Write { fd: u32, bytes: Bytes },
    /// The number of objects that were placed has become a multiple of 1,024.
    Clock,
    /// The guest has exited with this code.
    Exit { code: u8 },
    /// The guest's instruction at `pc` has faulted.
    Fault { kind: FaultKind, pc: u32 },
    /// A heap call has met no room: the miniheaps have `used` bytes, and the next one wants `wanted` more.
    Room { used: u32, wanted: u32 },
    /// The budget of steps was used up.
    Budget,
}

impl Arrival {
    ghost use Rattle.std.specs.Prelude.{◌≡◌};
    ghost use Rattle.replicate.specs.Votes.{is_same};

    /// Whether both are equal.
    pub fn is_same(&self, other: &Arrival) -> bool
        ensures { result ≡ is_same self.now other.now }
    {
        match (self, other) {
            (
                Arrival::Write { fd, bytes },
                Arrival::Write {
                    fd: other_fd,
                    bytes: other_bytes,
                },
            ) => { *fd == *other_fd && bytes.as_slice() == other_bytes.as_slice() }
            (Arrival::Clock, Arrival::Clock) => true,
            (Arrival::Exit { code }, Arrival::Exit { code: other_code }) => *code == *other_code,
            (
                Arrival::Fault { kind, pc },
                Arrival::Fault {
                    kind: other_kind,
                    pc: other_pc,
                },
            ) => { *kind == *other_kind && *pc == *other_pc }
            (
                Arrival::Room { used, wanted },
                Arrival::Room {
                    used: other_used,
                    wanted: other_wanted,
                },
            ) => { *used == *other_used && *wanted == *other_wanted }
            (Arrival::Budget, Arrival::Budget) => true,
            _ => false,
        }
    }
}

/// Arrivals are the same exactly where they are equal. The body is empty: a caller has the clause.
pub fn same_arrivals_are_equal()
    ensures { SameIsEqual }
{}
