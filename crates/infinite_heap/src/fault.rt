// How a guest's step goes wrong.

/// A fault of the guest.
#[derive(Clone, Copy, Debug, PartialEq, Eq, Drop)]
pub enum FaultKind {
    /// The place of an instruction can't be run.
    Fetch,
    /// A word is no instruction.
    Illegal,
    /// EBREAK.
    Break,
    /// A taken target isn't a multiple of 4.
    Jump,
    LoadAlign,
    StoreAlign,
    Load,
    Store,
}

/// Why a step has no meaning on the infinite heap: what it lets depend on an address or an unset byte.
#[derive(Clone, Copy, Debug, PartialEq, Eq, Drop)]
pub enum Why {
    Branch,
    Address,
    Target,
    Operand,
    Output,
    Size,
    Freed,
    Realloc,
    Fetch,
}
