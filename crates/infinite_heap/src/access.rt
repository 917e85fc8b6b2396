// What a run on the infinite heap records of its use of objects.

/// `width` bytes of an object from `offset` on, used at a clock by the instruction at `pc`.
#[derive(Clone, Copy, Debug, PartialEq, Eq, Drop)]
pub struct Access {
    pub object: u64,
    pub offset: u32,
    pub width: u32,
    pub clock: u64,
    pub pc: u32,
}

/// What an access does.
#[derive(Clone, Copy, Debug, PartialEq, Eq, Drop)]
pub enum AccessKind {
    /// A load, or a write call that prints the bytes.
    Load,
    /// A store, or a read call that fills the bytes.
    Store,
    /// A pointer that was compared, or an inner pointer that was freed.
    Touch,
    /// A free of an object that was freed before.
    Again,
}

/// An access with its kind.
#[derive(Clone, Copy, Debug, PartialEq, Eq, Drop)]
pub struct Record {
    pub kind: AccessKind,
    pub access: Access,
}
