/// What a slot is in.
#[derive(Clone, Copy, PartialEq, Eq, Debug)]
pub enum SlotState {
    /// It has no owner and may be drawn.
    Free,
    /// An object has it.
    Held,
    /// Its canary was broken. It is never drawn again.
    Bad,
}

/// A slot as it stood when it was looked up.
#[derive(Clone, Copy, PartialEq, Eq, Debug)]
pub struct Slot {
    /// The address of its first byte.
    pub addr: u32,
    /// It has 2^class bytes.
    pub class: u8,
    /// The number of its miniheap, in order of creation, from 0.
    pub mini: u32,
    /// Its number in its miniheap, from 0.
    pub nth: u32,
    pub state: SlotState,
}

/// Where a slot lies, whichever state it has.
#[derive(Clone, Copy, PartialEq, Eq, Debug)]
pub struct SlotPlace {
    /// The address of its first byte.
    pub addr: u32,
    /// It has 2^class bytes.
    pub class: u8,
    /// The number of its miniheap, in order of creation, from 0.
    pub mini: u32,
    /// Its number in its miniheap, from 0.
    pub nth: u32,
}

/// A miniheap: `slots` slots of 2^class bytes each, from `base` on.
#[derive(Clone, Copy, PartialEq, Eq, Debug)]
pub struct Miniheap {
    pub class: u8,
    pub base: u32,
    pub slots: u32,
}
