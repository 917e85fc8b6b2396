// What it is found by.

/// A broken byte of the slot of a released object, and what a row says of the object.
#[derive(Clone, Copy, Debug, PartialEq, Eq, PartialOrd, Ord)]
pub struct Mark {
    pub object: u64,
    pub size: u32,
    pub front: u32,
    pub site: u32,
    pub free_site: u32,
    pub freed: u64,
    /// From the start of the slot.
    pub offset: u32,
    pub byte: u8,
}
