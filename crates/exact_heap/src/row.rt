/// The row of a slot: its last owner, and what has become of that.
#[derive(Clone, Copy, Debug, PartialEq, Eq)]
pub struct SlotRow {
    /// The address of the slot's first byte.
    pub addr: u32,
    /// 0 owned, 1 deferred, 2 released, 3 released and the slot bad, 4 a bad slot that never had an
    /// owner. With 4 all numbers behind it are 0.
    pub state: u8,
    /// The number of the object, counted from 0 by placement.
    pub object: u64,
    /// Its size in bytes.
    pub size: u32,
    /// How many bytes of the slot lie before it.
    pub front: u32,
    /// The site that allocated it.
    pub site: u32,
    /// The site that freed it, 0 while it is owned.
    pub free_site: u32,
    /// The clock at which it was freed, 0 while it is owned.
    pub freed: u64,
}
