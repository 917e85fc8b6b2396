// What is found.
ghost use Rattle.std.specs.Prelude.{◌≡◌, ◌+◌, ◌*◌, ◌-◌, ◌^◌, min};

/// An object past whose end a byte is broken in each image.
#[derive(Clone, Copy, Debug, PartialEq, Eq)]
pub struct Overflow {
    /// Its number.
    pub object: u64,
    /// The site that allocated it.
    pub site: u32,
    /// Its size in bytes.
    pub size: u32,
    /// How many bytes from its address on reach to the end of the last one.
    pub extent: u32,
}

/// An object before whose start a byte is broken in each image.
#[derive(Clone, Copy, Debug, PartialEq, Eq)]
pub struct Underflow {
    /// Its number.
    pub object: u64,
    /// The site that allocated it.
    pub site: u32,
    /// How many bytes before its address the first one lies.
    pub extent: u32,
}

/// An object that was written to after it was freed.
#[derive(Clone, Copy, Debug, PartialEq, Eq)]
pub struct Dangling {
    /// Its number.
    pub object: u64,
    /// The site that allocated it.
    pub site: u32,
    /// The site that freed it.
    pub free_site: u32,
    /// The clock at which it was freed.
    pub freed: u64,
    /// The greatest clock of the images.
    pub seen: u64,
}

impl Dangling {
    /// For how long its pair of sites is to put frees off: twice the time in which it was written to,
    /// and one more.
    pub fn deferral(&self) -> u32
        ensures { result ≡ min (2 * (self.now.seen - self.now.freed) + 1) (2 ^ 32 - 1) }
    {
        let passed = self.seen.saturating_sub(self.freed);
        if passed < 0x7fff_ffff {
            2 * passed as u32 + 1
        } else {
            u32::MAX
        }
    }
}
