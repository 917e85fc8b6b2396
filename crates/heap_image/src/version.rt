/// The two versions of an image's bytes. Version 2 has fronts and a class more, and is the one that is
/// written.
#[derive(Clone, Copy, Debug, PartialEq, Eq, Drop)]
pub enum Version {
    One,
    Two,
}

/// The first bytes of version 1.
pub const MARK_ONE: [u8; 8] = *b"EXIMAGE1";

/// The first bytes of version 2.
pub const MARK_TWO: [u8; 8] = *b"EXIMAGE2";
