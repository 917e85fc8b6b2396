// Numbers in a file, lowest byte first.
ghost use Rattle.std.specs.Prelude.{◌≡◌, ◌+◌, ◌≤◌, length};
ghost use Rattle.infinite_heap.specs.ElfFields.{u16_at, u32_at};

use byteorder::{ByteOrder, LittleEndian};

#[tactic(auto, using(crate::proofs::Numbers::two_bytes))]
pub fn u16_at(file: &[u8], at: usize) -> u16
    requires { at + 2 ≤ length file.now }
    ensures { result ≡ u16_at file.now at }
{
    let (_, rest) = file.split_at(at);
    LittleEndian::read_u16(rest)
}

#[tactic(auto, using(crate::proofs::Numbers::four_bytes))]
pub fn u32_at(file: &[u8], at: usize) -> u32
    requires { at + 4 ≤ length file.now }
    ensures { result ≡ u32_at file.now at }
{
    let (_, rest) = file.split_at(at);
    LittleEndian::read_u32(rest)
}
