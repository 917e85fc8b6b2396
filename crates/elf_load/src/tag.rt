// The tag of a file.
ghost use Rattle.std.specs.Prelude.{◌≡◌};
ghost use Rattle.infinite_heap.specs.Elf.{tag_of};

/// 5381, then for each byte 33 times that plus the byte, modulo 2^64.
#[tactic(auto, unfolding(infinite_heap::specs::Elf::tag_of))]
pub fn tag_of(file: &[u8]) -> u64
    ensures { result ≡ tag_of file.now }
{
    let mut tag = 5381u64;
    for byte in file {
        tag = tag.wrapping_mul(33).wrapping_add(u64::from(*byte));
    }
    tag
}
