// Files word by word, at chosen places. The words were written by a script in another language, which follows the
// rules of docs/made-programs.md and shares nothing with this crate.
use crate::make;
use std::process::Abort;
use std::test::Fail;

// The headers of the file of 0, the four words of the heap functions, the start, and the turns 0 to 2.
static BEGIN: [u32; 51] = [
    0x464c457f, 0x00010101, 0x00000000, 0x00000000, 0x00f30002, 0x00000001, 0x00010010, 0x00000034,
    0x00012390, 0x00000000, 0x00200034, 0x00280002, 0x00000003, 0x00000001, 0x00000074, 0x00010000,
    0x00010000, 0x000122b0, 0x000122b0, 0x00000005, 0x00000004, 0x00000001, 0x00000000, 0x00200000,
    0x00200000, 0x00000000, 0x00001000, 0x00000006, 0x00000004, 0x00100073, 0x00100073, 0x00100073,
    0x00100073, 0x00200437, 0x00000493, 0x01000913, 0x3af00513, 0xfe1ff0ef, 0x0aa42223, 0x00000593,
    0x00b50023, 0x25c00513, 0xfcdff0ef, 0x06a42a23, 0x00100593, 0x00b50023, 0x11000513, 0xfb9ff0ef,
    0x0ca42823, 0x00200593, 0x00b50023,
];

// The turns 7 to 9, of which the second frees.
static FREES: [u32; 14] = [
    0x32f00513, 0xf55ff0ef, 0x06a42823, 0x00700593, 0x00b50023, 0x07442503, 0x00054583, 0x00b484b3,
    0xf3dff0ef, 0x10a00513, 0xf31ff0ef, 0x06a42c23, 0x00900593, 0x00b50023,
];

// The turns 127 to 129, whose bytes are 127, 0 and 1.
static BYTES: [u32; 15] = [
    0x24f00513, 0xebcff0ef, 0x00a42423, 0x07f00593, 0x00b50023, 0x27500513, 0xea8ff0ef, 0x08a42a23,
    0x00000593, 0x00b50023, 0x0de00513, 0xe94ff0ef, 0x0ea42c23, 0x00100593, 0x00b50023,
];

// The last two places that are freed, the end of a round, the end of the program, the symbols, the strings and the section headers.
static END: [u32; 77] = [
    0x0e842503, 0x00054583, 0x00b484b3, 0xd99ed0ef, 0x0f442503, 0x00054583, 0x00b484b3, 0xd89ed0ef,
    0xfff90913, 0x00090463, 0xd95ed06f, 0x10942023, 0x10040593, 0x00100513, 0x00400613, 0x04000893,
    0x00000073, 0x00000513, 0x05d00893, 0x00000073, 0x00000000, 0x00000000, 0x00000000, 0x00000000,
    0x00000001, 0x00010000, 0x00000004, 0xfff10012, 0x00000008, 0x00010004, 0x00000004, 0xfff10012,
    0x0000000d, 0x00010008, 0x00000004, 0xfff10012, 0x00000014, 0x0001000c, 0x00000004, 0xfff10012,
    0x6c616d00, 0x00636f6c, 0x65657266, 0x6c616300, 0x00636f6c, 0x6c616572, 0x00636f6c, 0x00000000,
    0x00000000, 0x00000000, 0x00000000, 0x00000000, 0x00000000, 0x00000000, 0x00000000, 0x00000000,
    0x00000000, 0x00000000, 0x00000002, 0x00000000, 0x00000000, 0x00012324, 0x00000050, 0x00000002,
    0x00000001, 0x00000004, 0x00000010, 0x00000000, 0x00000003, 0x00000000, 0x00000000, 0x00012374,
    0x0000001c, 0x00000000, 0x00000000, 0x00000001, 0x00000000,
];

// Of a number: how many words its file has, and of these the first allocation and its place, the load of the last place
// that is freed, its call of free, and the jump back to the body.
static OTHERS: [(u32, usize, [u32; 5]); 4] = [
    (
        1,
        18663,
        [0x23f00513, 0x04a42223, 0x0fc42503, 0xdf5ed0ef, 0xe01ed06f],
    ),
    (
        4095,
        37122,
        [0x29800513, 0x0ea42c23, 0x0f042503, 0xd89db0ef, 0xd95db06f],
    ),
    (
        4096,
        18681,
        [0x2ee00513, 0x06a42e23, 0x0fc42503, 0xdaded0ef, 0xdb9ed06f],
    ),
    (
        4294967295,
        37113,
        [0x0ca00513, 0x0ca42223, 0x0f442503, 0xdaddb0ef, 0xdb9db06f],
    ),
];

// The words of a file from one on.
fn has_words(rt: &impl Abort, file: &[u8], from: usize, words: &[u32]) {
    for (bytes, word) in file.chunks_exact(4).skip(from).zip(words) {
        assert_eq!(rt; bytes, word.to_le_bytes().as_slice(), "{word:08x}");
    }
}

#[test]
fn the_file_of_0_has_its_words(rt: HostRuntime) -> Result<(), Fail> {
    let file = make(rt.alloc(), 0)?;
    assert_eq!(rt; file.len(), 4 * 18690);
    has_words(&rt, &file, 0, &BEGIN);
    has_words(&rt, &file, 71, &FREES);
    has_words(&rt, &file, 621, &BYTES);
    has_words(&rt, &file, 18613, &END);
    Ok(())
}

#[test]
fn other_numbers_have_other_draws(rt: HostRuntime) -> Result<(), Fail> {
    for (n, size, [first, place, last, free, back]) in &OTHERS {
        let file = make(rt.alloc(), *n)?;
        assert_eq!(rt; file.len(), 4 * size);
        has_words(&rt, &file, 36, &[*first, 0xfe1f_f0ef, *place]);
        has_words(
            &rt,
            &file,
            size - 73,
            &[*last, 0x0005_4583, 0x00b4_84b3, *free],
        );
        has_words(&rt, &file, size - 67, &[*back]);
    }
    Ok(())
}
