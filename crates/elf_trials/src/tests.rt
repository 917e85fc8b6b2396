// Files, by the rules that they keep and break.
use elf_load::load;
use infinite_heap::ElfRefusal::{
    Class, Dynamic, Entry, Flags, Headers, Kind, Machine, Magic, Overlap, Region, Short, Symbols,
    Total,
};
use infinite_heap::HeapCall::{
    AlignedAlloc, Calloc, CallocR, Free, FreeR, Malloc, MallocR, Memalign, MemalignR, Realloc,
    ReallocR,
};
use infinite_heap::{ElfRefusal, HeapCall, Program, Segment};
use std::alloc::{AllocError, Global};
use std::test::Fail;

// A file without symbols: `lui x11, 0x10` and nine words more.
static P1: [u32; 39] = [
    0x464c457f, 0x00010101, 0x00000000, 0x00000000, 0x00f30002, 0x00000001, 0x00010000, 0x00000034,
    0x00000000, 0x00000000, 0x00200034, 0x00000002, 0x00000000, 0x00000001, 0x00000074, 0x00010000,
    0x00010000, 0x00000028, 0x00000028, 0x00000005, 0x00000004, 0x00000001, 0x00000000, 0x00200000,
    0x00200000, 0x00000000, 0x00001000, 0x00000006, 0x00000004, 0x000105b7, 0x02458593, 0x00100513,
    0x00300613, 0x04000893, 0x00000073, 0x00300513, 0x05d00893, 0x00000073, 0x000a6968,
];
// A file with four heap functions, a symbol table behind its words, and three section headers.
static P3: [u32; 102] = [
    0x464c457f, 0x00010101, 0x00000000, 0x00000000, 0x00f30002, 0x00000001, 0x00010010, 0x00000034,
    0x00000120, 0x00000000, 0x00200034, 0x00280002, 0x00000003, 0x00000001, 0x00000074, 0x00010000,
    0x00010000, 0x00000040, 0x00000040, 0x00000005, 0x00000004, 0x00000001, 0x00000000, 0x00200000,
    0x00200000, 0x00000000, 0x00001000, 0x00000006, 0x00000004, 0x00100073, 0x00100073, 0x00100073,
    0x00100073, 0x00000513, 0xfedff0ef, 0x00050293, 0x00000513, 0xfe1ff0ef, 0x00a28863, 0x00100513,
    0x05d00893, 0x00000073, 0x00200513, 0x05d00893, 0x00000073, 0x00000000, 0x00000000, 0x00000000,
    0x00000000, 0x00000001, 0x00010000, 0x00000004, 0xfff10012, 0x00000008, 0x00010004, 0x00000004,
    0xfff10012, 0x0000000d, 0x00010008, 0x00000004, 0xfff10012, 0x00000014, 0x0001000c, 0x00000004,
    0xfff10012, 0x6c616d00, 0x00636f6c, 0x65657266, 0x6c616300, 0x00636f6c, 0x6c616572, 0x00636f6c,
    0x00000000, 0x00000000, 0x00000000, 0x00000000, 0x00000000, 0x00000000, 0x00000000, 0x00000000,
    0x00000000, 0x00000000, 0x00000000, 0x00000002, 0x00000000, 0x00000000, 0x000000b4, 0x00000050,
    0x00000002, 0x00000001, 0x00000004, 0x00000010, 0x00000000, 0x00000003, 0x00000000, 0x00000000,
    0x00000104, 0x0000001c, 0x00000000, 0x00000000, 0x00000001, 0x00000000,
];

// The places of fields: in a file, and in the headers and symbols of these two files.
const E_TYPE: u32 = 16;

const E_MACHINE: u32 = 18;

const E_ENTRY: u32 = 24;

const E_PHOFF: u32 = 28;

const E_SHOFF: u32 = 32;

const E_FLAGS: u32 = 36;

const E_PHENTSIZE: u32 = 42;

const E_PHNUM: u32 = 44;

const E_SHENTSIZE: u32 = 46;

const E_SHNUM: u32 = 48;

const HEADER_1: u32 = 52;

const HEADER_2: u32 = 84;

const P_OFFSET: u32 = 4;

const P_VADDR: u32 = 8;

const P_FILESZ: u32 = 16;

const P_MEMSZ: u32 = 20;

const P_FLAGS: u32 = 24;

const SYMBOLS: u32 = 180;

const SECTION_0: u32 = 288;

const SECTION_1: u32 = 328;

const SECTION_2: u32 = 368;

const SH_TYPE: u32 = 4;

const SH_OFFSET: u32 = 16;

const SH_SIZE: u32 = 20;

const SH_LINK: u32 = 24;

const SH_ENTSIZE: u32 = 36;

const ST_VALUE: u32 = 4;

const ST_INFO: u32 = 12;

const ST_SHNDX: u32 = 14;

// A change of a file: the place, how many bytes, and the number put there, lowest byte first.
type Change = (u32, usize, u32);

const NONE: Change = (0, 0, 0);

// Which file, how many of its bytes are kept, two changes of it, and how it is refused.
type Refused = (bool, usize, Change, Change, ElfRefusal);

// The same, and how many segments its program has.
type Accepted = (bool, usize, Change, Change, usize);

const PLAIN: bool = false;

const HEAPED: bool = true;

const ALL: usize = 1_000_000;

static REFUSED: [Refused; 72] = [
    // the header
    (PLAIN, 0, NONE, NONE, Short), // an empty file
    (PLAIN, 51, NONE, NONE, Short), // one byte less than a header
    (PLAIN, 52, (E_PHNUM, 2, 0), NONE, Entry), // a header alone
    (PLAIN, ALL, (3, 1, 71), NONE, Magic),
    (PLAIN, ALL, (0, 1, 0x7e), NONE, Magic),
    (PLAIN, ALL, (1, 1, 0x65), NONE, Magic),
    (PLAIN, ALL, (2, 1, 0), NONE, Magic),
    (PLAIN, ALL, (4, 1, 2), NONE, Class), // 64 bits
    (PLAIN, ALL, (5, 1, 2), NONE, Class), // highest byte first
    (PLAIN, ALL, (6, 1, 0), NONE, Class), // no version
    (PLAIN, ALL, (E_TYPE, 2, 3), NONE, Kind), // position independent
    (PLAIN, ALL, (E_TYPE, 2, 0x102), NONE, Kind),
    (PLAIN, ALL, (E_MACHINE, 2, 62), NONE, Machine), // x86-64
    (PLAIN, ALL, (E_FLAGS, 4, 1), NONE, Flags), // compressed instructions
    (
        PLAIN,
        ALL,
        (E_FLAGS, 4, 1),
        (HEADER_2 + P_VADDR, 4, 0x50000000),
        Flags,
    ), // the first of two rules
    (PLAIN, ALL, (E_FLAGS, 4, 8), NONE, Flags), // the embedded register set
    (PLAIN, ALL, (E_FLAGS, 4, 1), (E_MACHINE, 2, 62), Machine), // the first of two rules
    // tables of headers, and the bytes of segments
    (PLAIN, ALL, (E_PHENTSIZE, 2, 31), NONE, Headers),
    (PLAIN, ALL, (E_PHENTSIZE, 2, 33), NONE, Headers),
    (PLAIN, ALL, (E_PHENTSIZE, 2, 31), (E_PHNUM, 2, 0), Entry), // a table of no rows has no size
    (PLAIN, ALL, (E_PHOFF, 4, 93), NONE, Headers), // one byte past the end
    (PLAIN, ALL, (E_PHOFF, 4, 92), NONE, Entry), // up to the end
    (PLAIN, ALL, (E_PHOFF, 4, 0xffffffff), NONE, Headers), // a sum above 2^32
    (HEAPED, ALL, (E_SHENTSIZE, 2, 39), NONE, Headers),
    (HEAPED, ALL, (E_SHENTSIZE, 2, 41), NONE, Headers),
    (HEAPED, ALL, (E_SHOFF, 4, 0x121), NONE, Headers), // one byte past the end
    (HEAPED, ALL, (E_SHNUM, 2, 4), NONE, Headers),
    (HEAPED, ALL, (E_SHOFF, 4, 0xffffffff), NONE, Headers), // a sum above 2^32
    (PLAIN, ALL, (HEADER_1 + P_MEMSZ, 4, 39), NONE, Headers), // more bytes in the file than in memory
    (
        PLAIN,
        ALL,
        (HEADER_2 + P_FILESZ, 4, 1),
        (HEADER_2 + P_MEMSZ, 4, 0),
        Headers,
    ), // the same where it takes no address
    (PLAIN, ALL, (HEADER_1 + P_OFFSET, 4, 0x75), NONE, Headers), // one byte past the end
    (
        PLAIN,
        ALL,
        (HEADER_1 + P_OFFSET, 4, 0xffffffff),
        NONE,
        Headers,
    ), // a sum above 2^32
    (PLAIN, ALL, (HEADER_2, 4, 2), NONE, Dynamic),
    (PLAIN, ALL, (HEADER_2, 4, 3), NONE, Dynamic),
    (
        PLAIN,
        ALL,
        (HEADER_2, 4, 3),
        (HEADER_1 + P_MEMSZ, 4, 39),
        Headers,
    ), // the first of two rules
    // segments
    (PLAIN, ALL, (HEADER_1 + P_VADDR, 4, 0xffc), NONE, Region),
    (
        PLAIN,
        ALL,
        (HEADER_2 + P_VADDR, 4, 0x3ffff001),
        NONE,
        Region,
    ), // one byte too high
    (
        PLAIN,
        ALL,
        (HEADER_2 + P_VADDR, 4, 0xffffffff),
        NONE,
        Region,
    ), // a sum above 2^32
    (PLAIN, ALL, (HEADER_2 + P_VADDR, 4, 0x10024), NONE, Overlap),
    (PLAIN, ALL, (HEADER_2 + P_VADDR, 4, 0x10027), NONE, Overlap), // one byte
    (PLAIN, ALL, (HEADER_2 + P_VADDR, 4, 0xf001), NONE, Overlap), // one byte, the later header below
    (PLAIN, ALL, (HEADER_2 + P_VADDR, 4, 0x10000), NONE, Overlap), // one address
    (PLAIN, ALL, (HEADER_2 + P_VADDR, 4, 0xf800), NONE, Overlap), // one within the other
    (
        PLAIN,
        ALL,
        (HEADER_2 + P_VADDR, 4, 0xffc),
        (HEADER_2 + P_MEMSZ, 4, 0xf005),
        Region,
    ), // the first of two rules
    (PLAIN, ALL, (HEADER_2 + P_MEMSZ, 4, 0x4000000), NONE, Total),
    (PLAIN, ALL, (HEADER_2 + P_MEMSZ, 4, 0x3ffffd9), NONE, Total), // one byte too many
    (
        PLAIN,
        ALL,
        (HEADER_2 + P_MEMSZ, 4, 0x4000000),
        (E_ENTRY, 4, 0),
        Total,
    ), // the first of two rules
    (PLAIN, ALL, (E_ENTRY, 4, 0x10028), NONE, Entry), // behind the segment
    (
        PLAIN,
        ALL,
        (E_ENTRY, 4, 0x10028),
        (HEADER_1 + P_MEMSZ, 4, 43),
        Entry,
    ), // three bytes
    (PLAIN, ALL, (E_ENTRY, 4, 0xfffc), NONE, Entry), // before the segment
    (PLAIN, ALL, (E_ENTRY, 4, 0x10002), NONE, Entry), // no multiple of 4
    (PLAIN, ALL, (E_ENTRY, 4, 0x200000), NONE, Entry), // a segment that does not run
    (PLAIN, ALL, (HEADER_1 + P_FLAGS, 4, 6), NONE, Entry), // the only one does not run
    (PLAIN, ALL, (E_ENTRY, 4, 0xfffffffc), NONE, Entry), // a sum above 2^32
    // symbol tables
    (HEAPED, ALL, (SECTION_1 + SH_ENTSIZE, 4, 15), NONE, Symbols),
    (HEAPED, ALL, (SECTION_1 + SH_ENTSIZE, 4, 17), NONE, Symbols),
    (HEAPED, ALL, (SECTION_1 + SH_SIZE, 4, 81), NONE, Symbols), // no multiple of 16
    (
        HEAPED,
        ALL,
        (SECTION_1 + SH_OFFSET, 4, 0x149),
        NONE,
        Symbols,
    ), // one byte past the end
    (
        HEAPED,
        ALL,
        (SECTION_1 + SH_OFFSET, 4, 0xfffffff0),
        NONE,
        Symbols,
    ), // a sum above 2^32
    (
        HEAPED,
        ALL,
        (SECTION_1 + SH_SIZE, 4, 0xfffffff0),
        NONE,
        Symbols,
    ),
    (HEAPED, ALL, (SECTION_1 + SH_LINK, 4, 3), NONE, Symbols), // as many as there are sections
    (
        HEAPED,
        ALL,
        (SECTION_1 + SH_LINK, 4, 0xffffffff),
        NONE,
        Symbols,
    ),
    (
        HEAPED,
        ALL,
        (SECTION_2 + SH_OFFSET, 4, 0x17d),
        NONE,
        Symbols,
    ), // one byte past the end
    (
        HEAPED,
        ALL,
        (SECTION_2 + SH_OFFSET, 4, 0xffffffff),
        NONE,
        Symbols,
    ), // a sum above 2^32
    (
        HEAPED,
        ALL,
        (SECTION_2 + SH_SIZE, 4, 0xffffffff),
        NONE,
        Symbols,
    ),
    (HEAPED, ALL, (SECTION_2 + SH_SIZE, 4, 27), NONE, Symbols), // the last name without its zero byte
    (HEAPED, ALL, (SYMBOLS + 16, 4, 28), NONE, Symbols), // a name behind the strings
    (HEAPED, ALL, (SYMBOLS + 16, 4, 0xffffffff), NONE, Symbols),
    (
        HEAPED,
        ALL,
        (SYMBOLS + 16, 4, 28),
        (SYMBOLS + 16 + ST_INFO, 1, 34),
        Symbols,
    ), // weak
    (HEAPED, ALL, (SECTION_0 + SH_TYPE, 4, 2), NONE, Symbols), // the first table is broken
    (
        HEAPED,
        ALL,
        (SECTION_1 + SH_TYPE, 4, 11),
        (SECTION_2 + SH_TYPE, 4, 2),
        Symbols,
    ), // the only table is broken
    (
        HEAPED,
        ALL,
        (SECTION_1 + SH_LINK, 4, 3),
        (E_ENTRY, 4, 0),
        Entry,
    ), // the first of two rules
];

static ACCEPTED: [Accepted; 20] = [
    // the header
    (PLAIN, ALL, (E_FLAGS, 4, 0xfffffff0), NONE, 2), // other flags
    // tables of headers, and the bytes of segments
    (HEAPED, ALL, (E_SHENTSIZE, 2, 39), (E_SHNUM, 2, 0), 2), // no sections
    (HEAPED, ALL, (E_SHENTSIZE, 2, 39), (E_SHOFF, 4, 0), 2), // no sections
    (PLAIN, ALL, (HEADER_2 + P_MEMSZ, 4, 0), NONE, 1), // no addresses, no segment
    (
        PLAIN,
        ALL,
        (HEADER_2, 4, 4),
        (HEADER_2 + P_FILESZ, 4, 0xffffffff),
        1,
    ), // a note is passed over
    // segments
    (PLAIN, ALL, (HEADER_2 + P_VADDR, 4, 0x1000), NONE, 2), // the first address
    (PLAIN, ALL, (HEADER_2 + P_VADDR, 4, 0x3ffff000), NONE, 2), // the last address
    (PLAIN, ALL, (HEADER_2 + P_VADDR, 4, 0x10028), NONE, 2), // neighbours
    (PLAIN, ALL, (HEADER_2 + P_VADDR, 4, 0xf000), NONE, 2), // neighbours, the later header below
    (PLAIN, ALL, (HEADER_2 + P_MEMSZ, 4, 0x3ffffd8), NONE, 2), // as many as may be
    (PLAIN, ALL, (E_ENTRY, 4, 0x10024), NONE, 2), // the last instruction
    (
        PLAIN,
        ALL,
        (E_ENTRY, 4, 0x10024),
        (HEADER_1 + P_MEMSZ, 4, 43),
        2,
    ), // three bytes behind it
    (
        PLAIN,
        ALL,
        (E_ENTRY, 4, 0x10028),
        (HEADER_1 + P_MEMSZ, 4, 44),
        2,
    ), // four bytes, none in the file
    (PLAIN, ALL, (HEADER_1 + P_FLAGS, 4, 1), NONE, 2), // one that runs and no more
    // symbol tables
    (HEAPED, ALL, (SYMBOLS + 16, 4, 27), NONE, 2), // an empty name
    (
        HEAPED,
        ALL,
        (SYMBOLS + 16, 4, 28),
        (SYMBOLS + 16 + ST_SHNDX, 2, 0),
        2,
    ), // undefined
    (
        HEAPED,
        ALL,
        (SYMBOLS + 16, 4, 28),
        (SYMBOLS + 16 + ST_INFO, 1, 2),
        2,
    ), // local
    (
        HEAPED,
        ALL,
        (SYMBOLS + 16, 4, 28),
        (SYMBOLS + 16 + ST_INFO, 1, 50),
        2,
    ), // of another binding
    (HEAPED, ALL, (SECTION_2 + SH_TYPE, 4, 2), NONE, 2), // the second table is not looked at
    (
        HEAPED,
        ALL,
        (SECTION_1 + SH_LINK, 4, 3),
        (SECTION_1 + SH_TYPE, 4, 11),
        2,
    ), // no table
];

// The tables as slices: a test that sees them whole takes long to prove.
fn refused_rows() -> &'static [Refused] {
    &REFUSED
}

fn accepted_rows() -> &'static [Accepted] {
    &ACCEPTED
}

fn put(file: &mut Vec<u8>, change: Change) {
    let (place, width, number) = change;
    let bytes = number.to_le_bytes();
    for i in 0..width.min(4) {
        let at = place as usize + i;
        if at < file.len() {
            file[at] = bytes[i];
        }
    }
}

fn file_of(alloc: Global, words: &[u32]) -> Result<Vec<u8>, AllocError> {
    let mut file = Vec::new(alloc);
    for word in words {
        file.extend_from_slice(&word.to_le_bytes())?;
    }
    Ok(file)
}

fn plain_words() -> &'static [u32] {
    &P1
}

fn heaped_words() -> &'static [u32] {
    &P3
}

fn base(alloc: Global, is_heaped: bool) -> Result<Vec<u8>, AllocError> {
    if is_heaped {
        file_of(alloc, heaped_words())
    } else {
        file_of(alloc, plain_words())
    }
}

fn changed(
    alloc: Global,
    is_heaped: bool,
    keep: usize,
    changes: [Change; 2],
) -> Result<Vec<u8>, AllocError> {
    let mut file = base(alloc, is_heaped)?;
    for change in changes {
        put(&mut file, change);
    }
    file.truncate(keep);
    Ok(file)
}

// How a file is refused, None where it is not.
fn refusal(alloc: Global, file: &[u8]) -> Option<ElfRefusal> {
    load(alloc, file).err()
}

fn program(alloc: Global, file: &[u8]) -> Result<Program, Fail> {
    Ok(load(alloc, file)?)
}

// Whether a program has these heap functions, in this order.
fn has_names(program: &Program, want: &[(u32, HeapCall)]) -> bool {
    let names = program.names.as_slice();
    if names.len() != want.len() {
        return false;
    }
    for i in 0..names.len() {
        let (at, call) = want[i];
        if names[i].at != at || names[i].call != call {
            return false;
        }
    }
    true
}

// A segment of a program: its first address, its length, how many bytes it has and the sum of them,
// and whether it is writable and runs.
type Piece = (u32, u32, usize, u32, bool, bool);

fn is_piece(s: &Segment, want: Piece) -> bool {
    let (from, len, held, sum, writable, runs) = want;
    let mut found = 0u32;
    for byte in s.bytes.as_slice() {
        found = found.wrapping_add(u32::from(*byte));
    }
    s.from == from
        && s.len == len
        && s.bytes.as_slice().len() == held
        && found == sum
        && s.writable == writable
        && s.runs == runs
}

fn has_pieces(program: &Program, want: &[Piece]) -> bool {
    let segments = program.segments.as_slice();
    if segments.len() != want.len() {
        return false;
    }
    for i in 0..segments.len() {
        if !is_piece(&segments[i], want[i]) {
            return false;
        }
    }
    true
}

#[test]
fn each_rule_refuses_by_itself(rt: HostRuntime) -> Result<(), Fail> {
    let alloc = rt.alloc();
    for (i, (is_heaped, keep, first, second, why)) in refused_rows().iter().enumerate() {
        let file = changed(alloc, *is_heaped, *keep, [*first, *second])?;
        assert!(rt; refusal(alloc, &file) == Some(*why), "row {i}");
    }
    Ok(())
}

#[test]
fn what_keeps_the_rules_by_one_is_accepted(rt: HostRuntime) -> Result<(), Fail> {
    let alloc = rt.alloc();
    for (i, (is_heaped, keep, first, second, count)) in accepted_rows().iter().enumerate() {
        let file = changed(alloc, *is_heaped, *keep, [*first, *second])?;
        let program = program(alloc, &file)?;
        assert!(rt; program.segments.as_slice().len() == *count, "row {i}");
    }
    Ok(())
}

// Whether it is heaped, its segments, its first address, its heap functions and its tag.
type Whole = (bool, &'static [Piece], u32, &'static [(u32, HeapCall)], u64);

static WHOLE: [Whole; 2] = [
    (
        PLAIN,
        &[
            (0x10000, 40, 40, 1701, false, true),
            (0x200000, 4096, 0, 0, true, false),
        ],
        0x10000,
        &[],
        8300562974988867375,
    ),
    (
        HEAPED,
        &[
            (0x10000, 64, 64, 3905, false, true),
            (0x200000, 4096, 0, 0, true, false),
        ],
        0x10010,
        &[
            (0x10000, Malloc),
            (0x10004, Free),
            (0x10008, Calloc),
            (0x1000c, Realloc),
        ],
        14303030648288737793,
    ),
];

fn whole_rows() -> &'static [Whole] {
    &WHOLE
}

#[test]
fn both_files_are_their_programs(rt: HostRuntime) -> Result<(), Fail> {
    let alloc = rt.alloc();
    for (i, (is_heaped, pieces, entry, names, tag)) in whole_rows().iter().enumerate() {
        let file = base(alloc, *is_heaped)?;
        let program = program(alloc, &file)?;
        assert!(rt;
            has_pieces(&program, pieces) && has_names(&program, names),
            "row {i}"
        );
        assert!(rt; program.entry == *entry && program.tag == *tag, "row {i}");
    }
    Ok(())
}

// Changes of the file with heap functions, and which it has then.
type NamesRow = ([Change; 2], &'static [(u32, HeapCall)]);

static NAMES: [NamesRow; 9] = [
    (
        [(SYMBOLS + 16 + ST_INFO, 1, 0x22), NONE],
        &[
            (0x10000, Malloc),
            (0x10004, Free),
            (0x10008, Calloc),
            (0x1000c, Realloc),
        ],
    ), // weak
    (
        [(SYMBOLS + 16 + ST_SHNDX, 2, 0), NONE],
        &[(0x10004, Free), (0x10008, Calloc), (0x1000c, Realloc)],
    ), // undefined
    (
        [(SYMBOLS + 16 + ST_INFO, 1, 2), NONE],
        &[(0x10004, Free), (0x10008, Calloc), (0x1000c, Realloc)],
    ), // local
    (
        [(SYMBOLS + 32 + ST_VALUE, 4, 0x10000), NONE],
        &[(0x10000, Malloc), (0x10008, Calloc), (0x1000c, Realloc)],
    ), // the first of two counts
    (
        [
            (SYMBOLS + 32 + ST_VALUE, 4, 0x10000),
            (SYMBOLS + 16 + ST_INFO, 1, 2),
        ],
        &[(0x10000, Free), (0x10008, Calloc), (0x1000c, Realloc)],
    ), // the first is local
    (
        [(SYMBOLS + 32 + ST_VALUE, 4, 0x10000), (SYMBOLS + 16, 4, 2)],
        &[(0x10000, Free), (0x10008, Calloc), (0x1000c, Realloc)],
    ), // the first is another name
    (
        [(SYMBOLS + 16 + ST_VALUE, 4, 0xffffffff), NONE],
        &[
            (0x10004, Free),
            (0x10008, Calloc),
            (0x1000c, Realloc),
            (0xffffffff, Malloc),
        ],
    ), // by address
    (
        [(267, 1, 120), NONE],
        &[(0x10004, Free), (0x10008, Calloc), (0x1000c, Realloc)],
    ), // a longer name
    (
        [(SECTION_1 + SH_SIZE, 4, 48), NONE],
        &[(0x10000, Malloc), (0x10004, Free)],
    ), // a shorter table
];

fn name_rows() -> &'static [NamesRow] {
    &NAMES
}

fn end_of(file: &Vec<u8>) -> u32 {
    u32::try_from(file.len()).unwrap_or(0)
}

fn add_symbols(file: &mut Vec<u8>, symbols: &[(u32, u32)]) -> Result<(), AllocError> {
    for (name, value) in symbols {
        file.extend_from_slice(&name.to_le_bytes())?;
        file.extend_from_slice(&value.to_le_bytes())?;
        file.extend_from_slice(&[0, 0, 0, 0, 0x12, 0, 0xf1, 0xff])?;
    }
    Ok(())
}

// The words of three section headers: none, a symbol table, and the strings of its names up to the headers.
fn section_words(table: u32, strings: u32, headers: u32) -> [u32; 30] {
    let mut words = [0; 30];
    words[11] = 2;
    words[14] = table;
    words[15] = strings.wrapping_sub(table);
    words[16] = 2;
    words[19] = 16;
    words[21] = 3;
    words[24] = strings;
    words[25] = headers.wrapping_sub(strings);
    words
}

// The first file with a table of symbols, each a name's place and a value, and the strings of names.
fn with_symbols(
    alloc: Global,
    symbols: &[(u32, u32)],
    strings: &[u8],
) -> Result<Vec<u8>, AllocError> {
    let mut file = file_of(alloc, plain_words())?;
    let table_at = end_of(&file);
    add_symbols(&mut file, symbols)?;
    let strings_at = end_of(&file);
    file.extend_from_slice(strings)?;
    let headers_at = end_of(&file);
    let words = section_words(table_at, strings_at, headers_at);
    file.extend_from_slice(&file_of(alloc, &words)?)?;
    put(&mut file, (E_SHOFF, 4, headers_at));
    put(&mut file, (E_SHENTSIZE, 2, 40));
    put(&mut file, (E_SHNUM, 2, 3));
    Ok(file)
}

// Symbols, each by its name's place and its value, the strings of names, and the heap functions.
type NamedRow = (
    &'static [(u32, u32)],
    &'static [u8],
    &'static [(u32, HeapCall)],
);

static NAMED: [NamedRow; 2] = [
    (
        &[
            (0, 72),
            (10, 68),
            (18, 64),
            (28, 60),
            (1, 56),
            (11, 52),
            (19, 48),
            (29, 44),
        ],
        b"_malloc_r\0_free_r\0_calloc_r\0_realloc_r\0malloc\0free\0",
        &[(60, ReallocR), (64, CallocR), (68, FreeR), (72, MallocR)],
    ), // names that skip an argument, and what is left of them without the first letter
    (
        &[
            (0, 72),
            (9, 68),
            (23, 64),
            (24, 60),
            (35, 56),
            (50, 52),
            (63, 48),
            (77, 44),
        ],
        b"memalign\0aligned_alloc\0_memalign_r\0aligned_allocx\0aligned_allo\0aligned-alloc\0_memalign\0",
        &[(64, MemalignR), (68, AlignedAlloc), (72, Memalign)],
    ), // names that are asked for an alignment, and others like them
];

fn named_rows() -> &'static [NamedRow] {
    &NAMED
}

#[test]
fn heap_functions_are_those_of_the_first_table(rt: HostRuntime) -> Result<(), Fail> {
    let alloc = rt.alloc();
    for (i, (changes, want)) in name_rows().iter().enumerate() {
        let file = changed(alloc, HEAPED, ALL, *changes)?;
        assert!(rt; has_names(&program(alloc, &file)?, want), "row {i}");
    }
    Ok(())
}

#[test]
fn heap_functions_have_their_whole_names(rt: HostRuntime) -> Result<(), Fail> {
    let alloc = rt.alloc();
    for (i, (symbols, strings, want)) in named_rows().iter().enumerate() {
        let file = with_symbols(alloc, *symbols, *strings)?;
        assert!(rt; has_names(&program(alloc, &file)?, *want), "row {i}");
    }
    Ok(())
}

#[test]
fn many_symbols_load(rt: HostRuntime) -> Result<(), Fail> {
    let alloc = rt.alloc();
    let mut symbols = Vec::new(alloc);
    for i in 0..100_000u32 {
        symbols.push((0, 4 * (100_000 - i)))?;
        symbols.push((7, 4 * (100_000 - i)))?;
    }
    let file = with_symbols(alloc, &symbols, b"malloc\0free\0")?;
    let program = program(alloc, &file)?;
    let found = program.names.as_slice();
    assert!(rt; found.len() == 100_000);
    for (i, name) in found.iter().enumerate() {
        assert!(rt;
            name.at as usize == 4 * (i + 1) && name.call == Malloc,
            "name {i}"
        );
    }
    Ok(())
}

// A file of so many headers, the last first, each of 32 bytes behind the one before it.
fn with_headers(alloc: Global, count: u32) -> Result<Vec<u8>, AllocError> {
    let mut file = file_of(alloc, plain_words())?;
    file.truncate(52);
    put(&mut file, (E_PHNUM, 2, count));
    put(&mut file, (E_ENTRY, 4, 0x1000));
    for i in 0..count {
        let from = 0x1000u32.wrapping_add((count - 1 - i).wrapping_mul(32));
        file.extend_from_slice(&file_of(alloc, &[1, 0, from, 0, 0, 32, 5, 0])?)?;
    }
    Ok(file)
}

#[test]
fn many_headers_load(rt: HostRuntime) -> Result<(), Fail> {
    let alloc = rt.alloc();
    let mut file = with_headers(alloc, 60_000)?;
    let program = program(alloc, &file)?;
    assert!(rt; program.segments.as_slice().len() == 60_000);
    for (i, s) in program.segments.as_slice().iter().enumerate() {
        assert!(rt; s.from as usize == 0x1000 + 32 * i, "segment {i}");
    }
    put(&mut file, (52 + 32 * 30_000 + P_MEMSZ, 4, 33));
    assert!(rt; refusal(alloc, &file) == Some(Overlap));
    Ok(())
}
