// The ELF file of a program that calls the heap, in the order of its bytes.
ghost use Rattle.std.specs.Prelude.{◌≡◌, ◌<◌, ◌^◌, ◌++◌, length, IfOk, OnOk};
ghost use Rattle.std.specs.Int.{w16, w32};
ghost use Rattle.work_maker.specs.File as spec;

use crate::instrs::{CALLOC, ENTRY, FREE, MALLOC, REALLOC};
use infinite_heap::{Instr, Op};
use rv_decode::encode;
use std::alloc::{AllocError, Global};

const HEADERS_SIZE: u32 = 116;

const SYMBOLS_SIZE: u32 = 80;

const STRINGS_SIZE: u32 = 28;

// The first 16 bytes: the mark, 32 bits, lowest byte first, and the version.
const IDENT: [u8; 16] = [0x7f, 0x45, 0x4c, 0x46, 1, 1, 1, 0, 0, 0, 0, 0, 0, 0, 0, 0];

/// The file of a program, whose entry is its first word.
#[tactic(auto, unfolding(crate::specs::File::heaped))]
pub fn heaped(alloc: Global, words: &[u32]) -> Result<Vec<u8>, AllocError>
    requires { length words.now < 2 ^ 20 }
    ensures { IfOk result (λ file. file.items ≡ spec.heaped words.now) }
{
    let size = 4 * (4 + words.len() as u32);
    let tables = HEADERS_SIZE + size;
    let mut file = File {
        bytes: Vec::new(alloc),
    };
    file.header(tables + SYMBOLS_SIZE + STRINGS_SIZE)?;
    file.segment(&Segment {
        offset: HEADERS_SIZE,
        address: MALLOC,
        filesz: size,
        memsz: size,
        flags: 5,
    })?;
    file.segment(&Segment {
        offset: 0,
        address: 0x200000,
        filesz: 0,
        memsz: 4096,
        flags: 6,
    })?;
    file.text(words)?;
    file.symbols()?;
    file.strings()?;
    file.sections(tables)?;
    Ok(file.bytes)
}

#[derive(Drop)]
struct Segment {
    offset: u32,
    address: u32,
    filesz: u32,
    memsz: u32,
    flags: u32,
}

#[derive(Drop)]
struct Section {
    kind: u32,
    offset: u32,
    size: u32,
    link: u32,
    info: u32,
    align: u32,
    entry: u32,
}

// A file so far.
#[derive(Drop)]
struct File {
    bytes: Vec<u8>,
}

impl File {
    #[tactic(auto, unfolding(crate::specs::File::numbers))]
    fn halves(&mut self, numbers: &[u16]) -> Result<(), AllocError>
        ensures { OnOk result (self.new.bytes.items ≡ self.old.bytes.items ++ spec.numbers w16 numbers.now) }
    {
        for number in numbers {
            self.bytes.extend_from_slice(&number.to_le_bytes())?;
        }
        Ok(())
    }

    #[tactic(auto, unfolding(crate::specs::File::numbers))]
    fn words(&mut self, numbers: &[u32]) -> Result<(), AllocError>
        ensures { OnOk result (self.new.bytes.items ≡ self.old.bytes.items ++ spec.numbers w32 numbers.now) }
    {
        for number in numbers {
            self.bytes.extend_from_slice(&number.to_le_bytes())?;
        }
        Ok(())
    }

    #[tactic(auto, unfolding(crate::specs::File::header))]
    fn header(&mut self, sections: u32) -> Result<(), AllocError>
        ensures { OnOk result (self.new.bytes.items ≡ self.old.bytes.items ++ spec.header sections) }
    {
        self.bytes.extend_from_slice(&IDENT)?;
        self.halves(&[2, 243])?;
        self.words(&[1, ENTRY, 52, sections, 0])?;
        self.halves(&[52, 32, 2, 40, 3, 0])
    }

    fn segment(&mut self, segment: &Segment) -> Result<(), AllocError>
        ensures { OnOk result (self.new.bytes.items ≡ self.old.bytes.items ++ spec.segment segment.now.offset segment.now.address segment.now.filesz segment.now.memsz segment.now.flags) }
    {
        self.words(&[
            1,
            segment.offset,
            segment.address,
            segment.address,
            segment.filesz,
            segment.memsz,
            segment.flags,
            4,
        ])
    }

    // An ebreak at each of the heap's functions, and the program's words behind them.
    #[tactic(auto, unfolding(crate::specs::File::numbers))]
    fn text(&mut self, words: &[u32]) -> Result<(), AllocError>
        ensures { OnOk result (self.new.bytes.items ≡ self.old.bytes.items ++ spec.text words.now) }
    {
        let ebreak = encode(&Instr::System { op: Op::Ebreak });
        self.words(&[ebreak; 4])?;
        self.words(words)
    }

    #[tactic(auto, unfolding(crate::specs::File::symbols))]
    fn symbols(&mut self) -> Result<(), AllocError>
        ensures { OnOk result (self.new.bytes.items ≡ self.old.bytes.items ++ spec.symbols) }
    {
        self.bytes.extend_from_slice(&[0; 16])?;
        self.function(1, MALLOC)?;
        self.function(8, FREE)?;
        self.function(13, CALLOC)?;
        self.function(20, REALLOC)
    }

    // The symbol of a function, by the place of its name.
    fn function(&mut self, name: u32, address: u32) -> Result<(), AllocError>
        ensures { OnOk result (self.new.bytes.items ≡ self.old.bytes.items ++ spec.function name address) }
    {
        self.words(&[name, address, 4])?;
        self.bytes.extend_from_slice(&[0x12, 0])?;
        self.halves(&[0xfff1])
    }

    #[tactic(auto, unfolding(crate::specs::File::strings))]
    fn strings(&mut self) -> Result<(), AllocError>
        ensures { OnOk result (self.new.bytes.items ≡ self.old.bytes.items ++ spec.strings) }
    {
        self.bytes
            .extend_from_slice(b"\0malloc\0free\0calloc\0realloc\0")
    }

    // None, the symbols from a place on, and the strings behind them.
    #[tactic(auto, unfolding(crate::specs::File::sections))]
    fn sections(&mut self, place: u32) -> Result<(), AllocError>
        requires { place < 2 ^ 31 }
        ensures { OnOk result (self.new.bytes.items ≡ self.old.bytes.items ++ spec.sections place) }
    {
        self.bytes.extend_from_slice(&[0; 40])?;
        self.section(&Section {
            kind: 2,
            offset: place,
            size: SYMBOLS_SIZE,
            link: 2,
            info: 1,
            align: 4,
            entry: 16,
        })?;
        self.section(&Section {
            kind: 3,
            offset: place + SYMBOLS_SIZE,
            size: STRINGS_SIZE,
            link: 0,
            info: 0,
            align: 1,
            entry: 0,
        })
    }

    fn section(&mut self, section: &Section) -> Result<(), AllocError>
        ensures { OnOk result (self.new.bytes.items ≡ self.old.bytes.items ++ spec.section section.now.kind section.now.offset section.now.size section.now.link section.now.info section.now.align section.now.entry) }
    {
        self.words(&[
            0,
            section.kind,
            0,
            0,
            section.offset,
            section.size,
            section.link,
            section.info,
            section.align,
            section.entry,
        ])
    }
}
