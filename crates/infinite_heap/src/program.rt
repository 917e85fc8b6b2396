// A program as it is loaded.
ghost use Rattle.std.specs.Prelude.{◌≡◌};

use crate::lists::{Bytes, HeapNames, Segments};
use std::marker::Model;
use thiserror::Error;

/// `len` bytes from the address `from` on: `bytes`, and zeros behind them.
#[derive(Debug, Drop)]
pub struct Segment {
    pub from: u32,
    pub len: u32,
    pub bytes: Bytes,
    pub writable: bool,
    pub runs: bool,
}

/// A function of the heap that calls go to; the names that end in `R` skip their first argument.
#[derive(Clone, Copy, Debug, PartialEq, Eq, Drop)]
pub enum HeapCall {
    Malloc,
    Free,
    Calloc,
    Realloc,
    Memalign,
    AlignedAlloc,
    MallocR,
    FreeR,
    CallocR,
    ReallocR,
    MemalignR,
}

/// The address of a heap function.
#[derive(Clone, Copy, Debug, PartialEq, Eq, Drop)]
pub struct HeapName {
    pub at: u32,
    pub call: HeapCall,
}

/// A loaded program: its segments, the address of its first instruction, its heap functions, and the
/// tag of its file. Every program is lawful: its segments lie in order below the heap region and share
/// no address, the first instruction lies in one that runs, and the heap functions rise by address.
#[derive(Debug, Drop)]
pub struct Program {
    pub segments: Segments,
    pub entry: u32,
    pub names: HeapNames,
    pub tag: u64,
}

impl Model for Program {
    ghost use Rattle.infinite_heap.specs.Loaded.{Loaded};

    ghost Value = { Loaded };

    ghost use Rattle.infinite_heap.specs.Lawful.{loaded, IsLawful};

    ghost view = { loaded };

    ghost invariant = { λ p. IsLawful (loaded p) };
}

impl Program {
    ghost use Rattle.infinite_heap.specs.Lawful.{IsLawful};

    /// The segments by rising address.
    pub fn segments(&self) -> &[Segment]
        ensures { result.now ≡ self.now.segments }
    {
        self.segments.as_slice()
    }

    /// The address of the first instruction.
    pub fn entry(&self) -> u32
        ensures { result ≡ self.now.entry }
    {
        self.entry
    }

    /// The heap functions by rising address.
    pub fn names(&self) -> &[HeapName]
        ensures { result.now ≡ self.now.names }
    {
        self.names.as_slice()
    }

    /// The tag of the file.
    pub fn tag(&self) -> u64
        ensures { result ≡ self.now.tag }
    {
        self.tag
    }

    /// What holds of every program.
    pub fn rules(&self)
        ensures { IsLawful self.now }
    {
        let _ = &self.segments;
    }
}

/// Why a file is no program that can be loaded: the first rule of the format that it breaks.
#[derive(Clone, Copy, Debug, PartialEq, Eq, Drop, Error)]
pub enum ElfRefusal {
    /// Fewer than 52 bytes.
    #[error("short")]
    Short,
    /// It doesn't begin as an ELF file.
    #[error("magic")]
    Magic,
    /// It isn't of 32 bits, lowest byte first, version 1.
    #[error("class")]
    Class,
    /// It isn't executable as it stands.
    #[error("kind")]
    Kind,
    /// It isn't for RISC-V.
    #[error("machine")]
    Machine,
    /// It is for compressed instructions, floating-point registers or the embedded register set.
    #[error("flags")]
    Flags,
    /// A table, or the bytes of a segment, aren't where a header says.
    #[error("headers")]
    Headers,
    /// It asks for a dynamic linker or an interpreter.
    #[error("dynamic")]
    Dynamic,
    /// A segment lies outside the addresses that programs may use.
    #[error("region")]
    Region,
    /// Two segments share an address.
    #[error("overlap")]
    Overlap,
    /// The segments are too large together.
    #[error("total")]
    Total,
    /// The first instruction isn't in a segment that runs.
    #[error("entry")]
    Entry,
    /// The symbol table is broken.
    #[error("symbols")]
    Symbols,
    /// Want of memory.
    #[error("memory")]
    Memory,
}
