// Bytes by address. Pages that were never written to take no memory.

ghost use Rattle.std.specs.Prelude.{◌≡◌, ◌+◌, ◌*◌, ◌/◌, ◌%◌, ◌<◌, ◌≤◌, ℕ, [], ◌∷◌, slice_index, IfOk, OnOk, OnErr};
ghost use Rattle.infinite_heap.specs.Memory.{put, put_all};
ghost use Rattle.infinite_heap.specs.Values.{byte, word_of};
ghost use Rattle.blind_judge.specs.ByteTable.{IsTable};

use std::alloc::{AllocError, Global};

const PAGE: usize = 4096;

const PAGES: usize = 0x10_0000;

/// A byte at each address of 32 bits, zero where none was put.
#[derive(Drop)]
pub struct FlatBytes {
    // The number of each page's bytes, 0 while all of them are zeros.
    table: Vec<u32>,
    bytes: Vec<u8>,
    ghost kept: { IsTable table.items bytes.items },
}

impl FlatBytes {
    ghost use Rattle.blind_judge.specs.FlatBytes.{byte_by, byte_in};

    /// Zero at each address.
    pub(crate) fn new(alloc: Global) -> Result<FlatBytes, AllocError>
        ensures { IfOk result (λ pages. (x : ℕ) → byte_in pages x ≡ 0) }
    {
        let mut table = Vec::new(alloc);
        table.resize(PAGES, 0)?;
        let mut bytes = Vec::new(alloc);
        bytes.resize(PAGE, 0)?;
        Ok(FlatBytes { table, bytes })
    }

    #[inline(always)]
    fn place(&self, x: u32) -> usize
        ensures { result ≡ slice_index self.now.table.items (x / 4096) * 4096 + x % 4096 }
    {
        self.table[(x / 4096) as usize] as usize * PAGE + (x % 4096) as usize
    }

    /// The byte at an address.
    #[inline(always)]
    pub(crate) fn byte(&self, x: u32) -> u8
        ensures { result ≡ byte_in self.now x }
    {
        self.bytes[self.place(x)]
    }

    /// The word at an address that is a multiple of 4.
    #[inline(always)]
    pub(crate) fn word(&self, x: u32) -> u32
        requires { x % 4 ≡ 0 }
        ensures { result ≡ word_of (byte_in self.now x) (byte_in self.now (x + 1)) (byte_in self.now (x + 2)) (byte_in self.now (x + 3)) }
    {
        let at = self.place(x);
        match <&[u8; 4]>::try_from(&self.bytes[at..at + 4]) {
            Ok(chunk) => u32::from_le_bytes(*chunk),
            Err(_) => 0,
        }
    }

    // Gives an address's page bytes of its own.
    #[inline(always)]
    fn make(&mut self, x: u32) -> Result<(), AllocError>
        ensures same { byte_in self.new ≡ byte_in self.old }
        ensures made { OnOk result (0 < slice_index self.new.table.items (x / 4096)) }
    {
        if self.table[(x / 4096) as usize] == 0 {
            return self.add_page(x);
        }
        Ok(())
    }

    #[inline(never)]
    fn add_page(&mut self, x: u32) -> Result<(), AllocError>
        requires { slice_index self.old.table.items (x / 4096) ≡ 0 }
        ensures same { byte_in self.new ≡ byte_in self.old }
        ensures made { OnOk result (0 < slice_index self.new.table.items (x / 4096)) }
    {
        let len = self.bytes.len();
        let Ok(page) = u32::try_from(len / PAGE) else {
            return Err(AllocError);
        };
        self.bytes.resize(len + PAGE, 0)?;
        self.table[(x / 4096) as usize] = page;
        Ok(())
    }

    /// Puts a byte.
    pub(crate) fn put(&mut self, x: u32, b: u8) -> Result<(), AllocError>
        ensures put { OnOk result (byte_in self.new ≡ put (byte_in self.old) x b) }
        ensures same { OnErr result (byte_in self.new ≡ byte_in self.old) }
    {
        self.make(x)?;
        let at = self.place(x);
        self.bytes[at] = b;
        Ok(())
    }

    /// Puts the bytes of a word at an address that is a multiple of 4.
    #[inline(always)]
    pub(crate) fn put_word(&mut self, x: u32, word: u32) -> Result<(), AllocError>
        requires { x % 4 ≡ 0 }
        ensures { OnOk result (byte_in self.new ≡ put_all (byte_in self.old) x (byte 0 word ∷ byte 1 word ∷ byte 2 word ∷ byte 3 word ∷ [])) }
    {
        self.make(x)?;
        let at = self.place(x);
        self.bytes[at] = (word % 256) as u8;
        self.bytes[at + 1] = (word / 256 % 256) as u8;
        self.bytes[at + 2] = (word / 65536 % 256) as u8;
        self.bytes[at + 3] = (word / 16777216 % 256) as u8;
        Ok(())
    }
}
