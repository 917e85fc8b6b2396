// Instructions that were decoded before, each beside its address and its word. One is taken again only where both are
// the same, so that code which writes over itself is decoded anew.
ghost use Rattle.std.specs.Prelude.{◌≡◌, ◌<◌, ◌/◌, ◌%◌, List, Some, None, length, slice_get, IfOk, IsSomeAnd};
ghost use Rattle.std.specs.Bool.{OnTrue, OnFalse};
ghost use Rattle.std.specs.Coded.{Coded-set, coded_option};
ghost use Rattle.infinite_heap.specs.InfiniteHeap.{call_at};
ghost use Rattle.rv_machine.specs.Fields.{fields_at};

use crate::fields::{Fields, fields_of};
use infinite_heap::Op;
use rv_decode::decode;
use std::alloc::{AllocError, Global};

// ADDI x0, x0, 0
const NOP: u32 = 0x13;

// No instruction is there.
const NOWHERE: u32 = 1;

// An address, a word that was found there, and the instruction that it is.
#[derive(Clone, Copy, Drop)]
struct Entry {
    at: u32,
    word: u32,
    fields: Fields,
    ghost right: { fields_at word ≡ Some fields } by { Coded-set (coded_option fields-code) (fields_at word) (Some fields) },
}

/// Decoded instructions. Addresses share places.
#[derive(Drop)]
pub(crate) struct Decoded {
    entries: Vec<Entry>,
    ghost full: { length entries.items ≡ 4096 },
}

impl Decoded {
    ghost use Rattle.infinite_heap.specs.declared.program.HeapName.{HeapName};
    ghost use Rattle.rv_machine.specs.KeptCode.{AreNameless};

    pub(crate) fn new(alloc: Global) -> Result<Decoded, AllocError>
        ensures { (names : List HeapName) → IfOk result (AreNameless names) }
    {
        let fields = Fields {
            op: Op::Addi,
            rd: 0,
            rs1: 0,
            rs2: 0,
            imm: 0,
        };
        let entries = vec![in alloc; Entry {
            at: NOWHERE,
            word: NOP,
            fields
        }; 4096]?;
        Ok(Decoded { entries })
    }

    #[inline(always)]
    fn place(addr: u32) -> usize
        ensures fits { result < 4096 }
        ensures place { result ≡ addr / 4 % 4096 }
    {
        (addr / 4 % 4096) as usize
    }

    /// Whether this word at this address is kept.
    #[inline(always)]
    pub(crate) fn has(&self, addr: u32, word: u32) -> bool
        ensures { OnTrue result (IsSomeAnd (slice_get self.now.entries.items (addr / 4 % 4096)) (λ e. (e.at ≡ addr) × (e.word ≡ word))) }
    {
        let entry = &self.entries[Decoded::place(addr)];
        entry.at == addr && entry.word == word
    }

    /// Whether a word at an address is an instruction. If so its fields are kept.
    #[inline(always)]
    pub(crate) fn holds(&mut self, addr: u32, word: u32) -> bool
        ensures kept { OnTrue result (IsSomeAnd (slice_get self.new.entries.items (addr / 4 % 4096)) (λ e. fields_at word ≡ Some e.fields)) }
        ensures none { OnFalse result (fields_at word ≡ None) }
        ensures nameless { (names : List HeapName) → call_at names addr ≡ None → AreNameless names self.old → AreNameless names self.new }
    {
        self.has(addr, word) || self.decode(addr, word)
    }

    /// The fields that are kept of the instruction at an address. They are lent, so that each instruction reads those
    /// alone that it has.
    #[inline(always)]
    pub(crate) fn fields(&self, addr: u32) -> &Fields
        ensures { IsSomeAnd (slice_get self.now.entries.items (addr / 4 % 4096)) (λ e. result.now ≡ e.fields) }
    {
        &self.entries[Decoded::place(addr)].fields
    }

    // Decodes a word, and keeps its fields.
    #[inline(never)]
    fn decode(&mut self, addr: u32, word: u32) -> bool
        ensures kept { OnTrue result (IsSomeAnd (slice_get self.new.entries.items (addr / 4 % 4096)) (λ e. fields_at word ≡ Some e.fields)) }
        ensures none { OnFalse result (fields_at word ≡ None) }
        ensures nameless { (names : List HeapName) → call_at names addr ≡ None → AreNameless names self.old → AreNameless names self.new }
    {
        match decode(word) {
            Some(instr) => {
                let fields = fields_of(instr);
                self.entries[Decoded::place(addr)] = Entry {
                    at: addr,
                    word,
                    fields,
                };
                true
            }
            None => false,
        }
    }
}
