//! The guest's return addresses, and the site of a heap call, which is a hash of the newest five.
//!
//! The addresses come from the jumps that the guest carries out, by the hints of the RISC-V
//! Unprivileged ISA manual, "Unconditional Jumps", with x1 and x5 as link registers. At most 1,024
//! are kept (docs/call-sites.md). Contracts see them as a list, newest first.
#![tactic(auto)]

ghost use Rattle.std.specs.Prelude.{◌≡◌, ◌≤◌, ◌⊎◌, ◌↔◌, [], length, IfOk, IsTrue};
ghost use Rattle.infinite_heap.specs.CallSite.{site_of};
ghost use Rattle.infinite_heap.specs.Calls.{is_link, push, pop};
ghost use Rattle.site_hash.specs.Hint.{hinted};

use circular_buffer::HeapCircularBuffer;
use infinite_heap::Instr;
use std::alloc::{AllocError, Global};
use std::marker::Model;

const KEPT: usize = 1024;

/// The newest return addresses of a guest, at most 1,024 of them.
#[derive(Drop)]
pub struct Calls {
    addresses: HeapCircularBuffer<u32>,
}

impl Model for Calls {
    ghost use Rattle.std.specs.Prelude.{◌≡◌, ℕ, List};

    ghost Value = { List ℕ };

    ghost view = { λ c. c.addresses.items };

    ghost invariant = { λ c. c.addresses.capacity ≡ 1024 };
}

impl Calls {
    /// No return address yet. All memory that is needed later is taken here.
    pub fn new(alloc: Global) -> Result<Calls, AllocError>
        ensures { IfOk result (λ calls. calls ≡ []) }
    {
        let addresses = HeapCircularBuffer::with_capacity(alloc, KEPT)?;
        Ok(Calls { addresses })
    }

    /// Notes an instruction that is carried out, whose return address, pc + 4, is `link`: a call adds
    /// it, a return takes the newest one away, and all others change nothing.
    #[inline(always)]
    pub fn hint(&mut self, instr: &Instr, link: u32)
        ensures { self.new ≡ hinted instr.now link self.old }
    {
        match *instr {
            Instr::Jal { rd, .. } => {
                if is_link(rd) {
                    self.call(link);
                }
            }
            Instr::Jalr { rd, rs1, .. } => {
                if is_link(rs1) && rs1 != rd {
                    self.ret();
                }
                if is_link(rd) {
                    self.call(link);
                }
            }
            _ => {}
        }
    }

    /// Takes the newest return address away, if there is one.
    #[inline(always)]
    pub fn ret(&mut self)
        ensures { self.new ≡ pop self.old }
    {
        self.addresses.pop_front();
    }

    /// The site of a call that is made now: the hash of the five newest return addresses.
    pub fn site(&self) -> u32
        ensures { result ≡ site_of self.now }
    {
        let mut hash: u64 = 5381;
        for nth in 0..5 {
            let address = self.addresses.get(nth).copied().unwrap_or(0);
            hash = (hash * 33 + u64::from(address)) % 0x1_0000_0000;
        }
        hash as u32
    }

    // Adds a return address, and drops the oldest one where there are as many as are kept.
    #[inline(always)]
    fn call(&mut self, link: u32)
        ensures { self.new ≡ push link self.old }
    {
        self.addresses.push_front(link);
    }
}

// Whether a register holds return addresses by the convention.
#[inline(always)]
fn is_link(register: u8) -> bool
    ensures { result ≡ is_link register }
{
    register == 1 || register == 5
}

#[cfg(test)]
mod tests;
