// A made program: what its draws make of it, instruction by instruction.
ghost use Rattle.std.specs.Prelude.{◌≡◌, ◌<◌, ◌≤◌, ◌+◌, ◌^◌, ◌++◌, false, not, length, replicate, slice_index_or, slice_set, IfOk, OnOk};
ghost use Rattle.std.specs.List.{All};
ghost use Rattle.infinite_heap.specs.InRange.{IsInRange};
ghost use Rattle.work_maker.specs.Program as spec;
ghost use Rattle.work_maker.specs.Program.{place_of, IsBefore};
ghost use Rattle.work_maker.specs.Instrs as instrs;
ghost use Rattle.work_maker.specs.Draws.{word_in};

use crate::instrs::{again, allocation, ending, release, start};
use infinite_heap::Instr;
use rand_core::Rng;
use std::alloc::{AllocError, Global};

/// The program of a generator's words, with so many turns in its body.
pub fn made_of<R: Rng>(alloc: Global, draws: &mut R, turns: u32) -> Result<Vec<Instr>, AllocError>
    requires { turns < 8192 }
    ensures made { IfOk result (λ code. code.items ≡ spec.program (word_in (R.stream draws.old)) turns) }
    ensures in_range { IfOk result (λ code. All IsInRange code.items) }
    ensures short { IfOk result (λ code. length code.items < 2 ^ 16) }
{
    let mut maker = Maker::with_turns(alloc, draws, turns)?;
    maker.free_all()?;
    maker.end()?;
    Ok(maker.code)
}

// A program so far, and which of its 64 places hold an object there.
#[derive(Drop)]
struct Maker {
    code: Vec<Instr>,
    full: [bool; 64],
}

impl Maker {
    // The start, with all places empty.
    fn new(alloc: Global) -> Result<Maker, AllocError>
        ensures code { IfOk result (λ maker. maker.code.items ≡ instrs.start) }
        ensures full { IfOk result (λ maker. maker.full ≡ replicate 64 false) }
    {
        let mut code = Vec::new(alloc);
        code.extend_from_slice(&start())?;
        Ok(Maker {
            code,
            full: [false; 64],
        })
    }

    // The program up to the end of its body.
    fn with_turns<R: Rng>(alloc: Global, draws: &mut R, turns: u32) -> Result<Maker, AllocError>
        requires { turns < 8192 }
        ensures { IfOk result (λ maker. IsBefore (word_in (R.stream draws.old)) turns maker.code.items maker.full) }
    {
        let mut maker = Maker::new(alloc)?;
        for j in 0..turns {
            let draw = draws.next_u32();
            maker.turn(j, draw)?;
        }
        Ok(maker)
    }

    // Turn j of the body: allocates where the place that was drawn is empty, and frees where it is full.
    fn turn(&mut self, j: u32, draw: u32) -> Result<(), AllocError>
        requires { length self.old.code.items < 2 ^ 17 }
        ensures code { OnOk result (self.new.code.items ≡ spec.with_turn (slice_index_or self.old.full (place_of draw) false) j draw self.old.code.items) }
        ensures full { OnOk result (self.new.full ≡ slice_set self.old.full (place_of draw) (not (slice_index_or self.old.full (place_of draw) false))) }
    {
        let k = draw % 64;
        let nth = self.code.len() as u32;
        let is_full = self.full[k as usize];
        if is_full {
            self.code.extend_from_slice(&release(k, nth))?;
        } else {
            let size = 1 + draw / 64 % 1024;
            self.code
                .extend_from_slice(&allocation(k, size, j % 128, nth))?;
        }
        self.full[k as usize] = !is_full;
        Ok(())
    }

    // Frees what the places still hold, by place.
    fn free_all(&mut self) -> Result<(), AllocError>
        requires { length self.old.code.items < 2 ^ 17 }
        ensures code { OnOk result (self.new.code.items ≡ spec.before_place (λ k. slice_index_or self.old.full k false) self.old.code.items 64) }
        ensures length { OnOk result (length self.new.code.items ≤ length self.old.code.items + 256) }
    {
        for k in 0..64 {
            self.free(k)?;
        }
        Ok(())
    }

    // Frees what place k holds, if anything.
    fn free(&mut self, k: u32) -> Result<(), AllocError>
        requires place { k < 64 }
        requires length { length self.old.code.items < 2 ^ 17 + 2 ^ 8 }
        ensures code { OnOk result (self.new.code.items ≡ spec.with_release (slice_index_or self.old.full k false) k self.old.code.items) }
        ensures full { self.new.full ≡ self.old.full }
    {
        if self.full[k as usize] {
            let nth = self.code.len() as u32;
            self.code.extend_from_slice(&release(k, nth))?;
        }
        Ok(())
    }

    // Closes the rounds, and ends the program.
    fn end(&mut self) -> Result<(), AllocError>
        requires { length self.old.code.items < 2 ^ 18 }
        ensures { OnOk result (self.new.code.items ≡ self.old.code.items ++ instrs.again (length self.old.code.items) ++ instrs.ending) }
    {
        let nth = self.code.len() as u32;
        self.code.extend_from_slice(&again(nth))?;
        self.code.extend_from_slice(&ending())
    }
}
