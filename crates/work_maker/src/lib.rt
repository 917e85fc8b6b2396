//! ELF files made from a number: large valid inputs, whose programs allocate, store, load and free
//! (docs/made-programs.md).
#![tactic(auto)]

ghost use Rattle.std.specs.Prelude.{◌≡◌, ◌<◌, ◌^◌, length, map, IfOk};
ghost use Rattle.std.specs.List.{All};
ghost use Rattle.infinite_heap.specs.InRange.{IsInRange};
ghost use Rattle.rv_decode.specs.Word.{word_of};
ghost use Rattle.work_maker.specs.Made.{made_file, made_words};

mod file;
mod instrs;
mod program;
#[cfg(test)]
mod tests;

use infinite_heap::Instr;
use rand_pcg::Lcg64Xsh32;
use rv_decode::encode;
use std::alloc::{AllocError, Global};

/// A made program: its ELF file, and the number of its words.
#[derive(Drop)]
pub struct Made {
    pub file: Vec<u8>,
    pub words: usize,
}

/// The ELF file of the made program of a number, whose draws are the words of PCG32 with the number as
/// its state, on stream 1.
pub fn make(alloc: Global, n: u32) -> Result<Vec<u8>, AllocError>
    ensures { IfOk result (λ file. file.items ≡ made_file n) }
{
    let made = make_counted(alloc, n)?;
    Ok(made.file)
}

/// The made program of a number, with its number of words.
#[tactic(auto, unfolding(crate::specs::Made::made_file))]
pub fn make_counted(alloc: Global, n: u32) -> Result<Made, AllocError>
    ensures file { IfOk result (λ made. made.file.items ≡ made_file n) }
    ensures words { IfOk result (λ made. made.words ≡ length (made_words n)) }
{
    let words = words_of(alloc, n)?;
    Ok(Made {
        file: file::heaped(alloc, &words)?,
        words: words.len(),
    })
}

// The words of the made program of a number.
fn words_of(alloc: Global, n: u32) -> Result<Vec<u32>, AllocError>
    ensures made { IfOk result (λ words. words.items ≡ made_words n) }
    ensures few { IfOk result (λ words. length words.items < 2 ^ 20) }
{
    let mut draws = Lcg64Xsh32::new(u64::from(n), 1);
    let code = program::made_of(alloc, &mut draws, 4096 + n % 4096)?;
    encoded(alloc, &code)
}

fn encoded(alloc: Global, code: &[Instr]) -> Result<Vec<u32>, AllocError>
    requires { All IsInRange code.now }
    ensures { IfOk result (λ words. words.items ≡ map word_of code.now) }
{
    let mut words = Vec::new(alloc);
    for instr in code {
        words.push(encode(instr))?;
    }
    Ok(words)
}
