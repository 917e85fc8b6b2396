// The command `show`.
ghost use Rattle.std.specs.Prelude.{◌≡◌, ◌<◌, ◌^◌, false, Ok, IfSome, map, string_bytes};
ghost use Rattle.infinite_heap.specs.ElfHeaders.{has_magic};
ghost use Rattle.exterm_cli.specs.Parts.{IsSettled, StopsFolder};
ghost use Rattle.exterm_cli.specs.Show.{ShowsFile, imaged, listed};
ghost use Rattle.exterm_cli.specs.Taking.{taken_word};

use crate::cut::{Cut, Stop};
use crate::listing::{byte_at, listing};
use crate::plan::{Plan, given};
use crate::taking::{image_in, program_in, take_word};
use ex_io::Folder;
use heap_image::Image;
use infinite_heap::Program;
use std::alloc::Global;

#[tactic(auto, unfolding(infinite_heap::specs::ElfHeaders::has_magic))]
fn has_magic(file: &[u8]) -> bool
    ensures { result ≡ has_magic file.now }
{
    byte_at(file, 0) == 0x7f
        && byte_at(file, 1) == b'E'
        && byte_at(file, 2) == b'L'
        && byte_at(file, 3) == b'F'
}

fn show_program(alloc: Global, words: &[String], program: &Program) -> Result<Plan, Stop>
    ensures shows { IsSettled (λ plan. plan ≡ listed (map string_bytes words.now) (Ok program.now)) result }
    ensures memory { StopsFolder result 0 0 }
{
    program.rules();
    let Ok(text) = listing(alloc, program.segments()) else {
        return Err(Stop::CutShort(Cut::Memory));
    };
    match given(alloc, words, None, text.into_bytes()) {
        Ok(plan) => Ok(plan),
        Err(_) => Err(Stop::CutShort(Cut::Memory)),
    }
}

fn show_image(alloc: Global, words: &[String], image: &Image) -> Result<Plan, Stop>
    ensures shows { IsSettled (λ plan. plan ≡ imaged (map string_bytes words.now) (Ok image.now)) result }
    ensures memory { StopsFolder result 0 0 }
{
    let Ok(text) = image.text(alloc) else {
        return Err(Stop::CutShort(Cut::Memory));
    };
    match given(alloc, words, None, text) {
        Ok(plan) => Ok(plan),
        Err(_) => Err(Stop::CutShort(Cut::Memory)),
    }
}

// A file that doesn't begin as an ELF file.
fn show_image_file(alloc: Global, words: &[String], file: &[u8]) -> Result<Plan, Stop>
    requires other { has_magic file.now ≡ false }
    ensures shows { IsSettled (ShowsFile (map string_bytes words.now) (Ok file.now)) result }
    ensures memory { StopsFolder result 0 0 }
{
    match image_in(alloc, 1, file) {
        Ok(image) => show_image(alloc, words, &image),
        Err(stop) => Err(stop),
    }
}

fn show_file(alloc: Global, words: &[String], file: &[u8]) -> Result<Plan, Stop>
    ensures shows { IsSettled (ShowsFile (map string_bytes words.now) (Ok file.now)) result }
    ensures memory { StopsFolder result 0 0 }
{
    if !has_magic(file) {
        return show_image_file(alloc, words, file);
    }
    match program_in(alloc, file) {
        Ok(program) => show_program(alloc, words, &program),
        Err(stop) => Err(stop),
    }
}

/// The text of the file that the word at an index names: the instructions of an ELF file, or what an
/// image holds.
pub fn show<F: Folder>(
    alloc: Global,
    words: &[String],
    at: usize,
    files: &mut F,
) -> Result<Plan, Stop>
    requires { at < 2 ^ 63 }
    ensures shows { IfSome (F.files files.old) (λ told. IsSettled (ShowsFile (map string_bytes words.now) (taken_word (map string_bytes words.now) told at)) result) }
    ensures files { F.files files.new ≡ F.files files.old }
    ensures cause { StopsFolder result (F.faults files.old) (F.faults files.new) }
{
    match take_word(alloc, words, at, files) {
        Ok(file) => show_file(alloc, words, file.as_slice()),
        Err(stop) => Err(stop),
    }
}
