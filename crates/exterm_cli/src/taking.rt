// Files that words name, as they are taken and read.
ghost use Rattle.std.specs.Prelude.{◌≡◌, ◌<◌, ◌^◌, IfSome, map, string_bytes};
ghost use Rattle.infinite_heap.specs.Elf.{program_of};
ghost use Rattle.exterm_cli.specs.Counted.{word};
ghost use Rattle.exterm_cli.specs.Parts.{IsPlanned, StopsFolder};
ghost use Rattle.exterm_cli.specs.Taking.{ReadsImage, ReadsPatches, ReadsTable, ReadsTaken, loaded, taken_word};

use crate::cut::{Cut, Stop};
use crate::plan::word_at;
use crate::refusals::{absent, no_image_in, no_patches_in, no_program, too_long};
use elf_load::load;
use ex_io::{Folder, TakeFault};
use heap_image::{Image, ImageRefusal};
use infinite_heap::{ElfRefusal, Program};
use patch_table::{PatchRefusal, Patches};
use std::alloc::Global;

/// Takes the file that the word at an index names.
pub fn take_word<F: Folder>(
    alloc: Global,
    words: &[String],
    at: usize,
    files: &mut F,
) -> Result<Vec<u8>, Stop>
    requires { at < 2 ^ 63 }
    ensures taken { IfSome (F.files files.old) (λ told. IsPlanned (λ file. file.items) (λ taken. taken ≡ taken_word (map string_bytes words.now) told at) result) }
    ensures files { F.files files.new ≡ F.files files.old }
    ensures cause { StopsFolder result (F.faults files.old) (F.faults files.new) }
{
    match files.take_file(word_at(words, at)) {
        Ok(file) => Ok(file),
        Err(TakeFault::Absent) => Err(absent(alloc, at + 1)),
        Err(TakeFault::Long) => Err(too_long(alloc, at + 1)),
        Err(TakeFault::Failed) => Err(Stop::CutShort(Cut::File)),
        Err(TakeFault::Memory) => Err(Stop::CutShort(Cut::Memory)),
    }
}

/// The program of a file.
pub fn program_in(alloc: Global, file: &[u8]) -> Result<Program, Stop>
    ensures loads { IsPlanned (λ program. program) (λ read. read ≡ loaded (program_of file.now)) result }
    ensures memory { StopsFolder result 0 0 }
{
    match load(alloc, file) {
        Ok(program) => Ok(program),
        Err(ElfRefusal::Memory) => Err(Stop::CutShort(Cut::Memory)),
        Err(refusal) => Err(no_program(alloc, refusal)),
    }
}

// The table of the text of patch file `k`.
fn table_in(alloc: Global, k: u64, text: &[u8]) -> Result<Patches, Stop>
    ensures reads { IsPlanned (λ table. table) (ReadsTable k text.now) result }
    ensures memory { StopsFolder result 0 0 }
{
    match Patches::read(alloc, text) {
        Ok(table) => Ok(table),
        Err(PatchRefusal::Memory) => Err(Stop::CutShort(Cut::Memory)),
        Err(refusal) => Err(no_patches_in(alloc, k, refusal)),
    }
}

/// The image that file `k` of the command is.
pub fn image_in(alloc: Global, k: u64, bytes: &[u8]) -> Result<Image, Stop>
    ensures reads { IsPlanned (λ image. image) (ReadsImage k bytes.now) result }
    ensures memory { StopsFolder result 0 0 }
{
    match Image::read(alloc, bytes) {
        Ok(image) => Ok(image),
        Err(ImageRefusal::Memory) => Err(Stop::CutShort(Cut::Memory)),
        Err(refusal) => Err(no_image_in(alloc, k, refusal)),
    }
}

/// Takes the file that the word at an index names, and reads it as image `k` of the command.
pub fn image_of_word<F: Folder>(
    alloc: Global,
    words: &[String],
    at: usize,
    k: u64,
    files: &mut F,
) -> Result<Image, Stop>
    requires { at < 2 ^ 63 }
    ensures reads { IfSome (F.files files.old) (λ told. IsPlanned (λ image. image) (ReadsTaken ReadsImage k (taken_word (map string_bytes words.now) told at)) result) }
    ensures files { F.files files.new ≡ F.files files.old }
    ensures cause { StopsFolder result (F.faults files.old) (F.faults files.new) }
{
    match take_word(alloc, words, at, files) {
        Ok(file) => image_in(alloc, k, file.as_slice()),
        Err(stop) => Err(stop),
    }
}

/// Takes the file that the word at an index names, and reads it as patch file `k` of the command.
pub fn table_of_word<F: Folder>(
    alloc: Global,
    words: &[String],
    at: usize,
    k: u64,
    files: &mut F,
) -> Result<Patches, Stop>
    requires { at < 2 ^ 63 }
    ensures reads { IfSome (F.files files.old) (λ told. IsPlanned (λ table. table) (ReadsTaken ReadsTable k (taken_word (map string_bytes words.now) told at)) result) }
    ensures files { F.files files.new ≡ F.files files.old }
    ensures cause { StopsFolder result (F.faults files.old) (F.faults files.new) }
{
    match take_word(alloc, words, at, files) {
        Ok(text) => table_in(alloc, k, text.as_slice()),
        Err(stop) => Err(stop),
    }
}

/// The table of the one patch file of a command, where it names one. Otherwise it is empty.
pub fn patches_of<F: Folder>(
    alloc: Global,
    words: &[String],
    patches: Option<usize>,
    files: &mut F,
) -> Result<Patches, Stop>
    requires { IfSome patches (λ at. at < 2 ^ 63) }
    ensures reads { IfSome (F.files files.old) (λ told. IsPlanned (λ table. table) (ReadsPatches (map string_bytes words.now) told patches) result) }
    ensures files { F.files files.new ≡ F.files files.old }
    ensures cause { StopsFolder result (F.faults files.old) (F.faults files.new) }
{
    match patches {
        None => Ok(Patches::new(alloc)),
        Some(at) => table_of_word(alloc, words, at, 1, files),
    }
}
