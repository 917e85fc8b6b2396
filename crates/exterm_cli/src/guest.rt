// A guest that is to be run, as words and files give it.
ghost use Rattle.std.specs.Prelude.{◌≡◌, drop, length, map, string_bytes, ◌++◌, ◌<◌, ◌≤◌, ◌^◌, IfOk, IfSome, Ok};
ghost use Rattle.infinite_heap.specs.Elf.{program_of};
ghost use Rattle.infinite_heap.specs.Start.{IsWithin};
ghost use Rattle.exterm_cli.specs.Accepted.{AcceptsGuest};
ghost use Rattle.exterm_cli.specs.Counted.{args_of, IsGiven, LiesGuest};
ghost use Rattle.layout_run.specs.Whole.{most_steps};
ghost use Rattle.exterm_cli.specs.Parts.{IsPlanned, MayRun, StopsFolder, guest_as};

use crate::cut::{Cut, Stop};
use crate::taking::{patches_of, program_in, take_word};
use crate::words::GuestWords;
use ex_io::Folder;
use infinite_heap::Program;
use rv_machine::Settings;
use std::alloc::{AllocError, Global};

/// A guest whose words and files are accepted. Who runs it several times loads its file again.
#[derive(Drop)]
pub struct Accepted {
    pub file: Vec<u8>,
    pub program: Program,
    pub args: Vec<String>,
    pub settings: Settings,
    /// The most steps of a run.
    pub budget: u64,
}

// Adds copies of these words.
fn push_words(args: &mut Vec<String>, words: &[String]) -> Result<(), AllocError>
    ensures { IfOk result (λ _. map string_bytes args.new.items ≡ map string_bytes args.old.items ++ map string_bytes words.now) }
{
    for word in words {
        args.push(word.clone()?)?;
    }
    Ok(())
}

// The words behind the first `count`.
fn words_from(words: &[String], count: usize) -> &[String]
    ensures { map string_bytes result.now ≡ drop count (map string_bytes words.now) }
{
    if count < words.len() {
        &words[count..]
    } else {
        &[]
    }
}

// The argument list of a guest.
fn args_of(alloc: Global, words: &[String], guest: GuestWords) -> Result<Vec<String>, AllocError>
    requires { guest.elf < length words.now }
    ensures { IfOk result (λ args. map string_bytes args.items ≡ args_of (map string_bytes words.now) guest) }
{
    let mut args = Vec::new(alloc);
    args.push(words[guest.elf].clone()?)?;
    push_words(&mut args, words_from(words, guest.guest))?;
    Ok(args)
}

/// Takes and reads the files of a guest that words ask for: its program, and then its patches.
pub fn accept_guest<F: Folder>(
    alloc: Global,
    words: &[String],
    guest: GuestWords,
    files: &mut F,
) -> Result<Accepted, Stop>
    requires given { IsGiven (map string_bytes words.now) guest }
    requires lasts { guest.steps ≤ most_steps }
    requires lies { LiesGuest (2 ^ 63) guest }
    ensures accepts { IfSome (F.files files.old) (λ told. IsPlanned guest_as (AcceptsGuest (map string_bytes words.now) told guest) result) }
    ensures may { IfOk result (λ accepted. MayRun (guest_as accepted)) }
    ensures loads { IfOk result (λ accepted. program_of accepted.file.items ≡ Ok accepted.program) }
    ensures files { F.files files.new ≡ F.files files.old }
    ensures cause { StopsFolder result (F.faults files.old) (F.faults files.new) }
{
    let Ok(args) = args_of(alloc, words, guest) else {
        return Err(Stop::CutShort(Cut::Memory));
    };
    let file = match take_word(alloc, words, guest.elf, files) {
        Ok(file) => file,
        Err(stop) => return Err(stop),
    };
    let program = match program_in(alloc, file.as_slice()) {
        Ok(program) => program,
        Err(stop) => return Err(stop),
    };
    let patches = match patches_of(alloc, words, guest.patches, files) {
        Ok(patches) => patches,
        Err(stop) => return Err(stop),
    };
    Ok(Accepted {
        file,
        program,
        args,
        settings: Settings {
            seed: guest.seed,
            zero: guest.zero,
            patches,
        },
        budget: guest.steps,
    })
}
