// The commands `make` and `trial`.
ghost use Rattle.std.specs.Prelude.{◌≡◌, ◌++◌, ◌∷◌, [], None, length, map, string_bytes, IfOk, OnOk, codes};
ghost use Rattle.infinite_heap.specs.Elf.{program_of};
ghost use Rattle.layout_run.specs.Whole.{ran_of};
ghost use Rattle.hex_text.specs.Hex.{hex_of};
ghost use Rattle.work_maker.specs.Made.{made_file, made_words};
ghost use Rattle.exterm_cli.specs.Made.{sum_in, trial_line, trial_plan, trial_run, tried};
ghost use Rattle.exterm_cli.specs.Parts.{IsSettled, StopsFolder, plan_as};
ghost use Rattle.exterm_cli.specs.Plan.{gives};
ghost use Rattle.exterm_cli.specs.Report.{counts_text};
ghost use Rattle.exterm_cli.specs.Taking.{loaded};

use crate::cut::{Cut, Stop};
use crate::listing::byte_at;
use crate::plan::{Plan, given};
use crate::report::{HeapCounts, counts_text, unless_done};
use crate::run::counts_of;
use crate::taking::program_in;
use crate::words::USUAL_STEPS;
use ex_io::{SureSink, SureSource, Tape};
use infinite_heap::Program;
use layout_run::{Ran, run_one};
use patch_table::Patches;
use rv_machine::Settings;
use std::alloc::{AllocError, Global};
use work_maker::make_counted;

/// The file of a made program, on out or for a file.
pub fn make(alloc: Global, words: &[String], n: u32, to: Option<usize>) -> Result<Plan, Stop>
    ensures makes { IsSettled (λ plan. plan ≡ gives (map string_bytes words.now) to (made_file n)) result }
    ensures memory { StopsFolder result 0 0 }
{
    let Ok(file) = work_maker::make(alloc, n) else {
        return Err(Stop::CutShort(Cut::Memory));
    };
    match given(alloc, words, to, file) {
        Ok(plan) => Ok(plan),
        Err(_) => Err(Stop::CutShort(Cut::Memory)),
    }
}

// Runs a made program. What it reads and prints is in memory and never fails, so only memory can be wanting.
fn run_made(
    alloc: Global,
    program: Program,
    seed: u64,
    out: &mut SureSink,
) -> Result<Ran, AllocError>
    requires { out.old ≡ [] }
    ensures ran { IfOk result (λ ran. ran ≡ ran_of None (trial_run program seed)) }
    ensures out { OnOk result (out.new ≡ (trial_run program seed).out) }
{
    let mut args = Vec::new(alloc);
    args.push(String::from_str(alloc, "made")?)?;
    let settings = Settings {
        seed,
        zero: false,
        patches: Patches::new(alloc),
    };
    let mut input = SureSource::new(Vec::new(alloc));
    let Ok(mut tape) = Tape::new(alloc, &mut input, false) else {
        return Err(AllocError);
    };
    let mut err = SureSink::new(alloc);
    match run_one(
        alloc,
        program,
        args.as_slice(),
        settings,
        USUAL_STEPS,
        &mut tape,
        &mut input,
        out,
        &mut err,
        None,
        false,
    ) {
        Ok(ran) => Ok(ran),
        Err(_) => Err(AllocError),
    }
}

// The number that the first four bytes are, the lowest first.
fn sum_in(out: &[u8]) -> u32
    ensures { result ≡ sum_in out.now }
{
    u32::from_le_bytes([
        byte_at(out, 0),
        byte_at(out, 1),
        byte_at(out, 2),
        byte_at(out, 3),
    ])
}

#[tactic(auto, using(hex_text::specs::Laws::eight_digits))]
fn sum_text(alloc: Global, sum: u32) -> Result<String, AllocError>
    ensures { IfOk result (λ text. string_bytes text ≡ codes " sum " ++ hex_of 8 sum) }
{
    format!(in alloc; " sum {sum:08x}")
}

// What stands behind the number of words.
fn outcome_text(alloc: Global, sum: u32, counts: HeapCounts) -> Result<String, AllocError>
    ensures { IfOk result (λ text. string_bytes text ≡ codes " sum " ++ (hex_of 8 sum ++ (codes " " ++ (counts_text counts ++ 10 ∷ [])))) }
{
    let sum = sum_text(alloc, sum)?;
    let counts = counts_text(alloc, counts)?;
    format!(in alloc; "{sum} {counts}\n")
}

fn trial_line(
    alloc: Global,
    n: u32,
    words: usize,
    sum: u32,
    counts: HeapCounts,
) -> Result<String, AllocError>
    ensures { IfOk result (λ text. string_bytes text ≡ trial_line n words sum counts) }
{
    let outcome = outcome_text(alloc, sum, counts)?;
    format!(in alloc; "trial {n} words {words}{outcome}")
}

// Runs a made program of so many words, and gives its line.
fn try_program(
    alloc: Global,
    n: u32,
    words: usize,
    program: Program,
    seed: u64,
) -> Result<Plan, AllocError>
    requires { words ≡ length (made_words n) }
    ensures { IfOk result (λ plan. plan_as plan ≡ tried n (trial_run program seed) (ran_of None (trial_run program seed))) }
{
    let mut out = SureSink::new(alloc);
    let ran = run_made(alloc, program, seed, &mut out)?;
    let sum = sum_in(out.held());
    let text = trial_line(alloc, n, words, sum, counts_of(&ran))?;
    Ok(Plan {
        out: text.into_bytes(),
        file: None,
        verdict: unless_done(alloc, ran.ending, ran.steps)?,
    })
}

/// Runs a made program under a seed, and gives a line on what it came to.
pub fn trial(alloc: Global, n: u32, seed: u64) -> Result<Plan, Stop>
    ensures tries { IsSettled (λ plan. plan ≡ trial_plan n seed (loaded (program_of (made_file n)))) result }
    ensures memory { StopsFolder result 0 0 }
{
    let Ok(made) = make_counted(alloc, n) else {
        return Err(Stop::CutShort(Cut::Memory));
    };
    let program = match program_in(alloc, made.file.as_slice()) {
        Ok(program) => program,
        Err(stop) => return Err(stop),
    };
    match try_program(alloc, n, made.words, program, seed) {
        Ok(plan) => Ok(plan),
        Err(_) => Err(Stop::CutShort(Cut::Memory)),
    }
}
