// The top call.
ghost use Rattle.std.specs.Prelude.{◌≡◌, map, string_bytes, Err, IfSome, Ok};
ghost use Rattle.layout_run.specs.Outside.{held};
ghost use Rattle.exterm_cli.specs.Answers.{Answers};
ghost use Rattle.exterm_cli.specs.Ends.{line_of};
ghost use Rattle.exterm_cli.specs.Headline.{Headline};
ghost use Rattle.exterm_cli.specs.Outside.{RaisesAs, Seen, faults, seen};
ghost use Rattle.exterm_cli.specs.Parts.{PerformsWords, Tells, answered};

use crate::cut::Cut;
use crate::report::Verdict;
use crate::stage::{perform_stage, stage_of};
use elf_load::{programs_are_lawful, programs_hold_bytes};
use ex_io::{Folder, OutsideFault, Sink, Source};
use layout_run::{
    clear_runs_match, clear_runs_print_prefixes, places_in_the_input_rise,
    unstopped_runs_are_flat_runs,
};
use patch_table::{every_text_is_answered, one_answer, one_text_a_table};
use replicate::{clear_rounds_stay_whole, runs_are_one};
use rv_machine::runs_match;
use std::alloc::Global;

// What the words ask for, but for what is told on err.
fn perform<S: Source, O: Sink, E: Sink, F: Folder>(
    alloc: Global,
    words: &[String],
    input: &mut S,
    out: &mut O,
    err: &mut E,
    files: &mut F,
) -> Result<Verdict, Cut>
    ensures performs { IfSome (F.files files.old) (λ told. PerformsWords (map string_bytes words.now) result (S.left input.old) (S.left input.new)
        (held (O.held out.old) (E.held err.old)) (held (O.held out.new) (E.held err.new)) told (F.files files.new)) }
    ensures cause { RaisesAs result (faults (S.faults input.old) (O.faults out.old) (E.faults err.old) (F.faults files.old)) (faults (S.faults input.new) (O.faults out.new) (E.faults err.new) (F.faults files.new)) }
{
    one_answer();
    match stage_of(alloc, words, files) {
        Ok(stage) => perform_stage(alloc, stage, input, out, err, files),
        Err(cut) => Err(cut),
    }
}

fn line_of(cut: Cut) -> &'static [u8]
    ensures { result.now ≡ line_of cut }
{
    match cut {
        Cut::Memory => b"exterm: memory\n",
        Cut::Input => b"exterm: outside input\n",
        Cut::Output => b"exterm: outside output\n",
        Cut::Error => b"exterm: outside error\n",
        Cut::File => b"exterm: outside file\n",
    }
}

// Puts the line of a cause, and says what is answered: that cause, or Memory where the line wanted memory. After a
// failure of err nothing more is put.
fn tell_cut<E: Sink>(err: &mut E, cause: Cut) -> Cut
    ensures told { Tells (Err cause) (Err result) (E.held err.old) (E.held err.new) (E.faults err.old) (E.faults err.new) }
{
    if cause == Cut::Error {
        return cause;
    }
    match err.put(line_of(cause)) {
        Ok(()) => cause,
        Err(OutsideFault::Failed) => cause,
        Err(OutsideFault::Memory) => Cut::Memory,
    }
}

// Puts the report, where there is one, and says what is answered.
fn tell_verdict<E: Sink>(err: &mut E, verdict: Verdict) -> Result<u8, Cut>
    ensures told { Tells (Ok verdict) result (E.held err.old) (E.held err.new) (E.faults err.old) (E.faults err.new) }
{
    if verdict.report.is_empty() {
        return Ok(verdict.status);
    }
    match err.put(verdict.report.as_bytes()) {
        Ok(()) => Ok(verdict.status),
        Err(OutsideFault::Failed) => Err(Cut::Error),
        Err(OutsideFault::Memory) => Err(tell_cut(err, Cut::Memory)),
    }
}

// Puts the report or the line of a cause, and says what is answered.
fn tell<E: Sink>(err: &mut E, performed: Result<Verdict, Cut>) -> Result<u8, Cut>
    ensures told { Tells performed result (E.held err.old) (E.held err.new) (E.faults err.old) (E.faults err.new) }
{
    match performed {
        Ok(verdict) => tell_verdict(err, verdict),
        Err(cause) => Err(tell_cut(err, cause)),
    }
}

fn status_of(answer: Result<u8, Cut>) -> u8
    ensures { result ≡ answered answer }
{
    match answer {
        Ok(status) => status,
        Err(Cut::Memory) => 126,
        Err(_) => 127,
    }
}

/// Tells of want of memory before any word could be read, and answers the exit status.
pub fn out_of_memory<E: Sink>(err: &mut E) -> u8
    ensures { result ≡ 126 }
{
    let answer = tell_cut(err, Cut::Memory);
    status_of(Err(answer))
}

/// Does what the words ask for, and answers the exit status. What a guest prints goes to `out` and `err`, and
/// the program's own lines to `err`, behind the guest's: its report, or one line that says what was
/// refused or what failed.
///
/// - 0 to 255, as the guest exits; 123 where it ended in a fault, 124 where its steps were used up, and 125
///   where its heap met no room
/// - 113 a file that is absent or too long, 114 what isn't built yet, 116 an input that is too long
/// - 118 a vote of replicas that is lost
/// - 120 the words, 121 the ELF file, 122 a patch file
/// - 126 want of memory, 127 a fault of the input, an output or the folder
pub fn exterm<S: Source, O: Sink, E: Sink, F: Folder>(
    alloc: Global,
    words: &[String],
    input: &mut S,
    out: &mut O,
    err: &mut E,
    files: &mut F,
) -> u8
    ensures answers { let before : Seen = seen (held (O.held out.old) (E.held err.old)) (F.files files.old) (S.left input.old) (faults (S.faults input.old) (O.faults out.old) (E.faults err.old) (F.faults files.old)) in
        let after : Seen = seen (held (O.held out.new) (E.held err.new)) (F.files files.new) (S.left input.new) (faults (S.faults input.new) (O.faults out.new) (E.faults err.new) (F.faults files.new)) in
        Answers (map string_bytes words.now) before after result }

    // Where the run on the infinite heap is clear and covered, the bytes and the status are that run's.
    ensures headline { let before : Seen = seen (held (O.held out.old) (E.held err.old)) (F.files files.old) (S.left input.old) (faults (S.faults input.old) (O.faults out.old) (E.faults err.old) (F.faults files.old)) in
        let after : Seen = seen (held (O.held out.new) (E.held err.new)) (F.files files.new) (S.left input.new) (faults (S.faults input.new) (O.faults out.new) (E.faults err.new) (F.faults files.new)) in
        Headline (map string_bytes words.now) before after result }
{
    input.tells_bytes();
    files.tells_bytes();
    programs_hold_bytes();
    clear_runs_match();
    clear_runs_print_prefixes();
    clear_rounds_stay_whole();
    runs_are_one();
    places_in_the_input_rise();
    runs_match();
    unstopped_runs_are_flat_runs();
    programs_are_lawful();
    every_text_is_answered();
    one_answer();
    one_text_a_table();
    let performed = perform(alloc, words, input, out, err, files);
    let answer = tell(err, performed);
    status_of(answer)
}
