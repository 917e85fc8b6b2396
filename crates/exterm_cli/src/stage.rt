// What words and files lead to, a row for each command, and how that is carried out.
ghost use Rattle.std.specs.Prelude.{◌≡◌, ◌+◌, ◌<◌, ◌≤◌, ◌^◌, length, Ok, IfOk, IfSome, map, string_bytes};
ghost use Rattle.layout_run.specs.Outside.{held};
ghost use Rattle.layout_run.specs.Whole.{most_steps};
ghost use Rattle.exterm_cli.specs.Counted.{GivesGuest, IsGiven, LastsGuest, LiesGuest, LiesIn};
ghost use Rattle.exterm_cli.specs.Isolate.{LeadsIsolate};
ghost use Rattle.exterm_cli.specs.Leads.{Leads, LeadsCommand};
ghost use Rattle.exterm_cli.specs.Outside.{RaisesAs, faults};
ghost use Rattle.exterm_cli.specs.Parts.{IsLed, MayPerform, PerformsStage, RaisesFolder, StopsFolder, name_as, stage_as};
ghost use Rattle.exterm_cli.specs.Repair.{LeadsRepair};
ghost use Rattle.exterm_cli.specs.Replicate.{LeadsReplicate};
ghost use Rattle.exterm_cli.specs.Run.{LeadsRun, word_named};

use crate::cut::{Cut, Stop};
use crate::guest::{Accepted, accept_guest};
use crate::isolate::{images_of, isolate};
use crate::made::{make, trial};
use crate::merge::merge;
use crate::plan::{Plan, refused, settle, word_at};
use crate::refusals::{unbuilt, wrong_words};
use crate::repair::repair;
use crate::report::Verdict;
use crate::run::run;
use crate::show::show;
use crate::voting::replicate;
use crate::words::{Command, FileWords, GuestWords, read_words};
use ex_io::{Folder, Sink, Source};
use heap_image::Image;
use std::alloc::{AllocError, Global};

/// What words and files lead to: they settle what is done, or a command takes the input.
#[derive(Drop)]
pub enum Stage {
    Settles(Plan),
    /// A guest is run, and its image is written to the file of this name.
    Runs(Accepted, Option<String>),
    /// A guest is repaired from so many images, and its patches are written to the file of this name.
    Repairs(Accepted, u8, String),
    /// So many replicas of a guest vote, in turns of so many steps, and their last table is written to the file of this name.
    Replicates(Accepted, u8, u64, Option<String>),
    /// Images call for patches, which go to out or to the file of this name.
    Isolates(Vec<Image>, Option<String>),
}

// The word at an index, where there is one.
fn name_of_word(
    alloc: Global,
    words: &[String],
    at: Option<usize>,
) -> Result<Option<String>, AllocError>
    ensures { IfOk result (λ name. name_as name ≡ word_named (map string_bytes words.now) at) }
{
    match at {
        None => Ok(None),
        Some(at) => {
            let name = String::from_str(alloc, word_at(words, at))?;
            Ok(Some(name))
        }
    }
}

fn lead_run<F: Folder>(
    alloc: Global,
    words: &[String],
    guest: GuestWords,
    image: Option<usize>,
    files: &mut F,
) -> Result<Stage, Stop>
    requires given { IsGiven (map string_bytes words.now) guest }
    requires lasts { guest.steps ≤ most_steps }
    requires lies { LiesGuest (2 ^ 63) guest }
    ensures leads { IfSome (F.files files.old) (λ told. IsLed (LeadsRun (map string_bytes words.now) told guest image) result) }
    ensures may { IfOk result MayPerform }
    ensures files { F.files files.new ≡ F.files files.old }
    ensures cause { StopsFolder result (F.faults files.old) (F.faults files.new) }
{
    let Ok(name) = name_of_word(alloc, words, image) else {
        return Err(Stop::CutShort(Cut::Memory));
    };
    match accept_guest(alloc, words, guest, files) {
        Ok(accepted) => Ok(Stage::Runs(accepted, name)),
        Err(stop) => Err(stop),
    }
}

fn lead_repair<F: Folder>(
    alloc: Global,
    words: &[String],
    guest: GuestWords,
    images: u64,
    to: usize,
    files: &mut F,
) -> Result<Stage, Stop>
    requires given { IsGiven (map string_bytes words.now) guest }
    requires lasts { guest.steps ≤ most_steps }
    requires lies { LiesGuest (2 ^ 63) guest }
    requires least { 2 ≤ images }
    requires most { images ≤ 16 }
    ensures leads { IfSome (F.files files.old) (λ told. IsLed (LeadsRepair (map string_bytes words.now) told guest images to) result) }
    ensures may { IfOk result MayPerform }
    ensures files { F.files files.new ≡ F.files files.old }
    ensures cause { StopsFolder result (F.faults files.old) (F.faults files.new) }
{
    let Ok(to) = String::from_str(alloc, word_at(words, to)) else {
        return Err(Stop::CutShort(Cut::Memory));
    };
    match accept_guest(alloc, words, guest, files) {
        Ok(accepted) => Ok(Stage::Repairs(accepted, images as u8, to)),
        Err(stop) => Err(stop),
    }
}

fn lead_replicate<F: Folder>(
    alloc: Global,
    words: &[String],
    guest: GuestWords,
    replicas: u64,
    quantum: u64,
    to: Option<usize>,
    files: &mut F,
) -> Result<Stage, Stop>
    requires given { IsGiven (map string_bytes words.now) guest }
    requires lasts { guest.steps ≤ most_steps }
    requires lies { LiesGuest (2 ^ 63) guest }
    requires least { 3 ≤ replicas }
    requires most { replicas ≤ 9 }
    requires turns { 1 ≤ quantum }
    ensures leads { IfSome (F.files files.old) (λ told. IsLed (LeadsReplicate (map string_bytes words.now) told guest replicas to) result) }
    ensures may { IfOk result MayPerform }
    ensures files { F.files files.new ≡ F.files files.old }
    ensures cause { StopsFolder result (F.faults files.old) (F.faults files.new) }
{
    let Ok(name) = name_of_word(alloc, words, to) else {
        return Err(Stop::CutShort(Cut::Memory));
    };
    match accept_guest(alloc, words, guest, files) {
        Ok(accepted) => Ok(Stage::Replicates(accepted, replicas as u8, quantum, name)),
        Err(stop) => Err(stop),
    }
}

fn lead_images<F: Folder>(
    alloc: Global,
    words: &[String],
    names: FileWords,
    files: &mut F,
) -> Result<Stage, Stop>
    requires { names.first + names.count < 2 ^ 63 }
    ensures leads { IfSome (F.files files.old) (λ told. IsLed (LeadsIsolate (map string_bytes words.now) told names) result) }
    ensures may { IfOk result MayPerform }
    ensures files { F.files files.new ≡ F.files files.old }
    ensures cause { StopsFolder result (F.faults files.old) (F.faults files.new) }
{
    let Ok(to) = name_of_word(alloc, words, names.out) else {
        return Err(Stop::CutShort(Cut::Memory));
    };
    match images_of(alloc, words, names, files) {
        Ok(images) => Ok(Stage::Isolates(images, to)),
        Err(stop) => Err(stop),
    }
}

// What a command leads to.
fn lead_command<F: Folder>(
    alloc: Global,
    words: &[String],
    command: Command,
    files: &mut F,
) -> Result<Stage, Stop>
    requires given { GivesGuest (map string_bytes words.now) command }
    requires lasts { LastsGuest command }
    requires lies { LiesIn (length (map string_bytes words.now)) command }
    ensures leads { IfSome (F.files files.old) (λ told. IsLed (LeadsCommand (map string_bytes words.now) told (Ok command)) result) }
    ensures may { IfOk result MayPerform }
    ensures files { F.files files.new ≡ F.files files.old }
    ensures cause { StopsFolder result (F.faults files.old) (F.faults files.new) }
{
    match command {
        Command::Run { guest, image } => lead_run(alloc, words, guest, image, files),
        Command::Show { file } => match show(alloc, words, file, files) {
            Ok(plan) => Ok(Stage::Settles(plan)),
            Err(stop) => Err(stop),
        },
        Command::Merge(names) => match merge(alloc, words, names, files) {
            Ok(plan) => Ok(Stage::Settles(plan)),
            Err(stop) => Err(stop),
        },
        Command::Isolate(names) => lead_images(alloc, words, names, files),
        Command::Make { n, out } => match make(alloc, words, n, out) {
            Ok(plan) => Ok(Stage::Settles(plan)),
            Err(stop) => Err(stop),
        },
        Command::Trial { n, seed } => match trial(alloc, n, seed) {
            Ok(plan) => Ok(Stage::Settles(plan)),
            Err(stop) => Err(stop),
        },
        Command::Repair { guest, images, out } => {
            lead_repair(alloc, words, guest, images, out, files)
        }
        Command::Replicate {
            guest,
            replicas,
            quantum,
            out,
        } => lead_replicate(alloc, words, guest, replicas, quantum, out, files),
        Command::Judge { .. } => Err(unbuilt(alloc)),
    }
}

fn lead<F: Folder>(alloc: Global, words: &[String], files: &mut F) -> Result<Stage, Stop>
    ensures leads { IfSome (F.files files.old) (λ told. IsLed (Leads (map string_bytes words.now) told) result) }
    ensures may { IfOk result MayPerform }
    ensures files { F.files files.new ≡ F.files files.old }
    ensures cause { StopsFolder result (F.faults files.old) (F.faults files.new) }
{
    match read_words(words) {
        Ok(command) => lead_command(alloc, words, command, files),
        Err(refusal) => Err(wrong_words(alloc, refusal)),
    }
}

/// What the words and the files lead to. Files are taken and read, and nothing is printed or written.
pub fn stage_of<F: Folder>(alloc: Global, words: &[String], files: &mut F) -> Result<Stage, Cut>
    ensures leads { IfSome (F.files files.old) (λ told. IfOk result (λ stage. Leads (map string_bytes words.now) told (stage_as stage))) }
    ensures may { IfOk result MayPerform }
    ensures files { F.files files.new ≡ F.files files.old }
    ensures cause { RaisesFolder result (F.faults files.old) (F.faults files.new) }
{
    match lead(alloc, words, files) {
        Ok(stage) => Ok(stage),
        Err(Stop::Refused(verdict)) => Ok(Stage::Settles(refused(alloc, verdict))),
        Err(Stop::CutShort(cut)) => Err(cut),
    }
}

/// Prints and writes what is planned, and says what is to be told.
pub fn perform_stage<S: Source, O: Sink, E: Sink, F: Folder>(
    alloc: Global,
    stage: Stage,
    input: &mut S,
    out: &mut O,
    err: &mut E,
    files: &mut F,
) -> Result<Verdict, Cut>
    requires may { MayPerform stage }
    ensures performs { IfSome (F.files files.old) (λ told. PerformsStage (stage_as stage) result (S.left input.old) (S.left input.new)
        (held (O.held out.old) (E.held err.old)) (held (O.held out.new) (E.held err.new)) told (F.files files.new)) }
    ensures cause { RaisesAs result (faults (S.faults input.old) (O.faults out.old) (E.faults err.old) (F.faults files.old)) (faults (S.faults input.new) (O.faults out.new) (E.faults err.new) (F.faults files.new)) }
{
    match stage {
        Stage::Settles(plan) => settle(plan, out, files),
        Stage::Runs(accepted, image) => run(alloc, accepted, image, input, out, err, files),
        Stage::Repairs(accepted, images, to) => {
            repair(alloc, accepted, images, to, input, out, err, files)
        }
        Stage::Replicates(accepted, replicas, quantum, to) => {
            replicate(
                alloc, accepted, replicas, quantum, to, input, out, err, files,
            )
        }
        Stage::Isolates(images, to) => isolate(alloc, images.as_slice(), to, out, files),
    }
}
