// A repair: the run that prints, the runs after it, and what their images call for.
ghost use Rattle.std.specs.Prelude.{◌≡◌, ◌<◌, ◌≤◌, ◌∷◌, ◌-◌, max, IfOk, IfSome, None, OnOk, Ok, Some, length, map, string_bytes};
ghost use Rattle.std.specs.List.{range_with_len};
ghost use Rattle.ex_io.specs.Tape.{input as unread, most_kept};
ghost use Rattle.infinite_heap.specs.Elf.{program_of};
ghost use Rattle.infinite_heap.specs.Loaded.{Loaded};
ghost use Rattle.infinite_heap.specs.Start.{IsWithin};
ghost use Rattle.layout_run.specs.Advances.{CutsInput};
ghost use Rattle.layout_run.specs.Imaged.{image_of_run, with_image};
ghost use Rattle.layout_run.specs.Outside.{faults, held};
ghost use Rattle.layout_run.specs.Runs.{CutsRun, LeavesTape, RefusesInput, RunsAs, StopsAtLimit};
ghost use Rattle.layout_run.specs.Whole.{most_steps, run_until};
ghost use Rattle.iterate.specs.Parts.{CutsRest, InputIsSame, InputStaysSame, IsStillWhole, IsWhole, Settles, SettlesBy, job_of};
ghost use Rattle.iterate.specs.Repairs.{CutsRepair, LeavesInput, Repairs};
ghost use Rattle.iterate.specs.Reruns.{first_image, highest, printed_ran, printed_run, rerun, rerun_image, reseeded, stop_number};

use crate::isolated::isolate;
use culprits::Isolated;
use elf_load::load;
use ex_io::{OutsideFault, Sink, Source, Tape};
use exact_heap::Place;
use heap_image::{Image, IsoRefusal};
use layout_run::{Ran, RunRefusal, places_in_the_input_rise, run_one};
use patch_table::Patches;
use rv_machine::Settings;
use std::alloc::{AllocError, Global};

/// What a repair comes to.
#[derive(Drop)]
pub struct Repaired {
    /// The run that printed, without its image.
    pub ran: Ran,
    /// How many images were taken, none where the run had no signal.
    pub images: u8,
    /// The table that was given, joined with what was found.
    pub patches: Patches,
    /// The sites with a pad and those with a front that were found.
    pub pads: u64,
    /// The pairs of sites that were found.
    pub defers: u64,
}

/// Why a repair gives no table.
#[derive(Clone, Copy, Debug, PartialEq, Eq, Drop)]
pub enum RepairRefusal {
    /// A run was cut short.
    Run(RunRefusal),
    /// A run ended before it came to the heap call of the first signal, so that the images can't be compared.
    Mixed,
}

/// Runs the program of an ELF file, which prints. Where its heap has a signal, `images` images are taken at the first one:
/// of this run, and of runs under the following seeds, which print nothing. What they call for is joined with the patches
/// of the settings.
///
/// The input is taken as it is read, and kept, since all runs read it; a run that reads past its first 67,108,864 bytes is
/// refused. `file` is one that `load` accepts, and `images` is 2 to 16.
pub fn repair<S: Source, O: Sink, E: Sink>(
    alloc: Global,
    file: &[u8],
    args: &[String],
    settings: Settings,
    budget: u64,
    images: u8,
    input: &mut S,
    out: &mut O,
    err: &mut E,
) -> Result<Repaired, RepairRefusal>
    requires loads { (program : Loaded) × (program_of file.now ≡ Ok program) }
    requires args { IsWithin (map string_bytes args.now) }
    requires budget { budget ≤ most_steps }
    requires least { 2 ≤ images }
    requires most { images ≤ 16 }
    ensures repairs { IfSome (S.left input.old) (λ bytes. (program : Loaded) → program_of file.now ≡ Ok program
        → Repairs (record { program = program; args = map string_bytes args.now; settings = settings; budget = budget }) bytes images result
        (held (O.held out.old) (E.held err.old)) (held (O.held out.new) (E.held err.new))) }
    ensures left { IfSome (S.left input.old) (λ bytes. (program : Loaded) → program_of file.now ≡ Ok program
        → LeavesInput (record { program = program; args = map string_bytes args.now; settings = settings; budget = budget }) bytes images result (S.left input.new)) }
    ensures cause { CutsRepair result (faults (S.faults input.old) (O.faults out.old) (E.faults err.old)) (faults (S.faults input.new) (O.faults out.new) (E.faults err.new)) }
{
    let Ok(mut tape) = Tape::new(alloc, input, true) else {
        return Err(RepairRefusal::Run(RunRefusal::Memory));
    };
    let Ok(copy) = copy_of(&settings) else {
        return Err(RepairRefusal::Run(RunRefusal::Memory));
    };
    match imaged_run(
        alloc, file, args, copy, budget, &mut tape, input, out, err, None,
    ) {
        Ok(ran) => {
            tape.has_answered();
            let result = rest_of_repair(
                alloc, file, args, settings, budget, images, &mut tape, input, ran,
            );
            tape.has_answered();
            result
        }
        Err(refused) => Err(RepairRefusal::Run(refused)),
    }
}

fn copy_of(settings: &Settings) -> Result<Settings, AllocError>
    ensures { IfOk result (λ copy. copy ≡ settings.now) }
{
    Ok(Settings {
        seed: settings.seed,
        zero: settings.zero,
        patches: settings.patches.copy()?,
    })
}

// ---- a run with its image

fn imaged_run<S: Source, O: Sink, E: Sink>(
    alloc: Global,
    file: &[u8],
    args: &[String],
    settings: Settings,
    budget: u64,
    tape: &mut Tape,
    input: &mut S,
    out: &mut O,
    err: &mut E,
    stop_at: Option<u64>,
) -> Result<Ran, RunRefusal>
    requires args { IsWithin (map string_bytes args.now) }
    requires budget { budget ≤ most_steps }
    requires whole { IsWhole tape.old }
    ensures runs { IfSome (unread tape.old (S.left input.old)) (λ bytes. (program : Loaded) → program_of file.now ≡ Ok program
        → RunsAs stop_at (run_until program (map string_bytes args.now) settings bytes stop_at budget)
        (Some (image_of_run program (map string_bytes args.now) settings bytes stop_at budget)) result
        (held (O.held out.old) (E.held err.old)) (held (O.held out.new) (E.held err.new))) }
    ensures whole { OnOk result (IsWhole tape.new) }
    ensures same { OnOk result (InputIsSame tape.old tape.new (S.left input.old) (S.left input.new)) }
    ensures leaves { IfSome (unread tape.old (S.left input.old)) (λ bytes. (program : Loaded) → program_of file.now ≡ Ok program
        → LeavesTape (run_until program (map string_bytes args.now) settings bytes stop_at budget) result tape.old tape.new) }
    ensures limit { RefusesInput result tape.old (IfSome (unread tape.old (S.left input.old)) (λ bytes. (program : Loaded) → program_of file.now ≡ Ok program
        → StopsAtLimit (run_until program (map string_bytes args.now) settings bytes stop_at) budget (held (O.held out.old) (E.held err.old)) (held (O.held out.new) (E.held err.new)))) }
    ensures cause { CutsRun result (faults (S.faults input.old) (O.faults out.old) (E.faults err.old)) (faults (S.faults input.new) (O.faults out.new) (E.faults err.new)) }
{
    let Ok(program) = load(alloc, file) else {
        return Err(RunRefusal::Memory);
    };
    run_one(
        alloc, program, args, settings, budget, tape, input, out, err, stop_at, true,
    )
}

// ---- the runs after the one that prints

// Drops what is put on it.
#[derive(Drop)]
struct Dropped {}

impl Sink for Dropped {
    ghost held = { λ _. None };

    ghost faults = { λ _. 0 };

    fn put(&mut self, bytes: &[u8]) -> Result<(), OutsideFault> {
        let _ = bytes;
        Ok(())
    }
}

fn reseeded(settings: &Settings, i: u8) -> Result<Settings, AllocError>
    ensures { IfOk result (λ copy. copy ≡ reseeded i settings.now) }
{
    let mut copy = copy_of(settings)?;
    copy.seed = settings.seed.wrapping_add(u64::from(i));
    Ok(copy)
}

fn stop_number(place: Place) -> u64
    ensures { result ≡ stop_number place }
{
    match place {
        Place::Call(call) => call,
        Place::End => u64::MAX,
    }
}

// The image of a run under the i-th seed behind the first.
fn rerun<S: Source>(
    alloc: Global,
    file: &[u8],
    args: &[String],
    settings: &Settings,
    budget: u64,
    tape: &mut Tape,
    input: &mut S,
    place: Place,
    i: u8,
) -> Result<Image, RunRefusal>
    requires args { IsWithin (map string_bytes args.now) }
    requires budget { budget ≤ most_steps }
    requires whole { IsWhole tape.old }
    ensures image { IfOk result (λ image. IfSome (unread tape.old (S.left input.old)) (λ bytes. (program : Loaded) → program_of file.now ≡ Ok program
        → image ≡ rerun_image (job_of program (map string_bytes args.now) settings.now budget) bytes place i)) }
    ensures whole { OnOk result (IsWhole tape.new) }
    ensures same { OnOk result (InputIsSame tape.old tape.new (S.left input.old) (S.left input.new)) }
    ensures high { IfOk result (λ image. IfSome (unread tape.old (S.left input.old)) (λ bytes. (program : Loaded) → program_of file.now ≡ Ok program
        → tape.new.high ≡ max tape.old.high (rerun (job_of program (map string_bytes args.now) settings.now budget) bytes place i).place)) }
    ensures limit { RefusesInput result tape.old (IfSome (unread tape.old (S.left input.old)) (λ bytes. (program : Loaded) → program_of file.now ≡ Ok program
        → most_kept < (rerun (job_of program (map string_bytes args.now) settings.now budget) bytes place i).place)) }
    ensures cause { CutsInput result (S.faults input.old) (S.faults input.new) }
{
    places_in_the_input_rise();
    let Ok(settings) = reseeded(settings, i) else {
        return Err(RunRefusal::Memory);
    };
    let mut out = Dropped {};
    let mut err = Dropped {};
    let stop_at = Some(stop_number(place));
    match imaged_run(
        alloc, file, args, settings, budget, tape, input, &mut out, &mut err, stop_at,
    ) {
        Ok(ran) => match ran.image {
            Some(image) => Ok(image),
            None => Err(RunRefusal::Memory),
        },
        Err(refused) => Err(refused),
    }
}

// The first image and those of the later runs, so many in all.
fn images_from<S: Source>(
    alloc: Global,
    file: &[u8],
    args: &[String],
    settings: &Settings,
    budget: u64,
    count: u8,
    tape: &mut Tape,
    input: &mut S,
    first: Image,
) -> Result<Vec<Image>, RunRefusal>
    requires args { IsWithin (map string_bytes args.now) }
    requires budget { budget ≤ most_steps }
    requires least { 1 ≤ count }
    requires whole { IsWhole tape.old }
    ensures images { IfOk result (λ images. IfSome (unread tape.old (S.left input.old)) (λ bytes. (program : Loaded) → program_of file.now ≡ Ok program
        → images.items ≡ first ∷ map (rerun_image (job_of program (map string_bytes args.now) settings.now budget) bytes first.place) (range_with_len 1 (count - 1)))) }
    ensures count { IfOk result (λ images. length images.items ≡ count) }
    ensures whole { OnOk result (IsWhole tape.new) }
    ensures same { OnOk result (InputIsSame tape.old tape.new (S.left input.old) (S.left input.new)) }
    ensures high { IfOk result (λ images. IfSome (unread tape.old (S.left input.old)) (λ bytes. (program : Loaded) → program_of file.now ≡ Ok program
        → tape.new.high ≡ max tape.old.high (highest (map (λ i. (rerun (job_of program (map string_bytes args.now) settings.now budget) bytes first.place i).place) (range_with_len 1 (count - 1)))))) }
    ensures limit { RefusesInput result tape.old (IfSome (unread tape.old (S.left input.old)) (λ bytes. (program : Loaded) → program_of file.now ≡ Ok program
        → most_kept < highest (map (λ i. (rerun (job_of program (map string_bytes args.now) settings.now budget) bytes first.place i).place) (range_with_len 1 (count - 1))))) }
    ensures cause { CutsInput result (S.faults input.old) (S.faults input.new) }
{
    let place = first.place;
    let mut images = Vec::new(alloc);
    let Ok(()) = images.push(first) else {
        return Err(RunRefusal::Memory);
    };
    for i in 1..count {
        let image = match rerun(alloc, file, args, settings, budget, tape, input, place, i) {
            Ok(image) => image,
            Err(refused) => return Err(refused),
        };
        let Ok(()) = images.push(image) else {
            return Err(RunRefusal::Memory);
        };
    }
    Ok(images)
}

// ---- what the images call for

// What follows the run that printed.
fn rest_of_repair<S: Source>(
    alloc: Global,
    file: &[u8],
    args: &[String],
    settings: Settings,
    budget: u64,
    count: u8,
    tape: &mut Tape,
    input: &mut S,
    mut ran: Ran,
) -> Result<Repaired, RepairRefusal>
    requires args { IsWithin (map string_bytes args.now) }
    requires budget { budget ≤ most_steps }
    requires least { 2 ≤ count }
    requires whole { IsWhole tape.old }
    ensures settles { IfSome (unread tape.old (S.left input.old)) (λ bytes. (program : Loaded) → program_of file.now ≡ Ok program
        → ran ≡ with_image (Some (first_image (job_of program (map string_bytes args.now) settings budget) bytes)) (printed_ran (job_of program (map string_bytes args.now) settings budget) bytes)
        → tape.old.high ≡ (printed_run (job_of program (map string_bytes args.now) settings budget) bytes).place → Settles (job_of program (map string_bytes args.now) settings budget) bytes count result tape.new.high) }
    ensures whole { IsStillWhole result tape.new }
    ensures same { InputStaysSame result tape.old tape.new (S.left input.old) (S.left input.new) }
    ensures cause { CutsRest result (S.faults input.old) (S.faults input.new) }
{
    let first = ran.image.take();
    let Some(_) = ran.first else {
        return Ok(Repaired {
            ran,
            images: 0,
            patches: settings.patches,
            pads: 0,
            defers: 0,
        });
    };
    let Some(first) = first else {
        return Err(RepairRefusal::Run(RunRefusal::Memory));
    };
    match images_from(
        alloc, file, args, &settings, budget, count, tape, input, first,
    ) {
        Ok(images) => repaired_by(alloc, &images, &settings.patches, count, ran),
        Err(refused) => Err(RepairRefusal::Run(refused)),
    }
}

// The run that printed with what the images call for.
fn repaired_by(
    alloc: Global,
    images: &[Image],
    old: &Patches,
    count: u8,
    ran: Ran,
) -> Result<Repaired, RepairRefusal>
    requires { 2 ≤ length images.now }
    ensures { SettlesBy images.now old.now count ran result }
{
    match isolate(alloc, images, old) {
        Ok(
            Isolated {
                patches,
                pads,
                defers,
            },
        ) => Ok(Repaired {
            ran,
            images: count,
            patches,
            pads,
            defers,
        }),
        Err(IsoRefusal::Mixed) => Err(RepairRefusal::Mixed),
        Err(IsoRefusal::Memory) => Err(RepairRefusal::Run(RunRefusal::Memory)),
        Err(IsoRefusal::Few) => unreachable!(),
    }
}
