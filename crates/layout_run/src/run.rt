// One whole run.
ghost use Rattle.std.specs.Prelude.{◌≡◌, ◌<◌, ◌≤◌, ◌^◌, ℕ, List, true, false, None, IfOk, IfSome, map, string_bytes};
ghost use Rattle.ex_io.specs.Tape.{input as unread};
ghost use Rattle.infinite_heap.specs.Loaded.{Loaded};
ghost use Rattle.infinite_heap.specs.Start.{IsWithin};
ghost use Rattle.exact_heap.specs.History.{History};
ghost use Rattle.rv_machine.specs.Guest.{Guest, guest_start};
ghost use Rattle.rv_machine.specs.Stands.{IsAt, core_of, tag_in};
ghost use Rattle.layout_run.specs.Advances.{IsGoing};
ghost use Rattle.layout_run.specs.Clear.{IsClearRun, RunsClear};
ghost use Rattle.layout_run.specs.Imaged.{IsSoundImage, if_imaged, image_of_run, with_image};
ghost use Rattle.layout_run.specs.Outside.{faults, held};
ghost use Rattle.layout_run.specs.Runs.{CutsRun, HasAll, KeepsTape, LeavesTape, RefusesInput, RunsAs, StopsAtLimit};
ghost use Rattle.layout_run.specs.Turns.{Stops};
ghost use Rattle.layout_run.specs.Watched.{RunsToEnd, is_stop, ran_to};
ghost use Rattle.layout_run.specs.Whole.{most_steps, ran_with, run_until};

use crate::clear::clear_runs_match;
use crate::laws::images_are_sound;
use crate::ran::{Ending, Ran, RunRefusal};
use crate::turn::turn;
use crate::unstopped::unstopped_runs_are_flat_runs;
use crate::watch::{image_of_end, is_by_signal, place_of, watch};
use ex_io::{Sink, Source, Tape};
use heap_image::Image;
use infinite_heap::Program;
use rv_machine::{Machine, Settings, steps_are_shaped};
use std::alloc::Global;

// The most heap calls that are made before the run is stopped, or more than there can be.
fn most_calls(stop_at: Option<u64>) -> u64
    ensures { (h : History) → h.calls < 2 ^ 64 → Stops stop_at result h }
{
    stop_at.unwrap_or(0).wrapping_sub(1)
}

// What a run comes to that has ended so, by its heap as it stands.
fn report(machine: &Machine, ending: Ending, image: Option<Image>) -> Ran
    ensures { (g : Guest) → IsAt g machine.now → result ≡ with_image image (ran_with ending g.core.steps g.history) }
{
    let heap = machine.heap();
    Ran {
        ending,
        steps: machine.steps(),
        clock: heap.clock(),
        frees: heap.frees(),
        signals: heap.signal_count(),
        first: heap.signals().first().map(|signal| signal.place),
        image,
    }
}

// Whether a run was stopped that has ended so.
fn was_stopped(ending: Ending) -> bool
    ensures { result ≡ is_stop ending }
{
    match ending {
        Ending::Stopped => true,
        _ => false,
    }
}

// Ends a run, with the check at the end where it wasn't stopped, and says what it comes to.
fn end(machine: &mut Machine, ending: Ending, image: Option<Image>) -> Ran
    ensures { (g : Guest) → IsAt g machine.old → result ≡ ran_to ending image g }
{
    if was_stopped(ending) {
        return report(machine, ending, image);
    }
    machine.check_end();
    report(machine, ending, image)
}

/// The most steps that a run may be given.
pub const MOST_STEPS: u64 = 1_000_000_000_000_000;

// Carries a guest on from its start to the end of its run, and says how it has ended.
fn carry_on<S: Source, O: Sink, E: Sink>(
    alloc: Global,
    machine: &mut Machine,
    budget: u64,
    tape: &mut Tape,
    input: &mut S,
    out: &mut O,
    err: &mut E,
    stop_at: Option<u64>,
    watches: bool,
    taken: &mut Option<Image>,
) -> Result<Ending, RunRefusal>
    requires budget { budget ≤ most_steps }
    requires start { IsGoing machine.old }
    requires steps { (core_of machine.old).steps ≡ 0 }
    requires all { HasAll tape.old }
    requires going { tape.old.refused ≡ false }
    requires watches { watches ≡ true → stop_at ≡ None }
    requires taken { taken.old ≡ None }
    ensures carries { (program : Loaded) (args : List (List ℕ)) (settings : Settings) → IsAt (guest_start program args settings) machine.old → tag_in machine.old ≡ program.tag → IfSome (unread tape.old (S.left input.old)) (λ bytes.
        RunsToEnd program args settings bytes stop_at budget watches result machine.new taken.new tape.old tape.new (held (O.held out.old) (E.held err.old)) (held (O.held out.new) (E.held err.new))) }
    ensures keeps { KeepsTape result tape.old tape.new (S.left input.old) (S.left input.new) }
    ensures limit { RefusesInput result tape.old ((program : Loaded) (args : List (List ℕ)) (settings : Settings) → IsAt (guest_start program args settings) machine.old → tag_in machine.old ≡ program.tag → IfSome (unread tape.old (S.left input.old)) (λ bytes.
        StopsAtLimit (run_until program args settings bytes stop_at) budget (held (O.held out.old) (E.held err.old)) (held (O.held out.new) (E.held err.new)))) }
    ensures cause { CutsRun result (faults (S.faults input.old) (O.faults out.old) (E.faults err.old)) (faults (S.faults input.new) (O.faults out.new) (E.faults err.new)) }
{
    let most = most_calls(stop_at);
    let mut place = 0u128;
    let mut i = 0;
    while i < budget {
        i += machine.go_on(budget - 1 - i);
        let ended = match turn(alloc, machine, tape, &mut place, input, out, err) {
            Ok(ended) => ended,
            Err(refused) => return Err(refused),
        };
        if watch(alloc, machine, watches, taken).is_err() {
            return Err(RunRefusal::Memory);
        }
        if machine.heap().calls() > most {
            return Ok(Ending::Stopped);
        }
        match ended {
            Some(ending) => return Ok(ending),
            None => {}
        }
        i += 1;
    }
    Ok(Ending::Budget)
}

// Carries out a whole run.
fn carry_out<S: Source, O: Sink, E: Sink>(
    alloc: Global,
    program: Program,
    args: &[String],
    settings: Settings,
    budget: u64,
    tape: &mut Tape,
    input: &mut S,
    out: &mut O,
    err: &mut E,
    stop_at: Option<u64>,
    imaged: bool,
) -> Result<Ran, RunRefusal>
    requires budget { budget ≤ most_steps }
    requires args { IsWithin (map string_bytes args.now) }
    requires all { HasAll tape.old }
    requires going { tape.old.refused ≡ false }
    ensures runs { IfSome (unread tape.old (S.left input.old)) (λ bytes. RunsAs stop_at (run_until program (map string_bytes args.now) settings bytes stop_at budget)
        (if_imaged imaged (image_of_run program (map string_bytes args.now) settings bytes stop_at budget)) result
        (held (O.held out.old) (E.held err.old)) (held (O.held out.new) (E.held err.new))) }
    ensures leaves { IfSome (unread tape.old (S.left input.old)) (λ bytes. LeavesTape (run_until program (map string_bytes args.now) settings bytes stop_at budget) result tape.old tape.new) }
    ensures keeps { KeepsTape result tape.old tape.new (S.left input.old) (S.left input.new) }
    ensures limit { RefusesInput result tape.old (IfSome (unread tape.old (S.left input.old)) (λ bytes. StopsAtLimit (run_until program (map string_bytes args.now) settings bytes stop_at) budget
        (held (O.held out.old) (E.held err.old)) (held (O.held out.new) (E.held err.new)))) }
    ensures cause { CutsRun result (faults (S.faults input.old) (O.faults out.old) (E.faults err.old)) (faults (S.faults input.new) (O.faults out.new) (E.faults err.new)) }
{
    steps_are_shaped();
    unstopped_runs_are_flat_runs();
    let Ok(mut machine) = Machine::start(alloc, program, args, settings) else {
        return Err(RunRefusal::Memory);
    };
    let mut taken: Option<Image> = None;
    let watches = is_by_signal(imaged, stop_at);
    let ending = match carry_on(
        alloc,
        &mut machine,
        budget,
        tape,
        input,
        out,
        err,
        stop_at,
        watches,
        &mut taken,
    ) {
        Ok(ending) => ending,
        Err(refused) => return Err(refused),
    };
    let place = place_of(ending, stop_at);
    match image_of_end(alloc, &machine, imaged, taken, place) {
        Ok(image) => Ok(end(&mut machine, ending, image)),
        Err(_) => Err(RunRefusal::Memory),
    }
}

/// Runs a program from its start, for at most `budget` steps, at most `MOST_STEPS`. With `stop_at` the run is stopped
/// right after the heap call of that number, also where that call meets no room; they are numbered from 1.
///
/// The input is read from the tape, which keeps or has answered nothing yet, and no read of which was refused. Where it
/// keeps, the read by which the guest's place in the input passes 67,108,864 cuts the run short. What the guest prints is put on the sinks, a piece a call. Where the run isn't stopped, the
/// check at the end is made.
///
/// Where an image is asked for, it is of the state just after the heap call `stop_at`, or of the end where the run ends
/// before that. Where the run is to be stopped nowhere it is of the state just after the heap call of the first signal, or
/// of the end where no heap call had one.
///
/// Where the program's run on the infinite heap is clear and its patches cover it, a run that isn't stopped prints what that
/// run prints and ends as it does, whatever the seed, or a heap call meets no room.
pub fn run_one<S: Source, O: Sink, E: Sink>(
    alloc: Global,
    program: Program,
    args: &[String],
    settings: Settings,
    budget: u64,
    tape: &mut Tape,
    input: &mut S,
    out: &mut O,
    err: &mut E,
    stop_at: Option<u64>,
    imaged: bool,
) -> Result<Ran, RunRefusal>
    requires budget { budget ≤ most_steps }
    requires args { IsWithin (map string_bytes args.now) }
    requires all { HasAll tape.old }
    requires going { tape.old.refused ≡ false }
    ensures runs { IfSome (unread tape.old (S.left input.old)) (λ bytes. RunsAs stop_at (run_until program (map string_bytes args.now) settings bytes stop_at budget)
        (if_imaged imaged (image_of_run program (map string_bytes args.now) settings bytes stop_at budget)) result
        (held (O.held out.old) (E.held err.old)) (held (O.held out.new) (E.held err.new))) }
    ensures leaves { IfSome (unread tape.old (S.left input.old)) (λ bytes. LeavesTape (run_until program (map string_bytes args.now) settings bytes stop_at budget) result tape.old tape.new) }
    ensures keeps { KeepsTape result tape.old tape.new (S.left input.old) (S.left input.new) }
    ensures limit { RefusesInput result tape.old (IfSome (unread tape.old (S.left input.old)) (λ bytes. StopsAtLimit (run_until program (map string_bytes args.now) settings bytes stop_at) budget
        (held (O.held out.old) (E.held err.old)) (held (O.held out.new) (E.held err.new)))) }
    ensures cause { CutsRun result (faults (S.faults input.old) (O.faults out.old) (E.faults err.old)) (faults (S.faults input.new) (O.faults out.new) (E.faults err.new)) }
    ensures clear { IfSome (unread tape.old (S.left input.old)) (λ bytes. stop_at ≡ None → IsClearRun program (map string_bytes args.now) settings bytes budget
        → RunsClear program (map string_bytes args.now) settings bytes budget result (held (O.held out.old) (E.held err.old)) (held (O.held out.new) (E.held err.new))) }
    ensures sound { IfSome (unread tape.old (S.left input.old)) (λ bytes. IfOk result (λ ran. IfSome ran.image (IsSoundImage program (map string_bytes args.now) settings bytes budget))) }
{
    clear_runs_match();
    unstopped_runs_are_flat_runs();
    images_are_sound();
    carry_out(
        alloc, program, args, settings, budget, tape, input, out, err, stop_at, imaged,
    )
}
