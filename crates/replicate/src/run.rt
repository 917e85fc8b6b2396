// A whole run of a group: rounds of turns, each with a gate, until it is over.
ghost use Rattle.std.specs.Prelude.{◌≡◌, ◌≤◌, ℕ, List, Some, None, Ok, Err, OnOk};
ghost use Rattle.ex_io.specs.Tape.{Track};
ghost use Rattle.layout_run.specs.Advances.{CutsInput, TellsInput};
ghost use Rattle.layout_run.specs.Outside.{Held, faults, held};
ghost use Rattle.layout_run.specs.Runs.{CutsRun};
ghost use Rattle.replicate.specs.Groups as model;
ghost use Rattle.replicate.specs.GroupStands.{IsGroup};
ghost use Rattle.replicate.specs.Runs.{Comes, GoesOn, IsOnWay, RunsAs};
ghost use Rattle.replicate.specs.Standings.{AreKept, IsSameInput};

use crate::answer::GateAnswer;
use crate::group::Group;
use crate::law::steps_are_counted;
use ex_io::{Sink, Source, Tape};
use layout_run::RunRefusal;
use rv_machine::steps_are_shaped;
use std::alloc::Global;

// A turn of so many steps for each replica, in order of their numbers.
fn turns<S: Source>(
    alloc: Global,
    group: &mut Group,
    tape: &mut Tape,
    input: &mut S,
    quantum: u64,
) -> Result<(), RunRefusal>
    requires kept { AreKept tape.old group.old.seats.items }
    requires going { group.old.refused ≡ None }
    ensures way { (bytes : List ℕ) (start : model.Group) (first : Track) (before after : Held) → TellsInput bytes tape.old (S.left input.old) → IsOnWay bytes start group.old first tape.old before after → GoesOn bytes start result group.new first tape.new before after }
    ensures kept { OnOk result (AreKept tape.new group.new.seats.items) }
    ensures same { OnOk result (IsSameInput tape.old tape.new (S.left input.old) (S.left input.new)) }
    ensures going { OnOk result (group.new.refused ≡ None) }
    ensures cause { CutsInput result (S.faults input.old) (S.faults input.new) }
{
    steps_are_counted();
    steps_are_shaped();
    for i in 0..group.seats.len() {
        match group.turn(alloc, tape, input, i as u8, quantum) {
            Ok(_) => tape.has_answered(),
            Err(refused) => return Err(refused),
        }
    }
    Ok(())
}

// The gate behind them, and how the group has ended, if it has.
fn pass<O: Sink, E: Sink>(
    alloc: Global,
    group: &mut Group,
    out: &mut O,
    err: &mut E,
) -> Result<Option<GateAnswer>, RunRefusal>
    requires going { group.old.refused ≡ None }
    ensures way { (bytes : List ℕ) (start : model.Group) (first now : Track) (before : Held) → IsOnWay bytes start group.old first now before (held (O.held out.old) (E.held err.old)) → Comes bytes start result group.new first now before (held (O.held out.new) (E.held err.new)) }
    ensures places { (track : Track) → AreKept track group.old.seats.items → AreKept track group.new.seats.items }
    ensures going { OnOk result (group.new.refused ≡ None) }
    ensures cause { (input : ℕ) → CutsRun result (faults input (O.faults out.old) (E.faults err.old)) (faults input (O.faults out.new) (E.faults err.new)) }
{
    steps_are_counted();
    steps_are_shaped();
    match group.gate(alloc, out, err) {
        Ok(_) => Ok(group.over),
        Err(refused) => Err(refused),
    }
}

// Both.
fn round<S: Source, O: Sink, E: Sink>(
    alloc: Global,
    group: &mut Group,
    tape: &mut Tape,
    input: &mut S,
    out: &mut O,
    err: &mut E,
    quantum: u64,
) -> Result<Option<GateAnswer>, RunRefusal>
    requires kept { AreKept tape.old group.old.seats.items }
    requires going { group.old.refused ≡ None }
    ensures way { (bytes : List ℕ) (start : model.Group) (first : Track) (before : Held) → TellsInput bytes tape.old (S.left input.old) → IsOnWay bytes start group.old first tape.old before (held (O.held out.old) (E.held err.old)) → Comes bytes start result group.new first tape.new before (held (O.held out.new) (E.held err.new)) }
    ensures kept { OnOk result (AreKept tape.new group.new.seats.items) }
    ensures same { OnOk result (IsSameInput tape.old tape.new (S.left input.old) (S.left input.new)) }
    ensures going { OnOk result (group.new.refused ≡ None) }
    ensures cause { CutsRun result (faults (S.faults input.old) (O.faults out.old) (E.faults err.old)) (faults (S.faults input.new) (O.faults out.new) (E.faults err.new)) }
{
    match turns(alloc, group, tape, input, quantum) {
        Ok(()) => pass(alloc, group, out, err),
        Err(refused) => Err(refused),
    }
}

/// Runs a group to its end: each replica has a turn of `quantum` steps, in order of their numbers, then comes a gate, and so on
/// until the group has ended or a vote is lost. What comes of it is the same for every quantum.
///
/// While no call of the group was refused, the tape has to keep, with none of its reads refused, and to have answered
/// up to each replica's place.
pub fn run_group<S: Source, O: Sink, E: Sink>(
    alloc: Global,
    group: &mut Group,
    tape: &mut Tape,
    input: &mut S,
    out: &mut O,
    err: &mut E,
    quantum: u64,
) -> Result<GateAnswer, RunRefusal>
    requires quantum { 1 ≤ quantum }
    requires kept { group.old.refused ≡ None → AreKept tape.old group.old.seats.items }
    ensures runs { group.old.refused ≡ None → (g : model.Group) (bytes : List ℕ) → TellsInput bytes tape.old (S.left input.old) → IsGroup g group.old → RunsAs bytes g result group.new tape.old tape.new (held (O.held out.old) (E.held err.old)) (held (O.held out.new) (E.held err.new)) }
    ensures kept { OnOk result (AreKept tape.new group.new.seats.items) }
    ensures same { OnOk result (IsSameInput tape.old tape.new (S.left input.old) (S.left input.new)) }
    ensures spent { (refused : RunRefusal) → group.old.refused ≡ Some refused → result ≡ Err refused }
    ensures cause { group.old.refused ≡ None → CutsRun result (faults (S.faults input.old) (O.faults out.old) (E.faults err.old)) (faults (S.faults input.new) (O.faults out.new) (E.faults err.new)) }
{
    steps_are_counted();
    steps_are_shaped();
    if let Some(refused) = group.refused {
        return Err(refused);
    }
    tape.has_answered();
    if let Some(over) = group.over {
        return Ok(over);
    }
    // each round takes a step at least, so no group takes so many
    for _ in 0..u64::MAX {
        match round(alloc, group, tape, input, out, err, quantum) {
            Ok(None) => {}
            Ok(Some(over)) => return Ok(over),
            Err(refused) => return Err(refused),
        }
    }
    Err(RunRefusal::Memory)
}
