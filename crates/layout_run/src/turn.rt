// One step, and what it reads or prints.
ghost use Rattle.std.specs.Prelude.{◌≡◌, ◌<◌, ◌≤◌, ◌+◌, ◌^◌, List, ℕ, false, None, IfOk, OnOk};
ghost use Rattle.rv_machine.specs.Flat.{Flat, flat_step};
ghost use Rattle.rv_machine.specs.Guest.{Guest};
ghost use Rattle.rv_machine.specs.Stands.{core_of, tag_in, AwaitsAt};
ghost use Rattle.rv_machine.specs.Steps.{next};
ghost use Rattle.layout_run.specs.Advances.{Follows, IsGoing, IsPrinting, IsReadable, TellsInput};
ghost use Rattle.layout_run.specs.Outside.{Held, faults, held};
ghost use Rattle.layout_run.specs.Runs.{CutsRun, RefusesInput};
ghost use Rattle.layout_run.specs.Turns.{CutsPut, IsAtLimit, IsFlat, Puts, Turns};

use crate::ran::{Ending, RunRefusal};
use crate::step::{Progress, advance, advances_are_steps};
use ex_io::{OutsideFault, Sink, Source, Tape};
use rv_machine::{Machine, Waiting, steps_are_shaped};
use std::alloc::Global;

// Puts the bytes that a waiting guest prints on the sink of their descriptor.
#[inline(never)]
fn write<K: Sink>(
    alloc: Global,
    machine: &mut Machine,
    sink: &mut K,
    fd: u32,
    addr: u32,
    len: u32,
) -> Result<(), OutsideFault>
    requires count { (core_of machine.old).steps < 2 ^ 62 }
    requires prints { IsPrinting machine.old fd addr len }
    ensures puts { (g : Guest) → AwaitsAt g Waiting.WriteDone machine.old → Puts g (next g.core) result machine.new (K.held sink.old) (K.held sink.new) }
    ensures count { OnOk result ((core_of machine.new).steps ≤ (core_of machine.old).steps + 1) }
    ensures tag { OnOk result (tag_in machine.new ≡ tag_in machine.old) }
    ensures cause { CutsPut result (K.faults sink.old) (K.faults sink.new) }
{
    let Ok(bytes) = machine.bytes_of(alloc, addr, len) else {
        return Err(OutsideFault::Memory);
    };
    match sink.put(bytes.as_slice()) {
        Ok(()) => {
            machine.wrote();
            Ok(())
        }
        Err(OutsideFault::Failed) => Err(OutsideFault::Failed),
        Err(OutsideFault::Memory) => Err(OutsideFault::Memory),
    }
}

// One step, and what it reads or prints: how the guest has ended by it, if it has.
#[inline(always)]
pub(crate) fn turn<S: Source, O: Sink, E: Sink>(
    alloc: Global,
    machine: &mut Machine,
    tape: &mut Tape,
    place: &mut u128,
    input: &mut S,
    out: &mut O,
    err: &mut E,
) -> Result<Option<Ending>, RunRefusal>
    requires count { (core_of machine.old).steps < 2 ^ 62 }
    requires going { IsGoing machine.old }
    requires readable { IsReadable tape.old place.old }
    requires small { place.old < 2 ^ 95 }
    ensures turn { (start : Held) (bytes : List ℕ) (flat : Flat) → TellsInput bytes tape.old (S.left input.old) → IsFlat flat machine.old place.old start (held (O.held out.old) (E.held err.old))
        → Turns (flat_step bytes flat) result machine.new place.new start (held (O.held out.new) (E.held err.new)) }
    ensures going { IfOk result (λ ending. ending ≡ None → IsGoing machine.new) }
    ensures tape { OnOk result (Follows tape.old tape.new (S.left input.old) (S.left input.new) place.new) }
    ensures moves { OnOk result ((place.old ≤ place.new) × (place.new ≤ place.old + 2 ^ 32)) }
    ensures count { OnOk result ((core_of machine.new).steps ≤ (core_of machine.old).steps + 1) }
    ensures tag { OnOk result (tag_in machine.new ≡ tag_in machine.old) }
    ensures limit { RefusesInput result tape.old ((start : Held) (bytes : List ℕ) (flat : Flat) → TellsInput bytes tape.old (S.left input.old) → IsFlat flat machine.old place.old start (held (O.held out.old) (E.held err.old))
        → IsAtLimit bytes flat start (held (O.held out.new) (E.held err.new))) }
    ensures cause { CutsRun result (faults (S.faults input.old) (O.faults out.old) (E.faults err.old)) (faults (S.faults input.new) (O.faults out.new) (E.faults err.new)) }
{
    steps_are_shaped();
    advances_are_steps();
    match advance(alloc, machine, tape, place, input) {
        Ok(Progress::Going) => Ok(None),
        Ok(Progress::Prints { fd, addr, len }) => {
            if fd == 1 {
                match write(alloc, machine, out, fd, addr, len) {
                    Ok(()) => Ok(None),
                    Err(OutsideFault::Failed) => Err(RunRefusal::Out),
                    Err(OutsideFault::Memory) => Err(RunRefusal::Memory),
                }
            } else {
                match write(alloc, machine, err, fd, addr, len) {
                    Ok(()) => Ok(None),
                    Err(OutsideFault::Failed) => Err(RunRefusal::Err),
                    Err(OutsideFault::Memory) => Err(RunRefusal::Memory),
                }
            }
        }
        Ok(Progress::Ended(ending)) => Ok(Some(ending)),
        Err(refused) => Err(refused),
    }
}
