// One step with its read.
ghost use Rattle.std.specs.Prelude.{◌≡◌, ◌<◌, ◌≤◌, ◌+◌, ◌^◌, false, IfOk, OnOk};
ghost use Rattle.rv_machine.specs.Core.{Reads};
ghost use Rattle.rv_machine.specs.Guest.{Guest};
ghost use Rattle.rv_machine.specs.HeapCalls.{guest_next};
ghost use Rattle.rv_machine.specs.Stands.{core_of, waits, is_spent, tag_in, IsAt, AwaitsAt};
ghost use Rattle.rv_machine.specs.Steps.{next};
ghost use Rattle.layout_run.specs.Advances.{Advances, AdvancesAreSteps, Counts, CutsInput, Follows, IsGoing, IsReadable, IsReadyFor, PassesLimit, ReadsPast};
ghost use Rattle.layout_run.specs.Runs.{RefusesInput};
ghost use Rattle.layout_run.specs.Turns.{Gets};

use crate::ran::{Ending, RunRefusal};
use ex_io::{Source, Tape, TapeFault};
use rv_machine::{Machine, Stop, Waiting, steps_are_shaped};
use std::alloc::Global;

/// What a step with its read comes to.
#[derive(Clone, Copy, Debug, PartialEq, Eq, Drop)]
pub enum Progress {
    /// The guest can go on.
    Going,
    /// The guest prints the `len` bytes at `addr`, a mapped span, on descriptor `fd`, 1 or 2; `wrote` of
    /// the machine finishes the step. `len` is above 0.
    Prints { fd: u32, addr: u32, len: u32 },
    /// The guest has ended so.
    Ended(Ending),
}

// Gives a waiting guest what it reads at its place in the input, and says how much it was.
#[inline(never)]
fn read<S: Source>(
    alloc: Global,
    machine: &mut Machine,
    tape: &mut Tape,
    input: &mut S,
    place: u128,
    addr: u32,
    len: u32,
) -> Result<usize, RunRefusal>
    requires count { (core_of machine.old).steps < 2 ^ 62 }
    requires sound { is_spent machine.old ≡ false }
    requires waits { waits machine.old ≡ Waiting.ReadBytes }
    requires asks { next (core_of machine.old) ≡ Reads addr len }
    requires readable { IsReadable tape.old place }
    requires small { place < 2 ^ 96 }
    ensures gets { (g : Guest) → AwaitsAt g Waiting.ReadBytes machine.old → Gets g (next g.core) result machine.new tape.old (S.left input.old) place }
    ensures tape { IfOk result (λ count. Follows tape.old tape.new (S.left input.old) (S.left input.new) (place + count)) }
    ensures short { IfOk result (λ count. count ≤ len) }
    ensures count { OnOk result ((core_of machine.new).steps ≤ (core_of machine.old).steps + 1) }
    ensures tag { OnOk result (tag_in machine.new ≡ tag_in machine.old) }
    ensures limit { RefusesInput result tape.old (PassesLimit tape.old (S.left input.old) place len) }
    ensures cause { CutsInput result (S.faults input.old) (S.faults input.new) }
{
    tape.has_answered();
    match tape.read_at(alloc, input, place, len) {
        Ok(bytes) => match machine.give(bytes.as_slice()) {
            Ok(()) => Ok(bytes.len()),
            Err(_) => Err(RunRefusal::Memory),
        },
        Err(TapeFault::Source) => Err(RunRefusal::Source),
        Err(TapeFault::Limit) => Err(RunRefusal::Input),
        Err(TapeFault::Memory) => Err(RunRefusal::Memory),
    }
}

/// Takes one step of a guest, and gives it what it reads at `place`, its place in the input. A step that prints
/// isn't finished: the machine waits for `wrote`, and nothing is put yet.
///
/// The tape can be read at that place: it keeps, or the place is the high place. After a refusal the guest
/// can't go on. `Input` comes exactly where the tape keeps, and the step is a read by which the guest's place
/// in the input passes 67,108,864.
#[inline(always)]
pub fn advance<S: Source>(
    alloc: Global,
    machine: &mut Machine,
    tape: &mut Tape,
    place: &mut u128,
    input: &mut S,
) -> Result<Progress, RunRefusal>
    requires count { (core_of machine.old).steps < 2 ^ 62 }
    requires going { IsGoing machine.old }
    requires readable { IsReadable tape.old place.old }
    requires small { place.old < 2 ^ 95 }
    ensures step { (g : Guest) → IsAt g machine.old → Advances g (guest_next g) result machine.new tape.old (S.left input.old) place.old place.new }
    ensures ready { IfOk result (λ progress. IsReadyFor progress machine.new) }
    ensures tape { OnOk result (Follows tape.old tape.new (S.left input.old) (S.left input.new) place.new) }
    ensures moves { OnOk result ((place.old ≤ place.new) × (place.new ≤ place.old + 2 ^ 32)) }
    ensures tag { OnOk result (tag_in machine.new ≡ tag_in machine.old) }
    ensures count { IfOk result (λ progress. Counts progress (core_of machine.old).steps (core_of machine.new).steps) }
    ensures limit { RefusesInput result tape.old ((g : Guest) → IsAt g machine.old → ReadsPast (guest_next g) tape.old (S.left input.old) place.old) }
    ensures cause { CutsInput result (S.faults input.old) (S.faults input.new) }
{
    steps_are_shaped();
    match machine.step() {
        Stop::Going => Ok(Progress::Going),
        Stop::Read { addr, len } => match read(alloc, machine, tape, input, *place, addr, len) {
            Ok(count) => {
                *place += count as u128;
                Ok(Progress::Going)
            }
            Err(refused) => Err(refused),
        },
        Stop::Write { fd, addr, len } => Ok(Progress::Prints { fd, addr, len }),
        Stop::Ended(code) => Ok(Progress::Ended(Ending::Exit { code })),
        Stop::Fault { kind, pc, addr } => Ok(Progress::Ended(Ending::Fault { kind, pc, addr })),
        Stop::Room { used, wanted } => Ok(Progress::Ended(Ending::Room { used, wanted })),
        Stop::Memory => Err(RunRefusal::Memory),
    }
}

/// A step with its read is the next step of the run, where the input is told, but that what it prints is still
/// to be printed. The body is empty but for a law: a caller has the clause.
pub fn advances_are_steps()
    ensures { AdvancesAreSteps }
{
    steps_are_shaped();
}
