// What a gate prints, once for all winners.
ghost use Rattle.std.specs.Prelude.{ℕ, Some};
ghost use Rattle.layout_run.specs.Outside.{faults, held};
ghost use Rattle.layout_run.specs.Turns.{CutsPut};
ghost use Rattle.replicate.specs.Gates.{shown_on};
ghost use Rattle.replicate.specs.GroupStands.{CutsGate, Prints};
ghost use Rattle.replicate.specs.Putting.{PutsBytes};

use crate::arrival::Arrival;
use ex_io::{OutsideFault, Sink};
use layout_run::RunRefusal;

/// Puts the bytes of a write on the sink of its descriptor.
pub(crate) fn print<O: Sink, E: Sink>(
    a: &Arrival,
    out: &mut O,
    err: &mut E,
) -> Result<(), RunRefusal>
    ensures prints { Prints (shown_on 1 (Some a.now)) (shown_on 2 (Some a.now)) result (held (O.held out.old) (E.held err.old)) (held (O.held out.new) (E.held err.new)) }
    ensures cause { (input : ℕ) → CutsGate result (faults input (O.faults out.old) (E.faults err.old)) (faults input (O.faults out.new) (E.faults err.new)) }
{
    match a {
        Arrival::Write { fd, bytes } => {
            if *fd == 1 {
                match put(out, bytes.as_slice()) {
                    Ok(()) => Ok(()),
                    Err(OutsideFault::Failed) => Err(RunRefusal::Out),
                    Err(OutsideFault::Memory) => Err(RunRefusal::Memory),
                }
            } else if *fd == 2 {
                match put(err, bytes.as_slice()) {
                    Ok(()) => Ok(()),
                    Err(OutsideFault::Failed) => Err(RunRefusal::Err),
                    Err(OutsideFault::Memory) => Err(RunRefusal::Memory),
                }
            } else {
                Ok(())
            }
        }
        _ => Ok(()),
    }
}

// Puts bytes where there are any.
fn put<K: Sink>(sink: &mut K, bytes: &[u8]) -> Result<(), OutsideFault>
    ensures puts { PutsBytes bytes.now result (K.held sink.old) (K.held sink.new) }
    ensures cause { CutsPut result (K.faults sink.old) (K.faults sink.new) }
{
    if bytes.is_empty() {
        return Ok(());
    }
    match sink.put(bytes) {
        Ok(()) => Ok(()),
        Err(fault) => Err(fault),
    }
}
