// A turn of one replica among its seats.
ghost use Rattle.std.specs.Prelude.{◌≡◌, ◌<◌, ℕ, List, length, max, IfOk, OnOk};
ghost use Rattle.layout_run.specs.Advances.{CutsInput, TellsInput};
ghost use Rattle.layout_run.specs.Runs.{RefusesInput};
ghost use Rattle.replicate.specs.GroupStands.{HaveTag};
ghost use Rattle.replicate.specs.Groups.{moved, with_changed};
ghost use Rattle.replicate.specs.Limits.{MeetsLimitAt};
ghost use Rattle.replicate.specs.Replicas.{Replica};
ghost use Rattle.replicate.specs.Standings.{AreKept, IsSameInput, SeatsAre, is_settled_at, place_at};

use crate::seat::Seat;
use ex_io::{Source, Tape};
use layout_run::RunRefusal;
use std::alloc::Global;

/// Replica `i` goes on until it has arrived or has taken `n` steps, unless it is retired, and it is said whether it has
/// arrived or is retired.
pub(crate) fn turn_of<S: Source>(
    alloc: Global,
    seats: &mut [Seat],
    i: usize,
    n: u64,
    tape: &mut Tape,
    input: &mut S,
) -> Result<bool, RunRefusal>
    requires index { i < length seats.old }
    requires kept { AreKept tape.old seats.old }
    ensures turned { (budget : ℕ) (rs : List Replica) (bytes : List ℕ) → TellsInput bytes tape.old (S.left input.old) → SeatsAre budget rs seats.old → IfOk result (λ there. SeatsAre budget (with_changed (moved bytes budget n) i rs) seats.new × (there ≡ is_settled_at budget i (with_changed (moved bytes budget n) i rs))) }
    ensures count { length seats.new ≡ length seats.old }
    ensures tags { (tag : ℕ) → HaveTag tag seats.old → OnOk result (HaveTag tag seats.new) }
    ensures kept { OnOk result (AreKept tape.new seats.new) }
    ensures high { OnOk result (tape.new.high ≡ max tape.old.high (place_at i seats.new)) }
    ensures same { OnOk result (IsSameInput tape.old tape.new (S.left input.old) (S.left input.new)) }
    ensures limit { RefusesInput result tape.old ((budget : ℕ) (rs : List Replica) (bytes : List ℕ) → TellsInput bytes tape.old (S.left input.old) → SeatsAre budget rs seats.old → MeetsLimitAt bytes budget n i rs) }
    ensures cause { CutsInput result (S.faults input.old) (S.faults input.new) }
{
    let seat = &mut seats[i];
    if !seat.live {
        return Ok(true);
    }
    seat.go_on(alloc, tape, input, n)
}

/// Whether replica `i` has arrived or is retired.
pub(crate) fn is_settled(seats: &[Seat], i: usize) -> bool
    requires { i < length seats.now }
    ensures { (budget : ℕ) (rs : List Replica) → SeatsAre budget rs seats.now → result ≡ is_settled_at budget i rs }
{
    let seat = &seats[i];
    !seat.live || seat.has_arrived()
}
