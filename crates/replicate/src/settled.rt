// What becomes of the replicas at a gate: the winners go on, and all others are retired.
ghost use Rattle.std.specs.Prelude.{◌≡◌, ◌≤◌, ◌++◌, ℕ, List, true, false, length, map, OnOk};
ghost use Rattle.std.specs.Bool.{OnTrue};
ghost use Rattle.std.specs.List.{AllByRecursion};
ghost use Rattle.patch_table.specs.Table.{IsBelow, Table};
ghost use Rattle.replicate.specs.Gates.{losers_from, loses, passed, settled_by};
ghost use Rattle.replicate.specs.GroupStands.{GoesBy};
ghost use Rattle.replicate.specs.Replicas.{Replica};
ghost use Rattle.replicate.specs.Seats.{IsSameSeat, IsSeat};
ghost use Rattle.replicate.specs.Standings.{AreSameSeats, SeatsAre};
ghost use Rattle.replicate.specs.Votes.{vote_of};

use crate::answer::Retired;
use crate::arrival::Arrival;
use crate::seat::Seat;
use crate::votes::is_for;
use arrayvec::ArrayVec;
use patch_table::Patches;
use std::alloc::AllocError;

/// The winners make their write and go on by this table, and all others are retired.
pub(crate) fn settle_all(
    seats: &mut [Seat],
    votes: &[Option<Arrival>],
    winner: &Arrival,
    table: &Patches,
    is_changed: bool,
) -> Result<(), AllocError>
    requires { length votes.now ≡ length seats.old }
    ensures settled { (budget : ℕ) (rs : List Replica) (old : Table) → SeatsAre budget rs seats.old → AllByRecursion (GoesBy old) rs → IsBelow old table.now → (is_changed ≡ false → table.now ≡ old) → votes.now ≡ map (vote_of budget) rs
        → OnOk result (SeatsAre budget (map (passed budget winner.now table.now) rs) seats.new) }
    ensures same { AreSameSeats seats.old seats.new }
{
    for i in 0..seats.len() {
        let wins = is_for(winner, &votes[i]);
        settle(&mut seats[i], wins, table, is_changed)?;
    }
    Ok(())
}

// A winner makes its write and goes on by the table, which is its own unless that is changed. Another one is retired.
fn settle(seat: &mut Seat, wins: bool, table: &Patches, is_changed: bool) -> Result<(), AllocError>
    ensures settled { (r : Replica) (old : Table) → IsSeat r seat.old → OnTrue wins (GoesBy old r × (r.live ≡ true)) → IsBelow old table.now → (is_changed ≡ false → table.now ≡ old) → OnOk result (IsSeat (settled_by wins table.now r) seat.new) }
    ensures same { IsSameSeat seat.old seat.new }
{
    if !wins {
        seat.retire();
        return Ok(());
    }
    seat.pass();
    if is_changed {
        seat.adopt(table)?;
    }
    Ok(())
}

/// Lists the replicas that are retired at this gate.
pub(crate) fn list_losers(
    seats: &[Seat],
    votes: &[Option<Arrival>],
    winner: &Arrival,
    gate: u64,
    retired: &mut ArrayVec<Retired, 9>,
) -> Result<(), AllocError>
    requires few { length seats.now ≤ 9 }
    requires count { length votes.now ≡ length seats.now }
    ensures { (budget : ℕ) (rs : List Replica) → SeatsAre budget rs seats.now → votes.now ≡ map (vote_of budget) rs → OnOk result (retired.new.items ≡ retired.old.items ++ losers_from budget winner.now gate 0 rs) }
{
    for i in 0..seats.len() {
        if loses(&seats[i], &votes[i], winner) {
            let replica = i as u8;
            // each is retired once, so there is always room
            match retired.try_push(Retired { replica, gate }) {
                Ok(()) => {}
                Err(_) => return Err(AllocError),
            }
        }
    }
    Ok(())
}

// Whether a live replica has come to something else than the winner.
fn loses(seat: &Seat, vote: &Option<Arrival>, winner: &Arrival) -> bool
    ensures { (budget : ℕ) (r : Replica) → IsSeat r seat.now → vote.now ≡ vote_of budget r → result ≡ loses budget winner.now r }
{
    seat.live && !is_for(winner, vote)
}
