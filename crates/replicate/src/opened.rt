// What the winners of a gate come to: how they have ended, and what their images call for.
ghost use Rattle.std.specs.Prelude.{◌≡◌, ◌≤◌, ℕ, List, false, length, map, IfOk, OnOk};
ghost use Rattle.std.specs.List.{AllByRecursion};
ghost use Rattle.culprits.specs.declared.isolated.Isolated.{Isolated};
ghost use Rattle.patch_table.specs.Table.{IsBelow};
ghost use Rattle.layout_run.specs.Whole.{ended_as};
ghost use Rattle.replicate.specs.Gates.{CuresWhere, IsListed, any_signalled, end_at, image_of, winners};
ghost use Rattle.replicate.specs.GroupStands.{HaveTag};
ghost use Rattle.replicate.specs.Replicas.{Replica};
ghost use Rattle.replicate.specs.Seats.{IsSeat};
ghost use Rattle.replicate.specs.Standings.{SeatsAre};
ghost use Rattle.replicate.specs.Votes.{vote_of};

use crate::answer::{GateAnswer, Patched};
use crate::arrival::Arrival;
use crate::isolated::isolated_at;
use crate::seat::Seat;
use crate::votes::is_for;
use culprits::Isolated;
use heap_image::Image;
use layout_run::{Ending, Progress};
use patch_table::{Patches, below_is_an_order, join_is_the_least_above};
use std::alloc::{AllocError, Global};

// ---- their end

/// How the group has ended, where the winners have.
pub(crate) fn end_of(
    seats: &[Seat],
    votes: &[Option<Arrival>],
    winner: &Arrival,
) -> Option<GateAnswer>
    requires { length votes.now ≡ length seats.now }
    ensures { (budget : ℕ) (rs : List Replica) → SeatsAre budget rs seats.now → votes.now ≡ map (vote_of budget) rs → result ≡ end_at winner.now (winners budget winner.now rs) }
{
    match winner {
        Arrival::Write { .. } | Arrival::Clock => None,
        _ => {
            for i in 0..seats.len() {
                let seat = &seats[i];
                if is_for(winner, &votes[i]) {
                    return Some(GateAnswer::Ended(ending_of(seat)));
                }
            }
            None
        }
    }
}

// How a replica has ended, or that it has used up its budget.
fn ending_of(seat: &Seat) -> Ending
    ensures { (r : Replica) → IsSeat r seat.now → r.waits ≡ false → result ≡ ended_as r.flat.guest.core.ended }
{
    match seat.state {
        Some(Progress::Ended(ending)) => ending,
        _ => Ending::Budget,
    }
}

// ---- their images

/// Where a winner has signalled, what the images of all winners call for is joined into the table. It is said whether the
/// table has changed.
pub(crate) fn cure(
    alloc: Global,
    seats: &[Seat],
    votes: &[Option<Arrival>],
    winner: &Arrival,
    gate: u64,
    patches: &mut Patches,
    patched: &mut Vec<Patched>,
) -> Result<bool, AllocError>
    requires { length votes.now ≡ length seats.now }
    ensures cures { (budget tag : ℕ) (rs : List Replica) → SeatsAre budget rs seats.now → HaveTag tag seats.now → votes.now ≡ map (vote_of budget) rs → 2 ≤ length (winners budget winner.now rs)
        → OnOk result (CuresWhere (any_signalled (winners budget winner.now rs)) gate (map (image_of tag) (winners budget winner.now rs)) (record { table = patches.old; patched = patched.old.items }) (record { table = patches.new; patched = patched.new.items })) }
    ensures unchanged { IfOk result (λ is_changed. is_changed ≡ false → patches.new ≡ patches.old) }
    ensures above { OnOk result (IsBelow patches.old patches.new) }
{
    below_is_an_order();
    if !any_signalled(seats, votes, winner) {
        return Ok(false);
    }
    let images = images_of(alloc, seats, votes, winner)?;
    match isolated_at(alloc, &images, patches)? {
        None => Ok(false),
        Some(isolated) => {
            join_is_the_least_above();
            replace(isolated, gate, patches, patched)
        }
    }
}

// Replaces the table where another one was isolated, and lists that. It is said whether it was.
fn replace(
    isolated: Isolated,
    gate: u64,
    patches: &mut Patches,
    patched: &mut Vec<Patched>,
) -> Result<bool, AllocError>
    ensures table { OnOk result (patches.new ≡ isolated.patches) }
    ensures listed { OnOk result (IsListed gate isolated (record { table = patches.old; patched = patched.old.items }) (record { table = patches.new; patched = patched.new.items })) }
    ensures unchanged { IfOk result (λ is_changed. is_changed ≡ false → patches.new ≡ patches.old) }
{
    let Isolated {
        patches: found,
        pads,
        defers,
    } = isolated;
    if found.is_same(patches) {
        return Ok(false);
    }
    patched.push(Patched { gate, pads, defers })?;
    *patches = found;
    Ok(true)
}

// Whether one of the winners has signalled since the last open gate.
fn any_signalled(seats: &[Seat], votes: &[Option<Arrival>], winner: &Arrival) -> bool
    requires { length votes.now ≡ length seats.now }
    ensures { (budget : ℕ) (rs : List Replica) → SeatsAre budget rs seats.now → votes.now ≡ map (vote_of budget) rs → result ≡ any_signalled (winners budget winner.now rs) }
{
    for i in 0..seats.len() {
        let seat = &seats[i];
        if is_for(winner, &votes[i]) && seat.has_signalled() {
            return true;
        }
    }
    false
}

// The images of the winners, in their order.
fn images_of(
    alloc: Global,
    seats: &[Seat],
    votes: &[Option<Arrival>],
    winner: &Arrival,
) -> Result<Vec<Image>, AllocError>
    requires { length votes.now ≡ length seats.now }
    ensures { (budget tag : ℕ) (rs : List Replica) → SeatsAre budget rs seats.now → HaveTag tag seats.now → votes.now ≡ map (vote_of budget) rs → IfOk result (λ images. images.items ≡ map (image_of tag) (winners budget winner.now rs)) }
{
    let mut images = Vec::new(alloc);
    for i in 0..seats.len() {
        let seat = &seats[i];
        if is_for(winner, &votes[i]) {
            let image = seat.image(alloc)?;
            images.push(image)?;
        }
    }
    Ok(images)
}
