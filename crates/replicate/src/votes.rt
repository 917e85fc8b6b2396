// The votes of replicas before a gate, and what most of them are for.
ghost use Rattle.std.specs.Prelude.{◌≡◌, ◌≤◌, ℕ, List, None, Some, length, map, IfOk, MatchOption};
ghost use Rattle.replicate.specs.Gates.{live_count, missing_from};
ghost use Rattle.replicate.specs.Replicas.{Replica};
ghost use Rattle.replicate.specs.Standings.{SeatsAre};
ghost use Rattle.replicate.specs.Votes.{count_for, count_of, is_for, largest_of, vote_of, winner_of};

use crate::arrival::Arrival;
use crate::seat::Seat;
use std::alloc::{AllocError, Global};

/// The first live replica that hasn't arrived.
pub(crate) fn first_missing(seats: &[Seat]) -> Option<u8>
    requires { length seats.now ≤ 9 }
    ensures { (budget : ℕ) (rs : List Replica) → SeatsAre budget rs seats.now → result ≡ missing_from budget 0 rs }
{
    for i in 0..seats.len() {
        let seat = &seats[i];
        if seat.live && !seat.has_arrived() {
            return Some(i as u8);
        }
    }
    None
}

/// How many replicas are live.
pub(crate) fn live_count(seats: &[Seat]) -> u8
    requires { length seats.now ≤ 9 }
    ensures { (budget : ℕ) (rs : List Replica) → SeatsAre budget rs seats.now → result ≡ live_count rs }
{
    let mut count = 0;
    for i in 0..seats.len() {
        let seat = &seats[i];
        if seat.live {
            count += 1;
        }
    }
    count
}

/// What each replica has come to, in their order; a retired one has no vote.
pub(crate) fn votes_of(alloc: Global, seats: &[Seat]) -> Result<Vec<Option<Arrival>>, AllocError>
    ensures votes { (budget : ℕ) (rs : List Replica) → SeatsAre budget rs seats.now → IfOk result (λ votes. votes.items ≡ map (vote_of budget) rs) }
    ensures count { IfOk result (λ votes. length votes.items ≡ length seats.now) }
{
    let mut votes = Vec::new(alloc);
    for i in 0..seats.len() {
        let vote = seats[i].vote(alloc)?;
        votes.push(vote)?;
    }
    Ok(votes)
}

/// The arrival that more than half of the live replicas have come to.
pub(crate) fn winner_of(votes: &[Option<Arrival>], live: u8) -> Option<&Arrival>
    requires { length votes.now ≤ 9 }
    ensures { MatchOption result (winner_of live votes.now votes.now ≡ None) (λ a. winner_of live votes.now votes.now ≡ Some a.now) }
{
    for vote in votes {
        if let Some(a) = vote {
            if live < 2 * count_for(a, votes) {
                return Some(a);
            }
        }
    }
    None
}

/// The size of the largest group of equal votes.
pub(crate) fn largest_of(votes: &[Option<Arrival>]) -> u8
    requires { length votes.now ≤ 9 }
    ensures { result ≡ largest_of votes.now votes.now }
{
    let mut largest = 0;
    for vote in votes {
        let count = count_of(vote, votes);
        if largest < count {
            largest = count;
        }
    }
    largest
}

// How many of the votes are for the same as this one.
fn count_of(vote: &Option<Arrival>, votes: &[Option<Arrival>]) -> u8
    requires { length votes.now ≤ 9 }
    ensures { result ≡ count_of vote.now votes.now }
{
    match vote {
        Some(a) => count_for(a, votes),
        None => 0,
    }
}

// How many of the votes are for this arrival.
fn count_for(a: &Arrival, votes: &[Option<Arrival>]) -> u8
    requires { length votes.now ≤ 9 }
    ensures count { result ≡ count_for a.now votes.now }
    ensures few { result ≤ 9 }
{
    let mut count = 0;
    for vote in votes {
        if is_for(a, vote) {
            count += 1;
        }
    }
    count
}

/// Whether a vote is for this arrival.
pub(crate) fn is_for(a: &Arrival, vote: &Option<Arrival>) -> bool
    ensures { result ≡ is_for a.now vote.now }
{
    match vote {
        Some(other) => a.is_same(other),
        None => false,
    }
}
