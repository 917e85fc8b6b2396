// How far replicas are ahead of others.
ghost use Rattle.std.specs.Prelude.{◌≡◌, ℕ, List, if◌then◌else◌, max};
ghost use Rattle.replicate.specs.Groups.{behind, farthest, lead_of, most_behind, steps_since};
ghost use Rattle.replicate.specs.Replicas.{Replica};
ghost use Rattle.replicate.specs.Seats.{IsSeat};
ghost use Rattle.replicate.specs.Standings.{SeatsAre};

use crate::seat::Seat;

// The steps that it counted since the last open gate.
fn steps_since(seat: &Seat) -> u64
    ensures { (r : Replica) → IsSeat r seat.now → result ≡ steps_since r }
{
    seat.machine.steps().saturating_sub(seat.mark.steps)
}

// How many steps it is behind the farthest, where it is live and hasn't arrived.
fn behind(seat: &Seat, most: u64) -> u64
    ensures { (r : Replica) → IsSeat r seat.now → result ≡ behind seat.now.budget most r }
{
    if !seat.live || seat.has_arrived() {
        return 0;
    }
    most.saturating_sub(steps_since(seat))
}

// The same where it is live.
fn ahead(seat: &Seat) -> u64
    ensures { (r : Replica) → IsSeat r seat.now → result ≡ (if r.live then steps_since r else 0) }
{
    if seat.live { steps_since(seat) } else { 0 }
}

// The most steps that a live replica counted since the last open gate.
fn farthest(seats: &[Seat]) -> u64
    ensures { (budget : ℕ) (rs : List Replica) → SeatsAre budget rs seats.now → result ≡ farthest rs }
{
    let mut most = 0;
    for i in 0..seats.len() {
        let steps = ahead(&seats[i]);
        most = most.max(steps);
    }
    most
}

// The greatest number of steps by which a live replica is ahead of one that hasn't arrived.
fn lead_of(seats: &[Seat]) -> u64
    ensures { (budget : ℕ) (rs : List Replica) → SeatsAre budget rs seats.now → result ≡ lead_of budget rs }
{
    let most = farthest(seats);
    let mut lead = 0;
    for i in 0..seats.len() {
        let steps = behind(&seats[i], most);
        lead = lead.max(steps);
    }
    lead
}

/// The greater of a lead and that of these replicas.
pub(crate) fn greatest_lead(seats: &[Seat], lead: u64) -> u64
    ensures { (budget : ℕ) (rs : List Replica) → SeatsAre budget rs seats.now → result ≡ max lead (lead_of budget rs) }
{
    lead_of(seats).max(lead)
}
