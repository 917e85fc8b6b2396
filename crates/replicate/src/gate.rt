// A gate of a group.
use crate::answer::GateAnswer;
use crate::arrival::Arrival;
use crate::group::Group;
use crate::opened::{cure, end_of};
use crate::printed::print;
use crate::settled::{list_losers, settle_all};
use crate::votes::{first_missing, largest_of, live_count, votes_of, winner_of};
use ex_io::Sink;
use layout_run::RunRefusal;
use std::alloc::Global;

impl Group {
    ghost use Rattle.std.specs.Prelude.{◌≡◌, ◌≤◌, ℕ, List, Some, None, Ok, Err, length, IfOk, OnOk};
    ghost use Rattle.ex_io.specs.Tape.{Track};
    ghost use Rattle.layout_run.specs.Outside.{faults, held};
    ghost use Rattle.replicate.specs.Gates.{DecidesBy, Gates, IsOpened, missing_from, shown_on, votes_of, winners, won};
    ghost use Rattle.replicate.specs.Groups as model;
    ghost use Rattle.replicate.specs.GroupStands.{CutsGate, IsGroup, Prints, PrintsAt};
    ghost use Rattle.replicate.specs.Standings.{AreKept, AreSameSeats};

    // Opens a gate that this arrival has won.
    fn open_gate<O: Sink, E: Sink>(
        &mut self,
        alloc: Global,
        votes: &[Option<Arrival>],
        winner: &Arrival,
        out: &mut O,
        err: &mut E,
    ) -> Result<GateAnswer, RunRefusal>
        requires count { length votes.now ≡ length self.old.seats.items }
        ensures opens { (g : model.Group) → IsGroup g self.old → votes.now ≡ votes_of g → 2 ≤ length (winners g.budget winner.now g.replicas) → IfOk result (λ got. (to : model.Group) × IsOpened g winner.now got to × IsGroup to self.new) }
        ensures prints { Prints (shown_on 1 (Some winner.now)) (shown_on 2 (Some winner.now)) result (held (O.held out.old) (E.held err.old)) (held (O.held out.new) (E.held err.new)) }
        ensures same { AreSameSeats self.old.seats.items self.new.seats.items }
        ensures lead { self.new.lead ≡ self.old.lead }
        ensures refused { self.new.refused ≡ self.old.refused }
        ensures cause { (input : ℕ) → CutsGate result (faults input (O.faults out.old) (E.faults err.old)) (faults input (O.faults out.new) (E.faults err.new)) }
    {
        // each open gate is a step of every live replica, so there are never so many
        let Some(gate) = self.gates.checked_add(1) else {
            return Err(RunRefusal::Memory);
        };
        let over = end_of(&self.seats, votes, winner);
        let is_changed = match cure(
            alloc,
            &self.seats,
            votes,
            winner,
            gate,
            &mut self.patches,
            &mut self.patched,
        ) {
            Ok(is_changed) => is_changed,
            Err(_) => return Err(RunRefusal::Memory),
        };
        match list_losers(&self.seats, votes, winner, gate, &mut self.retired) {
            Ok(()) => {}
            Err(_) => return Err(RunRefusal::Memory),
        }
        match settle_all(&mut self.seats, votes, winner, &self.patches, is_changed) {
            Ok(()) => {}
            Err(_) => return Err(RunRefusal::Memory),
        }
        match print(winner, out, err) {
            Ok(()) => {}
            Err(refused) => return Err(refused),
        }
        self.over = over;
        match over {
            Some(ended) => Ok(ended),
            None => {
                self.gates = gate;
                Ok(GateAnswer::Passed)
            }
        }
    }

    // Votes, where all live replicas have arrived.
    fn decide<O: Sink, E: Sink>(
        &mut self,
        alloc: Global,
        out: &mut O,
        err: &mut E,
    ) -> Result<GateAnswer, RunRefusal>
        ensures decides { (g : model.Group) → IsGroup g self.old → IfOk result (λ got. (to : model.Group) × DecidesBy (won g) g got to × IsGroup to self.new) }
        ensures prints { (g : model.Group) → IsGroup g self.old → Prints (shown_on 1 (won g)) (shown_on 2 (won g)) result (held (O.held out.old) (E.held err.old)) (held (O.held out.new) (E.held err.new)) }
        ensures same { AreSameSeats self.old.seats.items self.new.seats.items }
        ensures lead { self.new.lead ≡ self.old.lead }
        ensures refused { self.new.refused ≡ self.old.refused }
        ensures cause { (input : ℕ) → CutsGate result (faults input (O.faults out.old) (E.faults err.old)) (faults input (O.faults out.new) (E.faults err.new)) }
    {
        let Ok(votes) = votes_of(alloc, &self.seats) else {
            return Err(RunRefusal::Memory);
        };
        let live = live_count(&self.seats);
        match winner_of(&votes, live) {
            Some(winner) => self.open_gate(alloc, &votes, winner, out, err),
            None => {
                let lost = GateAnswer::Lost {
                    largest: largest_of(&votes),
                    live,
                };
                self.over = Some(lost);
                Ok(lost)
            }
        }
    }

    /// Where all live replicas have arrived, prints what more than half of them have come to, once, retires the others, and
    /// repairs the table of those that go on where one of them has signalled. Where at most half have come to the same, the
    /// vote is lost, and a group that has ended or lost a vote answers the same again.
    pub fn gate<O: Sink, E: Sink>(
        &mut self,
        alloc: Global,
        out: &mut O,
        err: &mut E,
    ) -> Result<GateAnswer, RunRefusal>
        ensures gates { (g : model.Group) → IsGroup g self.old → IfOk result (λ got. (to : model.Group) × Gates g got to × IsGroup to self.new) }
        ensures prints { self.old.refused ≡ None → (g : model.Group) → IsGroup g self.old → PrintsAt g result (held (O.held out.old) (E.held err.old)) (held (O.held out.new) (E.held err.new)) }
        ensures places { (track : Track) → AreKept track self.old.seats.items → AreKept track self.new.seats.items }
        ensures count { length self.new.seats.items ≡ length self.old.seats.items }
        ensures lead { self.new.lead ≡ self.old.lead }
        ensures spent { (refused : RunRefusal) → self.old.refused ≡ Some refused → result ≡ Err refused }
        ensures refuses { (refused : RunRefusal) → result ≡ Err refused → self.new.refused ≡ Some refused }
        ensures going { OnOk result (self.new.refused ≡ None) }
        ensures cause { (input : ℕ) → self.old.refused ≡ None → CutsGate result (faults input (O.faults out.old) (E.faults err.old)) (faults input (O.faults out.new) (E.faults err.new)) }
    {
        if let Some(refused) = self.refused {
            return Err(refused);
        }
        if let Some(over) = self.over {
            return Ok(over);
        }
        if let Some(i) = first_missing(&self.seats) {
            return Ok(GateAnswer::Waiting { i });
        }
        match self.decide(alloc, out, err) {
            Ok(got) => Ok(got),
            Err(refused) => {
                self.refused = Some(refused);
                Err(refused)
            }
        }
    }
}
