// Laws of runs. Each is a function that does nothing and whose contract is the law.
ghost use Rattle.layout_run.specs.Imaged.{ImagesAreSound};
ghost use Rattle.layout_run.specs.Places.{LimitsAreOne, PlacesAreWithin, PlacesRise};
ghost use Rattle.layout_run.specs.Laws.{BrokenBytesWereStored, SignalsAreOfStoredBytes, EndSignalsAreOfStoredBytes, RunsGoStepByStep, WholeRunsAreRuns};

use exact_heap::{calls_are_counted, histories_stay_lawful, unowned_slots_are_left_alone};
use miniheap::slots_have_their_places;

/// Each signal of a run is a byte that was stored to while no object held its slot. The call does nothing: a caller
/// has the clauses.
pub fn signals_are_of_stored_bytes()
    ensures broken { BrokenBytesWereStored }
    ensures calls { SignalsAreOfStoredBytes }
    ensures end { EndSignalsAreOfStoredBytes }
    ensures runs { RunsGoStepByStep }
    ensures whole { WholeRunsAreRuns }
{
    histories_stay_lawful();
    calls_are_counted();
    unowned_slots_are_left_alone();
    slots_have_their_places();
}

/// The image of a run is of one of its states, and each of its broken bytes was stored to, by then, while no object held
/// its slot. The body is empty but for a law: a caller has the clause.
pub fn images_are_sound()
    ensures { ImagesAreSound }
{
    signals_are_of_stored_bytes();
}

/// A run goes on in its input and never back, so there is one step at most by which it passes the most that a tape keeps.
/// The body is empty: a caller has the clauses.
pub fn places_in_the_input_rise()
    ensures places { PlacesRise }
    ensures within { PlacesAreWithin }
    ensures limit { LimitsAreOne }
{}
