//! A guest on flat memory and the same guest on the infinite heap: as long as what is recorded there does no harm where the objects
//! lie, both do the same. Each function here does nothing, and its contract is the law.
#![tactic(auto)]

ghost use Rattle.simulation.specs.Agreement.{HeapsAreLaidOut, AlignmentsAreOne};
ghost use Rattle.simulation.specs.Calls.{HeapCallsMatch};
ghost use Rattle.simulation.specs.Runs.{StepsAgree, HarmlessRunsAgree, RoomComesLast};
ghost use Rattle.simulation.specs.Coverage.{CoveredStaysHome, CoveredStepsStayHome, CoveredRunsAreHarmless, CoveredRunsAgree};
ghost use Rattle.simulation.specs.Quiet.{CoveredRunsAreQuiet};
ghost use Rattle.simulation.specs.Rooms.{RoomIsTheSame};

use exact_heap::{
    held_slots_are_apart, held_slots_are_kept, histories_stay_lawful, holders_have_held_slots,
    miniheaps_are_mapped, new_slots_are_fresh, objects_after_calls, objects_last, owners_are_exact,
    patches_decide, released_addresses_are_free, seeds_decide_addresses_alone,
    whole_heaps_are_quiet,
};
use miniheap::slots_have_their_places;
use rv_decode::rows_are_in_range;
use rv_machine::{
    records_are_known, runs_keep_rules, runs_match, runs_stay_mapped, steps_are_shaped,
    steps_match, stores_are_recorded,
};
use size_class::{classes_are_least, slots_are_powers};
use value_laws::{
    later_layouts_keep, lift_is_sound, places_go_on, reach_is_least, written_is_read,
};

/// Where the objects of a heap's history lie is a layout.
pub fn heaps_are_laid_out()
    ensures layout { HeapsAreLaidOut }
    ensures alignments { AlignmentsAreOne }
{
    held_slots_are_apart();
}

/// From states that agree, a heap call on the infinite heap and one of a guest lead to states that agree, or there is no room.
pub fn heap_calls_match()
    ensures { HeapCallsMatch }
{
    heaps_are_laid_out();
    later_layouts_keep();
    places_go_on();
    written_is_read();
    histories_stay_lawful();
    miniheaps_are_mapped();
    held_slots_are_apart();
    held_slots_are_kept();
    new_slots_are_fresh();
    objects_after_calls();
    objects_last();
    owners_are_exact();
    released_addresses_are_free();
}

/// A clear run on the infinite heap and one on flat memory agree, or the latter has met no room, as long as each record
/// is harmless in this very run. A guest without room stays as it is.
pub fn harmless_runs_agree()
    ensures step { StepsAgree }
    ensures run { HarmlessRunsAgree }
    ensures last { RoomComesLast }
{
    heaps_are_laid_out();
    heap_calls_match();
    lift_is_sound();
    rows_are_in_range();
    steps_match();
    steps_are_shaped();
    runs_match();
    runs_stay_mapped();
    runs_keep_rules();
    released_addresses_are_free();
}

/// What patches cover is harmless in every run under them, so such runs agree with the one on the infinite heap, or meet no room.
pub fn covered_runs_agree()
    ensures home { CoveredStaysHome }
    ensures steps { CoveredStepsStayHome }
    ensures harmless { CoveredRunsAreHarmless }
    ensures agree { CoveredRunsAgree }
{
    heaps_are_laid_out();
    harmless_runs_agree();
    held_slots_are_apart();
    released_addresses_are_free();
    patches_decide();
    classes_are_least();
    slots_are_powers();
    reach_is_least();
    runs_stay_mapped();
    runs_keep_rules();
    records_are_known();
}

/// Nothing is signalled in a clear run that its patches cover: its free slots are whole, and none is bad.
pub fn covered_runs_are_quiet()
    ensures { CoveredRunsAreQuiet }
{
    covered_runs_agree();
    heaps_are_laid_out();
    stores_are_recorded();
    runs_match();
    runs_keep_rules();
    whole_heaps_are_quiet();
    holders_have_held_slots();
    slots_have_their_places();
}

/// Whether and where a clear run that its patches cover meets no room, and with which two numbers, is the same for every seed: the run
/// on the infinite heap and the patches decide it.
pub fn room_is_the_same()
    ensures { RoomIsTheSame }
{
    covered_runs_agree();
    covered_runs_are_quiet();
    heaps_are_laid_out();
    owners_are_exact();
    seeds_decide_addresses_alone();
    runs_keep_rules();
    runs_stay_mapped();
    steps_are_shaped();
}
