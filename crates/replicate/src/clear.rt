// What groups come to whose run on the infinite heap is clear. Each is a function that does nothing and whose contract is the
// law.
ghost use Rattle.replicate.specs.Clear.{ClearGroupsStayWhole, ClearRoundsStayWhole};

use crate::law::steps_are_counted;
use crate::schedules::{replicas_wait_for_writes, schedules_are_rounds};
use layout_run::{clear_runs_match, clear_runs_print_prefixes, unstopped_runs_are_flat_runs};
use rv_machine::{runs_keep_rules, runs_match, steps_are_shaped, steps_match};
use simulation::{
    covered_runs_agree, covered_runs_are_quiet, harmless_runs_agree, heap_calls_match,
    heaps_are_laid_out, room_is_the_same,
};

/// Where the run on the infinite heap is clear and the patches cover it, all replicas come to the same at each gate: none
/// is retired, no vote is lost, and no patch is added. The group prints that run's bytes and ends as it does, or meets no
/// room where each of these runs meets none. The call does nothing: a caller has the clause.
pub fn clear_rounds_stay_whole()
    ensures { ClearRoundsStayWhole }
{
    heaps_are_laid_out();
    heap_calls_match();
    steps_match();
    runs_match();
    runs_keep_rules();
    steps_are_shaped();
    covered_runs_agree();
    covered_runs_are_quiet();
    room_is_the_same();
    harmless_runs_agree();
    clear_runs_match();
    clear_runs_print_prefixes();
    unstopped_runs_are_flat_runs();
    steps_are_counted();
}

/// And so they do under every schedule. The call does nothing: a caller has the clause.
pub fn clear_groups_stay_whole()
    ensures { ClearGroupsStayWhole }
{
    clear_rounds_stay_whole();
    schedules_are_rounds();
    replicas_wait_for_writes();
}
