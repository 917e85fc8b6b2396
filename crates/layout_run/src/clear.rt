// What a run comes to whose run on the infinite heap is clear and covered. The function does nothing, and its contract is the law.
ghost use Rattle.layout_run.specs.Clear.{ClearRunsMatch, ClearRunsPrintPrefixes};

use crate::unstopped::unstopped_runs_are_flat_runs;
use exact_heap::objects_after_calls;
use rv_machine::steps_are_shaped;
use simulation::{
    covered_runs_agree, covered_runs_are_quiet, harmless_runs_agree, room_is_the_same,
};

/// Where the run on the infinite heap is clear and its patches cover it, a run prints its bytes and ends as it does, with
/// no signal; or a heap call meets no room, and which one that is, with which numbers, is the same for every seed. The
/// body is empty: a caller has the clause.
pub fn clear_runs_match()
    ensures { ClearRunsMatch }
{
    covered_runs_agree();
    covered_runs_are_quiet();
    room_is_the_same();
    harmless_runs_agree();
    objects_after_calls();
    steps_are_shaped();
}

/// And what it has printed at any time is a prefix of those bytes. The body is empty but for laws: a caller has the clause.
pub fn clear_runs_print_prefixes()
    ensures { ClearRunsPrintPrefixes }
{
    clear_runs_match();
    unstopped_runs_are_flat_runs();
}
