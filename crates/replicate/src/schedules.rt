// Laws of rounds and schedules. Each is a function that does nothing and whose contract is the law.
ghost use Rattle.replicate.specs.Leads.{CyclesKeepTheLead, GatesKeepTheLead, StartsWithoutLead, TurnsKeepTheLead};
ghost use Rattle.replicate.specs.Rounds.{EachArrives, GatesAreOne, RoundsAreOne, RoundsGoOn, RoundsWaitForWrites, SchedulesAreRounds, StartedWaitForWrites};
ghost use Rattle.replicate.specs.Runs.{EndsAreOne, EndsOrStops, PlacesAreInside, StopsAreOne};

use crate::law::steps_are_counted;
use rv_machine::steps_are_shaped;

/// A replica comes to a gate within its budget of steps and one more. The call does nothing: a caller has the clause.
pub fn each_replica_arrives()
    ensures { EachArrives }
{
    steps_are_counted();
    steps_are_shaped();
}

/// Where a replica waits, its next step is a write: so it is at the start, and after each round. The call does nothing: a
/// caller has the clauses.
pub fn replicas_wait_for_writes()
    ensures start { StartedWaitForWrites }
    ensures rounds { RoundsWaitForWrites }
{}

/// A gate has one answer and leaves one group, and rounds lead to one group. The call does nothing: a caller has the
/// clauses.
pub fn gates_and_rounds_are_one()
    ensures gates { GatesAreOne }
    ensures rounds { RoundsAreOne }
{
    overflow_isolator::images_have_one_list();
    dangling_isolator::images_have_one_list();
    culprits::objects_call_for_one_table();
}

/// Whatever the order of turns and gates, the group is that of as many rounds as gates were decided, each live replica
/// further by the steps that it was given since. Rounds from there are those from the last gate. The call does nothing: a
/// caller has the clauses.
pub fn schedules_are_rounds()
    ensures rounds { SchedulesAreRounds }
    ensures onward { RoundsGoOn }
{
    steps_are_counted();
    steps_are_shaped();
}

/// Rounds lead to one end, or to one place where more of the input is read than is kept; no replica reads past the end of
/// the input. The call does nothing: a caller has the clauses.
pub fn runs_are_one()
    ensures ends { EndsAreOne }
    ensures stops { StopsAreOne }
    ensures apart { EndsOrStops }
    ensures inside { PlacesAreInside }
{
    gates_and_rounds_are_one();
}

/// Turns of n steps, one replica after the other, never raise the lead by more than n: it is 0 at the start, what it was
/// when each replica has had its turn, and no greater after a gate. The call does nothing: a caller has the clauses.
pub fn turns_keep_the_lead()
    ensures start { StartsWithoutLead }
    ensures turns { TurnsKeepTheLead }
    ensures cycles { CyclesKeepTheLead }
    ensures gates { GatesKeepTheLead }
{
    steps_are_counted();
    steps_are_shaped();
}
