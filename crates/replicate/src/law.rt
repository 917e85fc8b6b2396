// Laws of replicas. Each is a function that does nothing and whose contract is the law.
ghost use Rattle.replicate.specs.Counted.{StepsAreCounted};
ghost use Rattle.replicate.specs.Laws.{StepsAddUp, TheArrivedStay};

/// A step is counted, unless it faults or meets no room. The body is empty: a caller has the clause.
pub fn steps_are_counted()
    ensures { StepsAreCounted }
{}

/// m steps of a replica and then n are m + n, wherever it arrives; and one that has arrived stays. The body is empty: a
/// caller has the clauses.
pub fn steps_add_up()
    ensures sum { StepsAddUp }
    ensures stay { TheArrivedStay }
{}
