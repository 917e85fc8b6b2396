// What holds of a run that is stopped nowhere. The function does nothing, and its contract is the law.
ghost use Rattle.layout_run.specs.Unstopped.{UnstoppedRunsAreFlatRuns};

/// A run that is stopped nowhere makes each of its steps. The body is empty: a caller has the clause.
pub fn unstopped_runs_are_flat_runs()
    ensures { UnstoppedRunsAreFlatRuns }
{}
