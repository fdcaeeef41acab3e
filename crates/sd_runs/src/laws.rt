//! What runs keep.
ghost use Rattle.sd_runs.specs.Laws.{RunsKeep, MoreCalls, InfallibleRuns, InfallibleAreGreatest, InfallibleAreOne};

/// A run gives outs and globals of the declared types, and leaves the globals that its procedure doesn't modify as they
/// were.
pub fn runs_keep()
    ensures { RunsKeep }
{}

/// A run that isn't unfinished is the same with more calls inside each other.
pub fn more_calls()
    ensures { MoreCalls }
{}

/// An infallible procedure ends with its flag down.
pub fn infallible_runs()
    ensures { InfallibleRuns }
{}

/// The infallible procedures of a program are the greatest set of procedures whose bodies have no failure and call only
/// members.
pub fn infallible_are_greatest()
    ensures { InfallibleAreGreatest }
{}

/// The greatest such set is one.
pub fn infallible_are_one()
    ensures { InfallibleAreOne }
{}
