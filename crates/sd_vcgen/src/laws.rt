//! What the terms of a body have to do with the runs of its procedure.
ghost use Rattle.sd_vcgen.specs.Laws.{RunsAreValuations, ValuationsAreRuns, BodiesAreSorted, BodiesAreWellSorted};

/// For each ended run there are values for the symbols of the calls with which every valuation is that run: its
/// assumptions are true, its outs, globals and flag have the run's values, and each call that counts is the ended run
/// of its callee. (Lahiri and others 2012: a body without loops as one formula; Hawblitzel and others 2013: calls as
/// sites.)
pub fn runs_are_valuations()
    ensures { RunsAreValuations }
{
    sd_runs::laws::runs_keep();
    sd_runs::laws::infallible_runs();
}

/// A valuation with true assumptions, whose calls end as their terms say, is an ended run.
pub fn valuations_are_runs()
    ensures { ValuationsAreRuns }
{}

/// The terms of a body have the types of what they stand for.
pub fn bodies_are_sorted()
    ensures { BodiesAreSorted }
{}

/// They are well sorted.
pub fn bodies_are_well_sorted()
    ensures { BodiesAreWellSorted }
{}
