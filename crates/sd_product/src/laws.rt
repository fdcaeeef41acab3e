//! What live candidates are good for.
ghost use Rattle.sd_product.specs.TruthQueries.{QueriesAreTruths};
ghost use Rattle.sd_product.specs.Failures.{ValuationsAreFailures, OpenCubesAreFailures};
ghost use Rattle.sd_product.specs.Judged.{LiveFlagsAreSafe, OpenFlagsAreFailures};
ghost use Rattle.sd_product.specs.Summaries.{MutualSummaries, NoNewFailure};

/// Where no valuation makes the query of a live candidate true, under the table itself, every live candidate holds of
/// all ended runs of its pair, under every meaning and for all bounds of both sides.
pub fn mutual_summaries()
    ensures { MutualSummaries }
{
    sd_vcgen::laws::runs_are_valuations();
}

/// A live candidate that claims the flag where inputs are equal rules out a failure that the old procedure lacks.
pub fn no_new_failure()
    ensures { NoNewFailure }
{
    mutual_summaries();
}

/// Each fact of each query is truth-valued.
pub fn queries_are_truths()
    ensures { QueriesAreTruths }
{}

/// Where both programs are over truth values and call nothing, a valuation that makes the query of the claim on the
/// flag with equal inputs true is a failure of the new procedure that the old one lacks.
pub fn valuations_are_failures()
    ensures { ValuationsAreFailures }
{
    sd_vcgen::laws::valuations_are_runs();
}

/// An open cube of such a query is such a failure.
pub fn open_cubes_are_failures()
    ensures { OpenCubesAreFailures }
{
    valuations_are_failures();
}

/// A live candidate on the flag of two procedures, in a table that stands on proofs, rules out a failure that the old
/// one lacks.
pub fn live_flags_are_safe()
    ensures { LiveFlagsAreSafe }
{
    no_new_failure();
}

/// Where both programs are over truth values and call nothing, an open cube of the query of a candidate on the flag
/// with equal inputs shows such a failure.
pub fn open_flags_are_failures()
    ensures { OpenFlagsAreFailures }
{
    open_cubes_are_failures();
}
