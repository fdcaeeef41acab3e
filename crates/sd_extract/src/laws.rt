//! What extraction keeps.
ghost use Rattle.sd_extract.specs.Laws.{RunsAreKept, ProceduresAreKept, AxiomsAreKept, ExtractedIsFormed};
ghost use Rattle.sd_extract.specs.Laws.{FailuresAreKept, PropositionalIsKept, RootsAreProcedures};

/// With every number of steps, a run of a procedure and the flagged run of its core procedure have the same end: they
/// fail, are blocked and lack steps together, and give the same values.
pub fn runs_are_kept()
    ensures { RunsAreKept }
{}

/// A procedure with a body is a procedure of the core, with its name and its parameters.
pub fn procedures_are_kept()
    ensures { ProceduresAreKept }
{}

/// A procedure of the core that belongs to no loop is that of the text's procedure of its name, at that one's place.
pub fn roots_are_procedures()
    ensures { RootsAreProcedures }
{}

/// The axioms of the core are as true as those of the source, one by one.
pub fn axioms_are_kept()
    ensures { AxiomsAreKept }
{}

/// The core program of a well-typed program is well formed: all that it speaks of is there, types and numbers agree,
/// no name is declared twice, and each procedure writes no more than its list of modified globals says.
pub fn extracted_is_formed()
    ensures { ExtractedIsFormed }
{}

/// The new procedure of two programs has a failure that the old one lacks exactly where its core procedure has.
pub fn failures_are_kept()
    ensures { FailuresAreKept }
{}

/// The core program of a program over truth values, without calls and loops, is over truth values too, without calls.
pub fn propositional_is_kept()
    ensures { PropositionalIsKept }
{}
