//! Laws of what is answered, compared and said.
ghost use Rattle.sd_run.specs.ComparedPrograms.{ComparedIsExact};
ghost use Rattle.sd_run.specs.OneAnswer.{OneAnswer};
ghost use Rattle.sd_run.specs.PlainVerdicts.{VerdictsArePlain};
ghost use Rattle.sd_run.specs.Replayed.{WrittenIsReplayed};

/// Where the files are known, words have one answer: the same status and the same bytes, or two reports of a
/// comparison.
pub fn one_answer()
    ensures { OneAnswer }
{
    sd_cert::laws::one_table();
    sd_cert::laws::one_fault();
}

/// The programs that are compared are those that declare globals, procedures and implementations alone, over truth
/// values and integers, and multiply nothing.
pub fn compared_is_exact()
    ensures { ComparedIsExact }
{}

/// Each pair of procedures has one verdict, in order, and it is safe exactly where a live candidate of it claims that
/// the new procedure fails only where the old one does at equal inputs.
pub fn verdicts_are_plain()
    ensures { VerdictsArePlain }
{}

/// Where the report on two known texts is answered with a certificate, each replay of that certificate on the same texts
/// answers the same status and the same table, and says the same of each pair, `unproved` in place of `unknown`.
pub fn written_is_replayed()
    ensures { WrittenIsReplayed }
{
    one_answer();
}
