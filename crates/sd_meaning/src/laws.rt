//! Laws of the meaning of programs.
ghost use Rattle.sd_meaning.specs.Laws.{MoreStepsSameEnd, OneEnd};

/// A run that is not unfinished is the same with more steps.
pub fn more_steps_same_end()
    ensures { MoreStepsSameEnd }
{}

/// Two numbers of steps that both end give the same end.
pub fn one_end()
    ensures { OneEnd }
{}
