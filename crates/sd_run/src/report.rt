ghost use Rattle.std.specs.Prelude.{◌≡◌, ◌++◌, IfOk, OnOk, codes, decimal, [], if◌then◌else◌};
ghost use Rattle.std.specs.List.{flat_map};
ghost use Rattle.sd_run.specs.Report.{line_end, beginning, ending, verdict_line, only_line, summary, report, count_of, is_safe, is_unknown, is_refused};

use crate::line::push;
use crate::verdict::{PairVerdict, VerdictState};
use sd_base::{Name, NoMemory};
use sd_core::{CoreProc, CoreProgram};
use sd_match::Procedures;
use std::alloc::Global;

fn beginning(state: &VerdictState) -> &'static [u8]
    ensures { result.now ≡ beginning state.now }
{
    match state {
        VerdictState::Safe => b"safe ",
        VerdictState::Unknown => b"unknown ",
        VerdictState::Unproved => b"unproved ",
        VerdictState::Signature => b"refused ",
        VerdictState::UnmatchedRecursion(_) => b"refused ",
    }
}

/// How a line ends that names a procedure without partner.
fn push_callee(out: &mut Vec<u8>, callee: &Name) -> Result<(), NoMemory>
    ensures { OnOk result (out.new.items ≡ out.old.items ++ codes " unmatched-recursion " ++ callee.now ++ line_end) }
{
    push(out, b" unmatched-recursion ")?;
    push(out, callee.as_bytes())?;
    push(out, b"\n")?;
    Ok(())
}

fn push_ending(out: &mut Vec<u8>, state: &VerdictState) -> Result<(), NoMemory>
    ensures { OnOk result (out.new.items ≡ out.old.items ++ ending state.now) }
{
    match state {
        VerdictState::Signature => push(out, b" signature\n"),
        VerdictState::UnmatchedRecursion(callee) => push_callee(out, callee),
        _ => push(out, b"\n"),
    }
}

fn push_verdict(out: &mut Vec<u8>, verdict: &PairVerdict) -> Result<(), NoMemory>
    ensures { OnOk result (out.new.items ≡ out.old.items ++ verdict_line verdict.now) }
{
    out.extend_from_slice(beginning(&verdict.state))?;
    out.extend_from_slice(verdict.old.as_bytes())?;
    out.extend_from_slice(b" ")?;
    out.extend_from_slice(verdict.new.as_bytes())?;
    push_ending(out, &verdict.state)?;
    Ok(())
}

fn push_verdicts(out: &mut Vec<u8>, verdicts: &[PairVerdict]) -> Result<(), NoMemory>
    ensures { OnOk result (out.new.items ≡ out.old.items ++ flat_map verdict_line verdicts.now) }
{
    'verdicts: for verdict in verdicts {
        push_verdict(out, verdict)?;
    }
    Ok(())
}

/// A line for a procedure without partner among the others. A loop has none.
fn push_only(
    out: &mut Vec<u8>,
    word: &[u8],
    proc: &CoreProc,
    others: &Procedures<'_>,
) -> Result<(), NoMemory>
    ensures { OnOk result (out.new.items ≡ out.old.items ++ only_line word.now others.now.procs.now proc.now) }
{
    if proc.parent.is_none() && others.named(&proc.name).is_none() {
        out.extend_from_slice(word)?;
        out.extend_from_slice(proc.name.as_bytes())?;
        out.extend_from_slice(b"\n")?;
    }
    Ok(())
}

/// Lines for the procedures that have no partner among the others.
fn push_all_only(
    out: &mut Vec<u8>,
    word: &[u8],
    procs: &[CoreProc],
    others: &Procedures<'_>,
) -> Result<(), NoMemory>
    ensures { OnOk result (out.new.items ≡ out.old.items
        ++ flat_map (only_line word.now others.now.procs.now) procs.now) }
{
    'procs: for proc in procs {
        push_only(out, word, proc, others)?;
    }
    Ok(())
}

fn push_count(alloc: Global, out: &mut Vec<u8>, word: &[u8], count: usize) -> Result<(), NoMemory>
    ensures { OnOk result (out.new.items ≡ out.old.items ++ word.now ++ decimal count) }
{
    out.extend_from_slice(word)?;
    let digits = count.to_string(alloc)?;
    out.extend_from_slice(digits.as_bytes())?;
    Ok(())
}

fn count_safe(verdicts: &[PairVerdict]) -> usize
    ensures { result ≡ count_of is_safe verdicts.now }
{
    verdicts.iter().filter(|v| v.state.is_safe()).count()
}

fn count_unknown(verdicts: &[PairVerdict]) -> usize
    ensures { result ≡ count_of is_unknown verdicts.now }
{
    verdicts.iter().filter(|v| v.state.is_unknown()).count()
}

fn count_refused(verdicts: &[PairVerdict]) -> usize
    ensures { result ≡ count_of is_refused verdicts.now }
{
    verdicts.iter().filter(|v| v.state.is_refused()).count()
}

fn push_summary(
    alloc: Global,
    out: &mut Vec<u8>,
    verdicts: &[PairVerdict],
    old_axioms: usize,
    new_axioms: usize,
) -> Result<(), NoMemory>
    ensures { OnOk result (out.new.items ≡ out.old.items ++ summary verdicts.now old_axioms new_axioms) }
{
    push_count(alloc, out, b"pairs ", verdicts.len())?;
    push_count(alloc, out, b" safe ", count_safe(verdicts))?;
    push_count(alloc, out, b" equal 0 unknown ", count_unknown(verdicts))?;
    push_count(alloc, out, b" refused ", count_refused(verdicts))?;
    push_count(alloc, out, b" axioms ", old_axioms)?;
    push_count(alloc, out, b" ", new_axioms)?;
    out.extend_from_slice(b"\n")?;
    Ok(())
}

/// The report on two programs whose pairs have these verdicts: a line a pair, a line for each procedure
/// without partner, old text first, and the line of the counts.
pub fn report_of(
    alloc: Global,
    old: &CoreProgram,
    new: &CoreProgram,
    verdicts: &[PairVerdict],
) -> Result<Vec<u8>, NoMemory>
    ensures { IfOk result (λ text. text.items ≡ report old.now new.now verdicts.now) }
{
    let olds = Procedures::new(alloc, old.procs.as_slice())?;
    let news = Procedures::new(alloc, new.procs.as_slice())?;
    let mut out = Vec::new(alloc);
    push_verdicts(&mut out, verdicts)?;
    push_all_only(&mut out, b"only old ", olds.procs, &news)?;
    push_all_only(&mut out, b"only new ", news.procs, &olds)?;
    push_summary(
        alloc,
        &mut out,
        verdicts,
        old.axioms.len(),
        new.axioms.len(),
    )?;
    Ok(out)
}
