ghost use Rattle.std.specs.Prelude.{◌≡◌, ◌+◌, IfOk};
ghost use Rattle.sd_kernel.specs.Proof.{lines_of};

use sd_base::NoMemory;
use sqlite_items::Items;

/// A new term by the numbers of its two parts.
#[derive(Clone, Copy, Debug, PartialEq, Eq)]
pub enum NodeLine {
    Eq(u32, u32),
    Le(u32, u32),
    Read(u32, u32),
    Diff(u32, u32),
}

/// How a row is derived. Rows are numbered from 0 within their step.
#[derive(Clone, Copy, Debug, PartialEq, Eq)]
pub enum RowLine {
    /// The row of a fact: of a true `le a b` or `eq a b` that `a` is at most `b`, of a false `le a b` that `b` is less
    /// than `a`.
    Fact(u32),
    /// The row of a true `eq a b` that `b` is at most `a`.
    Back(u32),
    /// A row times a multiplier, plus another row times another one.
    Add(u32, u64, u32, u64),
    /// A row divided by the greatest common divisor of its factors, with the bound rounded down.
    Cut(u32),
}

/// A step of a proof. The numbers are those of terms or of facts.
#[derive(Debug, Drop)]
pub enum Step {
    /// A new term, numbered next for the rest of the proof.
    Term(NodeLine),
    /// The branch where a term is true, and then the one where it is false.
    Split(u32),
    /// A false equality of integers and a true order of its sides: the other order is false.
    Order(u32, u32, u32),
    /// A choice whose condition is known equals the part that is chosen.
    Ite(u32, u32),
    /// The sides of an equality are joined by true equalities.
    Chain(u32, Items<u32>),
    /// The branch has a fact whose term has the opposite value.
    Close(u32),
    /// Rows that follow from facts, the last of which no integers meet.
    Rows(Items<RowLine>),
}

/// A list of steps that is to close all branches, those of a first branch before those of the second.
#[derive(Debug, Drop)]
pub struct Proof {
    pub steps: Items<Step>,
}

/// Why a line is bad.
#[derive(Clone, Copy, Debug, PartialEq, Eq)]
pub enum StepCause {
    /// A number names nothing.
    Number,
    /// A form or sort is wrong.
    Shape,
    /// A term is repeated.
    Known,
    /// A value is unknown or wrong.
    Value,
    /// A multiplier is out of range, or the last row doesn't refute.
    Row,
    /// A row is beyond the bounds.
    Wide,
}

/// A bad line of a step, from 0 within the step, with its first cause.
#[derive(Clone, Copy, Debug, PartialEq, Eq)]
pub struct BadLine {
    pub line: u32,
    pub cause: StepCause,
}

impl BadLine {
    /// The first line of a step.
    pub fn first(cause: StepCause) -> BadLine
        ensures { result ≡ record { line = 0; cause = cause } }
    {
        BadLine { line: 0, cause }
    }
}

/// The line after a step that begins at this line. A step has one line, and one more for each row.
pub fn line_after(line: u32, step: &Step) -> Result<u32, NoMemory>
    ensures { IfOk result (λ after. after ≡ line + lines_of step.now) }
{
    let rows = match step {
        Step::Rows(rows) => rows.len(),
        _ => 0,
    };
    let Ok(rows) = u32::try_from(rows) else {
        return Err(NoMemory);
    };
    match line.checked_add(rows) {
        Some(last) if last < u32::MAX => Ok(last + 1),
        _ => Err(NoMemory),
    }
}

/// What is said of a proof: accepted, or the first bad line, from 0, with its first cause.
#[derive(Clone, Copy, Debug, PartialEq, Eq)]
pub enum Verdict {
    Accepted,
    Rejected(u32, StepCause),
}

/// The verdict on a proof with this bad line in the step that begins at a line.
pub fn rejected(line: u32, bad: BadLine) -> Result<Verdict, NoMemory>
    ensures { IfOk result (λ verdict. verdict ≡ Verdict.Rejected (line + bad.line) bad.cause) }
{
    match line.checked_add(bad.line) {
        Some(line) => Ok(Verdict::Rejected(line, bad.cause)),
        None => Err(NoMemory),
    }
}
