//! What statements count.
ghost use Rattle.std.specs.Prelude.{◌≡◌, ◌+◌, ◌||◌, false, IfOk, length};
ghost use Rattle.sd_meaning.specs.Run.{kinds_of};
ghost use Rattle.sd_extract.specs.Extract as spec;
ghost use Rattle.sd_extract.specs.Extract.{of_loop, has_return, counts_each};
ghost use Rattle.sd_extract.specs.Counted.{counts_in, has_return_among};

use sd_ast::{Stmt, StmtKind};
use sd_base::NoMemory;

/// How many hidden locals and loops statements take: one for each call, argument, loop with a `return` inside, and
/// loop.
#[derive(Clone, Copy, Drop)]
pub(crate) struct Counts {
    pub(crate) calls: u32,
    pub(crate) args: u32,
    pub(crate) lefts: u32,
    pub(crate) loops: u32,
}

/// What statements count, and whether a `return` stands among them.
#[derive(Clone, Copy, Drop)]
pub(crate) struct Counted {
    pub(crate) counts: Counts,
    pub(crate) returns: bool,
}

/// A sum, where it fits.
pub(crate) fn add(a: u32, b: u32) -> Result<u32, NoMemory>
    ensures { IfOk result (λ c. c ≡ a + b) }
{
    match a.checked_add(b) {
        Some(c) => Ok(c),
        None => Err(NoMemory),
    }
}

/// A length, where it fits.
pub(crate) fn length_of<T>(items: &[T]) -> Result<u32, NoMemory>
    ensures { IfOk result (λ n. n ≡ length items.now) }
{
    match u32::try_from(items.len()) {
        Ok(n) => Ok(n),
        Err(_) => Err(NoMemory),
    }
}

pub(crate) fn none() -> Counts
    ensures { counts_in result ≡ spec.none }
{
    Counts {
        calls: 0,
        args: 0,
        lefts: 0,
        loops: 0,
    }
}

pub(crate) fn plus(a: Counts, b: Counts) -> Result<Counts, NoMemory>
    ensures { IfOk result (λ c. counts_in c ≡ spec.plus (counts_in a) (counts_in b)) }
{
    Ok(Counts {
        calls: add(a.calls, b.calls)?,
        args: add(a.args, b.args)?,
        lefts: add(a.lefts, b.lefts)?,
        loops: add(a.loops, b.loops)?,
    })
}

/// What a loop counts, from its statements.
pub(crate) fn count_loop(inside: Counted) -> Result<Counts, NoMemory>
    ensures { IfOk result (λ c. counts_in c ≡ of_loop inside.returns (counts_in inside.counts)) }
{
    let lefts = if inside.returns { 1 } else { 0 };
    Ok(Counts {
        calls: 0,
        args: 0,
        lefts,
        loops: add(1, inside.counts.loops)?,
    })
}

/// What a call counts, from the number of its arguments.
pub(crate) fn count_call(args: u32) -> Counts
    ensures { counts_in result ≡ record { calls = 1; args = args; lefts = 0; loops = 0 } }
{
    Counts {
        calls: 1,
        args,
        lefts: 0,
        loops: 0,
    }
}

fn without_return(counts: Counts) -> Counted
    ensures { result ≡ record { counts = counts; returns = false } }
{
    Counted {
        counts,
        returns: false,
    }
}

/// Both counts together.
fn join(a: Counted, b: Counted) -> Result<Counted, NoMemory>
    ensures counts { IfOk result (λ c. counts_in c.counts ≡ spec.plus (counts_in a.counts) (counts_in b.counts)) }
    ensures returns { IfOk result (λ c. c.returns ≡ a.returns || b.returns) }
{
    Ok(Counted {
        counts: plus(a.counts, b.counts)?,
        returns: a.returns || b.returns,
    })
}

#[cycle(count)]
pub(crate) fn count_stmt(kind: &StmtKind) -> Result<Counted, NoMemory>
    ensures counts { IfOk result (λ c. counts_in c.counts ≡ spec.counts kind.now) }
    ensures returns { IfOk result (λ c. c.returns ≡ has_return kind.now) }
{
    match kind {
        StmtKind::Call(_, _, args) => Ok(without_return(count_call(length_of(args.as_slice())?))),
        StmtKind::If(_, yes, no) => {
            let yes = count_stmts(yes.as_slice())?;
            let no = count_stmts(no.as_slice())?;
            join(yes, no)
        }
        StmtKind::While(_, _, body) => {
            let inside = count_stmts(body.as_slice())?;
            Ok(Counted {
                counts: count_loop(inside)?,
                returns: inside.returns,
            })
        }
        StmtKind::Return => Ok(Counted {
            counts: none(),
            returns: true,
        }),
        _ => Ok(without_return(none())),
    }
}

#[cycle(count)]
pub(crate) fn count_stmts(stmts: &[Stmt]) -> Result<Counted, NoMemory>
    ensures counts { IfOk result (λ c. counts_in c.counts ≡ counts_each (kinds_of stmts.now)) }
    ensures returns { IfOk result (λ c. c.returns ≡ has_return_among (kinds_of stmts.now)) }
{
    let mut total = without_return(none());
    for stmt in stmts {
        total = join(total, count_stmt(&stmt.kind)?)?;
    }
    Ok(total)
}
