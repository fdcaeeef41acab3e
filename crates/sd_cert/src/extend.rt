//! A prefix with one more line.
ghost use Rattle.std.specs.Prelude.{◌≡◌, ◌++◌, Some, IfOk, length};
ghost use Rattle.std.specs.List.{flat_map};
ghost use Rattle.sd_cert.specs.declared.line.Line.TheVariants as line;
ghost use Rattle.sd_cert.specs.Lines.{IsLine, IsStep};
ghost use Rattle.sd_cert.specs.Certificates.{step_lines, proved_lines, pair_lines};
ghost use Rattle.sd_cert.specs.Prefixes.{IsExtension, IsBodyExtension, IsRowsExtension, proof_lines, pair_count};
ghost use Rattle.sd_cert.specs.Prefixes.{body_lines};

use crate::certificate::{CertPair, Certificate};
use crate::copying::copy_step;
use crate::digest::Digests;
use crate::line::{CertState, Line};
use crate::prefix::{Body, PartialPair, PartialProof, PartialRows, Prefix};
use sd_base::NoMemory;
use sd_kernel::{How, Proof, Proved, RowLine, Step};
use sqlite_items::Items;
use std::alloc::Global;

/// The prefix with one more line, if the line can stand there.
pub(crate) fn next(alloc: Global, prefix: Prefix, line: &Line) -> Result<Option<Prefix>, NoMemory>
    requires { IsLine line.now }
    ensures { IfOk result (IsExtension prefix line.now) }
{
    match prefix {
        Prefix::Empty => Ok(match line {
            Line::Version(1) => Some(Prefix::WithVersion),
            _ => None,
        }),
        Prefix::WithVersion => Ok(match line {
            Line::Old(old) => Some(Prefix::WithOld(*old)),
            _ => None,
        }),
        Prefix::WithOld(old) => Ok(match line {
            Line::New(new) => Some(Prefix::WithNew(old, *new)),
            _ => None,
        }),
        Prefix::WithNew(old, new) => Ok(match line {
            Line::Settings(settings) => Some(Prefix::WithDigests(Digests {
                old,
                new,
                settings: *settings,
            })),
            _ => None,
        }),
        Prefix::WithDigests(digests) => Ok(match line {
            Line::Pairs(count) => Some(Prefix::Body(Body {
                digests,
                count: *count,
                pairs: Items::new(alloc),
                last: None,
            })),
            _ => None,
        }),
        Prefix::Body(body) => next_in_body(alloc, body, line),
        Prefix::Rows(rows) => next_in_rows(rows, line),
        Prefix::Complete(_) => Ok(None),
    }
}

fn next_in_body(alloc: Global, body: Body, line: &Line) -> Result<Option<Prefix>, NoMemory>
    requires { IsLine line.now }
    ensures { IfOk result (IsBodyExtension body line.now) }
{
    match line {
        Line::Pair(number, state) => next_pair(alloc, body, *number, *state),
        Line::Candidate(candidate) => next_candidate(alloc, body, *candidate),
        Line::Step(step) => next_step(alloc, body, step),
        Line::Rows(count) => next_rows(alloc, body, *count),
        Line::End => end(body),
        _ => Ok(None),
    }
}

fn next_in_rows(rows: PartialRows, line: &Line) -> Result<Option<Prefix>, NoMemory>
    ensures { IfOk result (IsRowsExtension rows line.now) }
{
    match line {
        Line::Row(row) => next_row(rows, *row),
        _ => Ok(None),
    }
}

/// The list with the partial proof, if there is one.
fn close_proof(
    proved: Items<Proved>,
    proof: Option<PartialProof>,
) -> Result<Items<Proved>, NoMemory>
    ensures { IfOk result (λ closed. flat_map proved_lines closed ≡ flat_map proved_lines proved ++ proof_lines proof) }
{
    let mut proved = proved;
    if let Some(partial) = proof {
        proved.push(Proved {
            candidate: partial.candidate,
            how: How::Steps(Proof {
                steps: partial.steps,
            }),
        })?;
    }
    Ok(proved)
}

/// The list with the last pair, if there is one.
fn close_pair(
    pairs: Items<CertPair>,
    last: Option<PartialPair>,
) -> Result<Items<CertPair>, NoMemory>
    ensures count { IfOk result (λ closed. length closed ≡ pair_count pairs last) }
    ensures lines { IfOk result (λ closed. pair_lines 0 closed ≡ body_lines pairs last) }
{
    let mut pairs = pairs;
    if let Some(pair) = last {
        let proved = close_proof(pair.proved, pair.proof)?;
        pairs.push(CertPair {
            state: pair.state,
            proved,
        })?;
    }
    Ok(pairs)
}

fn next_pair(
    alloc: Global,
    body: Body,
    number: u32,
    state: CertState,
) -> Result<Option<Prefix>, NoMemory>
    ensures { IfOk result (IsBodyExtension body (line.Pair number state)) }
{
    let pairs = close_pair(body.pairs, body.last)?;
    let place = pairs.len() as u64;
    if number as u64 == place && place < body.count {
        let pair = PartialPair {
            state,
            proved: Items::new(alloc),
            proof: None,
        };
        return Ok(Some(Prefix::Body(Body {
            digests: body.digests,
            count: body.count,
            pairs,
            last: Some(pair),
        })));
    }
    Ok(None)
}

fn next_candidate(alloc: Global, body: Body, candidate: u32) -> Result<Option<Prefix>, NoMemory>
    ensures { IfOk result (IsBodyExtension body (line.Candidate candidate)) }
{
    let Body {
        digests,
        count,
        pairs,
        last,
    } = body;
    let Some(pair) = last else {
        return Ok(None);
    };
    let PartialPair {
        state,
        proved,
        proof,
    } = pair;
    let proved = close_proof(proved, proof)?;
    let proof = Some(PartialProof {
        candidate,
        steps: Items::new(alloc),
    });
    let last = Some(PartialPair {
        state,
        proved,
        proof,
    });
    Ok(Some(Prefix::Body(Body {
        digests,
        count,
        pairs,
        last,
    })))
}

fn next_step(alloc: Global, body: Body, step: &Step) -> Result<Option<Prefix>, NoMemory>
    requires { IsStep step.now }
    ensures { IfOk result (IsBodyExtension body (line.Step step.now)) }
{
    let Body {
        digests,
        count,
        pairs,
        last,
    } = body;
    let Some(pair) = last else {
        return Ok(None);
    };
    let PartialPair {
        state,
        proved,
        proof,
    } = pair;
    let Some(proof) = proof else {
        return Ok(None);
    };
    let proof = with_step(proof, copy_step(alloc, step)?)?;
    let last = Some(PartialPair {
        state,
        proved,
        proof: Some(proof),
    });
    Ok(Some(Prefix::Body(Body {
        digests,
        count,
        pairs,
        last,
    })))
}

/// The proof with one more step.
fn with_step(proof: PartialProof, step: Step) -> Result<PartialProof, NoMemory>
    ensures { IfOk result (λ longer. proof_lines (Some longer) ≡ proof_lines (Some proof) ++ step_lines step) }
{
    let PartialProof { candidate, steps } = proof;
    let mut steps = steps;
    steps.push(step)?;
    Ok(PartialProof { candidate, steps })
}

fn next_rows(alloc: Global, body: Body, rows: u64) -> Result<Option<Prefix>, NoMemory>
    ensures { IfOk result (IsBodyExtension body (line.Rows rows)) }
{
    let Body {
        digests,
        count,
        pairs,
        last,
    } = body;
    let Some(pair) = last else {
        return Ok(None);
    };
    let PartialPair {
        state,
        proved,
        proof,
    } = pair;
    let Some(proof) = proof else {
        return Ok(None);
    };
    if rows == 0 {
        let proof = with_step(proof, Step::Rows(Items::new(alloc)))?;
        let last = Some(PartialPair {
            state,
            proved,
            proof: Some(proof),
        });
        return Ok(Some(Prefix::Body(Body {
            digests,
            count,
            pairs,
            last,
        })));
    }
    Ok(Some(Prefix::Rows(PartialRows {
        digests,
        count,
        pairs,
        state,
        proved,
        proof,
        rows: Items::new(alloc),
        later: rows - 1,
    })))
}

fn next_row(partial: PartialRows, row: RowLine) -> Result<Option<Prefix>, NoMemory>
    ensures { IfOk result (IsRowsExtension partial (line.Row row)) }
{
    let PartialRows {
        digests,
        count,
        pairs,
        state,
        proved,
        proof,
        rows,
        later,
    } = partial;
    let mut rows = rows;
    rows.push(row)?;
    if later > 0 {
        return Ok(Some(Prefix::Rows(PartialRows {
            digests,
            count,
            pairs,
            state,
            proved,
            proof,
            rows,
            later: later - 1,
        })));
    }
    let proof = with_step(proof, Step::Rows(rows))?;
    let last = Some(PartialPair {
        state,
        proved,
        proof: Some(proof),
    });
    Ok(Some(Prefix::Body(Body {
        digests,
        count,
        pairs,
        last,
    })))
}

fn end(body: Body) -> Result<Option<Prefix>, NoMemory>
    ensures { IfOk result (IsBodyExtension body line.End) }
{
    let pairs = close_pair(body.pairs, body.last)?;
    if pairs.len() as u64 == body.count {
        return Ok(Some(Prefix::Complete(Certificate {
            digests: body.digests,
            pairs,
        })));
    }
    Ok(None)
}
