//! Certificates against the programs and digests that they are of.
ghost use Rattle.std.specs.Prelude.{◌≡◌, ◌≢◌, ◌⊎◌, ◌-◌, ◌<◌, ◌^◌, None, Some, Bool, List, IfOk, IfErr, length, take};
ghost use Rattle.sd_product.specs.Work.{claims_in, queries_of};
ghost use Rattle.sd_product.specs.Inductive.{IsInductive};
ghost use Rattle.sd_cert.specs.declared.fault.CertError.TheVariants.{NoMemory as Memory};
ghost use Rattle.sd_cert.specs.Accepts.{Accepts, FitsPairs, proofs_from};
ghost use Rattle.sd_cert.specs.BadSteps.{step_fault};
ghost use Rattle.sd_cert.specs.Certificates.{certificate_lines};
ghost use Rattle.sd_cert.specs.Refusals.{first_fault};
ghost use Rattle.sd_cert.specs.ReplayFaults.{IsCertificateFault, IsReplayFault};
ghost use Rattle.sd_cert.specs.Headers.{headers_of};

use crate::certificate::Certificate;
use crate::digest::Digests;
use crate::fault::CertError;
use crate::header::{PairHeader, headers_of};
use crate::judge::judge_pairs;
use crate::line::Line;
use crate::reading::certificate_in;
use crate::refusal::first_refusal;
use crate::table::list_live;
use crate::text::read_lines;
use sd_cand::LiveTable;
use sd_product::Work;
use std::alloc::Global;

/// What a certificate that was accepted shows.
#[derive(Drop)]
pub struct Replayed {
    /// The live candidates, numbered through all pairs.
    pub table: LiveTable,
}

/// The table of a certificate that fits the pairs, if its proofs are good under this table.
fn accept(alloc: Global, work: &Work, certificate: &Certificate) -> Result<Replayed, CertError>
    requires { FitsPairs (headers_of work.now) certificate.now.pairs }
    ensures size { IfOk result (λ r. length r.table ≡ length (claims_in work.now)) }
    ensures inductive { IfOk result (λ r. IsInductive work.now r.table
        (proofs_from 0 (headers_of work.now) certificate.now.pairs)) }
    ensures fault { IfErr result (λ e. (e ≡ Memory) ⊎ (step_fault work.now certificate.now.pairs ≡ Some e)) }
{
    let pairs = certificate.pairs.as_slice();
    let table = list_live(alloc, work, pairs)?;
    judge_pairs(alloc, work, &table, pairs, 6)?;
    Ok(Replayed { table })
}

/// The lines before the one with this number, from 1.
fn lines_before(lines: &[Line], number: u64) -> &[Line]
    ensures { result.now ≡ take (number - 1) lines.now }
{
    let count = number.saturating_sub(1);
    if count < lines.len() as u64 {
        &lines[..count as usize]
    } else {
        lines
    }
}

/// Why a line before the bad one is refused, or else why the bad one is bad.
fn first_fault(
    headers: &[PairHeader],
    digests: &Digests,
    lines: &[Line],
    fault: CertError,
) -> CertError
    requires { length headers.now < 2 ^ 32 }
    ensures { result ≡ first_fault headers.now digests.now lines.now fault }
{
    match fault {
        CertError::Line(number) => {
            match first_refusal(headers, digests, lines_before(lines, number)) {
                Some(first) => first,
                None => fault,
            }
        }
        _ => fault,
    }
}

/// The table of a certificate with these lines, if none of them is refused and its proofs are good.
fn check(
    alloc: Global,
    work: &Work,
    headers: &[PairHeader],
    digests: &Digests,
    lines: &[Line],
    certificate: &Certificate,
) -> Result<Replayed, CertError>
    requires headers { headers.now ≡ headers_of work.now }
    requires count { length headers.now < 2 ^ 32 }
    requires lines { lines.now ≡ certificate_lines certificate.now }
    ensures digests { IfOk result (λ _. certificate.now.digests ≡ digests.now) }
    ensures fits { IfOk result (λ _. FitsPairs (headers_of work.now) certificate.now.pairs) }
    ensures size { IfOk result (λ r. length r.table ≡ length (claims_in work.now)) }
    ensures inductive { IfOk result (λ r. IsInductive work.now r.table
        (proofs_from 0 (headers_of work.now) certificate.now.pairs)) }
    ensures fault { IfErr result (IsCertificateFault work.now digests.now certificate.now) }
{
    match first_refusal(headers, digests, lines) {
        Some(fault) => Err(fault),
        None => accept(alloc, work, certificate),
    }
}

/// The table that a certificate shows to stand on proofs under the table itself, if it is one of these digests and
/// programs. It trusts nothing about who made the certificate, and its answer for the programs doesn't rest on the
/// digests.
///
/// The first bad line is answered: `Version` and `Line` as `read_certificate` has them; `OtherOld`, `OtherNew` and
/// `OtherSettings` for another digest; `Pair` for a number of pairs other than theirs, with the lesser of the two, and
/// for a pair's wrong state and a candidate that the pair doesn't have or that isn't above the one before, with the
/// pair's number. Only where no line is bad are the steps judged, and `Step` has the first of their lines that is bad.
pub fn replay(
    alloc: Global,
    work: &Work,
    digests: &Digests,
    certificate: &[u8],
) -> Result<Replayed, CertError>
    ensures accepted { IfOk result (λ r. Accepts work.now digests.now certificate.now r.table) }
    ensures refused_only { IfErr result (λ e. e ≢ Memory → (t : List Bool) →
        Accepts work.now digests.now certificate.now t → ⊥) }
    ensures refused { IfErr result (IsReplayFault work.now digests.now certificate.now) }
{
    let headers = headers_of(alloc, work)?;
    let headers = headers.as_slice();
    let (lines, rest) = read_lines(alloc, certificate)?;
    let lines = lines.as_slice();
    match certificate_in(alloc, lines, rest) {
        Ok(read) => check(alloc, work, headers, digests, lines, &read),
        Err(fault) => Err(first_fault(headers, digests, lines, fault)),
    }
}
