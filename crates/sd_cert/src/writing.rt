//! The certificate of live candidates and their proofs.
ghost use Rattle.std.specs.Prelude.{◌≡◌, ◌≤◌, ◌<◌, ◌^◌, ◌+◌, ◌-◌, ◌++◌, ℕ, map, length, IfOk};
ghost use Rattle.sd_product.specs.Inductive.{proved_of};
ghost use Rattle.sd_product.specs.Work.{claims_in};
ghost use Rattle.sd_cert.specs.Accepts.{Ascend, entry_from};
ghost use Rattle.sd_cert.specs.Headers.{headers_of, count_of};
ghost use Rattle.sd_cert.specs.Written.{IsCertificateOf, IsWritten};

use crate::certificate::{CertPair, Certificate};
use crate::copying::copy_steps;
use crate::digest::Digests;
use crate::header::{PairHeader, headers_of};
use crate::spelling::spell_certificate;
use sd_base::NoMemory;
use sd_kernel::{How, Proof, Proved};
use sd_product::Work;
use sqlite_items::Items;
use std::alloc::Global;

/// The entry as it stands in its pair, whose first candidate has this number.
fn entry_of(alloc: Global, proved: &Proved, first: u32) -> Result<Proved, NoMemory>
    requires { first ≤ proved.now.candidate }
    ensures { IfOk result (λ entry. entry_from first entry ≡ proved.now) }
{
    let How::Steps(proof) = &proved.how;
    let steps = copy_steps(alloc, proof.steps.as_slice())?;
    Ok(Proved {
        candidate: proved.candidate - first,
        how: How::Steps(Proof { steps }),
    })
}

/// The entries of a pair, whose candidates are numbered from `first` to before `end`, and the proofs that are left.
fn entries_of(
    alloc: Global,
    proofs: &[Proved],
    first: u32,
    end: u32,
) -> Result<(Items<Proved>, &[Proved]), NoMemory>
    requires order { first ≤ end }
    requires ascend { (bound : ℕ) × Ascend first bound (proved_of proofs.now) }
    ensures all { IfOk result (λ r. map (entry_from first) r.0 ++ r.1.now ≡ proofs.now) }
    ensures ascend { IfOk result (λ r. (bound : ℕ) → Ascend first bound (proved_of proofs.now) →
        Ascend 0 (end - first) (proved_of r.0) × Ascend end bound (proved_of r.1.now)) }
{
    let mut entries = Items::new(alloc);
    let mut left = proofs;
    'proofs: while let [next, rest @ ..] = left {
        if next.candidate >= end {
            break;
        }
        entries.push(entry_of(alloc, next, first)?)?;
        left = rest;
    }
    Ok((entries, left))
}

/// The number below the candidates of a pair.
fn end_of(header: PairHeader, first: u32) -> Result<u32, NoMemory>
    ensures { IfOk result (λ end. end ≡ first + header.candidates) }
{
    match first.checked_add(header.candidates) {
        Some(end) => Ok(end),
        None => Err(NoMemory),
    }
}

/// The certificate of pairs with these headers and of these digests whose entries are these proofs.
pub(crate) fn certificate_of(
    alloc: Global,
    headers: &[PairHeader],
    digests: &Digests,
    proofs: &[Proved],
) -> Result<Certificate, NoMemory>
    requires { Ascend 0 (count_of headers.now) (proved_of proofs.now) }
    ensures count { IfOk result (λ c. length c.pairs ≡ length headers.now) }
    ensures certificate { IfOk result (IsCertificateOf headers.now digests.now proofs.now) }
{
    let mut claims = Items::new(alloc);
    let mut first = 0u32;
    let mut left = proofs;
    'pairs: for header in headers {
        let end = end_of(*header, first)?;
        let (proved, rest) = entries_of(alloc, left, first, end)?;
        claims.push(CertPair {
            state: header.state,
            proved,
        })?;
        first = end;
        left = rest;
    }
    Ok(Certificate {
        digests: *digests,
        pairs: claims,
    })
}

/// The certificate of two programs with these digests whose entries are these proofs.
fn certificate_of_work(
    alloc: Global,
    work: &Work,
    digests: &Digests,
    proofs: &[Proved],
) -> Result<Certificate, NoMemory>
    requires { Ascend 0 (length (claims_in work.now)) (proved_of proofs.now) }
    ensures count { IfOk result (λ c. length c.pairs < 2 ^ 32) }
    ensures certificate { IfOk result (IsCertificateOf (headers_of work.now) digests.now proofs.now) }
{
    let headers = headers_of(alloc, work)?;
    certificate_of(alloc, headers.as_slice(), digests, proofs)
}

/// The text of the certificate of two programs with these digests whose live candidates are those of the proofs, which
/// are numbered through all pairs.
pub fn write_certificate(
    alloc: Global,
    work: &Work,
    digests: &Digests,
    proofs: &[Proved],
) -> Result<Vec<u8>, NoMemory>
    requires ascend { Ascend 0 (length (claims_in work.now)) (proved_of proofs.now) }
    ensures { IfOk result (λ text. IsWritten work.now digests.now proofs.now text.items) }
{
    let certificate = certificate_of_work(alloc, work, digests, proofs)?;
    spell_certificate(alloc, &certificate)
}
