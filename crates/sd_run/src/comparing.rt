//! The comparison of two texts.
ghost use Rattle.std.specs.Prelude.{◌≡◌, ◌≤◌, length, IfOk};
ghost use Rattle.std.specs.Option.{option_copied};
ghost use Rattle.sd_product.specs.Inductive.{proved_of};
ghost use Rattle.sd_product.specs.Work.{claims_in};
ghost use Rattle.sd_cert.specs.Accepts.{Ascend};
ghost use Rattle.sd_run.specs.Outcome.{IsComparison};
ghost use Rattle.sd_run.specs.Replies.{outcome_of, texts_of, named, IsMade, IsMatched};

use crate::matching::Matched;
use crate::reply::{NamedCertificate, Reply, report_on};
use crate::verdict::Otherwise;
use sd_base::NoMemory;
use sd_cert::write_certificate;
use sd_kernel::Proved;
use sd_rounds::settle_one;
use std::alloc::Global;

/// The certificate of two texts with these proofs, if a file is named for it.
fn certify<'a>(
    alloc: Global,
    matched: &Matched,
    proofs: &[Proved],
    name: Option<&'a str>,
) -> Result<Option<NamedCertificate<'a>>, NoMemory>
    requires ascend { Ascend 0 (length (claims_in matched.now.work)) (proved_of proofs.now) }
    ensures { IfOk result (λ made. IsMade (texts_of matched.now.old matched.now.new) matched.now.work proofs.now
        (option_copied name.entry) (named made)) }
{
    let Some(name) = name else {
        return Ok(None);
    };
    let text = write_certificate(alloc, &matched.work, &matched.digests(), proofs)?;
    Ok(Some(NamedCertificate { name, text }))
}

/// Judges the pairs of two texts, each search with so many leaves. The certificate is made where a file is named for
/// it.
pub fn compare<'a>(
    alloc: Global,
    matched: &Matched,
    leaves: u32,
    name: Option<&'a str>,
) -> Result<Reply<'a>, NoMemory>
    requires matched { IsMatched matched.now }
    requires leaves { 1 ≤ leaves }
    ensures { IfOk result (λ reply. IsComparison leaves (option_copied name.entry)
        (texts_of matched.now.old matched.now.new) (outcome_of reply)) }
{
    let settled = settle_one(alloc, &matched.work, leaves)?;
    let certificate = certify(alloc, matched, settled.proofs.as_slice(), name)?;
    let report = report_on(alloc, matched, &settled.table, Otherwise::Unknown)?;
    Ok(Reply {
        status: report.status,
        text: report.text,
        pairs: report.pairs,
        table: report.table,
        deaths: settled.deaths,
        certificate,
    })
}
