//! What is to be written and said.
ghost use Rattle.std.specs.Prelude.{◌≡◌, ℕ, List, Option, IfOk, length};
ghost use Rattle.std.specs.List.{list_all};
ghost use Rattle.sd_run.specs.Outcome as outcome;
ghost use Rattle.sd_run.specs.Outcome.{IsReport};
ghost use Rattle.sd_rounds.specs.declared.settle.Death.{Death};
ghost use Rattle.sd_product.specs.Work.{claims_in};
ghost use Rattle.sd_run.specs.Replies.{outcome_of, outcome_with, texts_of, IsMatched};
ghost use Rattle.sd_run.specs.Report.{is_safe};

use crate::judge::verdicts_of;
use crate::matching::Matched;
use crate::report::report_of;
use crate::verdict::{Otherwise, PairVerdict};
use sd_base::NoMemory;
use sd_cand::LiveTable;
use sd_rounds::Death;
use std::alloc::Global;

/// A certificate that is to be written, with the name of its file.
#[derive(Drop)]
pub struct NamedCertificate<'a> {
    pub name: &'a str,
    pub text: Vec<u8>,
}

/// What is to be written, with the status and what is said of the pairs.
#[derive(Drop)]
pub struct Reply<'a> {
    pub status: u8,
    pub text: Vec<u8>,
    pub pairs: Vec<PairVerdict>,
    pub table: Vec<u64>,
    pub deaths: Vec<Death>,
    pub certificate: Option<NamedCertificate<'a>>,
}

/// A report, with the status and what is said of the pairs.
#[derive(Drop)]
pub struct Report {
    pub status: u8,
    pub text: Vec<u8>,
    pub pairs: Vec<PairVerdict>,
    pub table: Vec<u64>,
}

/// Why there is no reply.
#[derive(Clone, Copy, Debug, PartialEq, Eq)]
pub enum Stop {
    Memory,
    /// The reading of a file failed.
    Failed,
}

impl From<NoMemory> for Stop {
    ghost use Rattle.std.specs.Prelude.{◌≡◌};
    ghost use Rattle.sd_run.specs.declared.reply.Stop.TheVariants.{Memory};

    ghost from_gives = { λ _ e. e ≡ Memory };

    fn from(_e: NoMemory) -> Stop {
        Stop::Memory
    }
}

/// A reply that says nothing of pairs.
pub fn message<'a>(alloc: Global, status: u8, text: &[u8]) -> Result<Reply<'a>, NoMemory>
    ensures { IfOk result (λ reply. outcome_of reply ≡ outcome.message status text.now) }
{
    Ok(Reply {
        status,
        text: text.to_vec(alloc)?,
        pairs: Vec::new(alloc),
        table: Vec::new(alloc),
        deaths: Vec::new(alloc),
        certificate: None,
    })
}

fn all_safe(pairs: &[PairVerdict]) -> bool
    ensures { result ≡ list_all (λ v. is_safe v.state) pairs.now }
{
    pairs.iter().all(|v| v.state.is_safe())
}

/// 0 where every pair is safe, else 1.
fn status_of(pairs: &[PairVerdict]) -> u8
    ensures { result ≡ outcome.status_of pairs.now }
{
    if all_safe(pairs) { 0 } else { 1 }
}

/// The report on two texts from the table of live candidates. A pair of which no claim on the flags is live is said to
/// be `otherwise`.
pub fn report_on(
    alloc: Global,
    matched: &Matched,
    table: &LiveTable,
    otherwise: Otherwise,
) -> Result<Report, NoMemory>
    requires matched { IsMatched matched.now }
    requires size { length table.now ≡ length (claims_in matched.now.work) }
    ensures { IfOk result (λ report. (deaths : List Death) (certificate : Option (List ℕ × List ℕ))
        → IsReport otherwise (texts_of matched.now.old matched.now.new) table.now
        (outcome_with report deaths certificate)) }
{
    let work = &matched.work;
    let pairs = verdicts_of(alloc, work, table, otherwise)?;
    let text = report_of(
        alloc,
        work.old_program(),
        work.new_program(),
        pairs.as_slice(),
    )?;
    let status = status_of(pairs.as_slice());
    Ok(Report {
        status,
        text,
        pairs,
        table: table.words(alloc)?,
    })
}
