ghost use Rattle.std.specs.Prelude.{◌≡◌, ◌≢◌, ℕ, ◌<◌, ◌^◌, [], ◌∷◌, All, IfOk, IfSome, IfNone, length, map};
ghost use Rattle.std.specs.Prelude.{false, true, None};
ghost use Rattle.sd_term.specs.Closed.{IsClosed};
ghost use Rattle.sd_kernel.specs.declared.step.Step.{Step};
ghost use Rattle.sd_kernel.specs.Facts.{trail_of};
ghost use Rattle.sd_kernel.specs.Known.{known, known_at};
ghost use Rattle.sd_term.specs.Bank.{tree_at};
ghost use Rattle.sd_forms.specs.FactRows.{is_comparison};
ghost use Rattle.sd_term.specs.Sorts.{AllWellSorted};
ghost use Rattle.sd_linear.specs.Elimination.{refuted};
ghost use Rattle.sd_cube.specs.CubeRows.{eliminated_branch};
ghost use Rattle.sd_cube.specs.Spent.{ClosesBranch};

use crate::gather::gather;
use crate::lines::lines_of;
use sd_base::NoMemory;
use sd_forms::{is_int_eq, is_le};
use sd_kernel::{Fact, RowLine};
use sd_linear::{Eliminated, eliminate};
use sd_term::{Bank, TermId};
use sqlite_items::Items;
use std::alloc::Global;

/// Whether a term is an order or an equality of integers.
fn is_comparison(terms: &Bank, id: TermId) -> bool
    requires { id < length terms.now }
    ensures { result ≡ is_comparison (tree_at terms.now id) }
{
    is_le(terms, id) || is_int_eq(terms, id)
}

/// Whether a term with a known value compares integers. Where none does, the branch has no rows.
fn compares(terms: &Bank, values: &[Option<bool>]) -> bool
    requires { length values.now ≡ length terms.now }
    ensures { result ≡ false → (n : ℕ) → n < length terms.now → is_comparison (tree_at terms.now n) ≡ true
        → known_at values.now n ≡ None }
{
    for n in 0..terms.len() as usize {
        if values[n].is_some() && is_comparison(terms, TermId::new(n as u32)) {
            return true;
        }
    }
    false
}

/// The lines of a `rows` step that closes a branch with these facts, where elimination refutes the branch's rows.
pub fn refuting_rows(
    alloc: Global,
    terms: &Bank,
    trail: &[Fact],
    values: &[Option<bool>],
) -> Result<Option<Items<RowLine>>, NoMemory>
    requires below { All (λ f. f.term < length terms.now) trail.now }
    requires sorted { AllWellSorted terms.now }
    requires closed { IsClosed terms.now }
    requires values { values.now ≡ map (λ t. known (trail_of terms.now trail.now) t) terms.now }
    requires short { length trail.now < 2 ^ 32 }
    ensures some { IfOk result (λ r. IfSome r (λ lines. ClosesBranch terms.now (trail_of terms.now trail.now)
        (Step.Rows lines ∷ []))) }
    ensures none { IfOk result (λ r. IfNone r (eliminated_branch terms.now (trail_of terms.now trail.now) ≢ refuted)) }
{
    if !compares(terms, values) {
        return Ok(None);
    }
    let gathered = gather(alloc, terms, trail, values)?;
    match eliminate(alloc, gathered.rows.as_slice())? {
        Eliminated::Refuted(steps) => {
            let lines = lines_of(alloc, gathered.lines.as_slice(), steps.as_slice())?;
            Ok(Some(lines))
        }
        _ => Ok(None),
    }
}
