ghost use Rattle.std.specs.Prelude.{◌≡◌, ℕ, ◌<◌, ◌^◌, [], ◌∷◌, All, IfOk, true, length, map, IfSome, IfNone, get_or};
ghost use Rattle.sd_kernel.specs.declared.step.Step.{Step};
ghost use Rattle.sd_term.specs.Bank.{tree_at};
ghost use Rattle.sd_kernel.specs.Facts.{trail_of};
ghost use Rattle.sd_kernel.specs.Proof.{IsOpen, front};
ghost use Rattle.sd_search.specs.Choice.{IsChoice, Begins, Asks, choice_of, IsLeftAtom};
ghost use Rattle.sd_search.specs.Terms.{AreTerms, AllTruthValued, AreValuesUnder};

use crate::descent::{false_fact, open_atom, reached_atom};
use sd_arith::refuting_rows;
use sd_base::NoMemory;
use sd_euf::{Closed, close};
use sd_kernel::{Fact, NodeLine, Step, Walk};
use sd_term::{Bank, Query, TermId};
use sqlite_items::Items;
use std::alloc::Global;

/// What comes next on a branch.
#[derive(Drop)]
pub enum Choice {
    /// Steps that close the branch.
    Close(Items<Step>),
    /// A new term.
    Number(NodeLine),
    /// The branches where an atom is true and where it is false.
    Split(u32),
    /// Nothing is left to do.
    Settled,
}

/// What comes next on a walk's first open branch.
pub fn next_choice(
    query: &Query,
    walk: &Walk,
    facts: &[TermId],
    values: &[Option<bool>],
) -> Result<Choice, NoMemory>
    requires open { IsOpen walk.now }
    requires terms { AreTerms query.now walk.now.0 }
    requires truths { AllTruthValued query.now }
    requires begins { Begins query.now (front walk.now) }
    requires facts { map (λ f. tree_at walk.now.0 f) facts.now ≡ query.now }
    requires below { All (λ f. f < length walk.now.0) facts.now }
    requires values { AreValuesUnder (front walk.now) walk.now.0 values.now }
    ensures { IfOk result (λ c. IsChoice query.now walk.now.0 (front walk.now) c) }
{
    let terms = walk.terms();
    let trail = walk.facts();
    if trail.len() > u32::MAX as usize {
        return Err(NoMemory);
    }
    branch_choice(query, terms, trail, facts, values)
}

/// The branch is closed by a false fact, by rows or by equalities, where it can be. Else an atom without a value that
/// is reached from a fact without one is split. Once all facts are true, what is asked for gets a number or is split,
/// and then each atom is split.
pub fn branch_choice(
    query: &Query,
    terms: &Bank,
    trail: &[Fact],
    facts: &[TermId],
    values: &[Option<bool>],
) -> Result<Choice, NoMemory>
    requires short { length trail.now < 2 ^ 32 }
    requires trail { All (λ f. f.term < length terms.now) trail.now }
    requires terms { AreTerms query.now terms.now }
    requires truths { AllTruthValued query.now }
    requires begins { Begins query.now (trail_of terms.now trail.now) }
    requires facts { map (λ f. tree_at terms.now f) facts.now ≡ query.now }
    requires below { All (λ f. f < length terms.now) facts.now }
    requires values { AreValuesUnder (trail_of terms.now trail.now) terms.now values.now }
    ensures { IfOk result (λ c. IsChoice query.now terms.now (trail_of terms.now trail.now) c) }
{
    let alloc = query.allocator();
    if let Some(fact) = false_fact(facts, values) {
        return closing_by(alloc, Step::Close(fact));
    }
    if let Some(lines) = refuting_rows(alloc, terms, trail, values)? {
        return closing_by(alloc, Step::Rows(lines));
    }
    let left = match close(alloc, terms, trail, values)? {
        Closed::Conflict(steps) => return Ok(Choice::Close(steps)),
        Closed::Missing(step) => required(step),
        Closed::Classes(_) => left_atom(terms, values),
    };
    match reached_atom(terms, facts, values) {
        Some(atom) => Ok(Choice::Split(atom)),
        None => Ok(left),
    }
}

/// The choice of a step that numbers a term or splits one.
fn required(step: Step) -> Choice
    requires { Asks step }
    ensures { result ≡ choice_of step }
{
    match step {
        Step::Term(line) => Choice::Number(line),
        Step::Split(atom) => Choice::Split(atom),
        _ => unreachable!(),
    }
}

/// The first atom without a value is split, where there is one.
fn left_atom(terms: &Bank, values: &[Option<bool>]) -> Choice
    requires { length values.now ≡ length terms.now }
    ensures { IsLeftAtom terms.now values.now result }
{
    match open_atom(terms, values) {
        Some(atom) => Choice::Split(atom),
        None => Choice::Settled,
    }
}

fn closing_by(alloc: Global, step: Step) -> Result<Choice, NoMemory>
    ensures { IfOk result (λ c. c ≡ Choice.Close (step ∷ [])) }
{
    let mut steps = Items::new(alloc);
    steps.push(step)?;
    Ok(Choice::Close(steps))
}
