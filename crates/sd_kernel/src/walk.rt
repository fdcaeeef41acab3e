ghost use Rattle.std.specs.Prelude.{◌≡◌, ℕ, ◌<◌, ◌≤◌, ◌^◌, ◌-◌, All, [], ◌∷◌, IfOk, OnOk, IfSome, IsTrue, ◌↔◌, List, length, map, true};
ghost use Rattle.sd_kernel.specs.Proof.{next, continues, start, judged, Proves, verdict, IsOpen, front};
ghost use Rattle.sd_kernel.specs.Known.{known};
ghost use Rattle.sd_kernel.specs.Facts.{trail_of};
ghost use Rattle.sd_kernel.specs.Refusal.{refusal_or};
ghost use Rattle.sd_kernel.specs.Effects.{after_effect, IsEffectOn};
ghost use Rattle.sd_term.specs.Bank.{tree_at};
ghost use Rattle.sd_term.specs.Sorts.{AllWellSorted};
ghost use Rattle.sd_term.specs.Truth.{IsUnsatisfiable};

use crate::branch::{close_effect, split_effect};
use crate::chain::chain_effect;
use crate::choice::ite_effect;
use crate::effect::Effect;
use crate::known::{Fact, known_values};
use crate::nodes::pair_node;
use crate::order::order_effect;
use crate::rows::rows_effect;
use crate::step::{
    BadLine, NodeLine, Proof, RowLine, Step, StepCause, Verdict, line_after, rejected,
};
use crate::term::term_effect;
use sd_base::NoMemory;
use sd_term::{Bank, Numbered, Op, Query, TermId};
use sqlite_items::Items;
use std::alloc::Global;
use std::marker::Model;

/// A second branch that is open: the front of the trail of this length, and the term false.
#[derive(Clone, Copy, Debug)]
pub struct Waiting {
    pub length: usize,
    pub term: TermId,
}

/// The terms and the open branches of a proof that is read step by step.
#[derive(Drop)]
pub struct Walk {
    alloc: Global,
    terms: Bank,
    trail: Vec<Fact>,
    waiting: Vec<Waiting>,
    has_open: bool,
}

impl Model for Walk {
    ghost use Rattle.sd_kernel.specs.Proof.{State};
    ghost use Rattle.sd_kernel.specs.Branches.{state_code, open_branches, IsWalk};

    ghost Value = { State };

    ghost coded = { state_code };

    ghost view = { λ w. (w.terms, open_branches w.terms w.trail.items w.waiting.items w.has_open) };

    ghost invariant = { λ w. IsWalk w.terms w.trail.items w.waiting.items };
}

impl Walk {
    /// The terms by number.
    pub fn terms(&self) -> &Bank
        ensures { result.now ≡ self.now.0 }
    {
        &self.terms
    }

    /// The facts of the first open branch, in order.
    pub fn facts(&self) -> &[Fact]
        requires { IsOpen self.now }
        ensures below { All (λ f. f.term < length self.now.0) result.now }
        ensures facts { trail_of self.now.0 result.now ≡ front self.now }
    {
        &self.trail
    }

    /// What is known of each term in the first open branch.
    pub fn values(&self) -> Result<Items<Option<bool>>, NoMemory>
        requires { IsOpen self.now }
        ensures { IfOk result (λ values. values ≡ map (λ t. known (front self.now) t) self.now.0) }
    {
        known_values(self.alloc, &self.terms, &self.trail)
    }

    /// Whether a branch is open.
    pub fn is_open(&self) -> bool
        ensures { IsTrue result ↔ IsOpen self.now }
    {
        self.has_open
    }

    /// Adds a new term, an operation of two terms.
    fn grow(&mut self, op: Op, first: TermId, second: TermId) -> Result<(), NoMemory>
        requires opened { IsOpen self.old }
        requires fits { IsEffectOn self.old.0 (Effect.Grows op first second) }
        ensures { OnOk result (after_effect self.old (Effect.Grows op first second) ≡ continues self.new) }
    {
        let node = pair_node(self.alloc, op, first, second)?;
        self.terms.put_new(node)?;
        Ok(())
    }

    /// Adds a fact to the first open branch.
    fn add(&mut self, term: TermId, value: bool) -> Result<(), NoMemory>
        requires opened { IsOpen self.old }
        requires fits { IsEffectOn self.old.0 (Effect.Adds term value) }
        ensures { OnOk result (after_effect self.old (Effect.Adds term value) ≡ continues self.new) }
    {
        self.trail.push(Fact { term, value })?;
        Ok(())
    }

    /// Splits the first open branch: the term is true in it, and false in the branch that waits.
    fn divide(&mut self, term: TermId) -> Result<(), NoMemory>
        requires opened { IsOpen self.old }
        requires fits { IsEffectOn self.old.0 (Effect.Splits term) }
        ensures { OnOk result (after_effect self.old (Effect.Splits term) ≡ continues self.new) }
    {
        let length = self.trail.len();
        self.waiting.push(Waiting { length, term })?;
        self.trail.push(Fact { term, value: true })?;
        Ok(())
    }

    /// Closes the first open branch. The latest one that waits is open then.
    fn finish(&mut self) -> Result<(), NoMemory>
        requires { IsOpen self.old }
        ensures { OnOk result (after_effect self.old Effect.Closes ≡ continues self.new) }
    {
        let Some(second) = self.waiting.pop() else {
            self.has_open = false;
            return Ok(());
        };
        self.trail.truncate(second.length);
        self.trail.push(Fact {
            term: second.term,
            value: false,
        })?;
        Ok(())
    }
}

impl Walk {
    /// Does to the first open branch what a step does. With no open branch the step is bad.
    fn apply(&mut self, effect: Effect) -> Result<Option<BadLine>, NoMemory>
        requires { IsEffectOn self.old.0 effect }
        ensures { IfOk result (λ r. after_effect self.old effect ≡ refusal_or r self.new) }
    {
        if !self.is_open() {
            return Ok(Some(BadLine::first(StepCause::Shape)));
        }
        match effect {
            Effect::Bad(bad) => Ok(Some(bad)),
            Effect::Grows(op, first, second) => {
                self.grow(op, first, second)?;
                Ok(None)
            }
            Effect::Adds(term, value) => {
                self.add(term, value)?;
                Ok(None)
            }
            Effect::Splits(term) => {
                self.divide(term)?;
                Ok(None)
            }
            Effect::Closes => {
                self.finish()?;
                Ok(None)
            }
        }
    }

    /// Adds a new term for the rest of the proof.
    pub fn term(&mut self, line: NodeLine) -> Result<Option<BadLine>, NoMemory>
        ensures { IfOk result (λ r. next self.old (Step.Term line) ≡ refusal_or r self.new) }
    {
        let effect = term_effect(self.alloc, &self.terms, line)?;
        self.apply(effect)
    }

    /// Splits the first open branch on a truth-valued term: true first, and false in the branch that waits.
    pub fn split(&mut self, number: u32) -> Result<Option<BadLine>, NoMemory>
        ensures { IfOk result (λ r. next self.old (Step.Split number) ≡ refusal_or r self.new) }
    {
        let effect = split_effect(&self.terms, number);
        self.apply(effect)
    }

    /// Adds to the first open branch that an order is false: the equality of its sides is false there, and their other
    /// order true.
    pub fn order(
        &mut self,
        equality: u32,
        known: u32,
        other: u32,
    ) -> Result<Option<BadLine>, NoMemory>
        ensures { IfOk result (λ r. next self.old (Step.Order equality known other) ≡ refusal_or r self.new) }
    {
        let effect = order_effect(self.alloc, &self.terms, &self.trail, equality, known, other)?;
        self.apply(effect)
    }

    /// Adds to the first open branch that a choice equals the part that its condition, which is known there, chooses.
    pub fn ite(&mut self, choice: u32, equality: u32) -> Result<Option<BadLine>, NoMemory>
        ensures { IfOk result (λ r. next self.old (Step.Ite choice equality) ≡ refusal_or r self.new) }
    {
        let effect = ite_effect(self.alloc, &self.terms, &self.trail, choice, equality)?;
        self.apply(effect)
    }

    /// Adds to the first open branch that two terms are equal: equalities that are true there lead from one to the
    /// other.
    pub fn chain(&mut self, equality: u32, links: &[u32]) -> Result<Option<BadLine>, NoMemory>
        ensures { IfOk result (λ r. next self.old (Step.Chain equality links.now) ≡ refusal_or r self.new) }
    {
        let effect = chain_effect(self.alloc, &self.terms, &self.trail, equality, links)?;
        self.apply(effect)
    }

    /// Closes the first open branch by a fact of it whose term has the opposite value, by its parts or by an earlier
    /// fact.
    pub fn close(&mut self, number: u32) -> Result<Option<BadLine>, NoMemory>
        ensures { IfOk result (λ r. next self.old (Step.Close number) ≡ refusal_or r self.new) }
    {
        let effect = close_effect(self.alloc, &self.terms, &self.trail, number)?;
        self.apply(effect)
    }

    /// Closes the first open branch by rows that follow from its facts, the last of which no integers meet.
    pub fn rows(&mut self, lines: &[RowLine]) -> Result<Option<BadLine>, NoMemory>
        ensures { IfOk result (λ r. next self.old (Step.Rows lines.now) ≡ refusal_or r self.new) }
    {
        let effect = rows_effect(self.alloc, &self.terms, &self.trail, lines)?;
        self.apply(effect)
    }

    /// Reads a step. It is bad at the line that is answered, or it is done.
    pub fn step(&mut self, step: &Step) -> Result<Option<BadLine>, NoMemory>
        ensures { IfOk result (λ r. next self.old step.now ≡ refusal_or r self.new) }
    {
        match step {
            Step::Term(line) => self.term(*line),
            Step::Split(number) => self.split(*number),
            Step::Order(equality, known, other) => self.order(*equality, *known, *other),
            Step::Ite(choice, equality) => self.ite(*choice, *equality),
            Step::Chain(equality, links) => self.chain(*equality, links.as_slice()),
            Step::Close(number) => self.close(*number),
            Step::Rows(lines) => self.rows(lines.as_slice()),
        }
    }

    /// One open branch, in which these facts are true.
    pub fn new(alloc: Global, terms: Bank, facts: &[TermId]) -> Result<Walk, NoMemory>
        requires facts { All (λ f. f < length terms) facts.now }
        requires sorted { AllWellSorted terms }
        ensures { IfOk result (λ w. w ≡ (terms, start (map (λ f. tree_at terms f) facts.now) ∷ [])) }
    {
        let mut trail = Vec::new(alloc);
        for term in facts {
            trail.push(Fact {
                term: *term,
                value: true,
            })?;
        }
        Ok(Walk {
            alloc,
            terms,
            trail,
            waiting: Vec::new(alloc),
            has_open: true,
        })
    }
}

/// The verdict on steps whose terms have these numbers.
fn judge(alloc: Global, terms: Bank, facts: &[TermId], steps: &[Step]) -> Result<Verdict, NoMemory>
    requires facts { All (λ f. f < length terms) facts.now }
    requires sorted { AllWellSorted terms }
    ensures { IfOk result (λ r. r ≡ judged (terms, start (map (λ f. tree_at terms f) facts.now) ∷ []) 0 steps.now) }
{
    let mut walk = Walk::new(alloc, terms, facts)?;
    let mut line = 0;
    for step in steps {
        if let Some(bad) = walk.step(step)? {
            return rejected(line, bad);
        }
        line = line_after(line, step)?;
    }
    if walk.is_open() {
        Ok(Verdict::Rejected(line, StepCause::Shape))
    } else {
        Ok(Verdict::Accepted)
    }
}

/// Whether a proof shows that no valuation makes all facts of the query true. It trusts nothing about who made the
/// proof. `Rejected` has the first bad line, counted from 0, with the first cause that applies; a list of steps that
/// ends with a branch open is bad at the line after the last. A proof of 2^32 lines or more is out of memory.
pub fn proves(query: &Query, proof: &Proof) -> Result<Verdict, NoMemory>
    ensures verdict { IfOk result (λ r. r ≡ verdict query.now proof.now.steps) }
    ensures exact { IfOk result (λ r. (r ≡ Verdict.Accepted) ↔ Proves query.now proof.now.steps) }
    ensures sound { IfOk result (λ r. r ≡ Verdict.Accepted → IsUnsatisfiable query.now) }
{
    let numbered = query.numbered()?;
    let Numbered { terms, facts } = numbered;
    let answer = judge(
        query.allocator(),
        terms,
        facts.as_slice(),
        proof.steps.as_slice(),
    )?;
    Ok(answer)
}
