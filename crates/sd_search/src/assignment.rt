//! An open cube of values that were guessed.
ghost use Rattle.std.specs.Prelude.{◌≡◌, ◌<◌, IfOk, OnOk, IfSome, length, true};
ghost use Rattle.sd_term.specs.Tree.{Tree};
ghost use Rattle.sd_term.specs.Bank.{tree_at};
ghost use Rattle.sd_term.specs.Sorts.{is_truth_valued};
ghost use Rattle.sd_kernel.specs.Facts.{trail_of};
ghost use Rattle.sd_kernel.specs.declared.step.Step.{Step};
ghost use Rattle.sd_cube.specs.OpenCube.{IsOpenCube};
ghost use Rattle.sd_euf.specs.Closed.{IsRequiredStep};
ghost use Rattle.sd_search.specs.Terms.{AllTruthValued};

use crate::atoms::{atom_literals, is_atom};
use crate::choice::{Choice, branch_choice};
use crate::leaf::{cube_of, do_step};
use crate::progress::node_at;
use sd_base::NoMemory;
use sd_euf::{Closed, close};
use sd_guess::Values;
use sd_kernel::{Fact, NodeLine, Step, Walk, known_values};
use sd_term::{Cube, Numbered, Query, TermId, TermNode};
use sqlite_items::Items;
use std::alloc::Global;

/// How many terms may be asked for.
const MOST_ROUNDS: u32 = 100_000;

/// Values of atoms beside the facts of a query: a walk that has the facts alone, with the needed terms, the facts by
/// number, and the facts followed by the values.
#[derive(Drop)]
pub struct Assignment {
    pub walk: Walk,
    pub facts: Items<TermId>,
    pub extra: Items<TermNode>,
    pub trail: Items<Fact>,
}

/// The open cube of guessed values, if they are one.
pub fn guessed_cube(alloc: Global, query: &Query, values: &Values) -> Result<Option<Cube>, NoMemory>
    requires { AllTruthValued query.now }
    ensures { IfOk result (λ r. IfSome r (λ cube. IsOpenCube query.now cube)) }
{
    let mut assignment = Assignment::new(alloc, query)?;
    assignment.assume_all(query, values)?;
    for _ in 0..MOST_ROUNDS {
        match assignment.missing(query)? {
            Some(Step::Term(line)) => assignment.number(query, line)?,
            Some(Step::Split(atom)) => {
                let value = values.of(assignment.walk.terms(), atom);
                assignment.assume(query, atom, value)?;
            }
            _ => break,
        }
    }
    assignment.open_cube(query)
}

impl Assignment {
    ghost use Rattle.sd_search.specs.Assignment.{IsAssignment};
    ghost use Rattle.sd_kernel.specs.declared.step.Step.TheVariants.{Term};

    /// The facts alone.
    fn new(alloc: Global, query: &Query) -> Result<Assignment, NoMemory>
        requires { AllTruthValued query.now }
        ensures { IfOk result (IsAssignment query.now) }
    {
        let numbered = query.numbered()?;
        let Numbered { terms, facts } = numbered;
        let walk = Walk::new(alloc, terms, facts.as_slice())?;
        let trail = Items::from_slice(alloc, walk.facts())?;
        Ok(Assignment {
            walk,
            facts,
            extra: Items::new(alloc),
            trail,
        })
    }

    /// A truth-valued term has a value.
    fn assume(&mut self, query: &Query, term: u32, value: bool) -> Result<(), NoMemory>
        requires assignment { IsAssignment query.now self.old }
        requires below { term < length self.old.walk.0 }
        requires truth { is_truth_valued (tree_at self.old.walk.0 term) ≡ true }
        ensures { OnOk result (IsAssignment query.now self.new) }
    {
        let term = TermId::new(term);
        self.trail.push(Fact { term, value })?;
        Ok(())
    }

    /// The atoms of the query have these values.
    fn assume_all(&mut self, query: &Query, values: &Values) -> Result<(), NoMemory>
        requires { IsAssignment query.now self.old }
        ensures { OnOk result (IsAssignment query.now self.new) }
    {
        for number in 0..self.walk.terms().len() {
            if number < self.walk.terms().len() && is_atom(self.walk.terms(), TermId::new(number)) {
                let value = values.of(self.walk.terms(), number);
                self.assume(query, number, value)?;
            }
        }
        Ok(())
    }

    /// The step by which a term is numbered or split that the values ask for.
    fn missing(&self, query: &Query) -> Result<Option<Step>, NoMemory>
        requires { IsAssignment query.now self.now }
        ensures { IfOk result (λ r. IfSome r
            (λ step. IsRequiredStep self.now.walk.0 (trail_of self.now.walk.0 self.now.trail) step)) }
    {
        let alloc = query.allocator();
        let terms = self.walk.terms();
        let trail = self.trail.as_slice();
        if trail.len() > u32::MAX as usize {
            return Err(NoMemory);
        }
        let values = known_values(alloc, terms, trail)?;
        match close(alloc, terms, trail, values.as_slice())? {
            Closed::Missing(step) => Ok(Some(step)),
            _ => Ok(None),
        }
    }

    /// Gives the next number to a term that is asked for.
    fn number(&mut self, query: &Query, line: NodeLine) -> Result<(), NoMemory>
        requires assignment { IsAssignment query.now self.old }
        requires required { IsRequiredStep self.old.walk.0 (trail_of self.old.walk.0 self.old.trail) (Term line) }
        ensures { OnOk result (IsAssignment query.now self.new) }
    {
        let number = self.walk.terms().len();
        do_step(
            &mut self.walk,
            &mut Items::new(query.allocator()),
            Step::Term(line),
        )?;
        let node = node_at(query.allocator(), self.walk.terms(), number)?;
        self.extra.push(node)?;
        Ok(())
    }

    /// The values as an open cube, if they are one.
    fn open_cube(&self, query: &Query) -> Result<Option<Cube>, NoMemory>
        requires { IsAssignment query.now self.now }
        ensures { IfOk result (λ r. IfSome r (λ cube. IsOpenCube query.now cube)) }
    {
        let alloc = query.allocator();
        let terms = self.walk.terms();
        let trail = self.trail.as_slice();
        if trail.len() > u32::MAX as usize {
            return Err(NoMemory);
        }
        let values = known_values(alloc, terms, trail)?;
        match branch_choice(
            query,
            terms,
            trail,
            self.facts.as_slice(),
            values.as_slice(),
        )? {
            Choice::Settled => {
                let literals = atom_literals(alloc, terms, values.as_slice())?;
                let cube = cube_of(alloc, self.extra.as_slice(), literals.as_slice())?;
                Ok(Some(cube))
            }
            _ => Ok(None),
        }
    }
}
