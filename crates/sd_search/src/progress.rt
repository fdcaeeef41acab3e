ghost use Rattle.std.specs.Prelude.{◌≡◌, ℕ, ◌+◌, ◌<◌, ◌≤◌, IfOk, OnOk, IfSome, IfNone, IsTrue, true, [], List, length, map, All};
ghost use Rattle.sd_term.specs.Tree.{Tree};
ghost use Rattle.sd_term.specs.Bank.{tree_at, tree_of, PartsBelow};
ghost use Rattle.sd_term.specs.Sorts.{is_truth_valued};
ghost use Rattle.sd_kernel.specs.Proof.{IsOpen, front};
ghost use Rattle.sd_cube.specs.OpenCube.{IsOpenCube};
ghost use Rattle.sd_cube.specs.Spent.{ClosesBranch};

use crate::atoms::atom_literals;
use crate::choice::{Choice, next_choice};
use crate::leaf::{cube_of, do_all, do_step, turn};
use sd_base::{CloneOf, NoMemory};
use sd_kernel::{NodeLine, Step, Walk};
use sd_term::{Bank, Cube, Literal, Numbered, Query, TermId, TermNode};
use sqlite_items::Items;
use std::alloc::Global;

/// A search: its walk with the steps that this has read, the query's facts by number, the literals that lead to the
/// first open branch, the terms beyond those of the facts, and the cubes that were closed.
#[derive(Drop)]
pub struct Search {
    pub walk: Walk,
    pub steps: Items<Step>,
    pub facts: Items<TermId>,
    pub path: Items<Literal>,
    pub extra: Items<TermNode>,
    pub cubes: Items<Cube>,
}

impl Search {
    ghost use Rattle.sd_search.specs.Running.{IsSearch, IsRunning};
    ghost use Rattle.sd_search.specs.Choice.{IsChoice};
    ghost use Rattle.sd_search.specs.Settled.{IsSettled};
    ghost use Rattle.sd_search.specs.Terms.{AllTruthValued, AreValuesUnder};
    ghost use Rattle.sd_search.specs.declared.choice.Choice.TheVariants.{Number as NumberChoice, Split as SplitChoice};

    /// The search of a query at its start.
    pub fn new(alloc: Global, query: &Query) -> Result<Search, NoMemory>
        requires { AllTruthValued query.now }
        ensures search { IfOk result (λ s. IsSearch query.now s) }
        ensures cubes { IfOk result (λ s. s.cubes ≡ []) }
    {
        let numbered = query.numbered()?;
        let Numbered { terms, facts } = numbered;
        let walk = Walk::new(alloc, terms, facts.as_slice())?;
        Ok(Search {
            walk,
            steps: Items::new(alloc),
            facts,
            path: Items::new(alloc),
            extra: Items::new(alloc),
            cubes: Items::new(alloc),
        })
    }

    /// Does what comes next on the first open branch, or answers an open cube where nothing is left to do.
    pub fn advance(&mut self, query: &Query) -> Result<Option<Cube>, NoMemory>
        requires open { IsOpen self.old.walk }
        requires search { IsSearch query.now self.old }
        ensures search { OnOk result (IsSearch query.now self.new) }
        ensures cubes { OnOk result (length self.new.cubes ≤ length self.old.cubes + 1) }
        ensures more { IfOk result (λ r. IfNone r (length self.old.steps < length self.new.steps)) }
        ensures cube { IfOk result (λ r. IfSome r (λ cube. IsOpenCube query.now cube)) }
    {
        let values = self.walk.values()?;
        match next_choice(query, &self.walk, self.facts.as_slice(), values.as_slice())? {
            Choice::Close(steps) => self.close(query, steps)?,
            Choice::Number(line) => self.number(query, line)?,
            Choice::Split(atom) => self.split(query, atom)?,
            Choice::Settled => {
                let cube = self.open_cube(query, values.as_slice())?;
                return Ok(Some(cube));
            }
        }
        Ok(None)
    }

    /// Splits the first open branch, and goes on with the one where the atom is true.
    fn split(&mut self, query: &Query, atom: u32) -> Result<(), NoMemory>
        requires open { IsOpen self.old.walk }
        requires search { IsSearch query.now self.old }
        requires due { IsChoice query.now self.old.walk.0 (front self.old.walk) (SplitChoice atom) }
        ensures search { OnOk result (IsSearch query.now self.new) }
        ensures cubes { OnOk result (self.new.cubes ≡ self.old.cubes) }
        ensures more { OnOk result (length self.old.steps < length self.new.steps) }
    {
        do_step(&mut self.walk, &mut self.steps, Step::Split(atom))?;
        self.path.push(Literal {
            term: atom,
            value: true,
        })?;
        Ok(())
    }

    /// Gives the next number to a term that is asked for.
    fn number(&mut self, query: &Query, line: NodeLine) -> Result<(), NoMemory>
        requires open { IsOpen self.old.walk }
        requires search { IsSearch query.now self.old }
        requires required { IsChoice query.now self.old.walk.0 (front self.old.walk) (NumberChoice line) }
        ensures search { OnOk result (IsSearch query.now self.new) }
        ensures cubes { OnOk result (self.new.cubes ≡ self.old.cubes) }
        ensures more { OnOk result (length self.old.steps < length self.new.steps) }
    {
        let number = self.walk.terms().len();
        do_step(&mut self.walk, &mut self.steps, Step::Term(line))?;
        let node = node_at(query.allocator(), self.walk.terms(), number)?;
        self.extra.push(node)?;
        Ok(())
    }

    /// Closes the first open branch, keeps its cube, and goes on with the next open branch.
    fn close(&mut self, query: &Query, steps: Items<Step>) -> Result<(), NoMemory>
        requires open { IsOpen self.old.walk }
        requires search { IsSearch query.now self.old }
        requires closes_branch { ClosesBranch self.old.walk.0 (front self.old.walk) steps }
        ensures search { OnOk result (IsSearch query.now self.new) }
        ensures cubes { OnOk result (length self.new.cubes ≡ length self.old.cubes + 1) }
        ensures more { OnOk result (length self.old.steps < length self.new.steps) }
    {
        let alloc = query.allocator();
        do_all(&mut self.walk, &mut self.steps, steps)?;
        let cube = cube_of(alloc, self.extra.as_slice(), self.path.as_slice())?;
        self.cubes.push(cube)?;
        turn(&mut self.path)?;
        Ok(())
    }

    /// The values of the atoms on the first open branch.
    fn open_cube(&self, query: &Query, values: &[Option<bool>]) -> Result<Cube, NoMemory>
        requires open { IsOpen self.now.walk }
        requires search { IsSearch query.now self.now }
        requires settled { IsSettled query.now self.now.walk.0 (front self.now.walk) }
        requires values { AreValuesUnder (front self.now.walk) self.now.walk.0 values.now }
        ensures { IfOk result (λ cube. IsOpenCube query.now cube) }
    {
        let alloc = query.allocator();
        let literals = atom_literals(alloc, self.walk.terms(), values)?;
        let cube = cube_of(alloc, self.extra.as_slice(), literals.as_slice())?;
        Ok(cube)
    }
}

/// A copy of the node of a number that some term has.
pub fn node_at(alloc: Global, terms: &Bank, number: u32) -> Result<TermNode, NoMemory>
    requires { number < length terms.now }
    ensures parts { IfOk result (λ node. PartsBelow number node) }
    ensures tree { IfOk result (λ node. tree_of terms.now node ≡ tree_at terms.now number) }
{
    let count = terms.len();
    prove!(number < count);
    let node = terms.node(TermId::new(number)).clone_of(alloc)?;
    Ok(node)
}
