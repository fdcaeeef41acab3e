//! Levels of assumptions: how they are opened, refuted and left.
use crate::facts::{Node, Origin, Refutation};
use crate::state::{Level, State, Undo};
use crate::stop::Stop;
use crate::terms::Shape;

/// How much a try may cost.
#[derive(Clone, Copy, Debug)]
pub struct Budget {
    /// The conflicts that are left.
    pub conflicts: u32,
    /// The levels that may be open at a time.
    pub depth: usize,
}

/// How a try ended.
#[derive(Clone, Copy, Debug)]
pub enum Tried {
    Refuted(Refutation),
    /// The budget is spent.
    Spent,
    /// All atoms that matter have values, and nothing contradicts them.
    Settled,
}

impl State {
    /// Assumes a value of an atom.
    pub fn open_level(&mut self, term: u32, value: bool) -> Result<(), Stop> {
        let assumption = self.facts.assume(term, value)?;
        self.levels.push(Level {
            trail: self.trail.len(),
            values: self.values.len(),
            journal: self.journal.len(),
            trail_read: self.trail_read,
            values_read: self.values_read,
            assumption,
        })?;
        self.push(assumption)
    }

    /// Leaves the last level, and undoes what came with it.
    pub fn close_level(&mut self) -> Result<Level, Stop> {
        let Some(level) = self.levels.pop() else {
            return Err(Stop::GivesUp);
        };
        for _ in level.journal..self.journal.len() {
            if let Some(undo) = self.journal.pop() {
                self.undo(undo)?;
            }
        }
        for _ in level.values..self.values.len() {
            if let Some(term) = self.values.pop() {
                let mut known = self.known(term)?;
                known.value = None;
                known.reason = None;
                self.set_known(term, known)?;
            }
        }
        self.trail.truncate(level.trail);
        self.trail_read = level.trail_read;
        self.values_read = level.values_read;
        self.conflict = None;
        self.version = self.version.wrapping_add(1);
        Ok(level)
    }

    fn undo(&mut self, undo: Undo) -> Result<(), Stop> {
        match undo {
            Undo::Demand(term, value) => {
                let mut known = self.known(term)?;
                if value {
                    known.demands.0 = None;
                } else {
                    known.demands.1 = None;
                }
                self.set_known(term, known)
            }
            Undo::Claim(term, value) => {
                let mut known = self.known(term)?;
                if value {
                    known.claims.0 = None;
                } else {
                    known.claims.1 = None;
                }
                self.set_known(term, known)
            }
            Undo::Link(a, b) => {
                self.links.take_back(b)?;
                self.links.take_back(a)
            }
            Undo::Union(greater, lesser) => self.part(greater, lesser),
            Undo::Solved(column) => crate::access::put(&mut self.solved, column, None),
            Undo::Order => {
                self.orders.pop();
                Ok(())
            }
            Undo::Difference => {
                self.differences.pop();
                Ok(())
            }
        }
    }

    /// A refutation with what it uses of the trail from a place on.
    pub fn wrap(&mut self, refutation: Refutation, start: usize) -> Result<Refutation, Stop> {
        let mut used = Vec::new(self.alloc);
        used.extend_from_slice(self.facts.items(refutation.uses))?;
        self.facts.unmark_all()?;
        for fact in used.iter() {
            self.facts.mark(*fact)?;
        }
        let mut node = refutation.node;
        for back in 0..self.trail.len().saturating_sub(start) {
            let place = self.trail.len().saturating_sub(back).saturating_sub(1);
            let Some(number) = self.trail.get(place) else {
                break;
            };
            let number = *number;
            self.rows.spend(1)?;
            if !self.facts.is_marked(number)? {
                continue;
            }
            if let Some(wrapped) = self.wrapped(number, node)? {
                node = wrapped;
                self.facts.unmark(number)?;
                let reasons = self.facts.fact(number)?.reasons;
                for place in reasons.start..reasons.end {
                    let reason = crate::access::at(&self.facts.lists, place)?;
                    if self.facts.mark(reason)? {
                        used.push(reason)?;
                    }
                }
            }
        }
        let mut left = Vec::new(self.alloc);
        for fact in used.iter() {
            if self.facts.is_marked(*fact)? {
                left.push(*fact)?;
            }
        }
        let uses = self.facts.keep_facts(&left, None)?;
        Ok(Refutation { node, uses })
    }

    /// A part of a proof below the fact that it uses; none where the fact needs no proof.
    fn wrapped(&mut self, number: u32, node: u32) -> Result<Option<u32>, Stop> {
        let fact = self.facts.fact(number)?;
        match fact.origin {
            Origin::Query => Ok(None),
            Origin::Assumed => Ok(None),
            Origin::Derived(_) => Ok(Some(self.facts.add_node(Node::Step(number, node))?)),
            Origin::Forced(wrong, refuted) => {
                let split = if fact.value {
                    Node::Split(number, wrong, node, refuted)
                } else {
                    Node::Split(wrong, number, refuted, node)
                };
                Ok(Some(self.facts.add_node(split)?))
            }
        }
    }

    /// Leaves the last level with its refutation: the opposite of its assumption is forced, or the conflict is that
    /// of the level below.
    pub fn return_with(&mut self, refutation: Refutation) -> Result<(), Stop> {
        let level = self.close_level()?;
        let uses_assumption = self
            .facts
            .items(refutation.uses)
            .contains(&level.assumption);
        if uses_assumption {
            self.force(level.assumption, refutation)
        } else {
            self.conflict = Some(refutation);
            Ok(())
        }
    }

    /// Where the last level's facts began.
    fn level_start(&self) -> usize {
        match self.levels.last() {
            Some(level) => level.trail,
            None => 0,
        }
    }

    fn is_equality(&self, term: u32) -> Result<bool, Stop> {
        match self.terms.shape(term)? {
            Shape::Eq(_, _) => Ok(true),
            _ => Ok(false),
        }
    }

    /// Refutes the last level, if the budget lets it. All levels above are left.
    pub fn refute_level(&mut self, budget: Budget) -> Result<Tried, Stop> {
        let base = self.levels.len();
        let mut conflicts = budget.conflicts;
        let mut tried = Tried::Spent;
        // Whether the last level assumes an equality, and nothing was refuted there yet: such a conflict costs
        // nothing.
        let mut is_unit = false;
        for _ in 0..u32::MAX {
            self.propagate()?;
            if let Some(conflict) = self.conflict {
                self.conflict = None;
                if !is_unit {
                    conflicts = conflicts.saturating_sub(1);
                }
                is_unit = false;
                let refutation = self.wrap(conflict, self.level_start())?;
                if self.levels.len() <= base {
                    return Ok(Tried::Refuted(refutation));
                }
                self.return_with(refutation)?;
                continue;
            }
            if conflicts == 0 || self.levels.len() > base.saturating_add(budget.depth) {
                break;
            }
            match self.next_split()? {
                Some((term, value)) => {
                    self.open_level(term, value)?;
                    is_unit = self.is_equality(term)?;
                }
                None => {
                    if base == 0 {
                        self.settled = Some(self.current_values()?);
                    }
                    tried = Tried::Settled;
                    break;
                }
            }
        }
        for _ in base..self.levels.len() {
            self.close_level()?;
        }
        Ok(tried)
    }

    /// Tries to refute a value of an atom. True where the opposite is forced, or there is a conflict without it.
    pub fn refute_value(&mut self, term: u32, value: bool, budget: Budget) -> Result<bool, Stop> {
        self.open_level(term, value)?;
        match self.refute_level(budget)? {
            Tried::Refuted(refutation) => {
                self.return_with(refutation)?;
                Ok(true)
            }
            _ => {
                self.close_level()?;
                Ok(false)
            }
        }
    }
}
