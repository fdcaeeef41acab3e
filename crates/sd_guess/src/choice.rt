//! Which atom to split on.
use crate::access::at;
use crate::facts::{Node, Origin};
use crate::state::State;
use crate::stop::Stop;
use crate::terms::{Shape, parts_of};

/// How many atoms of one fact are looked at.
const MOST_ATOMS: usize = 12;
/// How many facts without a value are looked at.
const MOST_FACTS: usize = 60;

/// An atom of a fact without a value: whether the fact is far from the goal, and how many atoms it has.
#[derive(Clone, Copy, Debug)]
struct Chance {
    is_far: bool,
    atoms: usize,
    atom: u32,
}

impl State {
    /// The atom to split on, with the value that is tried first.
    pub fn next_split(&mut self) -> Result<Option<(u32, bool)>, Stop> {
        let goals = self.goals()?;
        for goal in goals.iter() {
            if let Some(atom) = self.open_column(*goal)? {
                return Ok(Some((atom, true)));
            }
        }
        let chance = self.best_chance(&goals)?;
        if let Some(chance) = chance {
            if !chance.is_far {
                return Ok(Some((chance.atom, true)));
            }
        }
        if let Some(order) = self.open_difference(&goals)? {
            return Ok(Some((order, true)));
        }
        if let Some(chance) = chance {
            return Ok(Some((chance.atom, true)));
        }
        self.left_choice()
    }

    /// The comparisons assumed last, and those that the last fact of the query forced.
    fn goals(&self) -> Result<Vec<u32>, Stop> {
        let mut goals = Vec::new(self.alloc);
        for level in self.levels.iter().rev() {
            self.add_goal(level.assumption, &mut goals)?;
        }
        let Some(claim) = self.query.last() else {
            return Ok(goals);
        };
        for number in self.trail.iter() {
            let is_claimed = match self.facts.fact(*number)?.origin {
                Origin::Forced(_, node) => match self.facts.node(node)? {
                    Node::Close(root, None) => root == *claim,
                    _ => false,
                },
                _ => *number == *claim,
            };
            if is_claimed {
                self.add_goal(*number, &mut goals)?;
            }
        }
        Ok(goals)
    }

    fn add_goal(&self, fact: u32, goals: &mut Vec<u32>) -> Result<(), Stop> {
        if self.terms.term(self.facts.fact(fact)?.term)?.is_atom() {
            goals.push(fact)?;
        }
        Ok(())
    }

    /// An open atom of the condition of a choice that stays in the normal form of a comparison.
    fn open_column(&mut self, fact: u32) -> Result<Option<u32>, Stop> {
        let mut columns = self.columns_of(fact)?;
        columns.reverse();
        for column in columns.iter() {
            let Shape::Ite(condition, _, _) = self.terms.shape(*column)? else {
                continue;
            };
            if let Some(atom) = self.open_atoms(condition, 1)?.first() {
                return Ok(Some(*atom));
            }
        }
        Ok(None)
    }

    /// The columns of the normal form of a comparison, in ascending order.
    fn columns_of(&mut self, fact: u32) -> Result<Vec<u32>, Stop> {
        let mut columns = Vec::new(self.alloc);
        let (a, b) = match self.terms.shape(self.facts.fact(fact)?.term)? {
            Shape::Eq(a, b) => (a, b),
            Shape::Le(a, b) => (a, b),
            _ => return Ok(columns),
        };
        if !self.terms.is_integer(a)? {
            columns.push(a)?;
            columns.push(b)?;
            return Ok(columns);
        }
        if let Some(difference) = self.normal_difference(a, b)? {
            for cell in difference.cells.iter() {
                columns.push(cell.0)?;
            }
        }
        Ok(columns)
    }

    /// Of the facts without a value the one with fewest open atoms: the last fact of the query first, then those that
    /// share a column with the goal.
    fn best_chance(&mut self, goals: &[u32]) -> Result<Option<Chance>, Stop> {
        let columns = match goals.first() {
            Some(goal) => self.columns_of(*goal)?,
            None => Vec::new(self.alloc),
        };
        let claim = self.query.last().copied();
        let mut best: Option<Chance> = None;
        let mut count: usize = 0;
        for back in 0..self.trail.len() {
            let place = self.trail.len().saturating_sub(back).saturating_sub(1);
            let Some(number) = self.trail.get(place) else {
                break;
            };
            let number = *number;
            let term = self.facts.fact(number)?.term;
            if !self.terms.term(term)?.is_judged() || !self.is_open(term)? {
                continue;
            }
            let atoms = self.open_atoms(term, MOST_ATOMS)?;
            let Some(atom) = atoms.first() else {
                continue;
            };
            let is_far = !columns.is_empty() && !self.touches(term, &columns)?;
            let chance = Chance {
                is_far,
                atoms: atoms.len(),
                atom: *atom,
            };
            if claim == Some(number) {
                return Ok(Some(chance));
            }
            if best.is_none_or(|other| (is_far, chance.atoms) < (other.is_far, other.atoms)) {
                best = Some(chance);
            }
            count = count.saturating_add(1);
            if count > MOST_FACTS && !is_far {
                break;
            }
        }
        Ok(best)
    }

    /// Whether one of these columns stands in a term.
    fn touches(&mut self, term: u32, columns: &[u32]) -> Result<bool, Stop> {
        let mut left = Vec::new(self.alloc);
        left.push(term)?;
        self.unmark_terms()?;
        for _ in 0..u32::MAX {
            let Some(next) = left.pop() else {
                break;
            };
            if !self.mark_term(next)? {
                continue;
            }
            self.rows.spend(1)?;
            if columns.contains(&next) {
                return Ok(true);
            }
            for part in parts_of(self.terms.shape(next)?).iter().flatten() {
                left.push(*part)?;
            }
        }
        Ok(false)
    }

    /// An open order of two integers that differ, those of the goals first.
    fn open_difference(&mut self, goals: &[u32]) -> Result<Option<u32>, Stop> {
        for goal in goals {
            if let Some(order) = self.open_order(*goal)? {
                return Ok(Some(order));
            }
        }
        for back in 0..self.differences.len() {
            let place = self
                .differences
                .len()
                .saturating_sub(back)
                .saturating_sub(1);
            let Some(fact) = self.differences.get(place) else {
                break;
            };
            let fact = *fact;
            if let Some(order) = self.open_order(fact)? {
                return Ok(Some(order));
            }
        }
        Ok(None)
    }

    /// The order of the sides of a false equality of integers, where neither order of them has a value.
    fn open_order(&mut self, number: u32) -> Result<Option<u32>, Stop> {
        let fact = self.facts.fact(number)?;
        let Shape::Eq(a, b) = self.terms.shape(fact.term)? else {
            return Ok(None);
        };
        if fact.value || !self.terms.is_integer(a)? {
            return Ok(None);
        }
        let less = self.term_of(Shape::Le(a, b))?;
        let greater = self.term_of(Shape::Le(b, a))?;
        if self.is_open(less)? && self.is_open(greater)? {
            Ok(Some(less))
        } else {
            Ok(None)
        }
    }

    /// An open atom of a condition in any comparison with a value, the last ones first.
    fn left_choice(&mut self) -> Result<Option<(u32, bool)>, Stop> {
        for back in 0..self.trail.len() {
            let place = self.trail.len().saturating_sub(back).saturating_sub(1);
            let fact = at(&self.trail, crate::access::number_of(place)?)?;
            if !self.terms.term(self.facts.fact(fact)?.term)?.is_atom() {
                continue;
            }
            if let Some(atom) = self.open_column(fact)? {
                return Ok(Some((atom, true)));
            }
        }
        Ok(None)
    }
}
