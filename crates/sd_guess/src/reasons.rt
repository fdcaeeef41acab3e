//! Why a term has its value.
use crate::state::State;
use crate::stop::Stop;
use crate::terms::{Shape, parts_of};

impl State {
    /// The facts that give a term its value; with `by_parts` the value of its parts, also where a fact gives it one.
    pub fn reasons_of(&mut self, term: u32, by_parts: bool) -> Result<Vec<u32>, Stop> {
        let mut facts = Vec::new(self.alloc);
        let mut left = Vec::new(self.alloc);
        left.push((term, by_parts))?;
        self.unmark_terms()?;
        for _ in 0..u32::MAX {
            let Some((next, is_top)) = left.pop() else {
                break;
            };
            if !self.mark_term(next)? {
                continue;
            }
            self.rows.spend(1)?;
            let reason = self.known(next)?.reason;
            match reason {
                Some(fact) if !is_top => facts.push(fact)?,
                _ => {
                    for part in self.deciding_parts(next)?.iter().flatten() {
                        left.push((*part, false))?;
                    }
                }
            }
        }
        Ok(facts)
    }

    /// Parts that give a connective its value.
    fn deciding_parts(&self, term: u32) -> Result<[Option<u32>; 3], Stop> {
        let shape = self.terms.shape(term)?;
        match shape {
            Shape::And(a, b) => self.deciding_sides(shape, a, b, false),
            Shape::Or(a, b) => self.deciding_sides(shape, a, b, true),
            Shape::Either(c, a, b) => match self.value(c)? {
                Some(true) => Ok([Some(c), Some(a), None]),
                _ => Ok([Some(c), Some(b), None]),
            },
            _ => Ok(parts_of(shape)),
        }
    }

    /// The sides of a conjunction or disjunction that decide it: one that alone does, the earlier of two, or both.
    fn deciding_sides(
        &self,
        shape: Shape,
        a: u32,
        b: u32,
        alone: bool,
    ) -> Result<[Option<u32>; 3], Stop> {
        let left = self.known(a)?;
        let right = self.known(b)?;
        match (left.value == Some(alone), right.value == Some(alone)) {
            (true, true) if right.time < left.time => Ok([Some(b), None, None]),
            (true, _) => Ok([Some(a), None, None]),
            (false, true) => Ok([Some(b), None, None]),
            (false, false) => Ok(parts_of(shape)),
        }
    }
}
