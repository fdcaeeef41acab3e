//! Equalities that are proved first: those of the query, and those of choices that stand at one place in the two
//! bodies.
use crate::levels::Budget;
use crate::state::State;
use crate::stop::Stop;
use crate::terms::{Kind, Shape, parts_of};

/// To which of two bodies a term belongs.
#[derive(Clone, Copy, Debug, PartialEq, Eq)]
struct Sides {
    old: bool,
    new: bool,
}

/// Two terms that may be equal.
pub type Pair = (u32, u32);

impl State {
    /// The equalities that are tried, inner ones first.
    pub fn cut_pairs(&self) -> Result<Vec<Pair>, Stop> {
        let mut pairs = Vec::new(self.alloc);
        for number in 0..self.terms.own {
            if let Shape::Eq(a, b) = self.terms.shape(number)? {
                if self.is_open(number)? {
                    pairs.push((a.max(b), (a, b)))?;
                }
            }
        }
        let (old, new) = self.choices_by_side()?;
        for (a, b) in old.iter().zip(new.iter()) {
            pairs.push(((*a).max(*b), (*a, *b)))?;
        }
        if old.len() != new.len() {
            for (a, b) in old.iter().rev().zip(new.iter().rev()) {
                pairs.push(((*a).max(*b), (*a, *b)))?;
            }
        }
        pairs.sort()?;
        let mut ordered = Vec::new(self.alloc);
        let mut last = None;
        for pair in pairs.iter() {
            if last != Some(pair.1) {
                ordered.push(pair.1)?;
            }
            last = Some(pair.1);
        }
        Ok(ordered)
    }

    /// The choices between integers of the old and of the new body, each in order.
    fn choices_by_side(&self) -> Result<(Vec<u32>, Vec<u32>), Stop> {
        let sides = self.sides()?;
        let mut old = Vec::new(self.alloc);
        let mut new = Vec::new(self.alloc);
        for (number, side) in sides.iter().enumerate() {
            let number = crate::access::number_of(number)?;
            let Shape::Ite(_, _, _) = self.terms.shape(number)? else {
                continue;
            };
            if side.new && !side.old {
                new.push(number)?;
            } else if side.old && !side.new {
                old.push(number)?;
            }
        }
        Ok((old, new))
    }

    /// The bodies that each term of the query belongs to. The two sides of a true equality of symbols belong to the
    /// two bodies.
    fn sides(&self) -> Result<Vec<Sides>, Stop> {
        let none = Sides {
            old: false,
            new: false,
        };
        let mut sides = vec![in self.alloc; none; self.terms.own as usize]?;
        for fact in self.query.iter() {
            let (a, b) = match self.terms.shape(self.facts.fact(*fact)?.term)? {
                Shape::Eq(a, b) => (a, b),
                Shape::Same(a, b) => (a, b),
                _ => continue,
            };
            if self.is_symbol(a)? && self.is_symbol(b)? {
                crate::access::put(
                    &mut sides,
                    a,
                    Sides {
                        old: true,
                        new: false,
                    },
                )?;
                crate::access::put(
                    &mut sides,
                    b,
                    Sides {
                        old: false,
                        new: true,
                    },
                )?;
            }
        }
        for number in 0..self.terms.own {
            let mut side = crate::access::at(&sides, number)?;
            for part in parts_of(self.terms.shape(number)?).iter().flatten() {
                let below = crate::access::at(&sides, *part)?;
                side.old = side.old || below.old;
                side.new = side.new || below.new;
            }
            crate::access::put(&mut sides, number, side)?;
        }
        Ok(sides)
    }

    fn is_symbol(&self, number: u32) -> Result<bool, Stop> {
        match self.terms.shape(number)? {
            Shape::Symbol(_) => Ok(true),
            _ => Ok(false),
        }
    }

    /// Tries each equality, again and again while one is proved. What is left comes back; none of it matters where
    /// there is a conflict.
    pub fn try_cuts(&mut self, pairs: Vec<Pair>, budget: Budget) -> Result<Vec<Pair>, Stop> {
        let mut left = pairs;
        for _ in 0..u32::MAX {
            let before = left.len();
            left = self.try_each(&left, budget)?;
            if self.conflict.is_some() || left.len() == before {
                break;
            }
        }
        Ok(left)
    }

    fn try_each(&mut self, pairs: &[Pair], budget: Budget) -> Result<Vec<Pair>, Stop> {
        let mut left = Vec::new(self.alloc);
        for (a, b) in pairs {
            if self.conflict.is_some() {
                break;
            }
            if !self.is_worth_a_try(*a, *b)? {
                continue;
            }
            let equality = self.equality_of(*a, *b)?;
            if self.refute_value(equality, false, budget)? {
                self.propagate()?;
            } else {
                left.push((*a, *b))?;
            }
        }
        Ok(left)
    }

    /// Whether an equality has no value, and doesn't follow from the solved ones.
    fn is_worth_a_try(&mut self, a: u32, b: u32) -> Result<bool, Stop> {
        if self.class_of(a)? == self.class_of(b)? || self.terms.term(a)?.kind == Kind::Truth {
            return Ok(false);
        }
        let equality = self.equality_of(a, b)?;
        if !self.is_open(equality)? {
            return Ok(false);
        }
        Ok(self.is_zero_difference(equality)? != Some(true))
    }
}
