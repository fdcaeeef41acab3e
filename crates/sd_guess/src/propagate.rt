//! What follows from the facts on the trail: values upwards, demands downwards, choices, classes, and integers.
use crate::access::at;
use crate::facts::{Node, Refutation, Template};
use crate::state::{Demand, State, Undo};
use crate::stop::Stop;
use crate::terms::{Shape, Term, parts_of};

/// A demand that is to be passed on.
#[derive(Clone, Copy, Debug)]
struct Want {
    term: u32,
    value: bool,
    demand: Demand,
}

impl State {
    /// Does all that follows, until there is a conflict or nothing is left.
    pub fn propagate(&mut self) -> Result<(), Stop> {
        for _ in 0..u32::MAX {
            if self.conflict.is_some() {
                break;
            }
            self.rows.spend(1)?;
            if !self.read_next()? && !self.arithmetic()? && !self.eliminate()? {
                break;
            }
        }
        Ok(())
    }

    /// Does what follows from the next fact or value. False where there is none.
    fn read_next(&mut self) -> Result<bool, Stop> {
        if let Some(fact) = self.trail.get(self.trail_read) {
            let fact = *fact;
            self.trail_read = self.trail_read.saturating_add(1);
            self.demand_fact(fact)?;
            return Ok(true);
        }
        if let Some(term) = self.values.get(self.values_read) {
            let term = *term;
            self.values_read = self.values_read.saturating_add(1);
            self.visit(term)?;
            return Ok(true);
        }
        Ok(false)
    }

    /// A fact on a connective demands its value.
    fn demand_fact(&mut self, number: u32) -> Result<(), Stop> {
        let fact = self.facts.fact(number)?;
        if !self.terms.term(fact.term)?.is_judged() {
            return Ok(());
        }
        let demand = Demand {
            root: number,
            over: None,
        };
        self.pass_on(Want {
            term: fact.term,
            value: fact.value,
            demand,
        })
    }

    /// Passes a demand down to the atoms.
    fn pass_on(&mut self, want: Want) -> Result<(), Stop> {
        let mut wants = Vec::new(self.alloc);
        wants.push(want)?;
        for _ in 0..u32::MAX {
            let Some(next) = wants.pop() else {
                break;
            };
            self.rows.spend(1)?;
            if self.conflict.is_some() {
                break;
            }
            let known = self.known(next.term)?;
            if known.value.is_some() {
                continue;
            }
            if !self.terms.term(next.term)?.is_judged() {
                self.force_unit(next)?;
                continue;
            }
            let (is_true, is_false) = known.demands;
            let same = if next.value { is_true } else { is_false };
            if same.is_some() {
                continue;
            }
            self.keep_demand(next)?;
            self.wants_below(next.term, next.value, next.demand.root, &mut wants)?;
        }
        Ok(())
    }

    fn keep_demand(&mut self, want: Want) -> Result<(), Stop> {
        let mut known = self.known(want.term)?;
        if want.value {
            known.demands.0 = Some(want.demand);
        } else {
            known.demands.1 = Some(want.demand);
        }
        self.set_known(want.term, known)?;
        self.journal.push(Undo::Demand(want.term, want.value))?;
        Ok(())
    }

    /// Looks anew at the demands of a connective, one of whose parts has got a value.
    fn pass_on_again(&mut self, term: u32) -> Result<(), Stop> {
        let known = self.known(term)?;
        let mut wants = Vec::new(self.alloc);
        if let Some(demand) = known.demands.0 {
            self.wants_below(term, true, demand.root, &mut wants)?;
        }
        if let Some(demand) = known.demands.1 {
            self.wants_below(term, false, demand.root, &mut wants)?;
        }
        for want in wants.iter() {
            self.pass_on(*want)?;
        }
        Ok(())
    }

    /// What a demand on a connective leaves its parts no choice about.
    fn wants_below(
        &self,
        term: u32,
        value: bool,
        root: u32,
        wants: &mut Vec<Want>,
    ) -> Result<(), Stop> {
        let over = Some((term, value));
        for below in self.demanded_parts(term, value)?.iter().flatten() {
            wants.push(Want {
                term: below.0,
                value: below.1,
                demand: Demand { root, over },
            })?;
        }
        Ok(())
    }

    /// The parts of a connective whose values follow from its own, with these values.
    fn demanded_parts(&self, term: u32, value: bool) -> Result<[Option<(u32, bool)>; 2], Stop> {
        match self.terms.shape(term)? {
            Shape::Not(a) => Ok([Some((a, !value)), None]),
            Shape::And(a, b) => self.demanded_sides(a, b, value, true),
            Shape::Or(a, b) => self.demanded_sides(a, b, value, false),
            Shape::Same(a, b) => match (self.value(a)?, self.value(b)?) {
                (Some(side), _) => Ok([Some((b, side == value)), None]),
                (None, Some(side)) => Ok([Some((a, side == value)), None]),
                (None, None) => Ok([None, None]),
            },
            Shape::Either(c, a, b) => self.demanded_by_choice(c, a, b, value),
            _ => Ok([None, None]),
        }
    }

    /// Of a conjunction (`both`) or disjunction.
    fn demanded_sides(
        &self,
        a: u32,
        b: u32,
        value: bool,
        both: bool,
    ) -> Result<[Option<(u32, bool)>; 2], Stop> {
        if value == both {
            return Ok([Some((a, value)), Some((b, value))]);
        }
        if self.value(a)? == Some(both) {
            Ok([Some((b, value)), None])
        } else if self.value(b)? == Some(both) {
            Ok([Some((a, value)), None])
        } else {
            Ok([None, None])
        }
    }

    /// Of a choice between truth values.
    fn demanded_by_choice(
        &self,
        c: u32,
        a: u32,
        b: u32,
        value: bool,
    ) -> Result<[Option<(u32, bool)>; 2], Stop> {
        match self.value(c)? {
            Some(true) => Ok([Some((a, value)), None]),
            Some(false) => Ok([Some((b, value)), None]),
            None if self.value(a)? == Some(!value) && c != a => Ok([Some((c, false)), None]),
            None if self.value(b)? == Some(!value) && c != b => Ok([Some((c, true)), None]),
            None => Ok([None, None]),
        }
    }

    /// An atom has the demanded value: with the other one the fact at the root is false.
    fn force_unit(&mut self, want: Want) -> Result<(), Stop> {
        let mut reasons = Vec::new(self.alloc);
        let mut below = want.term;
        let mut over = want.demand.over;
        for _ in 0..u32::MAX {
            let Some((term, value)) = over else {
                break;
            };
            for side in self.deciding_others(term, value, below)?.iter().flatten() {
                let facts = self.reasons_of(*side, false)?;
                reasons.extend_from_slice(&facts)?;
            }
            let known = self.known(term)?;
            let demand = if value {
                known.demands.0
            } else {
                known.demands.1
            };
            below = term;
            over = match demand {
                Some(demand) => demand.over,
                None => None,
            };
        }
        reasons.push(want.demand.root)?;
        let wrong = self.facts.assume(want.term, !want.value)?;
        let node = self.facts.add_node(Node::Close(want.demand.root, None))?;
        let uses = self.facts.keep_facts(&reasons, None)?;
        self.force(wrong, Refutation { node, uses })
    }

    /// The parts with values because of which a demand passed from a connective to a part.
    fn deciding_others(
        &self,
        term: u32,
        value: bool,
        below: u32,
    ) -> Result<[Option<u32>; 2], Stop> {
        match self.terms.shape(term)? {
            Shape::And(a, b) if !value => Ok([other_side(a, b, below), None]),
            Shape::Or(a, b) if value => Ok([other_side(a, b, below), None]),
            Shape::Same(a, b) => {
                let other = if a == below { b } else { a };
                Ok([Some(other), None])
            }
            Shape::Either(c, a, b) => {
                if c != below {
                    return Ok([Some(c), None]);
                }
                match self.value(a)? {
                    Some(side) if side != value => Ok([Some(a), None]),
                    _ => Ok([Some(b), None]),
                }
            }
            _ => Ok([None, None]),
        }
    }

    /// What follows from a term's value.
    fn visit(&mut self, term: u32) -> Result<(), Stop> {
        if self.terms.term(term)?.is_atom() {
            self.visit_atom(term)?;
        }
        let over = self.terms.over.items(self.alloc, term)?;
        for above in over.iter() {
            self.rows.spend(1)?;
            if self.conflict.is_some() {
                break;
            }
            self.visit_over(*above, term)?;
        }
        Ok(())
    }

    /// What follows for a connective or choice from a part's value.
    fn visit_over(&mut self, above: u32, part: u32) -> Result<(), Stop> {
        let term = self.terms.term(above)?;
        if term.is_judged() {
            return self.visit_connective(above, term);
        }
        match term.shape {
            Shape::Ite(c, a, b) if c == part => {
                let chosen = if self.value(part)? == Some(true) {
                    a
                } else {
                    b
                };
                let equality = self.term_of(Shape::Eq(above, chosen))?;
                let reasons = self.reasons_of(part, false)?;
                self.derive(equality, true, Template::Ite(above, equality), &reasons)
            }
            _ => Ok(()),
        }
    }

    fn visit_connective(&mut self, above: u32, term: Term) -> Result<(), Stop> {
        if self.value(above)?.is_some() {
            return Ok(());
        }
        match self.value_by_parts(term.shape)? {
            Some(value) => self.set_value(above, value, None),
            None => self.pass_on_again(above),
        }
    }

    /// Whether a term has no value and is one of the query's.
    pub fn is_open(&self, term: u32) -> Result<bool, Stop> {
        Ok(at(&self.known, term)?.value.is_none())
    }

    /// Atoms without a value that are reached from a term through connectives without one, at most so many.
    pub fn open_atoms(&mut self, term: u32, most: usize) -> Result<Vec<u32>, Stop> {
        let mut atoms = Vec::new(self.alloc);
        let mut left = Vec::new(self.alloc);
        left.push(term)?;
        self.unmark_terms()?;
        for _ in 0..u32::MAX {
            let Some(next) = left.pop() else {
                break;
            };
            if atoms.len() >= most {
                break;
            }
            self.rows.spend(1)?;
            if !self.mark_term(next)? || !self.is_open(next)? {
                continue;
            }
            let seen = self.terms.term(next)?;
            if seen.is_atom() {
                atoms.push(next)?;
            } else if seen.is_judged() {
                self.open_parts(seen.shape, &mut left)?;
            }
        }
        Ok(atoms)
    }

    /// Adds the parts that matter to a connective's value, the first one last.
    fn open_parts(&self, shape: Shape, left: &mut Vec<u32>) -> Result<(), Stop> {
        if let Shape::Either(c, a, b) = shape {
            match self.value(c)? {
                Some(true) => {
                    left.push(a)?;
                    return Ok(());
                }
                Some(false) => {
                    left.push(b)?;
                    return Ok(());
                }
                None => {}
            }
        }
        let [first, second, third] = parts_of(shape);
        for part in [third, second, first].iter().flatten() {
            left.push(*part)?;
        }
        Ok(())
    }
}

/// The other one of two sides, where they are two.
fn other_side(a: u32, b: u32, below: u32) -> Option<u32> {
    let other = if a == below { b } else { a };
    if other == below { None } else { Some(other) }
}
