//! Classes of equal terms, with what follows from atoms of equality and order.
use crate::access::{at, number_of, put};
use crate::facts::Template;
use crate::state::{Member, State, Undo};
use crate::stop::Stop;
use crate::terms::Shape;

impl State {
    /// What follows from an atom's value.
    pub fn visit_atom(&mut self, term: u32) -> Result<(), Stop> {
        let Some(fact) = self.known(term)?.reason else {
            return Ok(());
        };
        let value = self.value(term)? == Some(true);
        match self.terms.shape(term)? {
            Shape::Le(_, _) => {
                self.orders.push(fact)?;
                self.journal.push(Undo::Order)?;
                self.version = self.version.wrapping_add(1);
                self.order_from(term)
            }
            Shape::Eq(a, b) => {
                self.version = self.version.wrapping_add(1);
                if value {
                    self.join(a, b, fact)
                } else {
                    self.differ(term, a, b, fact)
                }
            }
            _ => Ok(()),
        }
    }

    /// A false equality of two terms.
    fn differ(&mut self, term: u32, a: u32, b: u32, fact: u32) -> Result<(), Stop> {
        self.differences.push(fact)?;
        self.journal.push(Undo::Difference)?;
        if self.class_of(a)? == self.class_of(b)? {
            return self.chain(term, a, b);
        }
        for order in [self.terms.find_le(a, b), self.terms.find_le(b, a)]
            .iter()
            .flatten()
        {
            self.order_from(*order)?;
        }
        Ok(())
    }

    /// A true order and a false equality of the same two terms make the other order false.
    fn order_from(&mut self, order: u32) -> Result<(), Stop> {
        let known = self.known(order)?;
        let (Some(true), Some(fact)) = (known.value, known.reason) else {
            return Ok(());
        };
        let Shape::Le(a, b) = self.terms.shape(order)? else {
            return Ok(());
        };
        for equality in [self.terms.find_eq(a, b), self.terms.find_eq(b, a)]
            .iter()
            .flatten()
        {
            let different = self.known(*equality)?;
            if let (Some(false), Some(reason)) = (different.value, different.reason) {
                let other = self.term_of(Shape::Le(b, a))?;
                let step = Template::Order(*equality, order, other);
                return self.derive(other, false, step, &[reason, fact]);
            }
        }
        Ok(())
    }

    fn member(&self, term: u32) -> Result<Member, Stop> {
        at(&self.members, term)
    }

    /// The term that stands for the class of a term.
    pub fn class_of(&self, term: u32) -> Result<u32, Stop> {
        let mut here = term;
        for _ in 0..64 {
            let parent = self.member(here)?.parent;
            if parent == here {
                return Ok(here);
            }
            here = parent;
        }
        Err(Stop::GivesUp)
    }

    /// A true equality: its classes become one, its integers are solved.
    fn join(&mut self, a: u32, b: u32, fact: u32) -> Result<(), Stop> {
        self.links.add(a, fact)?;
        self.links.add(b, fact)?;
        self.journal.push(Undo::Link(a, b))?;
        let left = self.class_of(a)?;
        let right = self.class_of(b)?;
        if left != right {
            let (greater, lesser) = if self.member(left)?.size < self.member(right)?.size {
                (right, left)
            } else {
                (left, right)
            };
            self.unite(greater, lesser)?;
            self.chains_of(lesser)?;
        }
        if self.conflict.is_none() && self.terms.is_integer(a)? {
            self.solve_fact(fact)?;
        }
        Ok(())
    }

    /// Joins the lesser class to the greater one.
    fn unite(&mut self, greater: u32, lesser: u32) -> Result<(), Stop> {
        let mut first = self.member(greater)?;
        let mut second = self.member(lesser)?;
        second.parent = greater;
        first.size = first.size.saturating_add(second.size);
        let next = first.next;
        first.next = second.next;
        second.next = next;
        put(&mut self.members, greater, first)?;
        put(&mut self.members, lesser, second)?;
        self.journal.push(Undo::Union(greater, lesser))?;
        Ok(())
    }

    /// Takes a union back.
    pub fn part(&mut self, greater: u32, lesser: u32) -> Result<(), Stop> {
        let mut first = self.member(greater)?;
        let mut second = self.member(lesser)?;
        second.parent = lesser;
        first.size = first.size.saturating_sub(second.size);
        let next = first.next;
        first.next = second.next;
        second.next = next;
        put(&mut self.members, greater, first)?;
        put(&mut self.members, lesser, second)
    }

    /// The terms of a class that was just joined to a greater one: those that were its members before.
    fn members_of(&self, lesser: u32) -> Result<Vec<u32>, Stop> {
        let mut terms = Vec::new(self.alloc);
        let size = self.member(lesser)?.size;
        // The two circles were cut and joined: the lesser one's members begin after the greater one's first.
        let mut here = self.member(self.member(lesser)?.parent)?.next;
        for _ in 0..size {
            terms.push(here)?;
            here = self.member(here)?.next;
        }
        Ok(terms)
    }

    /// The equalities that a union makes true by a chain.
    fn chains_of(&mut self, lesser: u32) -> Result<(), Stop> {
        let terms = self.members_of(lesser)?;
        for term in terms.iter() {
            let equalities = self.terms.equalities.items(self.alloc, *term)?;
            for equality in equalities.iter() {
                self.rows.spend(1)?;
                if self.conflict.is_some() {
                    return Ok(());
                }
                self.chain_where_joined(*equality)?;
            }
        }
        Ok(())
    }

    fn chain_where_joined(&mut self, equality: u32) -> Result<(), Stop> {
        if self.value(equality)? == Some(true) {
            return Ok(());
        }
        match self.terms.shape(equality)? {
            Shape::Eq(a, b) if self.class_of(a)? == self.class_of(b)? => self.chain(equality, a, b),
            _ => Ok(()),
        }
    }

    /// An equality of two terms of one class is true by a chain.
    pub fn chain(&mut self, equality: u32, a: u32, b: u32) -> Result<(), Stop> {
        let facts = self.path(a, b)?;
        let mut links = Vec::new(self.alloc);
        for fact in facts.iter() {
            links.push(self.facts.fact(*fact)?.term)?;
        }
        let links = self.facts.keep(&links)?;
        self.derive(equality, true, Template::Chain(equality, links), &facts)
    }

    /// The facts of true equalities that lead from one term to another, by a search in breadth.
    fn path(&mut self, from: u32, to: u32) -> Result<Vec<u32>, Stop> {
        // The terms reached, each with the place of the one before it and the fact between them.
        let mut reached = Vec::new(self.alloc);
        reached.push((from, 0, None))?;
        self.unmark_terms()?;
        self.mark_term(from)?;
        for place in 0..u32::MAX {
            let (here, _, _) = at(&reached, place)?;
            if here == to {
                return self.path_back(&reached, place);
            }
            let facts = self.links.items(self.alloc, here)?;
            for fact in facts.iter() {
                self.rows.spend(1)?;
                let other = self.other_end(*fact, here)?;
                if self.mark_term(other)? {
                    reached.push((other, place, Some(*fact)))?;
                }
            }
        }
        Err(Stop::GivesUp)
    }

    /// The facts on the way from the first term reached to the one at a place.
    fn path_back(&self, reached: &[(u32, u32, Option<u32>)], place: u32) -> Result<Vec<u32>, Stop> {
        let mut facts = Vec::new(self.alloc);
        let mut here = place;
        for _ in 0..reached.len() {
            let (_, before, fact) = at(reached, here)?;
            let Some(fact) = fact else {
                break;
            };
            facts.push(fact)?;
            here = before;
        }
        let mut ordered = Vec::new(self.alloc);
        for _ in 0..number_of(facts.len())? {
            if let Some(fact) = facts.pop() {
                ordered.push(fact)?;
            }
        }
        Ok(ordered)
    }

    fn other_end(&self, fact: u32, side: u32) -> Result<u32, Stop> {
        match self.terms.shape(self.facts.fact(fact)?.term)? {
            Shape::Eq(a, b) => Ok(if a == side { b } else { a }),
            _ => Err(Stop::GivesUp),
        }
    }
}
