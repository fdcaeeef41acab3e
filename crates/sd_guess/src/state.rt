use crate::access::{at, put};
use crate::facts::{Facts, Refutation};
use crate::lists::Lists;
use crate::rows::Rows;
use crate::stop::Stop;
use crate::terms::{Shape, Term, Terms};
use crate::values::Values;
use sd_rows::Form;
use sd_term::{Bank, TermId};
use sqlite_items::Items;
use std::alloc::Global;

/// A value that a fact demands of a term: the fact, and the connective with its value that passed the demand on.
#[derive(Clone, Copy, Debug)]
pub struct Demand {
    pub root: u32,
    pub over: Option<(u32, bool)>,
}

/// A column that is solved: its factor, and the rows of the equality both ways, in the first of which the factor is
/// positive.
#[derive(Clone, Copy, Debug)]
pub struct Solved {
    pub factor: u64,
    pub at_most: u32,
    pub at_least: u32,
}

/// What is undone when a level is left.
#[derive(Clone, Copy, Debug)]
pub enum Undo {
    Demand(u32, bool),
    Claim(u32, bool),
    Link(u32, u32),
    /// The class of the second was joined to that of the first.
    Union(u32, u32),
    Solved(u32),
    Order,
    Difference,
}

/// What is known of a term.
#[derive(Clone, Copy, Debug)]
pub struct Known {
    pub value: Option<bool>,
    /// The fact that says so; none where the parts do.
    pub reason: Option<u32>,
    /// When the value came.
    pub time: u32,
    /// The facts that the connective is true and that it is false.
    pub claims: (Option<u32>, Option<u32>),
    /// The demands that it be true and that it be false.
    pub demands: (Option<Demand>, Option<Demand>),
}

/// A term's place in the classes of equal terms.
#[derive(Clone, Copy, Debug)]
pub struct Member {
    pub parent: u32,
    pub next: u32,
    pub size: u32,
}

/// Where a level began, and its assumption.
#[derive(Clone, Copy, Debug)]
pub struct Level {
    pub trail: usize,
    pub values: usize,
    pub journal: usize,
    pub trail_read: usize,
    pub values_read: usize,
    pub assumption: u32,
}

/// The search: what stays, and what is undone when a level is left.
#[derive(Drop)]
pub struct State {
    pub alloc: Global,
    pub terms: Terms,
    pub forms: Items<Form>,
    pub facts: Facts,
    pub rows: Rows,
    pub known: Vec<Known>,
    pub members: Vec<Member>,
    /// By term: the facts that it equals another one.
    pub links: Lists,
    pub solved: Vec<Option<Solved>>,
    /// The facts on the trail, and the terms with a value, each in the order of time.
    pub trail: Vec<u32>,
    pub values: Vec<u32>,
    pub trail_read: usize,
    pub values_read: usize,
    pub journal: Vec<Undo>,
    pub levels: Vec<Level>,
    /// The facts on orders, and those that say that two terms differ.
    pub orders: Vec<u32>,
    pub differences: Vec<u32>,
    pub conflict: Option<Refutation>,
    /// How often something that bears on integers changed, and what of it was looked at.
    pub version: u64,
    pub bounded: Option<u64>,
    pub eliminated: Option<u64>,
    /// The rows of least bounds, as they were found last.
    pub bounds: Vec<u32>,
    pub marks: Vec<u32>,
    pub round: u32,
    /// The facts of the query.
    pub query: Vec<u32>,
    /// Values of all atoms in which no conflict was found.
    pub settled: Option<Values>,
}

impl State {
    pub fn new(alloc: Global, bank: &Bank, forms: Items<Form>, effort: u64) -> Result<State, Stop> {
        let terms = Terms::of_bank(alloc, bank)?;
        let mut state = State {
            alloc,
            terms,
            forms,
            facts: Facts::new(alloc),
            rows: Rows::new(alloc, effort),
            known: Vec::new(alloc),
            members: Vec::new(alloc),
            links: Lists::new(alloc),
            solved: Vec::new(alloc),
            trail: Vec::new(alloc),
            values: Vec::new(alloc),
            trail_read: 0,
            values_read: 0,
            journal: Vec::new(alloc),
            levels: Vec::new(alloc),
            orders: Vec::new(alloc),
            differences: Vec::new(alloc),
            conflict: None,
            version: 0,
            bounded: None,
            eliminated: None,
            bounds: Vec::new(alloc),
            marks: Vec::new(alloc),
            round: 0,
            query: Vec::new(alloc),
            settled: None,
        };
        for number in 0..bank.len() {
            state.make_room(number)?;
        }
        for number in 0..bank.len() {
            match state.terms.shape(number)? {
                Shape::True => state.set_value(number, true, None)?,
                Shape::False => state.set_value(number, false, None)?,
                _ => {}
            }
        }
        Ok(state)
    }

    /// The facts of the query are true.
    pub fn assert_all(&mut self, facts: &[TermId]) -> Result<(), Stop> {
        for fact in facts {
            let number = self.facts.assume(fact.number(), true)?;
            self.query.push(number)?;
            self.push(number)?;
        }
        Ok(())
    }

    /// Room for what is known of a new term.
    fn make_room(&mut self, number: u32) -> Result<(), Stop> {
        self.known.push(Known {
            value: None,
            reason: None,
            time: 0,
            claims: (None, None),
            demands: (None, None),
        })?;
        self.members.push(Member {
            parent: number,
            next: number,
            size: 1,
        })?;
        self.links.add_list()?;
        self.solved.push(None)?;
        self.marks.push(0)?;
        Ok(())
    }

    /// The number of an equality or an order, which is new where there is none.
    pub fn term_of(&mut self, shape: Shape) -> Result<u32, Stop> {
        let found = match shape {
            Shape::Eq(a, b) => self.terms.find_eq(a, b),
            Shape::Le(a, b) => self.terms.find_le(a, b),
            _ => None,
        };
        if let Some(number) = found {
            return Ok(number);
        }
        let kind = crate::terms::Kind::Truth;
        let number = self.terms.add(Term { shape, kind })?;
        self.make_room(number)?;
        self.version = self.version.wrapping_add(1);
        Ok(number)
    }

    /// The number of an equality, either way round.
    pub fn equality_of(&mut self, a: u32, b: u32) -> Result<u32, Stop> {
        match self.terms.find_eq(b, a) {
            Some(number) => Ok(number),
            None => self.term_of(Shape::Eq(a, b)),
        }
    }

    pub fn known(&self, term: u32) -> Result<Known, Stop> {
        at(&self.known, term)
    }

    pub fn value(&self, term: u32) -> Result<Option<bool>, Stop> {
        Ok(self.known(term)?.value)
    }

    pub fn set_known(&mut self, term: u32, known: Known) -> Result<(), Stop> {
        put(&mut self.known, term, known)
    }

    /// Takes the marks of all terms away.
    pub fn unmark_terms(&mut self) -> Result<(), Stop> {
        match self.round.checked_add(1) {
            Some(round) => {
                self.round = round;
                Ok(())
            }
            None => Err(Stop::GivesUp),
        }
    }

    /// Marks a term. False where it is marked already.
    pub fn mark_term(&mut self, term: u32) -> Result<bool, Stop> {
        let is_new = at(&self.marks, term)? != self.round;
        put(&mut self.marks, term, self.round)?;
        Ok(is_new)
    }

    /// The value of a connective by those of its parts.
    pub fn value_by_parts(&self, shape: Shape) -> Result<Option<bool>, Stop> {
        let value = match shape {
            Shape::True => Some(true),
            Shape::False => Some(false),
            Shape::Not(a) => self.value(a)?.map(|a| !a),
            Shape::And(a, b) => conjunction(self.value(a)?, self.value(b)?),
            Shape::Or(a, b) => disjunction(self.value(a)?, self.value(b)?),
            Shape::Same(a, b) => match (self.value(a)?, self.value(b)?) {
                (Some(a), Some(b)) => Some(a == b),
                _ => None,
            },
            Shape::Either(c, a, b) => match self.value(c)? {
                Some(true) => self.value(a)?,
                Some(false) => self.value(b)?,
                None => None,
            },
            _ => None,
        };
        Ok(value)
    }
}

fn conjunction(a: Option<bool>, b: Option<bool>) -> Option<bool> {
    match (a, b) {
        (Some(false), _) => Some(false),
        (_, Some(false)) => Some(false),
        (Some(true), Some(true)) => Some(true),
        _ => None,
    }
}

fn disjunction(a: Option<bool>, b: Option<bool>) -> Option<bool> {
    match (a, b) {
        (Some(true), _) => Some(true),
        (_, Some(true)) => Some(true),
        (Some(false), Some(false)) => Some(false),
        _ => None,
    }
}
