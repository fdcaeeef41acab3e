use crate::access::{at, number_of};
use crate::lists::Lists;
use crate::stop::Stop;
use sd_base::Sort;
use sd_term::{Bank, Head, Op, TermId, TermNode};
use std::alloc::Global;
use std::collections::HashMap;

/// What the search looks at in a term: its head and the numbers of its parts.
#[derive(Clone, Copy, Debug, PartialEq, Eq)]
pub enum Shape {
    True,
    False,
    Not(u32),
    And(u32, u32),
    Or(u32, u32),
    /// An equality of truth values.
    Same(u32, u32),
    /// A choice between truth values.
    Either(u32, u32, u32),
    /// An equality of what isn't truth-valued.
    Eq(u32, u32),
    Le(u32, u32),
    /// A choice between what isn't truth-valued.
    Ite(u32, u32, u32),
    /// A sum, difference or product.
    Sum(u32, u32),
    Neg(u32),
    Symbol(u32),
    Number,
    Other,
}

/// The sorts that the search tells apart.
#[derive(Clone, Copy, Debug, PartialEq, Eq)]
pub enum Kind {
    Truth,
    Integer,
    Other,
}

/// A term as the search sees it.
#[derive(Clone, Copy, Debug)]
pub struct Term {
    pub shape: Shape,
    pub kind: Kind,
}

impl Term {
    /// Whether its value is that of its parts.
    pub fn is_judged(self) -> bool {
        match self.shape {
            Shape::True => true,
            Shape::False => true,
            Shape::Not(_) => true,
            Shape::And(_, _) => true,
            Shape::Or(_, _) => true,
            Shape::Same(_, _) => true,
            Shape::Either(_, _, _) => true,
            _ => false,
        }
    }

    /// Whether it is truth-valued and not judged by its parts.
    pub fn is_atom(self) -> bool {
        self.kind == Kind::Truth && !self.is_judged()
    }
}

/// The parts of a shape: none, one, two or three of them.
pub fn parts_of(shape: Shape) -> [Option<u32>; 3] {
    match shape {
        Shape::Not(a) => [Some(a), None, None],
        Shape::Neg(a) => [Some(a), None, None],
        Shape::And(a, b) => [Some(a), Some(b), None],
        Shape::Or(a, b) => [Some(a), Some(b), None],
        Shape::Same(a, b) => [Some(a), Some(b), None],
        Shape::Eq(a, b) => [Some(a), Some(b), None],
        Shape::Le(a, b) => [Some(a), Some(b), None],
        Shape::Sum(a, b) => [Some(a), Some(b), None],
        Shape::Either(c, a, b) => [Some(c), Some(a), Some(b)],
        Shape::Ite(c, a, b) => [Some(c), Some(a), Some(b)],
        _ => [None, None, None],
    }
}

/// The terms of a query and those that the search adds, which are equalities and orders.
#[derive(Drop)]
pub struct Terms {
    pub terms: Vec<Term>,
    /// How many are the query's.
    pub own: u32,
    /// By truth-valued term: the connectives and choices of the query with it as a part.
    pub over: Lists,
    /// By term: the equalities with it as a side.
    pub equalities: Lists,
    eq: HashMap<(u32, u32), u32>,
    le: HashMap<(u32, u32), u32>,
}

impl Terms {
    /// The terms of a bank.
    pub fn of_bank(alloc: Global, bank: &Bank) -> Result<Terms, Stop> {
        let mut terms = Terms {
            terms: Vec::new(alloc),
            own: bank.len(),
            over: Lists::new(alloc),
            equalities: Lists::new(alloc),
            eq: HashMap::new(alloc),
            le: HashMap::new(alloc),
        };
        for number in 0..bank.len() {
            let id = TermId::new(number);
            let kind = kind_of(bank.sort(id));
            let shape = terms.shape_of(bank.node(id), kind)?;
            terms.add(Term { shape, kind })?;
            terms.note_parts(number, shape)?;
        }
        Ok(terms)
    }

    pub fn term(&self, number: u32) -> Result<Term, Stop> {
        at(&self.terms, number)
    }

    pub fn shape(&self, number: u32) -> Result<Shape, Stop> {
        Ok(self.term(number)?.shape)
    }

    pub fn is_integer(&self, number: u32) -> Result<bool, Stop> {
        Ok(self.term(number)?.kind == Kind::Integer)
    }

    /// The number of an equality, where it has one.
    pub fn find_eq(&self, a: u32, b: u32) -> Option<u32> {
        self.eq.get(&(a, b)).copied()
    }

    /// The number of an order, where it has one.
    pub fn find_le(&self, a: u32, b: u32) -> Option<u32> {
        self.le.get(&(a, b)).copied()
    }

    /// Gives the next number to a term.
    pub fn add(&mut self, term: Term) -> Result<u32, Stop> {
        let number = number_of(self.terms.len())?;
        self.terms.push(term)?;
        self.over.add_list()?;
        self.equalities.add_list()?;
        match term.shape {
            Shape::Eq(a, b) => {
                self.eq.insert((a, b), number)?;
                self.equalities.add(a, number)?;
                self.equalities.add(b, number)?;
            }
            Shape::Le(a, b) => {
                self.le.insert((a, b), number)?;
            }
            _ => {}
        }
        Ok(number)
    }

    /// Enters a connective or a choice at its truth-valued parts.
    fn note_parts(&mut self, number: u32, shape: Shape) -> Result<(), Stop> {
        for part in parts_of(shape).iter().flatten() {
            if self.term(*part)?.kind == Kind::Truth {
                self.over.add(*part, number)?;
            }
        }
        Ok(())
    }

    fn shape_of(&self, node: &TermNode, kind: Kind) -> Result<Shape, Stop> {
        let op = match &node.head {
            Head::Op(op) => *op,
            Head::Sym(number, _) => return Ok(Shape::Symbol(*number)),
            Head::Num(_) => return Ok(Shape::Number),
            _ => return Ok(Shape::Other),
        };
        let first = part(node, 0);
        let second = part(node, 1);
        let third = part(node, 2);
        match (op, first, second, third) {
            (Op::True, _, _, _) => Ok(Shape::True),
            (Op::False, _, _, _) => Ok(Shape::False),
            (Op::Not, Some(a), _, _) => Ok(Shape::Not(a)),
            (Op::And, Some(a), Some(b), _) => Ok(Shape::And(a, b)),
            (Op::Or, Some(a), Some(b), _) => Ok(Shape::Or(a, b)),
            (Op::Eq, Some(a), Some(b), _) => {
                if self.term(a)?.kind == Kind::Truth {
                    Ok(Shape::Same(a, b))
                } else {
                    Ok(Shape::Eq(a, b))
                }
            }
            (Op::Le, Some(a), Some(b), _) => Ok(Shape::Le(a, b)),
            (Op::Add, Some(a), Some(b), _) => Ok(Shape::Sum(a, b)),
            (Op::Sub, Some(a), Some(b), _) => Ok(Shape::Sum(a, b)),
            (Op::Mul, Some(a), Some(b), _) => Ok(Shape::Sum(a, b)),
            (Op::Neg, Some(a), _, _) => Ok(Shape::Neg(a)),
            (Op::Ite, Some(c), Some(a), Some(b)) => {
                if kind == Kind::Truth {
                    Ok(Shape::Either(c, a, b))
                } else {
                    Ok(Shape::Ite(c, a, b))
                }
            }
            _ => Ok(Shape::Other),
        }
    }
}

fn part(node: &TermNode, place: usize) -> Option<u32> {
    match node.parts.get(place) {
        Some(part) => Some(part.number()),
        None => None,
    }
}

fn kind_of(sort: &Sort) -> Kind {
    match sort {
        Sort::Bool => Kind::Truth,
        Sort::Int => Kind::Integer,
        _ => Kind::Other,
    }
}
