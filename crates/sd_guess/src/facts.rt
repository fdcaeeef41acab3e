use crate::access::{Span, at, number_of, put, within};
use crate::stop::Stop;
use std::alloc::Global;

/// A step that adds a fact without a branch. The numbers are those of terms.
#[derive(Clone, Copy, Debug)]
pub enum Template {
    Order(u32, u32, u32),
    Ite(u32, u32),
    /// The equality, and the equalities that lead from one side to the other.
    Chain(u32, Span),
}

/// Where a fact comes from.
#[derive(Clone, Copy, Debug)]
pub enum Origin {
    /// It is one of the query's.
    Query,
    /// It is the assumption of a branch.
    Assumed,
    /// A step adds it.
    Derived(Template),
    /// The opposite fact has this refutation.
    Forced(u32, u32),
}

/// A term with its value, and the facts that this rests on.
#[derive(Clone, Copy, Debug)]
pub struct Fact {
    pub term: u32,
    pub value: bool,
    pub origin: Origin,
    pub reasons: Span,
}

/// A part of a proof, by the numbers of facts, rows and other parts.
#[derive(Clone, Copy, Debug)]
pub enum Node {
    /// A step adds a fact.
    Step(u32, u32),
    /// The branches of a true and of a false fact on one term.
    Split(u32, u32, u32, u32),
    /// The branch has a fact that its parts or another fact contradict.
    Close(u32, Option<u32>),
    /// The branch's facts give a row that no integers meet.
    Rows(u32),
}

/// A refutation, and the facts that it uses.
#[derive(Clone, Copy, Debug)]
pub struct Refutation {
    pub node: u32,
    pub uses: Span,
}

/// All facts that were ever made, and parts of proofs of them.
#[derive(Drop)]
pub struct Facts {
    pub facts: Vec<Fact>,
    pub nodes: Vec<Node>,
    /// The lists of facts and of terms that spans name.
    pub lists: Vec<u32>,
    marks: Vec<u32>,
    round: u32,
}

impl Facts {
    pub fn new(alloc: Global) -> Facts {
        Facts {
            facts: Vec::new(alloc),
            nodes: Vec::new(alloc),
            lists: Vec::new(alloc),
            marks: Vec::new(alloc),
            round: 0,
        }
    }

    pub fn fact(&self, number: u32) -> Result<Fact, Stop> {
        at(&self.facts, number)
    }

    pub fn node(&self, number: u32) -> Result<Node, Stop> {
        at(&self.nodes, number)
    }

    /// The items of a list.
    pub fn items(&self, span: Span) -> &[u32] {
        within(&self.lists, span)
    }

    /// Keeps a list.
    pub fn keep(&mut self, items: &[u32]) -> Result<Span, Stop> {
        let start = number_of(self.lists.len())?;
        self.lists.extend_from_slice(items)?;
        let end = number_of(self.lists.len())?;
        Ok(Span { start, end })
    }

    /// Keeps a list of facts, each once, without one of them.
    pub fn keep_facts(&mut self, items: &[u32], left_out: Option<u32>) -> Result<Span, Stop> {
        self.unmark_all()?;
        let start = number_of(self.lists.len())?;
        for item in items {
            if Some(*item) != left_out && self.mark(*item)? {
                self.lists.push(*item)?;
            }
        }
        let end = number_of(self.lists.len())?;
        Ok(Span { start, end })
    }

    /// A fact's number.
    pub fn add(&mut self, fact: Fact) -> Result<u32, Stop> {
        let number = number_of(self.facts.len())?;
        self.facts.push(fact)?;
        self.marks.push(0)?;
        Ok(number)
    }

    /// An assumption.
    pub fn assume(&mut self, term: u32, value: bool) -> Result<u32, Stop> {
        let reasons = Span { start: 0, end: 0 };
        self.add(Fact {
            term,
            value,
            origin: Origin::Assumed,
            reasons,
        })
    }

    pub fn add_node(&mut self, node: Node) -> Result<u32, Stop> {
        let number = number_of(self.nodes.len())?;
        self.nodes.push(node)?;
        Ok(number)
    }

    /// Takes all marks away.
    pub fn unmark_all(&mut self) -> Result<(), Stop> {
        match self.round.checked_add(1) {
            Some(round) => {
                self.round = round;
                Ok(())
            }
            None => Err(Stop::GivesUp),
        }
    }

    /// Marks a fact. False where it is marked already.
    pub fn mark(&mut self, fact: u32) -> Result<bool, Stop> {
        let is_new = at(&self.marks, fact)? != self.round;
        put(&mut self.marks, fact, self.round)?;
        Ok(is_new)
    }

    pub fn is_marked(&self, fact: u32) -> Result<bool, Stop> {
        Ok(at(&self.marks, fact)? == self.round)
    }

    pub fn unmark(&mut self, fact: u32) -> Result<(), Stop> {
        put(&mut self.marks, fact, 0)
    }
}
