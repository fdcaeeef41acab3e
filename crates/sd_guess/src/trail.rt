//! Facts come onto the trail, and terms get values.
use crate::access::number_of;
use crate::facts::{Fact, Node, Origin, Refutation, Template};
use crate::state::{State, Undo};
use crate::stop::Stop;

impl State {
    /// Gives a term a value, by a fact or by its parts.
    pub fn set_value(&mut self, term: u32, value: bool, reason: Option<u32>) -> Result<(), Stop> {
        let time = number_of(self.values.len())?;
        let mut known = self.known(term)?;
        known.value = Some(value);
        known.reason = reason;
        known.time = time;
        self.set_known(term, known)?;
        self.values.push(term)?;
        let opposite = if value {
            known.claims.1
        } else {
            known.claims.0
        };
        match opposite {
            Some(fact) if self.conflict.is_none() => self.close_by_parts(fact),
            _ => Ok(()),
        }
    }

    /// Adds a fact to the trail, unless it says nothing new.
    pub fn push(&mut self, number: u32) -> Result<(), Stop> {
        let fact = self.facts.fact(number)?;
        if self.terms.term(fact.term)?.is_judged() {
            return self.push_claim(number, fact);
        }
        let known = self.known(fact.term)?;
        match known.value {
            None => {
                self.trail.push(number)?;
                self.set_value(fact.term, fact.value, Some(number))
            }
            Some(value) if value != fact.value => {
                self.trail.push(number)?;
                self.close_by_facts(number, known.reason)
            }
            Some(_) => Ok(()),
        }
    }

    /// Adds a fact on a connective.
    fn push_claim(&mut self, number: u32, fact: Fact) -> Result<(), Stop> {
        let mut known = self.known(fact.term)?;
        let same = if fact.value {
            known.claims.0
        } else {
            known.claims.1
        };
        if known.value == Some(fact.value) || same.is_some() {
            return Ok(());
        }
        if fact.value {
            known.claims.0 = Some(number);
        } else {
            known.claims.1 = Some(number);
        }
        self.set_known(fact.term, known)?;
        self.trail.push(number)?;
        self.journal.push(Undo::Claim(fact.term, fact.value))?;
        if known.value.is_some() && self.conflict.is_none() {
            return self.close_by_parts(number);
        }
        Ok(())
    }

    /// The conflict of a fact with an earlier one on the same term.
    fn close_by_facts(&mut self, number: u32, earlier: Option<u32>) -> Result<(), Stop> {
        if self.conflict.is_some() {
            return Ok(());
        }
        let Some(other) = earlier else {
            return self.close_by_parts(number);
        };
        let node = self.facts.add_node(Node::Close(number, Some(other)))?;
        let uses = self.facts.keep(&[number, other])?;
        self.conflict = Some(Refutation { node, uses });
        Ok(())
    }

    /// The conflict of a fact with the parts of its term.
    pub fn close_by_parts(&mut self, number: u32) -> Result<(), Stop> {
        let fact = self.facts.fact(number)?;
        let mut reasons = self.reasons_of(fact.term, true)?;
        reasons.push(number)?;
        let node = self.facts.add_node(Node::Close(number, None))?;
        let uses = self.facts.keep_facts(&reasons, None)?;
        self.conflict = Some(Refutation { node, uses });
        Ok(())
    }

    /// Adds a fact that a step gives.
    pub fn derive(
        &mut self,
        term: u32,
        value: bool,
        step: Template,
        reasons: &[u32],
    ) -> Result<(), Stop> {
        if self.terms.term(term)?.is_atom() && self.value(term)? == Some(value) {
            return Ok(());
        }
        let reasons = self.facts.keep_facts(reasons, None)?;
        let number = self.facts.add(Fact {
            term,
            value,
            origin: Origin::Derived(step),
            reasons,
        })?;
        self.push(number)
    }

    /// Adds a fact whose opposite is refuted.
    pub fn force(&mut self, opposite: u32, refutation: Refutation) -> Result<(), Stop> {
        let wrong = self.facts.fact(opposite)?;
        let mut uses = Vec::new(self.alloc);
        uses.extend_from_slice(self.facts.items(refutation.uses))?;
        let reasons = self.facts.keep_facts(&uses, Some(opposite))?;
        let number = self.facts.add(Fact {
            term: wrong.term,
            value: !wrong.value,
            origin: Origin::Forced(opposite, refutation.node),
            reasons,
        })?;
        self.push(number)
    }
}
