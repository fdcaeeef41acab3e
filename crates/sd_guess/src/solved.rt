//! Equalities of integers are solved for a column each (Gauss).
use crate::access::put;
use crate::facts::{Fact, Node, Origin, Refutation, Template};
use crate::rows::{Cell, RowEntry, Source, size_of_factor};
use crate::state::{Solved, State, Undo};
use crate::stop::Stop;
use crate::terms::Shape;

impl State {
    /// Solves a true equality of integers.
    pub fn solve_fact(&mut self, number: u32) -> Result<(), Stop> {
        match (
            self.normal_fact_row(number, false)?,
            self.normal_fact_row(number, true)?,
        ) {
            (Some(at_most), Some(at_least)) => self.solve_rows(at_most, at_least),
            _ => Ok(()),
        }
    }

    /// Solves an equality by its rows both ways, which are in normal form.
    pub fn solve_rows(&mut self, first: u32, second: u32) -> Result<(), Stop> {
        let a = self.rows.row(first)?;
        let b = self.rows.row(second)?;
        let Some(column) = column_to_solve(self.rows.cells(a)) else {
            if a.bound < 0 {
                return self.close_by_row(first);
            }
            if b.bound < 0 {
                return self.close_by_row(second);
            }
            return Ok(());
        };
        if a.bound.saturating_add(b.bound) < 0 {
            return match self
                .rows
                .add_multiples(self.alloc, (first, 1), (second, 1))?
            {
                Some(row) => self.close_by_row(row),
                None => Ok(()),
            };
        }
        let (at_most, at_least) = if column.1 > 0 {
            (first, second)
        } else {
            (second, first)
        };
        let factor = size_of_factor(column.1);
        put(
            &mut self.solved,
            column.0,
            Some(Solved {
                factor,
                at_most,
                at_least,
            }),
        )?;
        self.journal.push(Undo::Solved(column.0))?;
        self.version = self.version.wrapping_add(1);
        Ok(())
    }

    /// The conflict of a row that no integers meet.
    pub fn close_by_row(&mut self, row: u32) -> Result<(), Stop> {
        if self.conflict.is_none() {
            let refutation = self.refutation_by_row(row)?;
            self.conflict = Some(refutation);
        }
        Ok(())
    }

    /// The refutation by a row that no integers meet.
    pub fn refutation_by_row(&mut self, row: u32) -> Result<Refutation, Stop> {
        let facts = self.facts_of_row(row)?;
        let node = self.facts.add_node(Node::Rows(row))?;
        let uses = self.facts.keep_facts(&facts, None)?;
        Ok(Refutation { node, uses })
    }

    /// The facts that a row is derived from; some may come several times.
    fn facts_of_row(&mut self, row: u32) -> Result<Vec<u32>, Stop> {
        let mut facts = Vec::new(self.alloc);
        for number in self.sources_of(row)?.iter() {
            match self.rows.row(*number)?.source {
                Source::Fact(fact) => facts.push(fact)?,
                Source::Back(fact) => facts.push(fact)?,
                _ => {}
            }
        }
        Ok(facts)
    }

    /// The rows that a row is derived from, itself among them, in ascending order.
    pub fn sources_of(&mut self, row: u32) -> Result<Vec<u32>, Stop> {
        let mut found = Vec::new(self.alloc);
        let mut left = std::collections::BinaryHeap::new(self.alloc);
        left.push(row)?;
        let mut last = None;
        for _ in 0..u32::MAX {
            let Some(next) = left.pop() else {
                break;
            };
            self.rows.spend(1)?;
            if last == Some(next) {
                continue;
            }
            last = Some(next);
            found.push(next)?;
            match self.rows.row(next)?.source {
                Source::Add(a, _, b, _) => {
                    left.push(a)?;
                    left.push(b)?;
                }
                Source::Cut(a) => left.push(a)?,
                _ => {}
            }
        }
        let mut ascending = Vec::new(self.alloc);
        for number in found.iter().rev() {
            ascending.push(*number)?;
        }
        Ok(ascending)
    }

    /// A refutation of a fact that two integers differ, where the solved equalities make them equal: it has two
    /// leaves, or one where an order of them is known. None where a row goes beyond the bounds.
    pub fn refute_difference(&mut self, number: u32) -> Result<Option<Refutation>, Stop> {
        let fact = self.facts.fact(number)?;
        let Shape::Eq(a, b) = self.terms.shape(fact.term)? else {
            return Ok(None);
        };
        let less = self.term_of(Shape::Le(a, b))?;
        let greater = self.term_of(Shape::Le(b, a))?;
        for (order, other) in [(less, greater), (greater, less)] {
            let known = self.known(order)?;
            match (known.value, known.reason) {
                (Some(false), Some(reason)) => return self.refute_strict(reason),
                (Some(true), Some(reason)) => return self.refute_order(number, reason, other),
                _ => {}
            }
        }
        self.refute_both_orders(number, less, greater)
    }

    /// The refutation of a false order of two equal integers.
    fn refute_strict(&mut self, reason: u32) -> Result<Option<Refutation>, Stop> {
        let Some(row) = self.normal_fact_row(reason, false)? else {
            return Ok(None);
        };
        let entry: RowEntry = self.rows.row(row)?;
        if !self.rows.cells(entry).is_empty() || entry.bound >= 0 {
            return Ok(None);
        }
        Ok(Some(self.refutation_by_row(row)?))
    }

    /// The refutation of a difference of two equal integers, one of whose orders is true: the other is false.
    fn refute_order(
        &mut self,
        difference: u32,
        order: u32,
        other: u32,
    ) -> Result<Option<Refutation>, Stop> {
        let equality = self.facts.fact(difference)?.term;
        let first = self.facts.fact(order)?.term;
        let reasons = self.facts.keep(&[difference, order])?;
        let strict = self.facts.add(Fact {
            term: other,
            value: false,
            origin: Origin::Derived(Template::Order(equality, first, other)),
            reasons,
        })?;
        let Some(refuted) = self.refute_strict(strict)? else {
            return Ok(None);
        };
        let node = self.facts.add_node(Node::Step(strict, refuted.node))?;
        let uses = self.uses_with(refuted, strict, &[difference, order])?;
        Ok(Some(Refutation { node, uses }))
    }

    /// What a refutation uses without one fact, and with others.
    fn uses_with(
        &mut self,
        refutation: Refutation,
        without: u32,
        others: &[u32],
    ) -> Result<crate::access::Span, Stop> {
        let mut uses = Vec::new(self.alloc);
        uses.extend_from_slice(self.facts.items(refutation.uses))?;
        uses.extend_from_slice(others)?;
        self.facts.keep_facts(&uses, Some(without))
    }

    /// The refutation of a difference of two equal integers, with a branch for either order.
    fn refute_both_orders(
        &mut self,
        difference: u32,
        less: u32,
        greater: u32,
    ) -> Result<Option<Refutation>, Stop> {
        let yes = self.facts.assume(less, true)?;
        let no = self.facts.assume(less, false)?;
        let Some(first) = self.refute_order(difference, yes, greater)? else {
            return Ok(None);
        };
        let Some(second) = self.refute_strict(no)? else {
            return Ok(None);
        };
        let node = self
            .facts
            .add_node(Node::Split(yes, no, first.node, second.node))?;
        let mut uses = Vec::new(self.alloc);
        for fact in self.facts.items(first.uses) {
            if *fact != yes {
                uses.push(*fact)?;
            }
        }
        for fact in self.facts.items(second.uses) {
            if *fact != no {
                uses.push(*fact)?;
            }
        }
        let uses = self.facts.keep_facts(&uses, None)?;
        Ok(Some(Refutation { node, uses }))
    }
}

/// The cell of the column that an equality is solved for: one of the least factor, the last of these.
fn column_to_solve(cells: &[Cell]) -> Option<Cell> {
    let mut best: Option<Cell> = None;
    for cell in cells {
        let is_better = match best {
            Some(other) => size_of_factor(cell.1) <= size_of_factor(other.1),
            None => true,
        };
        if is_better {
            best = Some(*cell);
        }
    }
    best
}
