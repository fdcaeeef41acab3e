//! A refutation is written as the steps that the kernel reads.
use crate::access::{Span, at, number_of, put};
use crate::facts::{Node, Origin, Refutation, Template};
use crate::rows::Source;
use crate::state::State;
use crate::stop::Stop;
use crate::terms::Shape;
use sd_kernel::{NodeLine, RowLine, Step};
use sqlite_items::Items;
use std::alloc::Global;

/// What is to be written next.
#[derive(Clone, Copy, Debug)]
enum Task {
    Write(u32),
    /// The second branch begins: the facts up to here, and its own.
    Return(u32, u32),
}

/// The steps so far, the numbers of added terms, and the places of facts in the open branch.
#[derive(Drop)]
struct Writer {
    steps: Items<Step>,
    numbers: Vec<Option<u32>>,
    next: u32,
    places: Vec<u32>,
    count: u32,
    closings: u32,
}

impl State {
    /// The steps of a refutation of the query, if it closes at most so many branches.
    pub fn steps_of(&mut self, refutation: Refutation, leaves: u32) -> Result<Items<Step>, Stop> {
        let alloc = self.alloc;
        let mut writer = Writer {
            steps: Items::new(alloc),
            numbers: Vec::new(alloc),
            next: self.terms.own,
            places: vec![in alloc; 0; self.facts.facts.len()]?,
            count: 0,
            closings: 0,
        };
        for number in 0..number_of(self.terms.terms.len())? {
            writer.numbers.push(if number < self.terms.own {
                Some(number)
            } else {
                None
            })?;
        }
        for fact in self.query.iter() {
            writer.place(*fact)?;
        }
        let mut tasks = Vec::new(alloc);
        tasks.push(Task::Write(refutation.node))?;
        for _ in 0..u32::MAX {
            let Some(task) = tasks.pop() else {
                return Ok(writer.steps);
            };
            match task {
                Task::Return(count, fact) => {
                    writer.count = count;
                    writer.place(fact)?;
                }
                Task::Write(node) => self.write_node(node, &mut writer, &mut tasks)?,
            }
            if writer.closings > leaves {
                break;
            }
        }
        Err(Stop::GivesUp)
    }

    /// Writes a part of a proof, and leaves what comes after it to be done.
    fn write_node(
        &mut self,
        number: u32,
        writer: &mut Writer,
        tasks: &mut Vec<Task>,
    ) -> Result<(), Stop> {
        self.rows.spend(1)?;
        match self.facts.node(number)? {
            Node::Step(fact, rest) => {
                let Origin::Derived(template) = self.facts.fact(fact)?.origin else {
                    return Err(Stop::GivesUp);
                };
                let step = self.step_of(template, writer)?;
                writer.steps.push(step)?;
                writer.place(fact)?;
                tasks.push(Task::Write(rest))?;
            }
            Node::Split(yes, no, first, second) => {
                let term = self.facts.fact(yes)?.term;
                let term = self.write_term(term, writer)?;
                writer.steps.push(Step::Split(term))?;
                tasks.push(Task::Write(second))?;
                tasks.push(Task::Return(writer.count, no))?;
                writer.place(yes)?;
                tasks.push(Task::Write(first))?;
            }
            Node::Close(fact, other) => {
                let mut place = writer.place_of(fact)?;
                if let Some(other) = other {
                    place = place.max(writer.place_of(other)?);
                }
                writer.close(Step::Close(place))?;
            }
            Node::Rows(row) => {
                let lines = self.row_lines(row, writer)?;
                writer.close(Step::Rows(lines))?;
            }
        }
        Ok(())
    }

    /// The number of a term in the proof; where it has none, it is written.
    fn write_term(&self, term: u32, writer: &mut Writer) -> Result<u32, Stop> {
        if let Some(number) = at(&writer.numbers, term)? {
            return Ok(number);
        }
        let line = match self.terms.shape(term)? {
            Shape::Eq(a, b) => NodeLine::Eq(a, b),
            Shape::Le(a, b) => NodeLine::Le(a, b),
            _ => return Err(Stop::GivesUp),
        };
        writer.steps.push(Step::Term(line))?;
        let number = writer.next;
        put(&mut writer.numbers, term, Some(number))?;
        writer.next = number.saturating_add(1);
        Ok(number)
    }

    fn step_of(&self, template: Template, writer: &mut Writer) -> Result<Step, Stop> {
        match template {
            Template::Order(equality, known, other) => {
                let equality = self.write_term(equality, writer)?;
                let known = self.write_term(known, writer)?;
                let other = self.write_term(other, writer)?;
                Ok(Step::Order(equality, known, other))
            }
            Template::Ite(choice, equality) => {
                let equality = self.write_term(equality, writer)?;
                Ok(Step::Ite(choice, equality))
            }
            Template::Chain(equality, links) => {
                let equality = self.write_term(equality, writer)?;
                let links = self.write_links(links, writer)?;
                Ok(Step::Chain(equality, links))
            }
        }
    }

    fn write_links(&self, links: Span, writer: &mut Writer) -> Result<Items<u32>, Stop> {
        let mut written = Items::new(self.alloc);
        for link in self.facts.items(links) {
            written.push(self.write_term(*link, writer)?)?;
        }
        Ok(written)
    }

    /// The lines by which a row is derived from facts.
    fn row_lines(&mut self, row: u32, writer: &Writer) -> Result<Items<RowLine>, Stop> {
        let sources = self.sources_of(row)?;
        let mut lines = Items::new(self.alloc);
        for source in sources.iter() {
            let line = match self.rows.row(*source)?.source {
                Source::Fact(fact) => RowLine::Fact(writer.place_of(fact)?),
                Source::Back(fact) => RowLine::Back(writer.place_of(fact)?),
                Source::Add(a, m, b, n) => RowLine::Add(
                    place_among(&sources, a)?,
                    m,
                    place_among(&sources, b)?,
                    n,
                ),
                Source::Cut(a) => RowLine::Cut(place_among(&sources, a)?),
            };
            lines.push(line)?;
        }
        Ok(lines)
    }
}

/// The place of a number in an ascending list.
fn place_among(numbers: &[u32], number: u32) -> Result<u32, Stop> {
    match numbers.binary_search(&number) {
        Ok(place) => number_of(place),
        Err(_) => Err(Stop::GivesUp),
    }
}

impl Writer {
    /// A fact comes next in the open branch.
    fn place(&mut self, fact: u32) -> Result<(), Stop> {
        put(&mut self.places, fact, self.count)?;
        self.count = self.count.saturating_add(1);
        Ok(())
    }

    fn place_of(&self, fact: u32) -> Result<u32, Stop> {
        at(&self.places, fact)
    }

    fn close(&mut self, step: Step) -> Result<(), Stop> {
        self.steps.push(step)?;
        self.closings = self.closings.saturating_add(1);
        Ok(())
    }
}
