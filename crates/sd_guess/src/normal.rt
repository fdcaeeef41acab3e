//! Rows of facts, and normal forms of rows and differences: solved columns are replaced.
use crate::access::at;
use crate::rows::{Cell, RowEntry, Source, combined, size_of_factor, weighted};
use crate::state::{Solved, State};
use crate::stop::Stop;
use crate::terms::Shape;
use sd_rows::{Form, multipliers};

/// The sum of columns and a constant.
#[derive(Drop)]
pub struct Difference {
    pub cells: Vec<Cell>,
    pub constant: i128,
}

impl State {
    fn form(&self, term: u32) -> Result<&Form, Stop> {
        match self.forms.get(term as usize) {
            Some(form) => Ok(form),
            None => Err(Stop::GivesUp),
        }
    }

    /// The difference of two integer terms; none where it is beyond the bounds.
    pub fn difference(&self, a: u32, b: u32) -> Result<Option<Difference>, Stop> {
        let left = self.form(a)?;
        let right = self.form(b)?;
        let Some(cells) = combined(
            self.alloc,
            (1, left.parts.as_slice()),
            (-1, right.parts.as_slice()),
        )?
        else {
            return Ok(None);
        };
        match weighted(1, left.constant, -1, right.constant) {
            Some(constant) => Ok(Some(Difference { cells, constant })),
            None => Ok(None),
        }
    }

    /// The row of a fact on an equality or an order, or of an equality the other way round.
    pub fn fact_row(&mut self, number: u32, back: bool) -> Result<Option<u32>, Stop> {
        let fact = self.facts.fact(number)?;
        let (a, b) = match self.terms.shape(fact.term)? {
            Shape::Eq(a, b) => (a, b),
            Shape::Le(a, b) => (a, b),
            _ => return Err(Stop::GivesUp),
        };
        let (left, right, most) = match (back, fact.value) {
            (true, _) => (b, a, 0),
            (false, true) => (a, b, 0),
            (false, false) => (b, a, -1),
        };
        let Some(difference) = self.difference(left, right)? else {
            return Ok(None);
        };
        let Some(bound) = weighted(1, most, -1, difference.constant) else {
            return Ok(None);
        };
        let source = if back {
            Source::Back(number)
        } else {
            Source::Fact(number)
        };
        self.rows.add(&difference.cells, bound, source)
    }

    /// The last column of these that is solved, with its factor here.
    fn last_solved(&self, cells: &[Cell]) -> Result<Option<(i128, Solved)>, Stop> {
        for cell in cells.iter().rev() {
            if let Some(solved) = at(&self.solved, cell.0)? {
                return Ok(Some((cell.1, solved)));
            }
        }
        Ok(None)
    }

    /// The row with its solved columns replaced, divided by the greatest divisor of its factors; none where it goes
    /// beyond the bounds.
    pub fn normal_row(&mut self, row: u32) -> Result<Option<u32>, Stop> {
        let mut here = row;
        for _ in 0..u32::MAX {
            let entry = self.rows.row(here)?;
            let Some((factor, solved)) = self.last_solved(self.rows.cells(entry))? else {
                return self.rows.cut(self.alloc, here);
            };
            let other = if factor > 0 {
                solved.at_least
            } else {
                solved.at_most
            };
            match self.cancel(here, factor, solved.factor, other)? {
                Some(next) => here = next,
                None => return Ok(None),
            }
        }
        Err(Stop::GivesUp)
    }

    /// The sum of multiples of two rows in which a column falls away.
    fn cancel(&mut self, row: u32, factor: i128, by: u64, other: u32) -> Result<Option<u32>, Stop> {
        let size = size_of_factor(factor);
        if size == 0 || by == 0 {
            return Err(Stop::GivesUp);
        }
        let (first, second) = multipliers(size, by);
        self.rows
            .add_multiples(self.alloc, (row, first), (other, second))
    }

    /// The row of a fact in normal form.
    pub fn normal_fact_row(&mut self, number: u32, back: bool) -> Result<Option<u32>, Stop> {
        match self.fact_row(number, back)? {
            Some(row) => self.normal_row(row),
            None => Ok(None),
        }
    }

    /// The difference of two integer terms up to a positive factor, with its solved columns replaced.
    pub fn normal_difference(&mut self, a: u32, b: u32) -> Result<Option<Difference>, Stop> {
        let Some(mut here) = self.difference(a, b)? else {
            return Ok(None);
        };
        for _ in 0..u32::MAX {
            self.rows.spend(1 + here.cells.len() as u64)?;
            let Some((factor, solved)) = self.last_solved(&here.cells)? else {
                return Ok(Some(here));
            };
            match self.replaced(&here, factor, solved)? {
                Some(next) => here = next,
                None => return Ok(None),
            }
        }
        Err(Stop::GivesUp)
    }

    /// The multiple of a difference in which a solved column is replaced.
    fn replaced(
        &self,
        here: &Difference,
        factor: i128,
        solved: Solved,
    ) -> Result<Option<Difference>, Stop> {
        let size = size_of_factor(factor);
        if size == 0 || solved.factor == 0 {
            return Err(Stop::GivesUp);
        }
        let (first, second) = multipliers(size, solved.factor);
        let number = if factor > 0 {
            solved.at_least
        } else {
            solved.at_most
        };
        let row: RowEntry = self.rows.row(number)?;
        let m = i128::from(first);
        let n = i128::from(second);
        let Some(cells) = combined(self.alloc, (m, &here.cells), (n, self.rows.cells(row)))? else {
            return Ok(None);
        };
        let Some(lowered) = row.bound.checked_neg() else {
            return Ok(None);
        };
        match weighted(m, here.constant, n, lowered) {
            Some(constant) => Ok(Some(Difference { cells, constant })),
            None => Ok(None),
        }
    }
}
