//! Atoms of the query whose values the solved equalities and the bounds give.
use crate::bounds::LeftSides;
use crate::facts::Refutation;
use crate::normal::Difference;
use crate::rows::RowEntry;
use crate::state::State;
use crate::stop::Stop;
use crate::terms::Shape;

impl State {
    /// Forces each open atom of the query that has one value left.
    pub fn implied_atoms(&mut self, sides: &LeftSides) -> Result<(), Stop> {
        for number in 0..self.terms.own {
            if self.conflict.is_some() {
                break;
            }
            if !self.is_open(number)? {
                continue;
            }
            match self.terms.shape(number)? {
                Shape::Eq(a, b) if self.terms.is_integer(a)? => self.implied_equality(
                    number, a, b, sides,
                )?,
                Shape::Le(a, b) => self.implied_order(number, a, b, sides)?,
                _ => {}
            }
        }
        Ok(())
    }

    fn implied_equality(
        &mut self,
        number: u32,
        a: u32,
        b: u32,
        sides: &LeftSides,
    ) -> Result<(), Stop> {
        let Some(difference) = self.normal_difference(a, b)? else {
            return Ok(());
        };
        if difference.cells.is_empty() && difference.constant == 0 {
            let wrong = self.facts.assume(number, false)?;
            return match self.refute_difference(wrong)? {
                Some(refutation) => self.force(wrong, refutation),
                None => Ok(()),
            };
        }
        if !bears_on(&difference, sides, &self.rows)? {
            return Ok(());
        }
        let wrong = self.facts.assume(number, true)?;
        for back in [false, true] {
            if let Some(refutation) = self.refuted_by_bounds(wrong, back, sides)? {
                return self.force(wrong, refutation);
            }
        }
        Ok(())
    }

    fn implied_order(
        &mut self,
        number: u32,
        a: u32,
        b: u32,
        sides: &LeftSides,
    ) -> Result<(), Stop> {
        let Some(difference) = self.normal_difference(a, b)? else {
            return Ok(());
        };
        if !bears_on(&difference, sides, &self.rows)? {
            return Ok(());
        }
        for value in [true, false] {
            let wrong = self.facts.assume(number, value)?;
            if let Some(refutation) = self.refuted_by_bounds(wrong, false, sides)? {
                return self.force(wrong, refutation);
            }
        }
        Ok(())
    }

    /// The refutation of a fact's row by itself, or with the row of the opposite left side.
    fn refuted_by_bounds(
        &mut self,
        fact: u32,
        back: bool,
        sides: &LeftSides,
    ) -> Result<Option<Refutation>, Stop> {
        let Some(number) = self.normal_fact_row(fact, back)? else {
            return Ok(None);
        };
        let row: RowEntry = self.rows.row(number)?;
        if self.rows.cells(row).is_empty() {
            return if row.bound < 0 {
                Ok(Some(self.refutation_by_row(number)?))
            } else {
                Ok(None)
            };
        }
        let Some(other) = sides.find(&self.rows, self.rows.cells(row), true)? else {
            return Ok(None);
        };
        let bound = self.rows.row(other)?.bound;
        if row.bound.saturating_add(bound) >= 0 {
            return Ok(None);
        }
        match self
            .rows
            .add_multiples(self.alloc, (number, 1), (other, 1))?
        {
            Some(sum) => Ok(Some(self.refutation_by_row(sum)?)),
            None => Ok(None),
        }
    }
}

/// Whether a difference may be decided: it is a number, or a bound has its left side or the opposite one, up to a
/// factor.
fn bears_on(
    difference: &Difference,
    sides: &LeftSides,
    rows: &crate::rows::Rows,
) -> Result<bool, Stop> {
    if difference.cells.is_empty() || !crate::rows::is_reduced(&difference.cells) {
        return Ok(true);
    }
    let same = sides.find(rows, &difference.cells, false)?;
    let opposite = sides.find(rows, &difference.cells, true)?;
    Ok(same.is_some() || opposite.is_some())
}
