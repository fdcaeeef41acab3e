//! The least bound of each left side, and what two opposite ones say.
use crate::access::at;
use crate::rows::{Cell, RowEntry, Rows};
use crate::state::State;
use crate::stop::Stop;
use std::alloc::Global;
use std::collections::HashMap;

/// Rows with left sides of their own, found by these.
#[derive(Drop)]
pub struct LeftSides {
    pub rows: Vec<u32>,
    places: HashMap<u64, u32>,
}

/// How many places a left side may have.
const PROBES: u64 = 8;

impl LeftSides {
    pub fn new(alloc: Global) -> LeftSides {
        LeftSides {
            rows: Vec::new(alloc),
            places: HashMap::new(alloc),
        }
    }

    /// The rows, in the order in which their left sides came.
    pub fn into_rows(self) -> Vec<u32> {
        self.rows
    }

    /// The row with this left side, or with the opposite one.
    pub fn find(&self, rows: &Rows, cells: &[Cell], opposite: bool) -> Result<Option<u32>, Stop> {
        let key = key_of(cells, opposite);
        for probe in 0..PROBES {
            let Some(place) = self.places.get(&key.wrapping_add(probe)) else {
                return Ok(None);
            };
            let row = at(&self.rows, *place)?;
            if are_same(rows.cells(rows.row(row)?), cells, opposite) {
                return Ok(Some(row));
            }
        }
        Ok(None)
    }

    /// Enters a row. False where one with the same left side has no greater bound.
    pub fn enter(&mut self, rows: &Rows, number: u32) -> Result<bool, Stop> {
        let row: RowEntry = rows.row(number)?;
        let cells = rows.cells(row);
        let key = key_of(cells, false);
        for probe in 0..PROBES {
            let here = key.wrapping_add(probe);
            let found = self.places.get(&here).copied();
            let Some(place) = found else {
                let place = crate::access::number_of(self.rows.len())?;
                self.rows.push(number)?;
                self.places.insert(here, place)?;
                return Ok(true);
            };
            let other = rows.row(at(&self.rows, place)?)?;
            if are_same(rows.cells(other), cells, false) {
                if other.bound <= row.bound {
                    return Ok(false);
                }
                crate::access::put(&mut self.rows, place, number)?;
                return Ok(true);
            }
        }
        Ok(false)
    }
}

/// A number that equal left sides share.
fn key_of(cells: &[Cell], opposite: bool) -> u64 {
    let mut key: u64 = 7;
    for cell in cells {
        let sign = if (cell.1 > 0) != opposite { 1 } else { 2 };
        key = key
            .wrapping_mul(0x9E37_79B9_7F4A_7C15)
            .wrapping_add(u64::from(cell.0));
        key = key.wrapping_mul(0x9E37_79B9_7F4A_7C15);
        key = key
            .wrapping_add(crate::rows::size_of_factor(cell.1).wrapping_mul(4))
            .wrapping_add(sign);
    }
    key
}

/// Whether two lists of cells are the same, or opposite.
fn are_same(a: &[Cell], b: &[Cell], opposite: bool) -> bool {
    if a.len() != b.len() {
        return false;
    }
    for (left, right) in a.iter().zip(b.iter()) {
        let fits = if opposite {
            left.1.checked_add(right.1) == Some(0)
        } else {
            left.1 == right.1
        };
        if left.0 != right.0 || !fits {
            return false;
        }
    }
    true
}

impl State {
    /// What the differences, bounds and open atoms of integers give. True where something new came.
    pub fn arithmetic(&mut self) -> Result<bool, Stop> {
        if self.bounded == Some(self.version) {
            return Ok(false);
        }
        let before = self.trail.len();
        if self.close_differences()? {
            return Ok(true);
        }
        let sides = self.least_bounds()?;
        if self.conflict.is_some() {
            return Ok(true);
        }
        self.implied_atoms(&sides)?;
        self.bounds = sides.into_rows();
        if self.conflict.is_some() || self.trail.len() > before {
            return Ok(true);
        }
        self.bounded = Some(self.version);
        Ok(false)
    }

    /// Whether two integers that differ are equal by the solved equalities, which is a conflict.
    fn close_differences(&mut self) -> Result<bool, Stop> {
        for place in 0..self.differences.len() {
            let Some(fact) = self.differences.get(place) else {
                break;
            };
            let fact = *fact;
            let term = self.facts.fact(fact)?.term;
            if self.is_zero_difference(term)? == Some(true) {
                if let Some(refutation) = self.refute_difference(fact)? {
                    self.conflict = Some(refutation);
                    return Ok(true);
                }
            }
        }
        Ok(false)
    }

    /// Whether the sides of an equality of integers are equal by the solved equalities (some `true`), or differ by a
    /// number other than 0 (some `false`).
    pub fn is_zero_difference(&mut self, equality: u32) -> Result<Option<bool>, Stop> {
        let crate::terms::Shape::Eq(a, b) = self.terms.shape(equality)? else {
            return Ok(None);
        };
        if !self.terms.is_integer(a)? {
            return Ok(None);
        }
        match self.normal_difference(a, b)? {
            Some(difference) if difference.cells.is_empty() => Ok(Some(difference.constant == 0)),
            _ => Ok(None),
        }
    }

    /// The least bound of each left side. Two opposite ones are a conflict, or a new equality.
    fn least_bounds(&mut self) -> Result<LeftSides, Stop> {
        for _ in 0..u32::MAX {
            let mut sides = LeftSides::new(self.alloc);
            if !self.enter_orders(&mut sides)? || self.conflict.is_some() {
                return Ok(sides);
            }
        }
        Err(Stop::GivesUp)
    }

    /// Enters the rows of all orders. True where a new equality was solved, so that they are to be entered anew.
    fn enter_orders(&mut self, sides: &mut LeftSides) -> Result<bool, Stop> {
        for place in 0..self.orders.len() {
            let Some(fact) = self.orders.get(place) else {
                break;
            };
            let fact = *fact;
            let Some(number) = self.normal_fact_row(fact, false)? else {
                continue;
            };
            let row: RowEntry = self.rows.row(number)?;
            if self.rows.cells(row).is_empty() {
                if row.bound < 0 {
                    self.close_by_row(number)?;
                    return Ok(false);
                }
                continue;
            }
            if !sides.enter(&self.rows, number)? {
                continue;
            }
            if let Some(other) = sides.find(&self.rows, self.rows.cells(row), true)? {
                if self.meet(number, other)? {
                    return Ok(true);
                }
            }
        }
        Ok(false)
    }

    /// Two rows with opposite left sides: a conflict, or an equality (then true), or neither.
    fn meet(&mut self, first: u32, second: u32) -> Result<bool, Stop> {
        let sum = self
            .rows
            .row(first)?
            .bound
            .saturating_add(self.rows.row(second)?.bound);
        if sum > 0 {
            return Ok(false);
        }
        if sum == 0 {
            self.solve_rows(first, second)?;
            return Ok(true);
        }
        if let Some(row) = self
            .rows
            .add_multiples(self.alloc, (first, 1), (second, 1))?
        {
            self.close_by_row(row)?;
        }
        Ok(self.conflict.is_some())
    }
}
