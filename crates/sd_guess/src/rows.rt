use crate::access::{Span, at, number_of, within};
use crate::stop::Stop;
use sd_rows::{MAX_BOUND, MAX_FACTOR, gcd, quotient, quotient_down};
use std::alloc::Global;

/// A column with its factor.
pub type Cell = (u32, i128);

/// How a row is derived.
#[derive(Clone, Copy, Debug)]
pub enum Source {
    Fact(u32),
    Back(u32),
    Add(u32, u64, u32, u64),
    Cut(u32),
}

/// A sum of columns is at most the bound.
#[derive(Clone, Copy, Debug)]
pub struct RowEntry {
    pub cells: Span,
    pub bound: i128,
    pub source: Source,
}

/// All rows that were ever made, and the effort that is left for the whole guess.
#[derive(Drop)]
pub struct Rows {
    cells: Vec<Cell>,
    pub rows: Vec<RowEntry>,
    effort: u64,
}

/// How many cells all rows may have.
const MOST_CELLS: usize = 1 << 22;

impl Rows {
    pub fn new(alloc: Global, effort: u64) -> Rows {
        Rows {
            cells: Vec::new(alloc),
            rows: Vec::new(alloc),
            effort,
        }
    }

    /// Takes from the effort that is left.
    pub fn spend(&mut self, effort: u64) -> Result<(), Stop> {
        match self.effort.checked_sub(effort) {
            Some(left) => {
                self.effort = left;
                Ok(())
            }
            None => Err(Stop::GivesUp),
        }
    }

    /// How many cells and rows there are.
    pub fn mark(&self) -> (usize, usize) {
        (self.cells.len(), self.rows.len())
    }

    /// Forgets the rows that came after a mark, to which nothing may refer.
    pub fn forget(&mut self, mark: (usize, usize)) {
        self.cells.truncate(mark.0);
        self.rows.truncate(mark.1);
    }

    pub fn row(&self, number: u32) -> Result<RowEntry, Stop> {
        at(&self.rows, number)
    }

    pub fn cells(&self, row: RowEntry) -> &[Cell] {
        within(&self.cells, row.cells)
    }

    /// Adds a row with these cells, if its bound is small enough.
    pub fn add(
        &mut self,
        cells: &[Cell],
        bound: i128,
        source: Source,
    ) -> Result<Option<u32>, Stop> {
        if bound.unsigned_abs() > MAX_BOUND {
            return Ok(None);
        }
        self.spend(1 + cells.len() as u64)?;
        if self.cells.len() > MOST_CELLS {
            return Err(Stop::GivesUp);
        }
        let start = number_of(self.cells.len())?;
        self.cells.extend_from_slice(cells)?;
        let end = number_of(self.cells.len())?;
        let number = number_of(self.rows.len())?;
        let cells = Span { start, end };
        self.rows.push(RowEntry {
            cells,
            bound,
            source,
        })?;
        Ok(Some(number))
    }

    /// The sum of multiples of two rows, divided by the greatest divisor of its factors.
    pub fn add_multiples(
        &mut self,
        alloc: Global,
        first: (u32, u64),
        second: (u32, u64),
    ) -> Result<Option<u32>, Stop> {
        let a = self.row(first.0)?;
        let b = self.row(second.0)?;
        let m = i128::from(first.1);
        let n = i128::from(second.1);
        let Some(cells) = combined(alloc, (m, self.cells(a)), (n, self.cells(b)))? else {
            return Ok(None);
        };
        let Some(bound) = weighted(m, a.bound, n, b.bound) else {
            return Ok(None);
        };
        let source = Source::Add(first.0, first.1, second.0, second.1);
        match self.add(&cells, bound, source)? {
            Some(row) => self.cut(alloc, row),
            None => Ok(None),
        }
    }

    /// The row divided by the greatest divisor of its factors, where that is more than 1.
    pub fn cut(&mut self, alloc: Global, number: u32) -> Result<Option<u32>, Stop> {
        let row = self.row(number)?;
        let divisor = divisor_of(self.cells(row));
        if divisor < 2 {
            return Ok(Some(number));
        }
        let mut cells = Vec::new(alloc);
        for cell in self.cells(row) {
            cells.push((cell.0, quotient(cell.1, divisor)))?;
        }
        self.add(
            &cells,
            quotient_down(row.bound, divisor),
            Source::Cut(number),
        )
    }
}

/// The greatest common divisor of the factors; 0 where there are none.
fn divisor_of(cells: &[Cell]) -> u64 {
    let mut divisor = 0;
    for cell in cells {
        divisor = gcd(divisor, size_of_factor(cell.1));
    }
    divisor
}

/// The absolute value of a factor.
pub fn size_of_factor(factor: i128) -> u64 {
    match u64::try_from(factor.unsigned_abs()) {
        Ok(size) => size,
        Err(_) => 1,
    }
}

/// `m a + n b`, where it has 128 bits.
pub fn weighted(m: i128, a: i128, n: i128, b: i128) -> Option<i128> {
    let first = m.checked_mul(a)?;
    let second = n.checked_mul(b)?;
    first.checked_add(second)
}

/// The least column of two lists of cells.
fn next_column(left: &[Cell], right: &[Cell]) -> Option<u32> {
    match (left.first(), right.first()) {
        (Some(a), Some(b)) => Some(a.0.min(b.0)),
        (Some(a), None) => Some(a.0),
        (None, Some(b)) => Some(b.0),
        (None, None) => None,
    }
}

/// The factor of a column that comes first if it is there, and the cells after it.
fn split_column(cells: &[Cell], column: u32) -> (i128, &[Cell]) {
    match cells {
        [first, rest @ ..] if first.0 == column => (first.1, rest),
        _ => (0, cells),
    }
}

/// The sum of multiples of two lists of cells, each with its multiplier, where no factor is beyond the bounds.
pub fn combined(
    alloc: Global,
    first: (i128, &[Cell]),
    second: (i128, &[Cell]),
) -> Result<Option<Vec<Cell>>, Stop> {
    let mut cells = Vec::new(alloc);
    let mut left = first.1;
    let mut right = second.1;
    for _ in 0..left.len().saturating_add(right.len()) {
        let Some(column) = next_column(left, right) else {
            break;
        };
        let (a, left_rest) = split_column(left, column);
        let (b, right_rest) = split_column(right, column);
        left = left_rest;
        right = right_rest;
        let Some(factor) = weighted(first.0, a, second.0, b) else {
            return Ok(None);
        };
        if factor.unsigned_abs() > MAX_FACTOR {
            return Ok(None);
        }
        if factor != 0 {
            cells.push((column, factor))?;
        }
    }
    Ok(Some(cells))
}

/// Whether the factors have no common divisor but 1.
pub fn is_reduced(cells: &[Cell]) -> bool {
    divisor_of(cells) < 2
}
