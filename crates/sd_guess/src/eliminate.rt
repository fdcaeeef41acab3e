//! Columns are eliminated from the bounds, where nothing else is left to do (Fourier and Motzkin).
use crate::bounds::LeftSides;
use crate::rows::{RowEntry, size_of_factor};
use crate::state::State;
use crate::stop::Stop;
use sd_rows::multipliers;
use std::collections::HashMap;

/// How many rows there may be at a time.
const MOST_ROWS: usize = 300;

/// The rows in which a column has a negative factor, a positive one, and none.
#[derive(Drop)]
struct Parted {
    low: Vec<(u32, u64)>,
    high: Vec<(u32, u64)>,
    others: LeftSides,
}

impl State {
    /// Eliminates the columns of the bounds. True where that gives a conflict.
    pub fn eliminate(&mut self) -> Result<bool, Stop> {
        if self.eliminated == Some(self.version) || self.bounds.is_empty() {
            return Ok(false);
        }
        self.eliminated = Some(self.version);
        let mark = self.rows.mark();
        if self.eliminate_columns()? {
            return Ok(true);
        }
        self.rows.forget(mark);
        Ok(false)
    }

    /// Eliminates one column after another.
    fn eliminate_columns(&mut self) -> Result<bool, Stop> {
        let mut rows = Vec::new(self.alloc);
        rows.extend_from_slice(&self.bounds)?;
        for _ in 0..u32::MAX {
            let Some(column) = self.cheapest_column(&rows)? else {
                return Ok(false);
            };
            let mut parted = self.part_by(&rows, column)?;
            if !self.combine_all(&mut parted)? {
                return Ok(self.conflict.is_some());
            }
            rows = parted.others.into_rows();
        }
        Ok(false)
    }

    /// The column whose elimination adds fewest rows, the least of these.
    fn cheapest_column(&mut self, rows: &[u32]) -> Result<Option<u32>, Stop> {
        let mut counts: HashMap<u32, (i64, i64)> = HashMap::new(self.alloc);
        let mut columns = Vec::new(self.alloc);
        for number in rows {
            let row: RowEntry = self.rows.row(*number)?;
            for cell in self.rows.cells(row) {
                let (low, high) = match counts.get(&cell.0) {
                    Some(count) => *count,
                    None => {
                        columns.push(cell.0)?;
                        (0, 0)
                    }
                };
                let count = if cell.1 < 0 {
                    (i64::saturating_add(low, 1), high)
                } else {
                    (low, i64::saturating_add(high, 1))
                };
                counts.insert(cell.0, count)?;
            }
        }
        self.rows.spend(columns.len() as u64)?;
        let mut best: Option<(i64, u32)> = None;
        for column in columns.iter() {
            let (low, high) = counts.get(column).copied().unwrap_or((0, 0));
            let cost = low
                .saturating_mul(high)
                .saturating_sub(low)
                .saturating_sub(high);
            if best.is_none_or(|other| (cost, *column) < other) {
                best = Some((cost, *column));
            }
        }
        Ok(best.map(|found| found.1))
    }

    fn part_by(&self, rows: &[u32], column: u32) -> Result<Parted, Stop> {
        let mut parted = Parted {
            low: Vec::new(self.alloc),
            high: Vec::new(self.alloc),
            others: LeftSides::new(self.alloc),
        };
        for number in rows {
            let row: RowEntry = self.rows.row(*number)?;
            let factor = self
                .rows
                .cells(row)
                .iter()
                .find(|cell| cell.0 == column)
                .map_or(0, |cell| cell.1);
            if factor < 0 {
                parted.low.push((*number, size_of_factor(factor)))?;
            } else if factor > 0 {
                parted.high.push((*number, size_of_factor(factor)))?;
            } else {
                parted.others.enter(&self.rows, *number)?;
            }
        }
        Ok(parted)
    }

    /// Adds each sum of a low and a high row without the column. False where there is a conflict or there are too
    /// many.
    fn combine_all(&mut self, parted: &mut Parted) -> Result<bool, Stop> {
        for low in parted.low.iter() {
            for high in parted.high.iter() {
                if low.1 == 0 || high.1 == 0 {
                    continue;
                }
                let (first, second) = multipliers(low.1, high.1);
                let sum = self
                    .rows
                    .add_multiples(self.alloc, (low.0, first), (high.0, second))?;
                let Some(sum) = sum else {
                    continue;
                };
                let row: RowEntry = self.rows.row(sum)?;
                if !self.rows.cells(row).is_empty() {
                    parted.others.enter(&self.rows, sum)?;
                } else if row.bound < 0 {
                    self.close_by_row(sum)?;
                    return Ok(false);
                }
                if parted.others.rows.len() > MOST_ROWS {
                    return Ok(false);
                }
            }
        }
        Ok(true)
    }
}
