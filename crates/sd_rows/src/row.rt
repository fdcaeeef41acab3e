ghost use Rattle.std.specs.Prelude.{◌≡◌, ◌≢◌, ℕ, ◌^◌, ◌<◌, ◌≤◌, true, ◌++◌, IfOk, OnOk, IsTrue, ◌↔◌, ℤ, pos, ◌+ℤ◌, ◌*ℤ◌, unsigned_abs};
ghost use Rattle.sd_rows.specs.Rows.{IsProper, are_small, is_within};
ghost use Rattle.sd_rows.specs.RowOps.{sum_of, times, added, reduced};

use crate::divisor::{divisor_of, quotient, quotient_down};
use sd_base::NoMemory;
use sqlite_items::Items;
use std::alloc::Global;

/// A sum of columns, each with its factor, is at most the bound.
#[derive(Drop)]
pub struct Row {
    pub parts: Items<(u32, i128)>,
    pub bound: i128,
}

/// The greatest factor and the greatest bound, in absolute value.
pub const MAX_FACTOR: u128 = 1 << 58;

pub const MAX_BOUND: u128 = 1 << 66;

impl Row {
    /// Whether the factors and the bound are small enough to compute with.
    pub fn is_within(&self) -> bool
        ensures { result ≡ is_within self.now }
    {
        are_small(self.parts.as_slice()) && self.bound.unsigned_abs() <= MAX_BOUND
    }

    pub fn copy(&self, alloc: Global) -> Result<Row, NoMemory>
        ensures { IfOk result (λ row. row ≡ self.now) }
    {
        let parts = Items::from_slice(alloc, self.parts.as_slice())?;
        Ok(Row {
            parts,
            bound: self.bound,
        })
    }

    /// m times the first row and n times the second.
    pub fn added(alloc: Global, m: u64, r: &Row, n: u64, s: &Row) -> Result<Row, NoMemory>
        requires left { m ≤ 2 ^ 58 }
        requires right { n ≤ 2 ^ 58 }
        requires first { IsProper r.now.parts }
        requires second { IsProper s.now.parts }
        requires first_within { is_within r.now ≡ true }
        requires second_within { is_within s.now ≡ true }
        ensures { IfOk result (λ t. t ≡ added m r.now n s.now) }
    {
        let parts = added_parts(alloc, m, r.parts.as_slice(), n, s.parts.as_slice())?;
        let bound = sum_of_multiples(m, r.bound, n, s.bound);
        Ok(Row { parts, bound })
    }

    /// The row divided by the greatest common divisor of its factors, with the bound rounded down.
    pub fn reduced(self, alloc: Global) -> Result<Row, NoMemory>
        requires proper { IsProper self.parts }
        requires within { is_within self ≡ true }
        ensures { IfOk result (λ r. r ≡ reduced self) }
    {
        let divisor = divisor_of(self.parts.as_slice());
        if divisor == 1 {
            return Ok(self);
        }
        let mut parts = Items::new(alloc);
        for p in self.parts.as_slice() {
            parts.push((p.0, quotient(p.1, divisor)))?;
        }
        let bound = quotient_down(self.bound, divisor);
        Ok(Row { parts, bound })
    }
}

pub(crate) fn are_small(parts: &[(u32, i128)]) -> bool
    ensures { result ≡ are_small parts.now }
{
    parts.iter().all(|p| p.1.unsigned_abs() <= MAX_FACTOR)
}

/// m times a factor or a bound.
fn multiple(m: u64, z: i128) -> i128
    requires multiplier { m ≤ 2 ^ 58 }
    requires small { unsigned_abs z ≤ 2 ^ 66 }
    ensures value { result ≡ pos m *ℤ z }
    ensures small { unsigned_abs result ≤ 2 ^ 124 }
{
    i128::from(m) * z
}

/// m times the first number and n times the second.
fn sum_of_multiples(m: u64, a: i128, n: u64, b: i128) -> i128
    requires left { m ≤ 2 ^ 58 }
    requires right { n ≤ 2 ^ 58 }
    requires first_small { unsigned_abs a ≤ 2 ^ 66 }
    requires second_small { unsigned_abs b ≤ 2 ^ 66 }
    ensures { result ≡ pos m *ℤ a +ℤ pos n *ℤ b }
{
    multiple(m, a) + multiple(n, b)
}

/// m times the first parts and n times the second.
pub(crate) fn added_parts(
    alloc: Global,
    m: u64,
    a: &[(u32, i128)],
    n: u64,
    b: &[(u32, i128)],
) -> Result<Items<(u32, i128)>, NoMemory>
    requires left { m ≤ 2 ^ 58 }
    requires right { n ≤ 2 ^ 58 }
    requires first { IsProper a.now }
    requires second { IsProper b.now }
    requires first_small { are_small a.now ≡ true }
    requires second_small { are_small b.now ≡ true }
    ensures { IfOk result (λ ps. ps ≡ sum_of (times m a.now) (times n b.now)) }
{
    let mut parts = Items::new(alloc);
    let mut left = a;
    let mut right = b;
    while let Some((p, left_rest)) = left.split_first() {
        match right.split_first() {
            Some((q, right_rest)) if q.0 <= p.0 => {
                if q.0 < p.0 {
                    parts.push((q.0, multiple(n, q.1)))?;
                } else {
                    let factor = sum_of_multiples(m, p.1, n, q.1);
                    if factor != 0 {
                        parts.push((p.0, factor))?;
                    }
                    left = left_rest;
                }
                right = right_rest;
            }
            _ => {
                parts.push((p.0, multiple(m, p.1)))?;
                left = left_rest;
            }
        }
    }
    push_multiples(&mut parts, n, right)?;
    Ok(parts)
}

/// n times the parts, at the end of others.
fn push_multiples(
    parts: &mut Items<(u32, i128)>,
    n: u64,
    more: &[(u32, i128)],
) -> Result<(), NoMemory>
    requires multiplier { n ≤ 2 ^ 58 }
    requires small { are_small more.now ≡ true }
    ensures { OnOk result (parts.new ≡ parts.old ++ times n more.now) }
{
    for q in more {
        parts.push((q.0, multiple(n, q.1)))?;
    }
    Ok(())
}
