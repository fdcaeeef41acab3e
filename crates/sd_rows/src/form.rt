ghost use Rattle.std.specs.Prelude.{◌≡◌, ◌^◌, ◌≤◌, true, IfOk, ℤ, pos, ◌*ℤ◌, ◌++◌, unsigned_abs};
ghost use Rattle.sd_rows.specs.Rows.{are_small, IsProper};
ghost use Rattle.sd_rows.specs.Forms.{IsFit, times_by, plus, less, scaled, constant, column, bounded, product, at_most};

use crate::row::{MAX_BOUND, Row, added_parts, are_small};
use sd_base::NoMemory;
use sqlite_items::Items;
use std::alloc::Global;

/// A sum of columns, each with its factor, and a constant. The columns ascend, each once, and no factor is 0.
#[derive(Drop)]
pub struct Form {
    pub parts: Items<(u32, i128)>,
    pub constant: i128,
}

impl Form {
    /// A number, without columns.
    pub fn of_number(alloc: Global, number: i128) -> Form
        ensures { result ≡ constant number }
    {
        Form {
            parts: Items::new(alloc),
            constant: number,
        }
    }

    /// One column, with the factor 1.
    pub fn of_column(alloc: Global, number: u32) -> Result<Form, NoMemory>
        ensures { IfOk result (λ f. f ≡ column number) }
    {
        let mut parts = Items::new(alloc);
        parts.push((number, 1))?;
        Ok(Form { parts, constant: 0 })
    }

    pub fn copy(&self, alloc: Global) -> Result<Form, NoMemory>
        ensures { IfOk result (λ f. f ≡ self.now) }
    {
        let parts = Items::from_slice(alloc, self.parts.as_slice())?;
        Ok(Form {
            parts,
            constant: self.constant,
        })
    }

    /// The sum of two forms.
    pub fn plus(&self, alloc: Global, other: &Form) -> Result<Form, NoMemory>
        requires first { IsFit self.now }
        requires second { IsFit other.now }
        ensures { IfOk result (λ f. f ≡ plus self.now other.now) }
    {
        let parts = added_parts(alloc, 1, self.parts.as_slice(), 1, other.parts.as_slice())?;
        let constant = self.constant + other.constant;
        Ok(Form { parts, constant })
    }

    /// The form, from which another is taken away.
    pub fn less(&self, alloc: Global, other: &Form) -> Result<Form, NoMemory>
        requires first { IsFit self.now }
        requires second { IsFit other.now }
        ensures { IfOk result (λ f. f ≡ less self.now other.now) }
    {
        let negative = other.scaled(alloc, -1)?;
        self.plus(alloc, &negative)
    }

    /// The form with each factor and the constant multiplied by a number.
    pub fn scaled(&self, alloc: Global, number: i128) -> Result<Form, NoMemory>
        requires fit { IsFit self.now }
        requires multiplier { unsigned_abs number ≤ 2 ^ 58 }
        ensures { IfOk result (λ f. f ≡ scaled number self.now) }
    {
        let parts = multiples(alloc, number, self.parts.as_slice())?;
        let constant = product_of(self.constant, number);
        Ok(Form { parts, constant })
    }

    /// The form itself, or a column where the form is beyond the bounds.
    pub fn bounded(self, alloc: Global, number: u32) -> Result<Form, NoMemory>
        ensures { IfOk result (λ f. f ≡ bounded number self) }
    {
        if are_small(self.parts.as_slice()) && self.constant.unsigned_abs() <= MAX_BOUND {
            Ok(self)
        } else {
            Form::of_column(alloc, number)
        }
    }

    /// The product of two forms where one of them is a number and the product is within the bounds, and else a column.
    pub fn product(&self, alloc: Global, number: u32, other: &Form) -> Result<Form, NoMemory>
        requires first { IsFit self.now }
        requires second { IsFit other.now }
        ensures { IfOk result (λ f. f ≡ product number self.now other.now) }
    {
        if self.parts.is_empty() {
            other.bounded_multiple(alloc, number, self.constant)
        } else if other.parts.is_empty() {
            self.bounded_multiple(alloc, number, other.constant)
        } else {
            Form::of_column(alloc, number)
        }
    }

    /// The form multiplied by a number, or a column where that is beyond the bounds.
    fn bounded_multiple(&self, alloc: Global, number: u32, by: i128) -> Result<Form, NoMemory>
        requires fit { IsFit self.now }
        requires multiplier { unsigned_abs by ≤ 2 ^ 66 }
        ensures { IfOk result (λ f. f ≡ bounded number (scaled by self.now)) }
    {
        match by.checked_mul(self.constant) {
            Some(constant) => {
                let parts = multiples(alloc, by, self.parts.as_slice())?;
                Form { parts, constant }.bounded(alloc, number)
            }
            None => Form::of_column(alloc, number),
        }
    }

    /// The row that says that the form is at most a number.
    pub fn at_most(self, most: i128) -> Row
        requires constant { unsigned_abs self.constant ≤ 2 ^ 67 }
        requires bound { unsigned_abs most ≤ 2 ^ 66 }
        ensures { result ≡ at_most most self }
    {
        let bound = most - self.constant;
        Row {
            parts: self.parts,
            bound,
        }
    }
}

/// The product of a number within the bound of constants and one within the bound of factors.
fn product_of(a: i128, b: i128) -> i128
    requires first { unsigned_abs a ≤ 2 ^ 66 }
    requires second { unsigned_abs b ≤ 2 ^ 58 }
    ensures { result ≡ a *ℤ b }
{
    a * b
}

/// The parts with their factors multiplied by a number; those with the factor 0 are left out.
fn multiples(
    alloc: Global,
    number: i128,
    parts: &[(u32, i128)],
) -> Result<Items<(u32, i128)>, NoMemory>
    requires multiplier { unsigned_abs number ≤ 2 ^ 66 }
    requires small { are_small parts.now ≡ true }
    ensures { IfOk result (λ ps. ps ≡ times_by number parts.now) }
{
    let mut made = Items::new(alloc);
    for p in parts {
        let factor = product_of(number, p.1);
        if factor != 0 {
            made.push((p.0, factor))?;
        }
    }
    Ok(made)
}
