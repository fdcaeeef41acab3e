/// A step that derives a row: from the inputs, or from the rows of earlier steps. The numbers are those of the inputs
/// and of earlier steps, from 0.
#[derive(Clone, Copy, Debug, PartialEq, Eq)]
pub enum RowStep {
    /// The input row with this number.
    Input(u32),
    /// The row of a step with its multiplier, added to the row of a step with its multiplier. Multipliers are 1 to
    /// 2^58.
    Add(u32, u64, u32, u64),
    /// The row of a step, divided by the greatest common divisor of its factors, with the bound rounded down (Gomory
    /// 1958; Chvátal 1973).
    Cut(u32),
}
