ghost use Rattle.sd_linear.specs.Laws.{RefutedRowsAreUnmet};

/// No integers meet rows that are refuted: sums with positive multipliers and rounded bounds hold wherever the rows
/// hold.
pub fn refuted_rows_are_unmet()
    ensures { RefutedRowsAreUnmet }
{}
