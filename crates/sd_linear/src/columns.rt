ghost use Rattle.std.specs.Prelude.{◌≡◌, ◌<◌, IfOk, OnOk};
ghost use Rattle.sd_rows.specs.declared.row.Row.{Row};
ghost use Rattle.sd_linear.specs.Elimination.{with_column, with_columns, columns};

use sd_base::NoMemory;
use sd_rows::Row;
use std::alloc::Global;

/// The columns with one more, in ascending order.
fn add_column(columns: &mut Vec<u32>, column: u32) -> Result<(), NoMemory>
    ensures { OnOk result (columns.new.items ≡ with_column column columns.old.items) }
{
    let mut place = 0;
    while place < columns.len() && columns[place] < column {
        place += 1;
    }
    if place < columns.len() && columns[place] == column {
        return Ok(());
    }
    columns.insert(place, column)?;
    Ok(())
}

/// The columns with those of the parts.
fn add_columns(columns: &mut Vec<u32>, parts: &[(u32, i128)]) -> Result<(), NoMemory>
    ensures { OnOk result (columns.new.items ≡ with_columns parts.now columns.old.items) }
{
    for p in parts {
        add_column(columns, p.0)?;
    }
    Ok(())
}

/// The columns of the rows, in ascending order.
pub(crate) fn columns_of(alloc: Global, rows: &[Row]) -> Result<Vec<u32>, NoMemory>
    ensures { IfOk result (λ ks. ks.items ≡ columns rows.now) }
{
    let mut columns = Vec::new(alloc);
    for r in rows {
        add_columns(&mut columns, r.parts.as_slice())?;
    }
    Ok(columns)
}
