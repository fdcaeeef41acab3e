ghost use Rattle.sd_forms.specs.Laws.{FormsKeepValues, RowsHold};

/// The linear form of an integer term has the term's value, under every valuation.
pub fn forms_keep_values()
    ensures { FormsKeepValues }
{}

/// The rows of a term with a truth value hold of the terms' values, under every valuation that gives it this value.
pub fn rows_hold()
    ensures { RowsHold }
{}
