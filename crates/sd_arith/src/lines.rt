ghost use Rattle.std.specs.Prelude.{◌≡◌, All, IfOk, length, map};
ghost use Rattle.sd_arith.specs.Lines.{HasInput, line_of};

use sd_base::NoMemory;
use sd_kernel::RowLine;
use sd_linear::RowStep;
use sqlite_items::Items;
use std::alloc::Global;

/// The line of a step, where the inputs have these lines.
fn line_of(inputs: &[RowLine], step: &RowStep) -> RowLine
    requires { HasInput (length inputs.now) step.now }
    ensures { result ≡ line_of inputs.now step.now }
{
    match *step {
        RowStep::Input(i) => inputs[i as usize],
        RowStep::Add(a, m, b, n) => RowLine::Add(a, m, b, n),
        RowStep::Cut(a) => RowLine::Cut(a),
    }
}

/// The lines of the steps. Each step makes one row, and so the rows keep their numbers.
pub(crate) fn lines_of(
    alloc: Global,
    inputs: &[RowLine],
    steps: &[RowStep],
) -> Result<Items<RowLine>, NoMemory>
    requires { All (HasInput (length inputs.now)) steps.now }
    ensures { IfOk result (λ lines. lines ≡ map (line_of inputs.now) steps.now) }
{
    let mut lines = Items::new(alloc);
    for step in steps {
        lines.push(line_of(inputs, step))?;
    }
    Ok(lines)
}
