//! How many lines steps and entries have.
ghost use Rattle.std.specs.Prelude.{◌≡◌, ◌+◌, IfOk, length};
ghost use Rattle.std.specs.List.{flat_map};
ghost use Rattle.sd_cert.specs.Certificates.{step_lines, proved_lines};

use sd_base::NoMemory;
use sd_kernel::{How, Proved, Step};

/// The line so many lines further. A text of 2^64 lines is out of memory.
pub(crate) fn further(line: u64, count: u64) -> Result<u64, NoMemory>
    ensures { IfOk result (λ l. l ≡ line + count) }
{
    match line.checked_add(count) {
        Some(sum) => Ok(sum),
        None => Err(NoMemory),
    }
}

/// The line below a step that stands at this line.
fn below_step(step: &Step, line: u64) -> Result<u64, NoMemory>
    ensures { IfOk result (λ l. l ≡ line + length (step_lines step.now)) }
{
    let next = further(line, 1)?;
    match step {
        Step::Rows(rows) => further(next, rows.len() as u64),
        _ => Ok(next),
    }
}

/// The line below steps, the first of which stands at this line.
fn below_steps(steps: &[Step], line: u64) -> Result<u64, NoMemory>
    ensures { IfOk result (λ l. l ≡ line + length (flat_map step_lines steps.now)) }
{
    let mut at = line;
    for step in steps {
        at = below_step(step, at)?;
    }
    Ok(at)
}

/// The line below an entry whose candidate stands at this line.
pub(crate) fn below_entry(entry: &Proved, line: u64) -> Result<u64, NoMemory>
    ensures { IfOk result (λ l. l ≡ line + length (proved_lines entry.now)) }
{
    let How::Steps(proof) = &entry.how;
    let first = further(line, 1)?;
    below_steps(proof.steps.as_slice(), first)
}
