//! The line that says why a certificate is refused.
ghost use Rattle.std.specs.Prelude.{◌≡◌, ◌++◌, IfOk, OnOk};
ghost use Rattle.sd_run.specs.CertificateErrors as spec;

use crate::line::{push, push_number};
use sd_base::NoMemory;
use sd_cert::CertError;
use sd_kernel::StepCause;
use std::alloc::Global;

fn cause_word(cause: StepCause) -> &'static [u8]
    ensures { result.now ≡ spec.cause_word cause }
{
    match cause {
        StepCause::Number => b"number",
        StepCause::Shape => b"shape",
        StepCause::Known => b"known",
        StepCause::Value => b"value",
        StepCause::Row => b"row",
        StepCause::Wide => b"wide",
    }
}

fn push_step(alloc: Global, out: &mut Vec<u8>, line: u64, cause: StepCause) -> Result<(), NoMemory>
    ensures { OnOk result (out.new.items ≡ out.old.items ++ spec.step_text line cause) }
{
    push_number(alloc, out, b"line ", line)?;
    push(out, b" ")?;
    push(out, cause_word(cause))
}

fn push_fault(alloc: Global, out: &mut Vec<u8>, fault: CertError) -> Result<(), NoMemory>
    ensures { OnOk result (out.new.items ≡ out.old.items ++ spec.fault_text fault) }
{
    match fault {
        CertError::NoMemory => Ok(()),
        CertError::Version(version) => push_number(alloc, out, b"version ", version),
        CertError::Line(line) => push_number(alloc, out, b"line ", line),
        CertError::OtherOld => push(out, b"other old"),
        CertError::OtherNew => push(out, b"other new"),
        CertError::OtherSettings => push(out, b"other settings"),
        CertError::Pair(pair) => push_number(alloc, out, b"pair ", pair as u64),
        CertError::Step(line, cause) => push_step(alloc, out, line, cause),
    }
}

/// The line that says why a certificate is refused.
pub fn certificate_error(alloc: Global, fault: CertError) -> Result<Vec<u8>, NoMemory>
    ensures { IfOk result (λ text. text.items ≡ spec.certificate_error fault) }
{
    let mut out = Vec::new(alloc);
    push(&mut out, b"error: certificate ")?;
    push_fault(alloc, &mut out, fault)?;
    push(&mut out, b"\n")?;
    Ok(out)
}
