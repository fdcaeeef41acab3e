//! The texts that are read.
ghost use Rattle.std.specs.Prelude.{◌≡◌, ◌≢◌, IfOk, IfErr, Err};
ghost use Rattle.sd_base.specs.Causes.{Rose, NeverFall, NoFault};
ghost use Rattle.sd_base.specs.Outside.{WhereKnown, AllStay};
ghost use Rattle.sd_types.specs.Declarations.{WellTyped};
ghost use Rattle.sd_run.specs.declared.text.TextRefusal.{TextRefusal as Refusal};
ghost use Rattle.sd_run.specs.Texts.{Holds};
ghost use Rattle.sd_run.specs.TextRefusals.{IsAccepted, IsTextRefusal};
ghost use Rattle.sd_run.specs.TextFaults.{IsFault, IsReadFault, IsTypeFault};

use crate::compared::is_compared_program;
use sd_base::limits::TEXT_BYTES;
use sd_base::{Files, ReadFault, read_up_to};
use sd_parse::{ReadError, read_program};
use sd_types::{TypeError, Typed, check};
use std::alloc::Global;

/// A text that was read, and the program that it spells.
#[derive(Drop)]
pub struct Text {
    pub bytes: Vec<u8>,
    pub program: Typed,
}

/// Why a text isn't accepted.
#[derive(Drop)]
pub enum TextRefusal {
    /// It isn't read.
    Reading(ReadError),
    /// It breaks a rule on names and types.
    Typing(TypeError),
    /// It is well typed, and of a form that this version doesn't take.
    NotYet,
}

/// Why a file gave no program.
#[derive(Drop)]
pub enum TextFault {
    Memory,
    /// The reading of the file failed.
    Failed,
    Refused(TextRefusal),
}

fn read_fault(error: ReadError) -> TextFault
    ensures { IsReadFault error result }
{
    match error {
        ReadError::NoMemory => TextFault::Memory,
        error => TextFault::Refused(TextRefusal::Reading(error)),
    }
}

fn type_fault(error: TypeError) -> TextFault
    ensures { IsTypeFault error result }
{
    match error {
        TypeError::NoMemory => TextFault::Memory,
        error => TextFault::Refused(TextRefusal::Typing(error)),
    }
}

/// The program of a text, where it is accepted.
fn accept(alloc: Global, bytes: &[u8]) -> Result<Typed, TextFault>
    ensures accepted { IfOk result (λ program. IsAccepted bytes.now program) }
    ensures refused { IfErr result (IsFault bytes.now) }
{
    let program = match read_program(alloc, bytes) {
        Ok(program) => program,
        Err(error) => return Err(read_fault(error)),
    };
    let typed = match check(alloc, program) {
        Ok(typed) => typed,
        Err((_, error)) => return Err(type_fault(error)),
    };
    if !is_compared_program(typed.program()) {
        return Err(TextFault::Refused(TextRefusal::NotYet));
    }
    Ok(typed)
}

/// Reads a file and the program that it spells.
pub fn read_text<F: Files>(alloc: Global, files: &mut F, name: &str) -> Result<Text, TextFault>
    ensures content { IfOk result (λ text. Holds (F.content files.old name.now) text.bytes.items) }
    ensures accepted { IfOk result (λ text. IsAccepted text.bytes.items text.program) }
    ensures refused { (r : Refusal) → result ≡ Err (TextFault.Refused r)
        → WhereKnown (F.content files.old name.now) (λ bytes. IsTextRefusal bytes r) }
    ensures cause { result ≡ Err TextFault.Failed → Rose (F.read_faults files.old name.now)
        (F.read_faults files.new name.now) }
    ensures stay { AllStay F.content files.old files.new }
    ensures reads { NeverFall (F.read_faults files.old) (F.read_faults files.new) }
    ensures starts { NeverFall (F.start_faults files.old) (F.start_faults files.new) }
    ensures appends { NeverFall (F.append_faults files.old) (F.append_faults files.new) }
    ensures no_fault { result ≢ Err TextFault.Failed
        → NoFault F.read_faults F.start_faults F.append_faults files.old files.new }
{
    let bytes = match read_up_to(alloc, files, name, TEXT_BYTES) {
        Ok(bytes) => bytes,
        Err(ReadFault::Failed) => return Err(TextFault::Failed),
        Err(ReadFault::Memory) => return Err(TextFault::Memory),
    };
    let program = match accept(alloc, bytes.as_slice()) {
        Ok(program) => program,
        Err(fault) => return Err(fault),
    };
    Ok(Text { bytes, program })
}
