//! Names of hidden locals and of the procedures of loops. No text can spell them, since they have an `@`.
ghost use Rattle.std.specs.Prelude.{◌≡◌, ◌++◌, IfOk, codes};
ghost use Rattle.std.specs.Fmt.{decimal};

use sd_base::{Name, NoMemory};
use std::alloc::Global;

/// The name of the hidden local for an argument of a call, both counted from 1.
pub(crate) fn argument_name(alloc: Global, call: u32, place: u32) -> Result<Name, NoMemory>
    ensures { IfOk result (λ name. name ≡ decimal call ++ (codes "@arg@" ++ decimal place)) }
{
    let text = format!(in alloc; "{call}@arg@{place}")?;
    Name::new(alloc, text.as_bytes())
}

/// The name of the hidden local that tells whether a loop left its procedure.
pub(crate) fn left_name(alloc: Global, number: u32) -> Result<Name, NoMemory>
    ensures { IfOk result (λ name. name ≡ decimal number ++ codes "@left") }
{
    let text = format!(in alloc; "{number}@left")?;
    Name::new(alloc, text.as_bytes())
}

/// The name of the out-parameter of a loop that tells whether it left its procedure.
pub(crate) fn left_out_name(alloc: Global) -> Result<Name, NoMemory>
    ensures { IfOk result (λ name. name ≡ codes "left") }
{
    Name::new(alloc, "left".as_bytes())
}

/// The name of the copy of a global.
pub(crate) fn copy_name(alloc: Global, name: &Name) -> Result<Name, NoMemory>
    ensures { IfOk result (λ copy. copy ≡ name.now ++ codes "@copy") }
{
    let mut bytes = Vec::from_slice(alloc, name.as_bytes())?;
    bytes.extend_from_slice("@copy".as_bytes())?;
    Name::new(alloc, bytes.as_slice())
}

/// The name of the procedure of a loop, which is counted from 1.
pub(crate) fn loop_name(alloc: Global, name: &Name, number: u32) -> Result<Name, NoMemory>
    ensures { IfOk result (λ full. full ≡ name.now ++ (codes "@loop@" ++ decimal number)) }
{
    let mut bytes = Vec::from_slice(alloc, name.as_bytes())?;
    let text = format!(in alloc; "@loop@{number}")?;
    bytes.extend_from_slice(text.as_bytes())?;
    Name::new(alloc, bytes.as_slice())
}
