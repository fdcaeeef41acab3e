//! Why a program isn't well typed.
ghost use Rattle.std.specs.Prelude.{◌≡◌, Err};
ghost use Rattle.sd_types.specs.Answer.{Answers};
ghost use Rattle.sd_types.specs.declared.refusal.TypeError.TheVariants as error;

use sd_base::{CloneOf, Name, NoMemory, Place};
use std::alloc::{AllocError, AllocFailed, Global};
use thiserror::Error;

/// Why a program isn't well typed. A name or a place is that of the phrase that breaks the rule.
#[derive(Debug, Drop, Error)]
pub enum TypeError {
    #[error("out of memory")]
    NoMemory,
    /// A name that isn't declared, or can't be used where it stands.
    #[error("unknown name")]
    Unknown(Name),
    /// A name that is declared or assigned twice, or a procedure with two bodies.
    #[error("name declared twice")]
    Twice(Name),
    /// A phrase of another type than its place asks for.
    #[error("wrong type")]
    Kind(Place),
    /// A statement or an application with a wrong number of parts.
    #[error("wrong number of parts")]
    Arity(Place),
    /// An assigned in-parameter or constant.
    #[error("assigned name is read only")]
    ReadOnly(Name),
    /// A global that is changed, and isn't in the `modifies` of its procedure.
    #[error("global is not in `modifies`")]
    NotModified(Name),
    /// A called procedure without a body.
    #[error("called procedure has no body")]
    NoBody(Name),
    /// A `break` outside loops.
    #[error("`break` outside loops")]
    NoLoop(Place),
}

impl From<NoMemory> for TypeError {
    ghost use Rattle.std.specs.Prelude.{◌≡◌};
    ghost use Rattle.sd_types.specs.declared.refusal.TypeError.TheVariants.{NoMemory};

    ghost from_gives = { λ _ e. e ≡ NoMemory };

    fn from(_: NoMemory) -> TypeError {
        TypeError::NoMemory
    }
}

impl From<AllocError> for TypeError {
    ghost use Rattle.std.specs.Prelude.{◌≡◌};
    ghost use Rattle.sd_types.specs.declared.refusal.TypeError.TheVariants.{NoMemory};

    ghost from_gives = { λ _ e. e ≡ NoMemory };

    fn from(_: AllocError) -> TypeError {
        TypeError::NoMemory
    }
}

impl<T: Drop> From<AllocFailed<T>> for TypeError {
    ghost use Rattle.std.specs.Prelude.{◌≡◌};
    ghost use Rattle.sd_types.specs.declared.refusal.TypeError.TheVariants.{NoMemory};

    ghost from_gives = { λ _ e. e ≡ NoMemory };

    fn from(_: AllocFailed<T>) -> TypeError {
        TypeError::NoMemory
    }
}

pub(crate) fn unknown<T>(alloc: Global, name: &Name) -> Result<T, TypeError>
    ensures { Answers (Err (error.Unknown name.now)) result }
{
    Err(TypeError::Unknown(name.clone_of(alloc)?))
}

pub(crate) fn twice<T>(alloc: Global, name: &Name) -> Result<T, TypeError>
    ensures { Answers (Err (error.Twice name.now)) result }
{
    Err(TypeError::Twice(name.clone_of(alloc)?))
}

pub(crate) fn read_only<T>(alloc: Global, name: &Name) -> Result<T, TypeError>
    ensures { Answers (Err (error.ReadOnly name.now)) result }
{
    Err(TypeError::ReadOnly(name.clone_of(alloc)?))
}

pub(crate) fn not_modified<T>(alloc: Global, name: &Name) -> Result<T, TypeError>
    ensures { Answers (Err (error.NotModified name.now)) result }
{
    Err(TypeError::NotModified(name.clone_of(alloc)?))
}

pub(crate) fn no_body<T>(alloc: Global, name: &Name) -> Result<T, TypeError>
    ensures { Answers (Err (error.NoBody name.now)) result }
{
    Err(TypeError::NoBody(name.clone_of(alloc)?))
}
