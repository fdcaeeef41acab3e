ghost use Rattle.std.specs.Prelude.{◌≡◌, ◌↔◌, IsTrue, IfOk};
ghost use Rattle.sd_base.specs.Sorts.{value_sort, index_sort};

use crate::{CloneOf, Name, NoMemory};
use sqlite_items::Boxed;
use std::alloc::Global;

/// A place in a text, as the number of bytes before it.
#[derive(Clone, Copy, Debug, PartialEq, Eq)]
pub struct Place {
    pub byte: u64,
}

/// The type of a value.
#[derive(Drop)]
pub enum Sort {
    Int,
    Bool,
    Named(Name),
    /// The type of the indices, and that of the values.
    Map(Boxed<Sort>, Boxed<Sort>),
}

/// A variable with its type.
#[derive(Drop)]
pub struct Var {
    pub name: Name,
    pub sort: Sort,
}

impl CloneOf for Var {
    fn clone_of(&self, alloc: Global) -> Result<Var, NoMemory> {
        Ok(Var {
            name: self.name.clone_of(alloc)?,
            sort: self.sort.clone_of(alloc)?,
        })
    }
}

impl CloneOf for Sort {
    fn clone_of(&self, alloc: Global) -> Result<Sort, NoMemory> {
        clone_sort(alloc, self)
    }
}

fn clone_sort(alloc: Global, sort: &Sort) -> Result<Sort, NoMemory>
    ensures { IfOk result (λ copy. copy ≡ sort.now) }
{
    match sort {
        Sort::Int => Ok(Sort::Int),
        Sort::Bool => Ok(Sort::Bool),
        Sort::Named(name) => Ok(Sort::Named(name.clone_of(alloc)?)),
        Sort::Map(index, value) => {
            let index = Boxed::new(alloc, clone_sort(alloc, index.get())?)?;
            let value = Boxed::new(alloc, clone_sort(alloc, value.get())?)?;
            Ok(Sort::Map(index, value))
        }
    }
}

/// Whether two types are one.
pub fn is_same_sort(a: &Sort, b: &Sort) -> bool
    ensures { IsTrue result ↔ (a.now ≡ b.now) }
{
    match a {
        Sort::Int => match b {
            Sort::Int => true,
            _ => false,
        },
        Sort::Bool => match b {
            Sort::Bool => true,
            _ => false,
        },
        Sort::Named(s) => match b {
            Sort::Named(t) => s.is(t),
            _ => false,
        },
        Sort::Map(i, v) => match b {
            Sort::Map(j, w) => is_same_sort(i.get(), j.get()) && is_same_sort(v.get(), w.get()),
            _ => false,
        },
    }
}

/// The sort of a map's values.
pub fn values_of(alloc: Global, map: &Sort) -> Result<Sort, NoMemory>
    ensures { IfOk result (λ s. s ≡ value_sort map.now) }
{
    match map {
        Sort::Map(_, value) => value.get().clone_of(alloc),
        _ => Ok(Sort::Bool),
    }
}

/// The sort of a map's indices.
pub fn indices_of(alloc: Global, map: &Sort) -> Result<Sort, NoMemory>
    ensures { IfOk result (λ s. s ≡ index_sort map.now) }
{
    match map {
        Sort::Map(index, _) => index.get().clone_of(alloc),
        _ => Ok(Sort::Int),
    }
}
