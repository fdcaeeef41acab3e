//! Names in scope, in the order of their declaration.
ghost use Rattle.std.specs.Prelude.{◌≡◌, [], ◌∷◌, ◌++◌, OnOk, IfOk};
ghost use Rattle.std.specs.Option.{option_copied};
ghost use Rattle.sd_ast.specs.Tree.{names_of};
ghost use Rattle.sd_types.specs.Names.{is_among, HaveSame};
ghost use Rattle.sd_types.specs.Answer.{Leaves};
ghost use Rattle.sd_types.specs.Tables.{named, with_name, with_names, with_entry, FindSame};

use crate::refusal::{TypeError, twice};
use indexmap::{IndexMap, IndexSet};
use sd_base::{CloneOf, Name, NoMemory, Var};
use sqlite_items::Items;
use std::alloc::Global;
use std::marker::Model;

/// Distinct names in the order in which they came.
#[derive(Drop)]
pub struct NameList {
    set: IndexSet<Name>,
}

impl Model for NameList {
    ghost use Rattle.std.specs.Prelude.{List};
    ghost use Rattle.sd_base.specs.Value.{Text};

    ghost Value = { List Text };

    ghost view = { λ names. names.set.keys };
}

impl NameList {
    pub(crate) fn new(alloc: Global) -> NameList
        ensures { result ≡ [] }
    {
        NameList {
            set: IndexSet::new(alloc),
        }
    }

    pub(crate) fn has(&self, name: &Name) -> bool
        ensures { result ≡ is_among self.now name.now }
    {
        self.set.contains(name)
    }

    /// Adds a name, or refuses one that is there.
    pub(crate) fn add(&mut self, alloc: Global, name: &Name) -> Result<(), TypeError>
        ensures { Leaves (with_name self.old name.now) self.new result }
    {
        if self.set.contains(name) {
            return twice(alloc, name);
        }
        self.set.insert(name.clone_of(alloc)?)?;
        Ok(())
    }

    /// Adds names one after another, or refuses the first one that is there.
    pub(crate) fn add_all(&mut self, alloc: Global, names: &Items<Name>) -> Result<(), TypeError>
        ensures { Leaves (with_names self.old names.now) self.new result }
    {
        for name in names.as_slice() {
            self.add(alloc, name)?;
        }
        Ok(())
    }

    /// Adds the names of variables, or refuses the first one that is there.
    pub(crate) fn add_variables(
        &mut self,
        alloc: Global,
        vars: &Items<Var>,
    ) -> Result<(), TypeError>
        ensures { Leaves (with_names self.old (names_of vars.now)) self.new result }
    {
        for var in vars.as_slice() {
            self.add(alloc, &var.name)?;
        }
        Ok(())
    }

    /// Adds a name, where it isn't there.
    pub(crate) fn put(&mut self, alloc: Global, name: &Name) -> Result<(), NoMemory>
        ensures { OnOk result (HaveSame self.new (self.old ++ name.now ∷ [])) }
    {
        self.set.insert(name.clone_of(alloc)?)?;
        Ok(())
    }
}

/// The set of these names.
pub(crate) fn name_set(alloc: Global, names: &Items<Name>) -> Result<NameList, NoMemory>
    ensures { IfOk result (λ set. HaveSame set names.now) }
{
    let mut set = NameList::new(alloc);
    for name in names.as_slice() {
        set.put(alloc, name)?;
    }
    Ok(set)
}

/// Distinct names, each with what it stands for, in the order of their declaration.
#[derive(Drop)]
pub struct Table<X> {
    map: IndexMap<Name, X>,
}

impl<X> Model for Table<X> {
    ghost use Rattle.std.specs.Prelude.{List};
    ghost use Rattle.sd_base.specs.Value.{Text};

    ghost Value = { List (Text × X) };

    ghost view = { λ table. table.map.entries };
}

impl<X> Table<X> {
    pub(crate) fn new(alloc: Global) -> Table<X>
        ensures { result ≡ [] }
    {
        Table {
            map: IndexMap::new(alloc),
        }
    }

    /// What a name stands for.
    pub(crate) fn get(&self, name: &Name) -> Option<&X>
        ensures { option_copied result ≡ named self.now name.now }
    {
        self.map.get(name)
    }
}

impl<X: Drop> Table<X> {
    /// Adds a name with what it stands for, or refuses one that is there.
    pub(crate) fn add(&mut self, alloc: Global, name: &Name, value: X) -> Result<(), TypeError>
        ensures { Leaves (with_entry self.old name.now value) self.new result }
    {
        if self.map.contains_key(name) {
            return twice(alloc, name);
        }
        self.map.insert(name.clone_of(alloc)?, value)?;
        Ok(())
    }

    /// Adds a name with what it stands for, where it isn't there.
    pub(crate) fn put(&mut self, alloc: Global, name: &Name, value: X) -> Result<(), NoMemory>
        ensures { OnOk result (FindSame self.new (self.old ++ (name.now, value) ∷ [])) }
    {
        if self.map.contains_key(name) {
            return Ok(());
        }
        self.map.insert(name.clone_of(alloc)?, value)?;
        Ok(())
    }
}
