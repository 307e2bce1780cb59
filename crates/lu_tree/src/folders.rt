//! A directory as the program has it.

ghost use Rattle.std.specs.Prelude.{◌≡◌, [], IsTrue, ◌↔◌, IfOk, OnOk, OnErr};
ghost use Rattle.std.specs.Map.{keys_of, lookup};
ghost use Rattle.lu_spec_machine.specs.Name.{same_name};
ghost use Rattle.lu_spec_machine.specs.Entries.{without};
ghost use Rattle.lu_spec_machine.specs.Tree.{no_directory};
ghost use Rattle.lu_spec_machine.specs.Change.{new_directory, put_name};

use lu_base::{Duplicate, Memory, Name, Names};
use lu_spec_machine::Child;
use std::alloc::Global;
use std::collections::BTreeMap;
use std::marker::Model;

/// The mode of a new directory.
const NEW_MODE: u16 = 0o755;

/// A directory: its mode, and what its names lead to, in the order of their bytes.
#[derive(Drop)]
pub(crate) struct Folder {
    mode: u16,
    entries: BTreeMap<Name, Child>,
}

impl Model for Folder {
    ghost use Rattle.std.specs.Map.{keys_of};
    ghost use Rattle.lu_spec_machine.specs.Tree.{Directory};
    ghost use Rattle.lu_spec_machine.specs.Order.{InByteOrder};

    ghost Value = { Directory };

    ghost view = { λ a. record { mode = a.mode; entries = a.entries.entries } };

    ghost invariant = { λ a. InByteOrder (keys_of a.entries.entries) };
}

impl Folder {
    /// A new directory. It takes no memory yet.
    pub(crate) fn new(alloc: Global) -> Folder
        ensures new { result ≡ new_directory }
    {
        Folder {
            mode: NEW_MODE,
            entries: BTreeMap::new(alloc),
        }
    }

    /// A directory without names and with mode 0. It takes no memory yet.
    pub(crate) fn bare(alloc: Global) -> Folder
        ensures bare { result ≡ no_directory }
    {
        Folder {
            mode: 0,
            entries: BTreeMap::new(alloc),
        }
    }

    /// What the name leads to.
    pub(crate) fn find(&self, name: &Name) -> Option<Child>
        ensures found { result ≡ lookup (same_name name.now) self.now.entries }
    {
        self.entries.get(name).copied()
    }

    /// Whether there is no name.
    pub(crate) fn is_empty(&self) -> bool
        ensures empty { IsTrue result ↔ (self.now.entries ≡ []) }
    {
        self.entries.is_empty()
    }

    /// The names, in the order of their bytes.
    pub(crate) fn names(&self, alloc: Global) -> Result<Names, Memory>
        ensures names { IfOk result (λ names. names ≡ keys_of self.now.entries) }
    {
        let mut names = Names::new(alloc);
        for name in self.entries.keys() {
            names.push(name.copy(alloc)?)?;
        }
        Ok(names)
    }

    /// Its mode.
    pub(crate) fn mode(&self) -> u16
        ensures { result ≡ self.now.mode }
    {
        self.mode
    }

    /// Sets its mode.
    pub(crate) fn set_mode(&mut self, mode: u16)
        ensures set { self.new ≡ record self.old { mode = mode } }
    {
        self.mode = mode;
    }

    /// Makes the name lead there. After want of memory nothing has changed.
    pub(crate) fn put(&mut self, name: Name, child: Child) -> Result<(), Memory>
        ensures put { OnOk result (self.new ≡ record self.old { entries = put_name name child self.old.entries }) }
        ensures kept { OnErr result (self.new ≡ self.old) }
    {
        self.entries.insert(name, child)?;
        Ok(())
    }

    /// Takes the name out.
    pub(crate) fn remove(&mut self, name: &Name)
        ensures gone { self.new ≡ record self.old { entries = without (same_name name.now) self.old.entries } }
    {
        self.entries.remove(name);
    }
}
