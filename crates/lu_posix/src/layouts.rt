//! The layouts of files, kept when their files have left the tree.

ghost use Rattle.std.specs.Prelude.{◌≡◌, [], Some, if◌then◌else◌, OnOk};
ghost use Rattle.std.specs.Map.{lookup};
ghost use Rattle.lu_base.specs.declared.ids.Fid.{Fid as SpecFid};
ghost use Rattle.lu_spec_machine.specs.Tree.{same_fid};

use indexmap::IndexMap;
use lu_base::{Fid, Memory};
use lu_layout::Layout;
use std::alloc::Global;
use std::marker::Model;

/// The layout of each file that was made. A contract sees the list of pairs of file and layout.
#[derive(Drop)]
pub(crate) struct Layouts {
    entries: IndexMap<Fid, Layout>,
}

impl Model for Layouts {
    ghost use Rattle.std.specs.Prelude.{List};
    ghost use Rattle.lu_base.specs.declared.ids.Fid.{Fid as SpecFid};
    ghost use Rattle.lu_layout.specs.Raid0.{Raid0};

    ghost Value = { List (SpecFid × Raid0) };

    ghost view = { λ layouts. layouts.entries.entries };
}

impl Layouts {
    /// Of no file. It takes no memory yet.
    pub(crate) fn new(alloc: Global) -> Layouts
        ensures empty { result ≡ [] }
    {
        Layouts {
            entries: IndexMap::new(alloc),
        }
    }

    /// The layout of a file, none of what never was one.
    pub(crate) fn of(&self, fid: Fid) -> Option<Layout>
        ensures found { result ≡ lookup (same_fid fid) self.now }
    {
        self.entries.get(&fid).copied()
    }

    /// Adds a file with its layout. After want of memory nothing is claimed.
    pub(crate) fn add(&mut self, fid: Fid, layout: Layout) -> Result<(), Memory>
        ensures added { OnOk result ((f : SpecFid) → lookup (same_fid f) self.new
            ≡ (if same_fid fid f then Some layout else lookup (same_fid f) self.old)) }
    {
        self.entries.insert(fid, layout)?;
        Ok(())
    }
}
