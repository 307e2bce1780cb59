//! The layouts that lives heard.

ghost use Rattle.std.specs.Prelude.{◌≡◌, Some, None, if◌then◌else◌, OnOk};
ghost use Rattle.std.specs.Option.{option_map};
ghost use Rattle.lu_base.specs.declared.ids.Fid.{Fid as SpecFid};
ghost use Rattle.lu_base.specs.declared.ids.Who.{Who as SpecWho};
ghost use Rattle.lu_spec_laws.specs.Words.Pasts.{or_else};
ghost use Rattle.lu_judge_calls.specs.Marks.{same_file};
ghost use Rattle.lu_judge_calls.specs.PieceTables.{layout_in};

use lu_base::{Fid, Memory, Who};
use lu_layout::Layout;
use std::alloc::Global;
use std::collections::HashMap;

/// The layout that each life heard first of a file.
#[derive(Debug, Drop)]
pub struct Layouts<'a> {
    /// By the life and the file.
    first: HashMap<((u16, u32), u64), &'a Layout>,
}

impl<'a> Layouts<'a> {
    /// None. It takes no memory yet.
    pub fn new(alloc: Global) -> Layouts<'a>
        ensures none { (who : SpecWho) (fid : SpecFid) → layout_in result who fid ≡ None }
    {
        Layouts {
            first: HashMap::new(alloc),
        }
    }

    /// The layout that the life heard first of the file.
    pub fn get(&self, who: Who, fid: Fid) -> Option<&'a Layout>
        ensures layout { option_map (λ l. l.now) result ≡ layout_in self.now who fid }
    {
        self.first.get(&((who.client, who.life), fid.0)).copied()
    }

    /// The life hears a layout of the file: it counts where none was heard before. After want of memory nothing is known.
    pub fn hear(&mut self, who: Who, fid: Fid, layout: &'a Layout) -> Result<(), Memory>
        ensures heard { OnOk result ((w : SpecWho) (f : SpecFid) → layout_in self.new w f
            ≡ or_else (layout_in self.old w f) (if same_file who fid w f then Some layout.now else None)) }
    {
        let key = ((who.client, who.life), fid.0);
        if self.first.contains_key(&key) {
            return Ok(());
        }
        self.first.insert(key, layout)?;
        Ok(())
    }
}
