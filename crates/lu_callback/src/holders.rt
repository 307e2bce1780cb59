//! What was asked of the holder of one lock.

ghost use Rattle.std.specs.Prelude.{◌≡◌, ◌==◌, not, filter, length, [], slice_get, option_map, map, IfOk, OnOk, OnErr};
ghost use Rattle.std.specs.List.{list_any};
ghost use Rattle.lu_callback.specs.Callbacks.{without_lives};
ghost use Rattle.lu_callback.specs.Filed.{of_kind, put_in};

use super::callbacks::{Asked, Kind, is_block, is_for, same_kind};
use lu_base::{Memory, Who};
use std::alloc::{AllocError, Global};
use std::marker::Model;

/// What was asked of the holder of one lock: the block first, and then the glimpses in the order in which they were
/// asked.
#[derive(Debug, Drop)]
pub(crate) struct Holder {
    asked: Vec<Asked>,
}

impl Model for Holder {
    ghost use Rattle.std.specs.Prelude.{List};
    ghost use Rattle.lu_callback.specs.declared.callbacks.Asked.{Asked};

    ghost Value = { List Asked };

    ghost view = { λ holder. holder.asked.items };
}

impl Holder {
    /// Nothing was asked. It takes no memory yet.
    pub(crate) fn new(alloc: Global) -> Holder
        ensures empty { result ≡ [] }
    {
        Holder {
            asked: Vec::new(alloc),
        }
    }

    /// Whether nothing was asked.
    pub(crate) fn is_empty(&self) -> bool
        ensures empty { result ≡ (length self.now == 0) }
    {
        self.asked.is_empty()
    }

    /// All that was asked.
    pub(crate) fn as_slice(&self) -> &[Asked]
        ensures same { result.now ≡ self.now }
    {
        self.asked.as_slice()
    }

    /// The kind of what was asked at this place, from 0; none past the last.
    pub(crate) fn kind_at(&self, at: usize) -> Option<Kind>
        ensures kind { result ≡ option_map (λ asked. asked.kind) (slice_get self.now at) }
    {
        let asked = self.asked.get(at)?;
        Some(asked.kind)
    }

    /// The kinds of all that was asked.
    pub(crate) fn kinds(&self, alloc: Global) -> Result<Vec<Kind>, AllocError>
        ensures kinds { IfOk result (λ kinds. kinds.items ≡ map (λ asked. asked.kind) self.now) }
    {
        self.asked.iter().map(|asked| asked.kind).collect(alloc)
    }

    /// Whether something of this kind was asked.
    pub(crate) fn has(&self, kind: Kind) -> bool
        ensures has { result ≡ list_any (of_kind kind) self.now }
    {
        self.asked.iter().any(|asked| same_kind(asked.kind, kind))
    }

    /// Asks, a block before the glimpses. After want of memory nothing has changed.
    pub(crate) fn put(&mut self, asked: Asked) -> Result<(), Memory>
        ensures put { OnOk result (self.new ≡ put_in asked self.old) }
        ensures kept { OnErr result (self.new ≡ self.old) }
    {
        if is_block(asked.kind) {
            self.asked.insert(0, asked)?;
            Ok(())
        } else {
            self.asked.push(asked)?;
            Ok(())
        }
    }

    /// Takes away what was asked of this kind.
    pub(crate) fn forget(&mut self, kind: Kind)
        ensures forgot { self.new ≡ filter (λ asked. not (of_kind kind asked)) self.old }
    {
        self.asked.retain(|asked| !same_kind(asked.kind, kind));
    }

    /// Takes away the glimpses for requests of these lives, and answers whether anything is left.
    pub(crate) fn outlives(&mut self, lives: &[Who]) -> bool
        ensures forgot { self.new ≡ without_lives lives.now self.old }
        ensures left { result ≡ not (length self.new == 0) }
    {
        self.asked.retain(|asked| !is_for(asked.kind, lives));
        !self.asked.is_empty()
    }
}
