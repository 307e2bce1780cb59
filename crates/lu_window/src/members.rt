//! The lives that have a slot.

ghost use Rattle.std.specs.Prelude.{◌≡◌, ◌==◌, ◌&&◌, nat_lt, [], IfOk};
ghost use Rattle.std.specs.List.{list_any};
ghost use Rattle.lu_spec_target.specs.Lives.{is_life, with_lives};

use lu_base::{Memory, Who};
use std::alloc::Global;
use std::collections::BTreeSet;
use std::marker::Model;

/// The lives that have a slot, by client and then by life.
#[derive(Debug, Drop)]
pub(crate) struct Members {
    lives: BTreeSet<Who>,
}

impl Model for Members {
    ghost use Rattle.std.specs.Prelude.{List};
    ghost use Rattle.lu_base.specs.declared.ids.Who.{Who};

    ghost Value = { List Who };

    ghost view = { λ members. members.lives.keys };
}

impl Members {
    /// These lives, each once.
    pub(crate) fn new(alloc: Global, lives: &[Who]) -> Result<Members, Memory>
        ensures { IfOk result (λ members. members ≡ with_lives lives.now []) }
    {
        let mut members = BTreeSet::new(alloc);
        for who in lives {
            members.insert(*who)?;
        }
        Ok(Members { lives: members })
    }

    /// Whether this life is one of them.
    pub(crate) fn has(&self, who: Who) -> bool
        ensures { result ≡ is_life who self.now }
    {
        self.lives.contains(&who)
    }

    /// Whether an older life of its client is one of them.
    pub(crate) fn has_older(&self, who: Who) -> bool
        ensures { result ≡ list_any (λ life. life.client == who.client && nat_lt life.life who.life) self.now }
    {
        self.lives
            .iter()
            .any(|life| life.client == who.client && life.life < who.life)
    }

    /// All of them.
    pub(crate) fn as_set(&self) -> &BTreeSet<Who>
        ensures { result.now.keys ≡ self.now }
    {
        &self.lives
    }
}
