//! The lives that wish to join.

ghost use Rattle.std.specs.Prelude.{◌≡◌, ◌==◌, if◌then◌else◌, [], map, IfOk, OnOk, OnErr};
ghost use Rattle.std.specs.List.{list_any};
ghost use Rattle.lu_window.specs.Shown.{wish};
ghost use Rattle.lu_spec_target.specs.Windows.{is_newest, with_wish};

use lu_base::{Lives, Memory, Who};
use std::alloc::{AllocError, Global};
use std::collections::BTreeMap;
use std::marker::Model;

/// These lives of clients.
fn as_lives(alloc: Global, lives: &BTreeMap<u16, u32>) -> Result<Vec<Who>, AllocError>
    ensures { IfOk result (λ all. all.items ≡ map wish lives.now.entries) }
{
    lives
        .iter()
        .map(|(client, life)| Who {
            client: *client,
            life: *life,
        })
        .collect(alloc)
}

/// Of each client the newest life that wishes to join, by client.
#[derive(Debug, Drop)]
pub(crate) struct Wishes {
    alloc: Global,
    /// The number of that life, by client.
    lives: BTreeMap<u16, u32>,
}

impl Model for Wishes {
    ghost use Rattle.std.specs.Prelude.{List, map};
    ghost use Rattle.lu_base.specs.declared.ids.Who.{Who};
    ghost use Rattle.lu_window.specs.Shown.{wish};

    ghost Value = { List Who };

    ghost view = { λ wishes. map wish wishes.lives.entries };
}

impl Wishes {
    /// No life. It takes no memory yet.
    pub(crate) fn new(alloc: Global) -> Wishes
        ensures { result ≡ [] }
    {
        Wishes {
            alloc,
            lives: BTreeMap::new(alloc),
        }
    }

    /// Whether a life of this client wishes to join.
    pub(crate) fn has(&self, client: u16) -> bool
        ensures { result ≡ list_any (λ life. life.client == client) self.now }
    {
        self.lives.contains_key(&client)
    }

    /// Whether this life is newer than that of its client that wishes to join.
    fn is_newest(&self, who: Who) -> bool
        ensures { result ≡ is_newest who self.now }
    {
        match self.lives.get(&who.client) {
            Some(life) => *life < who.life,
            None => true,
        }
    }

    /// Takes a wish, where no newer or equal life of the client has one. After want of memory nothing has
    /// changed.
    pub(crate) fn put(&mut self, who: Who) -> Result<(), Memory>
        ensures put { OnOk result (self.new ≡ (if is_newest who self.old then with_wish who self.old else self.old)) }
        ensures kept { OnErr result (self.new ≡ self.old) }
    {
        if !self.is_newest(who) {
            return Ok(());
        }
        self.lives.insert(who.client, who.life)?;
        Ok(())
    }

    /// The lives, by client.
    pub(crate) fn lives(&self) -> Result<Lives, Memory>
        ensures { IfOk result (λ lives. lives ≡ self.now) }
    {
        let lives = as_lives(self.alloc, &self.lives)?;
        Ok(Lives::from(lives))
    }
}
