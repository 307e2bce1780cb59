//! Reply slots: what a target keeps for a life of a client, by tag.

ghost use Rattle.std.specs.Prelude.{◌≡◌, ◌++◌, [], length, slice_get, option_map, IfOk, OnOk, OnErr};
ghost use Rattle.std.specs.Option.{option_copied};
ghost use Rattle.lu_msg.specs.Limits.{tag_count};
ghost use Rattle.lu_txn.specs.Slots.{empty, slot_of, lives_of, with_tag, with_reply, with_life, without_life, with_lives, with_replies, without_lives, tagged, kept_in};

use lu_base::{Duplicate, Memory, Who};
use lu_msg::{KeptReplies, KeptReply, Reply};
use std::alloc::{AllocError, Global};
use std::collections::BTreeMap;
use std::marker::Model;

/// How many tags a slot has.
pub const TAGS: usize = lu_msg::TAGS as usize;

/// What is kept for one life.
#[derive(Debug, Drop)]
pub struct Slot {
    pub who: Who,
    /// By tag, 0 to 7, the reply to the newest request; none where no reply was kept.
    pub replies: [Option<Reply>; TAGS],
}

impl Slot {
    /// Keeps a reply for this tag; nothing where there is no such tag.
    fn keep(&mut self, tag: u8, reply: Reply)
        ensures kept { self.new ≡ with_tag tag reply self.old }
    {
        let place = usize::from(tag);
        if place < TAGS {
            self.replies[place] = Some(reply);
        }
    }

    /// Adds the kept replies to these, in the order of their tags.
    fn add_to(&self, alloc: Global, replies: &mut KeptReplies) -> Result<(), Memory>
        requires tags { length self.now.replies ≡ tag_count }
        ensures added { OnOk result (replies.new ≡ replies.old ++ tagged self.now.who 0 self.now.replies) }
    {
        for tag in 0..TAGS {
            if let Some(reply) = &self.replies[tag] {
                replies.push(KeptReply {
                    who: self.who,
                    tag: tag as u8,
                    reply: reply.copy(alloc)?,
                })?;
            }
        }
        Ok(())
    }
}

/// A slot that has no reply yet.
fn empty(who: Who) -> Slot
    ensures { result ≡ empty who }
{
    Slot {
        who,
        replies: [None, None, None, None, None, None, None, None],
    }
}

/// The slots of all lives. A contract sees them by client and then by life.
#[derive(Debug, Drop)]
pub(crate) struct Slots {
    by_life: BTreeMap<Who, Slot>,
}

impl Model for Slots {
    ghost use Rattle.std.specs.Prelude.{List};
    ghost use Rattle.std.specs.Map.{values_of};
    ghost use Rattle.lu_txn.specs.declared.slots.Slot.{Slot};
    ghost use Rattle.lu_txn.specs.Slots.{IsByLife};

    ghost Value = { List Slot };

    ghost view = { λ slots. values_of slots.by_life.entries };

    ghost invariant = { λ slots. IsByLife slots.by_life.entries };
}

impl Slots {
    /// No life has a slot. It takes no memory yet.
    pub(crate) fn new(alloc: Global) -> Slots
        ensures empty { result ≡ [] }
    {
        Slots {
            by_life: BTreeMap::new(alloc),
        }
    }

    /// The slot of this life; none where it has none.
    pub(crate) fn of(&self, who: Who) -> Option<&Slot>
        ensures slot { option_copied result ≡ slot_of who self.now }
    {
        self.by_life.get(&who)
    }

    /// Keeps a reply for this life and tag; nothing where the life has no slot. It takes no memory.
    pub(crate) fn keep(&mut self, who: Who, tag: u8, reply: Reply)
        ensures kept { self.new ≡ with_reply who tag reply self.old }
    {
        let Some(slot) = self.by_life.get_mut(&who) else {
            return;
        };
        slot.keep(tag, reply);
    }

    /// Adds a slot without replies for this life; nothing where it has one. After want of memory nothing has
    /// changed.
    pub(crate) fn add(&mut self, who: Who) -> Result<(), Memory>
        ensures added { OnOk result (self.new ≡ with_life who self.old) }
        ensures kept { OnErr result (self.new ≡ self.old) }
    {
        if self.by_life.contains_key(&who) {
            return Ok(());
        }
        self.by_life.insert(who, empty(who))?;
        Ok(())
    }

    /// Removes the slot of this life, with its replies; nothing where it has none. It takes no memory.
    pub(crate) fn remove(&mut self, who: Who)
        ensures removed { self.new ≡ without_life who self.old }
    {
        let _ = self.by_life.remove(&who);
    }

    /// Adds slots without replies for those of these lives that have none. After want of memory some may have got
    /// theirs.
    pub(crate) fn add_all(&mut self, lives: &[Who]) -> Result<(), Memory>
        ensures added { OnOk result (self.new ≡ with_lives lives.now self.old) }
    {
        for who in lives {
            self.add(*who)?;
        }
        Ok(())
    }

    /// Keeps copies of these replies, of those lives that have a slot. After want of memory some may be kept.
    pub(crate) fn keep_all(&mut self, alloc: Global, replies: &[KeptReply]) -> Result<(), Memory>
        ensures kept { OnOk result (self.new ≡ with_replies replies.now self.old) }
    {
        for kept in replies {
            self.keep(kept.who, kept.tag, kept.reply.copy(alloc)?);
        }
        Ok(())
    }

    /// Removes the slots of these lives. It takes no memory.
    pub(crate) fn remove_all(&mut self, lives: &[Who])
        ensures removed { self.new ≡ without_lives lives.now self.old }
    {
        for who in lives {
            self.remove(*who);
        }
    }

    /// How many lives have slots.
    pub(crate) fn len(&self) -> usize
        ensures count { result ≡ length self.now }
    {
        self.by_life.len()
    }

    /// The kept replies, by life and then by tag.
    pub(crate) fn replies(&self, alloc: Global) -> Result<KeptReplies, Memory>
        ensures replies { IfOk result (λ replies. replies ≡ kept_in self.now) }
    {
        let mut replies = KeptReplies::new(alloc);
        for slot in self.by_life.values() {
            slot.add_to(alloc, &mut replies)?;
        }
        Ok(replies)
    }

    /// The lives that have slots, by client and then by life.
    pub(crate) fn lives(&self, alloc: Global) -> Result<Vec<Who>, AllocError>
        ensures lives { IfOk result (λ lives. lives.items ≡ lives_of self.now) }
    {
        self.by_life.keys().copied().collect(alloc)
    }

    /// The lives that have slots, by client and then by life, from place 0 on; none past the last.
    pub(crate) fn life(&self, at: usize) -> Option<Who>
        ensures life { result ≡ option_map (λ slot. slot.who) (slice_get self.now at) }
    {
        self.by_life.keys().nth(at).copied()
    }
}
