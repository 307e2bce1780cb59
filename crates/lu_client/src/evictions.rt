//! Eviction: a life is over, and the client's next one begins.

ghost use Rattle.std.specs.Prelude.{◌≡◌, ◌<◌, ◌+◌, ◌^◌, ◌∷◌, [], length, true, map, OnOk};
ghost use Rattle.lu_held.specs.Held.{in_order};
ghost use Rattle.lu_import.specs.Imports.{reborn};
ghost use Rattle.lu_msg.specs.Limits.{slot_count};
ghost use Rattle.lu_spec_entries.specs.Words.{Life, same_life};
ghost use Rattle.lu_spec_client.specs.Messages.{evicted_heard};
ghost use Rattle.lu_spec_client.specs.Recovery.{drops_all, ends_calls, evicted, next_life};
ghost use Rattle.lu_spec_client.specs.States.{after};
ghost use Rattle.lu_client_refines.specs.Rounds.{ends_one, joins_left, joins_one};
ghost use Rattle.lu_client.specs.Clients.{Makes};
ghost use Rattle.lu_client.specs.Comings.{may_evict};

use super::client::Client;
use lu_base::{Memory, Node, TargetId, Who};
use lu_import::Import;
use lu_msg::{Answer, Errno, Message, Post};
use lu_trace::{Entry, Turn};

/// Each import is that of a new life.
fn begin_lives(imports: &mut [Import], who: Who)
    ensures lives { imports.new ≡ map (reborn who) imports.old }
{
    for import in imports.iter_mut() {
        import.begin_life(who);
    }
}

impl Client {
    /// The client's life was evicted: each call of it that isn't told is told EIO, each of its locks goes, and the client's next
    /// life begins, which asks each target to join. Of another life nothing is done. After want of memory the client is of no
    /// use.
    pub(crate) fn start_over(&mut self, turn: &mut Turn, who: Who) -> Result<(), Memory>
        requires may { may_evict who self.old.client ≡ true }
        ensures makes { OnOk result (Makes (λ k. evicted_heard turn.old.at k (same_life who k.who))
            self.old self.new turn.old turn.new) }
    {
        if self.is_life(who) {
            return self.end_life(turn);
        }
        Ok(())
    }

    /// The life ends, and the next one begins.
    fn end_life(&mut self, turn: &mut Turn) -> Result<(), Memory>
        requires number { self.old.client.who.life + 1 < 2 ^ 32 }
        ensures makes { OnOk result (Makes (evicted turn.old.at) self.old self.new turn.old turn.new) }
    {
        self.end_calls(turn)?;
        self.drop_locks(turn)?;
        self.begin_next(turn)?;
        self.join_all(turn)
    }

    // ---- the life ends

    /// How many slots the client has: 4.
    fn call_slots(&self) -> u8
        ensures slots { result ≡ length self.now.client.calls }
        ensures four { result ≡ slot_count }
    {
        self.calls.len() as u8
    }

    /// Each call that isn't told is told EIO, slot by slot.
    fn end_calls(&mut self, turn: &mut Turn) -> Result<(), Memory>
        ensures makes { OnOk result (Makes (λ k. ends_calls turn.old.at 0 k.calls)
            self.old self.new turn.old turn.new) }
    {
        for slot in 0..self.call_slots() {
            self.end_call(turn, slot)?;
        }
        Ok(())
    }

    /// The call on a slot, if any, is told EIO.
    fn end_call(&mut self, turn: &mut Turn, slot: u8) -> Result<(), Memory>
        requires slot { slot < slot_count }
        ensures makes { OnOk result (Makes (ends_one turn.old.at slot) self.old self.new turn.old turn.new) }
    {
        if !self.has_call(slot) {
            return Ok(());
        }
        self.put(slot, None);
        let at = turn.at();
        let answer = Answer::Refused(Errno::EIO);
        turn.note(Entry::Told { slot, at, answer })
    }

    /// Each held lock goes, by target and then by cookie.
    fn drop_locks(&mut self, turn: &mut Turn) -> Result<(), Memory>
        ensures makes { OnOk result (Makes (λ k. drops_all
            (in_order k.store.held)) self.old self.new turn.old turn.new) }
    {
        let locks = self.store.in_order(self.alloc)?;
        for held in &locks {
            self.drop_held(turn, held)?;
        }
        Ok(())
    }

    // ---- the next life begins

    /// The client's next life begins.
    fn begin_next(&mut self, turn: &mut Turn) -> Result<(), Memory>
        requires number { self.old.client.who.life + 1 < 2 ^ 32 }
        ensures makes { OnOk result (Makes (λ k. Life (next_life k.who) ∷ []) self.old self.new turn.old turn.new) }
    {
        let who = Who {
            client: self.who.client,
            life: self.who.life + 1,
        };
        self.begin_life(who);
        turn.note(Entry::Life(who))
    }

    /// A new life begins: it has bound no handle, knows nothing, and has asked nothing.
    fn begin_life(&mut self, who: Who)
        ensures begun { self.new ≡ record self.old { client = after self.old.client (Life who) } }
    {
        self.who = who;
        self.handles.clear();
        begin_lives(self.imports.as_mut_slice(), who);
        self.store.begin_life();
    }

    /// Each target is asked to let the life join.
    fn join_all(&self, turn: &mut Turn) -> Result<(), Memory>
        ensures makes { OnOk result (Makes (joins_left 0) self.now self.now turn.old turn.new) }
    {
        for target in 0..self.targets() {
            self.join_at(turn, TargetId(target))?;
        }
        Ok(())
    }

    /// A target is asked so.
    fn join_at(&self, turn: &mut Turn, target: TargetId) -> Result<(), Memory>
        ensures makes { OnOk result (Makes (joins_one target.0) self.now self.now turn.old turn.new) }
    {
        turn.send(Post {
            to: Node::Target(target.0),
            message: Message::Join {
                who: self.who,
                boot: self.boot_known(target),
            },
        })
    }
}
