//! Sending: what waits goes to its target, target by target.

ghost use Rattle.std.specs.Prelude.{◌≡◌, ◌+◌, ◌<◌, ◌^◌, length, IfOk, OnOk};
ghost use Rattle.lu_spec_entries.specs.Words.{Queues};
ghost use Rattle.lu_spec_client.specs.Imports.{import_of, imports_after};
ghost use Rattle.lu_spec_client.specs.Sending.{sends_all};
ghost use Rattle.lu_client_refines.specs.Rounds.{sends_one};
ghost use Rattle.lu_client.specs.Clients.{with_imports, Makes};
ghost use Rattle.lu_client.specs.Fronts.{NextIs, FrontGoes, IsCountedAt};
ghost use Rattle.lu_client.specs.Numbers.{AreCounted, HasNumbers};

use super::client::Client;
use lu_base::{Memory, Node, TargetId};
use lu_msg::{Message, Op, Post};
use lu_trace::Turn;

impl Client {
    /// To each target in order that serves the life, what may be sent. After want of memory the client is of no
    /// use.
    pub(crate) fn send_all(&mut self, turn: &mut Turn) -> Result<(), Memory>
        requires numbers { HasNumbers self.old.client.imports }
        ensures makes { OnOk result (Makes (λ k. sends_all self.old.limits k.who 0 k.imports)
            self.old self.new turn.old turn.new) }
        ensures counted { OnOk result (AreCounted self.old.client.imports self.new.client.imports) }
    {
        for target in 0..self.targets() {
            self.send_to(turn, TargetId(target))?;
        }
        Ok(())
    }

    /// How many targets the client has, 1 to 9.
    pub(crate) fn targets(&self) -> u16
        ensures targets { result ≡ length self.now.client.imports }
    {
        self.imports.len() as u16
    }

    /// To one target, where it serves the life, what may be sent.
    fn send_to(&mut self, turn: &mut Turn, target: TargetId) -> Result<(), Memory>
        requires target { target.0 < length self.old.client.imports }
        requires number { (import_of target.0 self.old.client.imports).last < 2 ^ 63 }
        ensures makes { OnOk result (Makes (sends_one self.old.limits target.0) self.old self.new turn.old turn.new) }
        ensures counted { OnOk result (IsCountedAt target.0 self.old.client.imports self.new.client.imports) }
    {
        while self.send_front(turn, target)? {}
        Ok(())
    }

    /// The front of a target's queue is sent. False where the target doesn't serve the life, nothing waits, or what
    /// waits has no room; then nothing has changed.
    fn send_front(&mut self, turn: &mut Turn, target: TargetId) -> Result<bool, Memory>
        requires target { target.0 < length self.old.client.imports }
        requires number { (import_of target.0 self.old.client.imports).last + 1 < 2 ^ 64 }
        ensures front { IfOk result (λ sent. FrontGoes target.0 sent self.old self.new turn.old turn.new) }
    {
        let Some(message) = self.next(target)? else {
            return Ok(false);
        };
        turn.send(Post {
            to: Node::Target(target.0),
            message,
        })?;
        Ok(true)
    }

    /// The front of a target's queue as the message that it becomes: it is in flight from now on. None where
    /// nothing may be sent; then nothing has changed.
    fn next(&mut self, target: TargetId) -> Result<Option<Message>, Memory>
        requires target { target.0 < length self.old.client.imports }
        requires number { (import_of target.0 self.old.client.imports).last + 1 < 2 ^ 64 }
        ensures next { IfOk result (λ next. NextIs target.0 self.old self.new next) }
    {
        let import = &mut self.imports[target.0 as usize];
        let next = import.next()?;
        Ok(next)
    }

    /// An operation waits to be sent to a target. After want of memory nothing has changed.
    pub(crate) fn queue(&mut self, target: TargetId, slot: Option<u8>, op: Op) -> Result<(), Memory>
        ensures queued { OnOk result (self.new
            ≡ with_imports (imports_after self.old.client.imports
            (Queues target.0 (record { slot = slot; op = op }))) self.old) }
    {
        let Some(import) = self.imports.get_mut(target.0 as usize) else {
            drop(op);
            return Ok(());
        };
        import.queue(slot, op)
    }
}
