//! What a message that comes brings about.

ghost use Rattle.std.specs.Prelude.{◌≡◌, ◌<◌, true, length, OnOk};
ghost use Rattle.lu_base.specs.declared.ids.Node.TheVariants.{Target};
ghost use Rattle.lu_spec_client.specs.Messages.{comes_by, comes_from};
ghost use Rattle.lu_client.specs.Clients.{Makes};
ghost use Rattle.lu_client.specs.Comings.{may_come, may_from};

use super::client::Client;
use super::glimpses::Question;
use lu_base::{Memory, TargetId};
use lu_msg::Message;
use lu_trace::Turn;

impl Client {
    /// A message of a target comes. After want of memory the client is of no use.
    pub(crate) fn heed(
        &mut self,
        turn: &mut Turn,
        from: TargetId,
        message: &Message,
    ) -> Result<(), Memory>
        requires may { may_come (Target from.0) message.now self.old.client ≡ true }
        ensures makes { OnOk result (Makes (comes_by turn.old.at (Target from.0) message.now)
            self.old self.new turn.old turn.new) }
    {
        self.heed_target(turn, from, message)
    }

    /// The same of a target of the run. A message that targets don't send is only taken.
    fn heed_target(
        &mut self,
        turn: &mut Turn,
        target: TargetId,
        message: &Message,
    ) -> Result<(), Memory>
        requires target { target.0 < length self.old.client.imports }
        requires may { may_from target.0 message.now self.old.client ≡ true }
        ensures makes { OnOk result (Makes (comes_from turn.old.at target.0 message.now)
            self.old self.new turn.old turn.new) }
    {
        match message {
            Message::Reply(reply) => self.hear(turn, target, reply),
            Message::Grant(grant) => self.take_grant(turn, target, grant),
            Message::Block { who, cookie, .. } => self.call_back(turn, target, *who, *cookie),
            Message::Ask {
                who,
                cookie,
                for_who,
                xid,
                ..
            } => {
                let question = Question {
                    cookie: *cookie,
                    for_who: *for_who,
                    xid: *xid,
                };
                self.tell_size(turn, target, *who, question)
            }
            Message::Up(boot) => self.come_up(turn, target, *boot),
            Message::Ready {
                who,
                boot,
                committed,
            } => self.resume(turn, target, *who, *boot, *committed),
            Message::Evicted { who, .. } => self.start_over(turn, *who),
            _ => Ok(()),
        }
    }
}
