//! What a target says to clients.

ghost use Rattle.std.specs.Prelude.{◌≡◌, [], ◌∷◌, OnOk};
ghost use Rattle.lu_msg.specs.declared.messages.Message.TheVariants as message;
ghost use Rattle.lu_spec_target.specs.Replies.{to_life};
ghost use Rattle.lu_spec_entries.specs.Given.{giving};

use lu_base::{Lock, Memory, Node, Txn, Who, Xid};
use lu_msg::{Message, Post};
use lu_trace::Turn;

/// Sends a message to the client of a life.
pub(crate) fn say(turn: &mut Turn, who: Who, message: Message) -> Result<(), Memory>
    ensures said { OnOk result (turn.new ≡ giving turn.old (to_life who message ∷ [])) }
{
    turn.send(Post {
        to: Node::Client(who.client),
        message,
    })
}

/// Tells a life the target's boot.
pub(crate) fn say_up(turn: &mut Turn, who: Who, boot: u32) -> Result<(), Memory>
    ensures said { OnOk result (turn.new ≡ giving turn.old (to_life who (message.Up boot) ∷ [])) }
{
    say(turn, who, Message::Up(boot))
}

/// Tells a life that it has no slot.
pub(crate) fn say_evicted(turn: &mut Turn, who: Who, boot: u32) -> Result<(), Memory>
    ensures said { OnOk result (turn.new ≡ giving turn.old (to_life who (message.Evicted who boot) ∷ [])) }
{
    say(turn, who, Message::Evicted { who, boot })
}

/// Tells a life that the target serves it, and up to which number all is on the disk.
pub(crate) fn say_ready(turn: &mut Turn, who: Who, boot: u32, committed: Txn) -> Result<(), Memory>
    ensures said { OnOk result (turn.new ≡ giving turn.old (to_life who (message.Ready who boot committed) ∷ [])) }
{
    say(
        turn,
        who,
        Message::Ready {
            who,
            boot,
            committed,
        },
    )
}

/// Calls back a lock.
pub(crate) fn say_block(turn: &mut Turn, lock: &Lock, boot: u32) -> Result<(), Memory>
    ensures said { OnOk result (turn.new
        ≡ giving turn.old (to_life lock.now.ask.who (message.Block lock.now.ask.who boot lock.now.cookie) ∷ [])) }
{
    let who = lock.ask.who;
    let cookie = lock.cookie;
    say(turn, who, Message::Block { who, boot, cookie })
}

/// Asks the holder of a lock how long its object is, for a request of this life and number.
pub(crate) fn say_ask(
    turn: &mut Turn,
    lock: &Lock,
    boot: u32,
    for_who: Who,
    xid: Xid,
) -> Result<(), Memory>
    ensures said { OnOk result (turn.new ≡ giving turn.old
        (to_life lock.now.ask.who (message.Ask lock.now.ask.who boot lock.now.cookie for_who xid) ∷ [])) }
{
    let who = lock.ask.who;
    let cookie = lock.cookie;
    say(
        turn,
        who,
        Message::Ask {
            who,
            boot,
            cookie,
            for_who,
            xid,
        },
    )
}
