//! The life that a line of a target may bring back.

ghost use Rattle.std.specs.Prelude.{◌≡◌};
ghost use Rattle.lu_spec_laws.specs.Words.Pasts.{Past};
ghost use Rattle.lu_judge_pass.specs.Ledgers.{ShowsLedger};
ghost use Rattle.lu_judge_recovery.specs.Handing.{handing, named};

use lu_base::Who;
use lu_judge_pass::Ledger;
use lu_msg::Message;
use lu_trace::Entry;

/// The life whose message hands something in, or asks to join; none of another message.
fn handing(message: &Message) -> Option<Who>
    ensures { result ≡ handing message.now }
{
    match message {
        Message::Replay(replay) => Some(replay.who),
        Message::Lock(replay) => Some(replay.who),
        Message::Word { who, .. } => Some(*who),
        Message::Join { who, .. } => Some(*who),
        _ => None,
    }
}

/// The life that joins with the entry, or whose handing in or join it takes.
pub fn named(ledger: &Ledger<'_>, entry: &Entry) -> Option<Who>
    ensures { (past : Past) → ShowsLedger ledger.now past → result ≡ named past entry.now }
{
    match entry {
        Entry::Joined(who) => Some(*who),
        Entry::Take(number) => match ledger.sendings.get(*number) {
            Some(sending) => handing(sending.message),
            None => None,
        },
        _ => None,
    }
}
