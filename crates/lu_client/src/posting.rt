//! Messages that a part of a turn sends, one after another.

ghost use Rattle.std.specs.Prelude.{◌≡◌, OnOk};
ghost use Rattle.lu_spec_entries.specs.Given.{giving};
ghost use Rattle.lu_client_refines.specs.Posts.{posted};

use lu_base::Memory;
use lu_msg::Sends;
use lu_trace::Turn;

/// Sends these messages, one after another. After want of memory some of them may be sent.
pub(crate) fn send_posts(turn: &mut Turn, posts: Sends) -> Result<(), Memory>
    ensures sends { OnOk result (turn.new ≡ giving turn.old (posted posts)) }
{
    for post in posts.into_vec() {
        turn.send(post)?;
    }
    Ok(())
}
