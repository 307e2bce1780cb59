//! What changed the names of the metadata target.

ghost use Rattle.std.specs.Prelude.{◌≡◌, true};
ghost use Rattle.lu_spec_laws.specs.Words.Pasts.{Past};
ghost use Rattle.lu_spec_laws.specs.Words.Lost.{is_lost};
ghost use Rattle.lu_judge_windows.specs.Windows.{ShowsWindows};
ghost use Rattle.lu_judge_names.specs.Events.{marked, marked_of};

use lu_base::{Txn, Who};
use lu_judge_windows::Windows;
use lu_msg::Op;

/// What changed the names, or would have if it weren't lost.
#[derive(Clone, Copy, Debug)]
pub(crate) enum Event<'a> {
    /// An operation of a life.
    Transaction {
        number: Txn,
        who: Who,
        op: &'a Op,
        lost: bool,
    },
    /// The opens of a life went.
    Eviction(Who),
}

impl<'a> Event<'a> {
    /// The same, lost or not as it is now.
    pub(crate) fn marked(self, windows: &Windows<'a>) -> Event<'a>
        ensures { (past : Past) → ShowsWindows windows.now past
            → marked_of result ≡ marked (is_lost past 0) (marked_of self.entry).item }
    {
        match self {
            Event::Transaction {
                number,
                who,
                op,
                ..
            } => Event::Transaction {
                number,
                who,
                op,
                lost: windows.is_lost(0, number.0),
            },
            Event::Eviction(who) => Event::Eviction(who),
        }
    }

    /// Whether it is lost or not as it was.
    pub(crate) fn is_current(self, windows: &Windows<'a>) -> bool
        ensures { result ≡ true → (past : Past) → ShowsWindows windows.now past
            → marked_of self.entry ≡ marked (is_lost past 0) (marked_of self.entry).item }
    {
        match self {
            Event::Transaction { number, lost, .. } => lost == windows.is_lost(0, number.0),
            Event::Eviction(_) => true,
        }
    }
}
