//! Replays of requests.

ghost use Rattle.std.specs.Prelude.{◌≡◌, not, if◌then◌else◌, IfOk, OnErr, option_map};
ghost use Rattle.lu_replay.specs.Handed.{has, with_item, first_of, rest_of};
ghost use Rattle.lu_replay.specs.Replays.{key_of, body_of, replay_of, name_of};

use super::handed::{Handed, Key};
use lu_base::{Memory, Numbers, Txn, Who, Xid};
use lu_msg::Op;

/// A request of a life that is handed in again.
#[derive(Debug, PartialEq, Eq, Drop)]
pub struct Replay {
    /// The transaction that the request was.
    pub number: Txn,
    pub xid: Xid,
    /// The request's tag, 0 to 7.
    pub tag: u8,
    /// The transactions that the operation has seen, rising.
    pub seen: Numbers,
    pub op: Op,
}

/// A replay without its number, under which it is kept.
#[derive(Debug, PartialEq, Eq, Drop)]
pub struct ReplayBody {
    pub xid: Xid,
    /// The request's tag, 0 to 7.
    pub tag: u8,
    /// The transactions that the operation has seen, rising.
    pub seen: Numbers,
    pub op: Op,
}

/// The replays of all lives: one for each number of each life, in rising number.
pub type Replays = Handed<ReplayBody>;

impl Handed<ReplayBody> {
    /// Takes a replay of this life in. False where that life has replayed that number already; then, and
    /// after want of memory, nothing has changed.
    pub fn put(&mut self, who: Who, replay: Replay) -> Result<bool, Memory>
        ensures new { IfOk result (λ new. new ≡ not (has (key_of who replay) self.old)) }
        ensures added { IfOk result (λ new. self.new
            ≡ (if new then with_item (key_of who replay) (body_of replay) self.old else self.old)) }
        ensures kept { OnErr result (self.new ≡ self.old) }
    {
        let Replay {
            number,
            xid,
            tag,
            seen,
            op,
        } = replay;
        let key = Key {
            number: number.0,
            who,
        };
        self.insert(key, ReplayBody { xid, tag, seen, op })
    }

    /// The life and number of the replay with the least number; none where there is none.
    pub fn next_least(&self) -> Option<(Who, Txn)>
        ensures least { result ≡ option_map name_of (first_of self.now) }
    {
        let (key, _) = self.by_key().first_key_value()?;
        Some((key.who, Txn(key.number)))
    }

    /// Takes out the replay with the least number, with its life; none where there is none. It takes no
    /// memory.
    pub fn take_least(&mut self) -> Option<(Who, Replay)>
        ensures least { result ≡ option_map replay_of (first_of self.old) }
        ensures rest { self.new ≡ rest_of self.old }
    {
        let (key, body) = self.take_first()?;
        let ReplayBody { xid, tag, seen, op } = body;
        let replay = Replay {
            number: Txn(key.number),
            xid,
            tag,
            seen,
            op,
        };
        Some((key.who, replay))
    }
}
