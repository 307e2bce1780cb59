//! What an answer names and says.

ghost use Rattle.std.specs.Prelude.{◌≡◌};
ghost use Rattle.std.specs.Option.{option_map};
ghost use Rattle.lu_spec_laws.specs.Words.Later.{told_later};
ghost use Rattle.lu_spec_laws.specs.Laws.Acts.{is_bad_handle, is_end_of_life, is_local, names_own};
ghost use Rattle.lu_judge_pass.specs.Places.{InOrder};
ghost use Rattle.lu_judge_acts.specs.Answers.{told_at};

use lu_base::At;
use lu_judge_pass::same_turn;
use lu_msg::{Answer, Call, Errno};
use lu_trace::{Entry, Line};

/// Whether the answer says that the handle isn't bound, or is bound already.
pub fn is_bad_handle(answer: &Answer) -> bool
    ensures bad { result ≡ is_bad_handle answer.now }
{
    match answer {
        Answer::Refused(errno) => match errno {
            Errno::EBADF => true,
            _ => false,
        },
        _ => false,
    }
}

/// Whether the answer says that the life was evicted.
pub fn is_end_of_life(answer: &Answer) -> bool
    ensures end { result ≡ is_end_of_life answer.now }
{
    match answer {
        Answer::Refused(errno) => match errno {
            Errno::EIO => true,
            _ => false,
        },
        _ => false,
    }
}

/// Whether what is told to the call names the turn in which it is told: a `flush`, a `glimpse`, and these two refusals.
pub fn names_own(call: &Call, answer: &Answer) -> bool
    ensures own { result ≡ names_own call.now answer.now }
{
    let is_local = match call {
        Call::Flush(_) => true,
        Call::Glimpse(_) => true,
        _ => false,
    };
    is_local || is_bad_handle(answer) || is_end_of_life(answer)
}

/// The answer that the entry tells in the slot.
fn told_in<'a>(slot: u8, entry: &'a Entry) -> Option<&'a Answer>
    ensures told { option_map (λ a. a.now) result ≡ told_at slot entry.now }
{
    match entry {
        Entry::Told {
            slot: other,
            answer,
            ..
        } => { if *other == slot { Some(answer) } else { None } }
        _ => None,
    }
}

/// The answer that is told in the slot later in this turn; of several the first.
pub fn told_later<'a>(slot: u8, at: At, later: &'a [Line]) -> Option<&'a Answer>
    ensures told { InOrder at later.now → option_map (λ a. a.now) result ≡ told_later slot at later.now }
{
    let mut place = 0;
    while place < later.len() {
        let line = &later[place];
        if !same_turn(line.at, at) {
            return None;
        }
        if let Some(answer) = told_in(slot, &line.entry) {
            return Some(answer);
        }
        place += 1;
    }
    None
}
