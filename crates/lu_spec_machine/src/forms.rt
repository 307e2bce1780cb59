//! Whether an answer can be one to an operation.

ghost use Rattle.std.specs.Prelude.{◌≡◌};
ghost use Rattle.lu_spec_machine.specs.Fits.{has_form, IsDone, IsMade, IsRefusal, IsBadFile, IsUncovered, answer_fits};

use lu_msg::{Answer, Errno, Op};

/// Whether it is an error of the table of operations on names.
fn is_refusal(answer: &Answer) -> bool
    ensures { result ≡ has_form IsRefusal answer.now }
{
    match answer {
        Answer::Refused(Errno::EBADF | Errno::EIO) => false,
        Answer::Refused(_) => true,
        _ => false,
    }
}

/// Whether it is `ok` and no more.
fn is_done(answer: &Answer) -> bool
    ensures { result ≡ has_form IsDone answer.now }
{
    matches!(answer, Answer::Done)
}

/// Whether it is the inode that was made.
fn is_made(answer: &Answer) -> bool
    ensures { result ≡ has_form IsMade answer.now }
{
    matches!(answer, Answer::Made(_))
}

/// Whether it is that of a target that has no such file.
fn is_bad_file(answer: &Answer) -> bool
    ensures { result ≡ has_form IsBadFile answer.now }
{
    matches!(answer, Answer::Refused(Errno::EBADF))
}

/// Whether it is that of a target at which the lock doesn't cover.
fn is_uncovered(answer: &Answer) -> bool
    ensures { result ≡ has_form IsUncovered answer.now }
{
    matches!(answer, Answer::Uncovered)
}

/// Whether an answer can be one to this operation: it has one of the forms that the operation's row gives.
pub fn answer_fits(op: &Op, answer: &Answer) -> bool
    ensures fits { result ≡ answer_fits op.now answer.now }
{
    match op {
        Op::Lookup(_) => matches!(answer, Answer::Dir(_) | Answer::File(_)) || is_refusal(answer),
        Op::Stat(_) => {
            matches!(answer, Answer::DirStat { .. } | Answer::FileStat { .. }) || is_refusal(answer)
        }
        Op::List(_) => matches!(answer, Answer::Names(_)) || is_refusal(answer),
        Op::Layout(_) => matches!(answer, Answer::Layout(_)) || is_refusal(answer),
        Op::Mkdir(_) | Op::Create { .. } => is_made(answer) || is_refusal(answer),
        Op::Link { .. } | Op::Unlink(_) | Op::Rmdir(_) | Op::Rename { .. } | Op::Chmod { .. } => {
            is_done(answer) || is_refusal(answer)
        }
        Op::Open(_) => matches!(answer, Answer::OpenFile { .. }) || is_refusal(answer),
        Op::Close { .. } => is_done(answer),
        Op::Enqueue { .. } => {
            matches!(answer, Answer::Granted { .. } | Answer::Waiting(_)) || is_bad_file(answer)
        }
        Op::Get { .. } => {
            matches!(answer, Answer::Content(_)) || is_uncovered(answer) || is_bad_file(answer)
        }
        Op::Put { .. } | Op::Cut { .. } => {
            is_done(answer) || is_uncovered(answer) || is_bad_file(answer)
        }
        Op::Size(_) => matches!(answer, Answer::Size(_) | Answer::Lock) || is_bad_file(answer),
    }
}
