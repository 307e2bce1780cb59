//! Answers, of the words that a trace has for them.

ghost use Rattle.std.specs.Prelude.{◌≡◌, ◌==◌, IfOk};
ghost use Rattle.std.specs.List.{list_any};
ghost use Rattle.lu_trace.specs.WellFormed.{IsAnswer};
ghost use Rattle.lu_judge_reader.specs.declared.names.AnswerName.TheVariants as answers;
ghost use Rattle.lu_judge_reader.specs.Reading.{Gives, Reads};
ghost use Rattle.lu_judge_reader.specs.Parts.{stat_of, answer_rest, answer_reader};

use super::faults::LineFault;
use super::lists::layout_of;
use super::names::{AnswerName, answer_name_of};
use super::values::number_of;
use super::words::Words;
use lu_base::{Cookie, Fid, Txn};
use lu_msg::Answer;
use std::alloc::Global;

/// An answer.
#[tactic(auto, unfolding(crate::specs::Parts::answer_reader))]
pub fn answer(words: &mut Words) -> Result<Answer, LineFault>
    ensures read { Reads result words.new (answer_reader words.old) }
    ensures fits { IfOk result IsAnswer }
{
    let Some(name) = answer_name_of(words.word()?) else {
        return Err(LineFault::Unread);
    };
    answer_named(name, words)
}

/// An answer that begins so.
fn answer_named(name: AnswerName, words: &mut Words) -> Result<Answer, LineFault>
    ensures read { Reads result words.new (answer_rest name words.old) }
    ensures fits { IfOk result IsAnswer }
{
    match name {
        AnswerName::Fine => fine(words),
        AnswerName::Dir => directory(words),
        AnswerName::File => file(words),
        AnswerName::Names => names(words),
        AnswerName::Layout => Ok(Answer::Layout(words.layout()?)),
        AnswerName::Open => open_file(words),
        AnswerName::Granted => granted(words),
        AnswerName::Waiting => Ok(Answer::Waiting(Cookie(words.pair()?))),
        AnswerName::Content => Ok(Answer::Content(words.bytes()?)),
        AnswerName::Size => Ok(Answer::Size(words.number()?)),
        AnswerName::Lock => Ok(Answer::Lock),
        AnswerName::Sizes => Ok(Answer::Sizes(words.sizes()?)),
        AnswerName::Uncovered => Ok(Answer::Uncovered),
        AnswerName::Refused(errno) => Ok(Answer::Refused(errno)),
    }
}

/// What follows `ok`: nothing, or an inode.
fn fine(words: &mut Words) -> Result<Answer, LineFault>
    ensures read { Reads result words.new (answer_rest answers.Fine words.old) }
    ensures fits { IfOk result IsAnswer }
{
    if words.are_read() {
        return Ok(Answer::Done);
    }
    Ok(Answer::Made(Fid(words.pair()?)))
}

/// What follows `dir`: an inode, and perhaps its mode.
fn directory(words: &mut Words) -> Result<Answer, LineFault>
    ensures read { Reads result words.new (answer_rest answers.Dir words.old) }
    ensures fits { IfOk result IsAnswer }
{
    let fid = Fid(words.pair()?);
    if words.are_read() {
        return Ok(Answer::Dir(fid));
    }
    let mode = words.octal()?;
    Ok(Answer::DirStat { fid, mode })
}

/// What follows `file`: an inode, and perhaps its attributes.
fn file(words: &mut Words) -> Result<Answer, LineFault>
    ensures read { Reads result words.new (answer_rest answers.File words.old) }
    ensures fits { IfOk result IsAnswer }
{
    let fid = words.pair()?;
    if words.are_read() {
        return Ok(Answer::File(Fid(fid)));
    }
    let mode = words.octal()?;
    let links = words.number()?;
    stat_of(words.alloc, fid, mode, links, words.word()?)
}

/// Whether a word has a colon.
fn has_colon(word: &[u8]) -> bool
    ensures colon { result ≡ list_any (λ b. b == 58) word.now }
{
    word.iter().any(|b| *b == b':')
}

/// The attributes of a file: its mode, its number of names, and its layout or its size.
fn stat_of(alloc: Global, fid: u64, mode: u16, links: u64, word: &[u8]) -> Result<Answer, LineFault>
    ensures read { Gives result (stat_of fid mode links word.now) }
    ensures fits { IfOk result IsAnswer }
{
    let fid = Fid(fid);
    if has_colon(word) {
        let layout = layout_of(alloc, word)?;
        return Ok(Answer::FileStat {
            fid,
            mode,
            links,
            layout,
        });
    }
    let size = number_of(word)?;
    Ok(Answer::FileSize {
        fid,
        mode,
        links,
        size,
    })
}

/// Names after their number.
fn names(words: &mut Words) -> Result<Answer, LineFault>
    ensures read { Reads result words.new (answer_rest answers.Names words.old) }
    ensures fits { IfOk result IsAnswer }
{
    let count = words.number()?;
    let names = words.names(count)?;
    Ok(Answer::Names(names))
}

/// A file that was opened.
fn open_file(words: &mut Words) -> Result<Answer, LineFault>
    ensures read { Reads result words.new (answer_rest answers.Open words.old) }
    ensures fits { IfOk result IsAnswer }
{
    let fid = Fid(words.pair()?);
    let txn = Txn(words.pair()?);
    let layout = words.layout()?;
    Ok(Answer::OpenFile { fid, txn, layout })
}

/// A lock that is granted.
fn granted(words: &mut Words) -> Result<Answer, LineFault>
    ensures read { Reads result words.new (answer_rest answers.Granted words.old) }
    ensures fits { IfOk result IsAnswer }
{
    let cookie = Cookie(words.pair()?);
    let extent = words.extent()?;
    let size = words.number()?;
    Ok(Answer::Granted {
        cookie,
        extent,
        size,
    })
}
