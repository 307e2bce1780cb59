//! What each reply teaches.

ghost use Rattle.std.specs.Prelude.{◌≡◌, [], ◌∷◌, ◌++◌, length, IfOk, OnOk};
ghost use Rattle.lu_spec_client.specs.Facts.{fact as fact_on, taught, names_taught, name_facts, inode_taught, last_of, stat_facts, root};
ghost use Rattle.lu_part.specs.declared.parts.Part.TheVariants as part;
ghost use Rattle.lu_msg.specs.declared.answers.Answer.TheVariants as answer;
ghost use Rattle.lu_cache.specs.Topics.{row_fact, told_of, kind_of, row_facts};
ghost use Rattle.std.specs.Option.{option_copied};

use super::facts::{Fact, Kind, ROOT};
use super::topics::{Topic, of_name};
use lu_base::{Duplicate, Fid, Lock, Memory, Name, Path};
use lu_layout::Layout;
use lu_msg::{Answer, Op};
use std::alloc::Global;

/// A fact that came with a lock.
fn fact(topic: Topic, lock: &Lock, answer: Answer) -> Fact
    ensures fact { result ≡ told_of topic lock.now answer }
{
    Fact {
        topic,
        cookie: lock.cookie,
        answer,
    }
}

/// The lock on the inode that a path leads to.
fn last(locks: &[Lock]) -> Option<&Lock>
    ensures last { option_copied result ≡ last_of locks.now }
{
    locks.last()
}

/// Adds the facts of the names from a directory on, each with the lock on what it leads to; the last leads to an
/// inode of this kind.
fn add_names(
    facts: &mut Vec<Fact>,
    alloc: Global,
    kind: Kind,
    directory: Fid,
    names: &[Name],
    locks: &[Lock],
) -> Result<(), Memory>
    ensures added { OnOk result (row_facts facts.new.items
        ≡ row_facts facts.old.items ++ name_facts (kind_of kind) directory names.now locks.now) }
{
    let Some((name, names)) = names.split_first() else {
        return Ok(());
    };
    let Some((lock, locks)) = locks.split_first() else {
        return Ok(());
    };
    let fid = lock.resource.fid;
    let topic = of_name(alloc, directory, name)?;
    if names.is_empty() {
        facts.push(fact(topic, lock, kind.told(fid)))?;
        return Ok(());
    }
    facts.push(fact(topic, lock, Answer::Dir(fid)))?;
    add_names(facts, alloc, kind, fid, names, locks)
}

/// The facts of the names of a path; none where there isn't one lock for each.
fn names_taught(alloc: Global, kind: Kind, path: &Path, locks: &[Lock]) -> Result<Vec<Fact>, Memory>
    ensures taught { IfOk result (λ facts. row_facts facts.items
        ≡ names_taught (kind_of kind) path.now locks.now) }
{
    if path.len() != locks.len() {
        return Ok(Vec::new(alloc));
    }
    let mut facts = Vec::new(alloc);
    add_names(&mut facts, alloc, kind, ROOT, path.as_slice(), locks)?;
    Ok(facts)
}

/// What the attributes of a directory teach.
fn directory_taught(
    alloc: Global,
    path: &Path,
    fid: Fid,
    mode: u16,
    locks: &[Lock],
) -> Result<Vec<Fact>, Memory>
    ensures taught { IfOk result (λ facts. row_facts facts.items
        ≡ names_taught answer.Dir path.now locks.now
        ++ inode_taught (λ l. fact_on (part.Attr fid) l (answer.DirStat fid mode) ∷ []) (last_of locks.now)) }
{
    let mut facts = names_taught(alloc, Kind::Directory, path, locks)?;
    if let Some(lock) = last(locks) {
        facts.push(fact(Topic::Attr(fid), lock, Answer::DirStat { fid, mode }))?;
    }
    Ok(facts)
}

/// What the attributes of a file teach: its layout too.
fn file_taught(
    alloc: Global,
    path: &Path,
    fid: Fid,
    told: &Answer,
    layout: Layout,
    locks: &[Lock],
) -> Result<Vec<Fact>, Memory>
    ensures taught { IfOk result (λ facts. row_facts facts.items
        ≡ names_taught answer.File path.now locks.now
        ++ inode_taught (stat_facts fid told.now layout) (last_of locks.now)) }
{
    let mut facts = names_taught(alloc, Kind::File, path, locks)?;
    if let Some(lock) = last(locks) {
        facts.push(fact(Topic::Attr(fid), lock, told.copy(alloc)?))?;
        facts.push(fact(Topic::Layout(fid), lock, Answer::Layout(layout)))?;
    }
    Ok(facts)
}

/// What the list of a directory teaches.
fn list_taught(
    alloc: Global,
    path: &Path,
    told: &Answer,
    locks: &[Lock],
) -> Result<Vec<Fact>, Memory>
    ensures taught { IfOk result (λ facts. row_facts facts.items
        ≡ names_taught answer.Dir path.now locks.now
        ++ inode_taught (λ l. fact_on (part.List l.resource.fid) l told.now ∷ []) (last_of locks.now)) }
{
    let mut facts = names_taught(alloc, Kind::Directory, path, locks)?;
    if let Some(lock) = last(locks) {
        facts.push(fact(Topic::List(lock.resource.fid), lock, told.copy(alloc)?))?;
    }
    Ok(facts)
}

/// What the layout of a file teaches.
fn layout_taught(
    alloc: Global,
    path: &Path,
    layout: Layout,
    locks: &[Lock],
) -> Result<Vec<Fact>, Memory>
    ensures taught { IfOk result (λ facts. row_facts facts.items
        ≡ names_taught answer.File path.now locks.now
        ++ inode_taught (λ l. fact_on (part.Layout l.resource.fid) l (answer.Layout layout) ∷ []) (last_of locks.now)) }
{
    let mut facts = names_taught(alloc, Kind::File, path, locks)?;
    if let Some(lock) = last(locks) {
        facts.push(fact(
            Topic::Layout(lock.resource.fid),
            lock,
            Answer::Layout(layout),
        ))?;
    }
    Ok(facts)
}

/// What the reply to an operation teaches, by its answer and the locks that came with it. Errors teach nothing.
pub(crate) fn taught(
    alloc: Global,
    op: &Op,
    answer: &Answer,
    locks: &[Lock],
) -> Result<Vec<Fact>, Memory>
    ensures taught { IfOk result (λ facts. row_facts facts.items ≡ taught op.now answer.now locks.now) }
{
    match (op, answer) {
        (Op::Lookup(path), Answer::Dir(_)) => names_taught(alloc, Kind::Directory, path, locks),
        (Op::Lookup(path), Answer::File(_)) => names_taught(alloc, Kind::File, path, locks),
        (Op::Stat(path), Answer::DirStat { fid, mode }) => {
            directory_taught(alloc, path, *fid, *mode, locks)
        }
        (Op::Stat(path), Answer::FileStat { fid, layout, .. }) => {
            file_taught(alloc, path, *fid, answer, *layout, locks)
        }
        (Op::List(path), Answer::Names(_)) => list_taught(alloc, path, answer, locks),
        (Op::Layout(path), Answer::Layout(layout)) => layout_taught(alloc, path, *layout, locks),
        _ => Ok(Vec::new(alloc)),
    }
}
