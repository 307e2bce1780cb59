//! What a path leads to by what is known, and what a call on names is told by it.

ghost use Rattle.std.specs.Prelude.{◌≡◌, [], ◌∷◌, ◌++◌, IfOk, OnOk, Option, Some, None, option_map};
ghost use Rattle.lu_part.specs.declared.parts.Part.TheVariants as part;
ghost use Rattle.lu_msg.specs.declared.answers.Answer.TheVariants as answer;
ghost use Rattle.lu_msg.specs.declared.operations.Op.TheVariants as op;
ghost use Rattle.lu_spec_client.specs.Known.{Notes, walked, found_at_path, known_with, fact_on, file_facts, lookup_known, list_known, layout_known, cookies_of_file, cookie_of};
ghost use Rattle.lu_cache.specs.Topics.{part_of, row_fact};
ghost use Rattle.lu_cache.specs.Logs.{facts_of};
ghost use Rattle.lu_cache.specs.Tells.{known_on, locks_of, known_of, found_by, told_by, of_file};
ghost use Rattle.lu_cache.specs.Usable.{AreSeen};
ghost use Rattle.std.specs.Option.{option_copied};

use super::facts::{Fact, ROOT};
use super::guards::Guards;
use super::known::Known;
use super::log::Facts;
use super::topics::{Topic, of_name};
use lu_base::{Cookie, Cookies, Duplicate, Fid, Memory, Name, Path};
use lu_msg::{Answer, Op};
use std::alloc::Global;
use std::collections::BTreeSet;

/// What a path leads to, where that is known, and the locks under which all that was looked up is known.
#[derive(Debug, Drop)]
struct Found {
    inode: Option<Answer>,
    cookies: Cookies,
}

/// An answer that is known, and the locks under which it is, in the order in which facts were looked up.
#[derive(Debug, Drop)]
struct Told {
    answer: Answer,
    cookies: Cookies,
}

/// Goes on from an inode name by name, as far as names are known, and adds the locks under which they are.
fn walk<G: Guards>(
    facts: &Facts,
    guards: &G,
    alloc: Global,
    inode: Answer,
    names: &[Name],
    cookies: &mut Cookies,
) -> Result<Option<Answer>, Memory>
    ensures walked { IfOk result (λ found. (n : Notes) → AreSeen (G.may_use guards.now) (facts_of facts.now) n
        → found ≡ (walked n names.now inode).inode) }
    ensures cookies { OnOk result ((n : Notes) → AreSeen (G.may_use guards.now) (facts_of facts.now) n
        → cookies.new ≡ cookies.old ++ (walked n names.now inode).cookies) }
{
    let Some((name, names)) = names.split_first() else {
        return Ok(Some(inode));
    };
    let Answer::Dir(directory) = inode else {
        return Ok(None);
    };
    let topic = of_name(alloc, directory, name)?;
    let Some(fact) = facts.find(&topic, guards) else {
        return Ok(None);
    };
    cookies.push(fact.cookie)?;
    walk(
        facts,
        guards,
        alloc,
        fact.answer.copy(alloc)?,
        names,
        cookies,
    )
}

/// What a path from the root leads to.
fn find_path<G: Guards>(
    facts: &Facts,
    guards: &G,
    alloc: Global,
    path: &Path,
) -> Result<Found, Memory>
    ensures found { IfOk result (λ found. (n : Notes) → AreSeen (G.may_use guards.now) (facts_of facts.now) n
        → found_by found ≡ found_at_path n path.now) }
{
    let mut cookies = Cookies::new(alloc);
    let inode = walk(
        facts,
        guards,
        alloc,
        Answer::Dir(ROOT),
        path.as_slice(),
        &mut cookies,
    )?;
    Ok(Found { inode, cookies })
}

/// What is known of a topic, added to the locks under which the path to it is known.
fn with_fact<G: Guards>(
    facts: &Facts,
    guards: &G,
    alloc: Global,
    mut cookies: Cookies,
    topic: &Topic,
) -> Result<Option<Told>, Memory>
    ensures told { IfOk result (λ told. (n : Notes) → AreSeen (G.may_use guards.now) (facts_of facts.now) n
        → option_map told_by told
        ≡ known_with (record { inode = None; cookies = cookies }) (fact_on (part_of topic.now) n)) }
{
    let Some(fact) = facts.find(topic, guards) else {
        return Ok(None);
    };
    cookies.push(fact.cookie)?;
    Ok(Some(Told {
        answer: fact.answer.copy(alloc)?,
        cookies,
    }))
}

/// The attributes of a file with its layout, from the two facts.
fn with_layout(
    mut cookies: Cookies,
    attributes: &Fact,
    layout: &Fact,
) -> Result<Option<Told>, Memory>
    ensures told { IfOk result (λ told. option_map told_by told
        ≡ option_map of_file (file_facts (record { inode = None; cookies = cookies })
        (Some (row_fact attributes.now)) (Some (row_fact layout.now)))) }
{
    let Answer::FileStat {
        fid,
        mode,
        links,
        ..
    } = &attributes.answer
    else {
        return Ok(None);
    };
    let Answer::Layout(known) = &layout.answer else {
        return Ok(None);
    };
    cookies.push(attributes.cookie)?;
    cookies.push(layout.cookie)?;
    Ok(Some(Told {
        answer: Answer::FileStat {
            fid: *fid,
            mode: *mode,
            links: *links,
            layout: *known,
        },
        cookies,
    }))
}

/// The attributes of a file, where these and its layout are known.
fn file_known<G: Guards>(
    facts: &Facts,
    guards: &G,
    cookies: Cookies,
    file: Fid,
) -> Result<Option<Told>, Memory>
    ensures told { IfOk result (λ told. (n : Notes) → AreSeen (G.may_use guards.now) (facts_of facts.now) n
        → option_map told_by told ≡ option_map of_file (file_facts (record { inode = None; cookies = cookies })
        (fact_on (part.Attr file) n) (fact_on (part.Layout file) n))) }
{
    let Some(attributes) = facts.find(&Topic::Attr(file), guards) else {
        return Ok(None);
    };
    let Some(layout) = facts.find(&Topic::Layout(file), guards) else {
        return Ok(None);
    };
    with_layout(cookies, attributes, layout)
}

/// What a lookup is told.
fn lookup(found: Found) -> Option<Told>
    ensures told { option_map told_by result ≡ lookup_known (found_by found) }
{
    let Found { inode, cookies } = found;
    let answer = inode?;
    Some(Told { answer, cookies })
}

/// What a call on the names of a path is told, with the locks in the order in which facts were looked up.
fn tell<G: Guards>(
    facts: &Facts,
    guards: &G,
    alloc: Global,
    op: &Op,
) -> Result<Option<Told>, Memory>
    ensures told { IfOk result (λ told. (n : Notes) → AreSeen (G.may_use guards.now) (facts_of facts.now) n
        → option_map told_by told ≡ known_on op.now n) }
{
    match op {
        Op::Lookup(path) => Ok(lookup(find_path(facts, guards, alloc, path)?)),
        Op::Stat(path) => tell_stat(facts, guards, alloc, path),
        Op::List(path) => tell_list(facts, guards, alloc, path),
        Op::Layout(path) => tell_layout(facts, guards, alloc, path),
        _ => Ok(None),
    }
}

/// What a stat is told.
fn tell_stat<G: Guards>(
    facts: &Facts,
    guards: &G,
    alloc: Global,
    path: &Path,
) -> Result<Option<Told>, Memory>
    ensures told { IfOk result (λ told. (n : Notes) → AreSeen (G.may_use guards.now) (facts_of facts.now) n
        → option_map told_by told ≡ known_on (op.Stat path.now) n) }
{
    let Found { inode, cookies } = find_path(facts, guards, alloc, path)?;
    match inode {
        Some(Answer::Dir(directory)) => {
            with_fact(facts, guards, alloc, cookies, &Topic::Attr(directory))
        }
        Some(Answer::File(file)) => file_known(facts, guards, cookies, file),
        _ => Ok(None),
    }
}

/// What a list is told.
fn tell_list<G: Guards>(
    facts: &Facts,
    guards: &G,
    alloc: Global,
    path: &Path,
) -> Result<Option<Told>, Memory>
    ensures told { IfOk result (λ told. (n : Notes) → AreSeen (G.may_use guards.now) (facts_of facts.now) n
        → option_map told_by told ≡ list_known n (found_at_path n path.now)) }
{
    let Found { inode, cookies } = find_path(facts, guards, alloc, path)?;
    match inode {
        Some(Answer::Dir(directory)) => {
            with_fact(facts, guards, alloc, cookies, &Topic::List(directory))
        }
        _ => Ok(None),
    }
}

/// What a call for a layout is told.
fn tell_layout<G: Guards>(
    facts: &Facts,
    guards: &G,
    alloc: Global,
    path: &Path,
) -> Result<Option<Told>, Memory>
    ensures told { IfOk result (λ told. (n : Notes) → AreSeen (G.may_use guards.now) (facts_of facts.now) n
        → option_map told_by told ≡ layout_known n (found_at_path n path.now)) }
{
    let Found { inode, cookies } = find_path(facts, guards, alloc, path)?;
    match inode {
        Some(Answer::File(file)) => {
            with_fact(facts, guards, alloc, cookies, &Topic::Layout(file))
        }
        _ => Ok(None),
    }
}

/// Cookies in rising order, each once.
fn rising(alloc: Global, mut cookies: Vec<Cookie>) -> Result<Cookies, Memory>
    ensures rising { IfOk result (λ locks. locks ≡ locks_of cookies.items) }
{
    let mut sorted = BTreeSet::new(alloc);
    while let Some(cookie) = cookies.pop() {
        sorted.insert(cookie)?;
    }
    listed(alloc, &sorted)
}

/// The cookies of a set in order.
fn listed(alloc: Global, sorted: &BTreeSet<Cookie>) -> Result<Cookies, Memory>
    ensures same { IfOk result (λ cookies. cookies ≡ sorted.now.keys) }
{
    let cookies: Vec<Cookie> = sorted.iter().copied().collect(alloc)?;
    Ok(Cookies::from(cookies))
}

/// What the call that becomes this operation is told from what is known, and the locks under which it is known; none
/// where something isn't known, or where the call always asks.
pub(crate) fn known<G: Guards>(
    facts: &Facts,
    guards: &G,
    alloc: Global,
    op: &Op,
) -> Result<Option<Known>, Memory>
    ensures known { IfOk result (λ known. (n : Notes) → AreSeen (G.may_use guards.now) (facts_of facts.now) n
        → known ≡ option_map known_of (known_on op.now n)) }
{
    match tell(facts, guards, alloc, op)? {
        Some(told) => Ok(Some(Known {
            answer: told.answer,
            locks: rising(alloc, told.cookies.into_vec())?,
        })),
        None => Ok(None),
    }
}

/// Adds the lock under which a topic is known, where it is.
fn add_guard<G: Guards>(
    facts: &Facts,
    guards: &G,
    topic: &Topic,
    cookies: &mut Cookies,
) -> Result<(), Memory>
    ensures added { OnOk result ((n : Notes) → AreSeen (G.may_use guards.now) (facts_of facts.now) n
        → cookies.new ≡ cookies.old ++ cookie_of (fact_on (part_of topic.now) n)) }
{
    match facts.find(topic, guards) {
        Some(fact) => cookies.push(fact.cookie),
        None => Ok(()),
    }
}

/// The locks under which what a stat of a file was told is known, rising and each once.
pub(crate) fn stat_locks<G: Guards>(
    facts: &Facts,
    guards: &G,
    alloc: Global,
    path: &Path,
    file: Fid,
) -> Result<Cookies, Memory>
    ensures locks { IfOk result (λ locks. (n : Notes) → AreSeen (G.may_use guards.now) (facts_of facts.now) n
        → locks ≡ locks_of (cookies_of_file n path.now file)) }
{
    let mut cookies = find_path(facts, guards, alloc, path)?.cookies;
    add_guard(facts, guards, &Topic::Attr(file), &mut cookies)?;
    add_guard(facts, guards, &Topic::Layout(file), &mut cookies)?;
    rising(alloc, cookies.into_vec())
}
