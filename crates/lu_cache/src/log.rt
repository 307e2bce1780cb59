//! The facts that are known: found by topic, and given up by lock.

ghost use Rattle.std.specs.Prelude.{◌≡◌, ◌==◌, ◌&&◌, cond, true, not, List, [], ◌∷◌, ◌++◌, drop, map, filter, Option, Some, None, IfOk, OnOk, OnErr, IsOk, IsSome, option_map, slice_get};
ghost use Rattle.std.specs.Option.{option_copied};
ghost use Rattle.std.specs.Map.Iter.{deref_pair};
ghost use Rattle.std.specs.Map.{keys_of};
ghost use Rattle.std.specs.List.Sorted.{IsStrictlySortedBy};
ghost use Rattle.lu_base.specs.declared.ids.Cookie.{Cookie};
ghost use Rattle.lu_cache.specs.declared.topics.Topic.{Topic};
ghost use Rattle.lu_spec_machine.specs.Places.{RisingFrom};
ghost use Rattle.lu_cache.specs.Topics.{same_topic, part_of, row_fact, row_facts};
ghost use Rattle.lu_spec_client.specs.Known.{Notes, fact_on};
ghost use Rattle.lu_cache.specs.Usable.{AreSeen};
ghost use Rattle.lu_cache.specs.Numbered.{IsBefore, IsAdded};
ghost use Rattle.lu_cache.specs.Logs.{newest, numbers_at, has, Grows, IsUndone, facts_of, is_kept};
ghost use Rattle.lu_cache.specs.Filings.{filed, Refiled, by_cookie};
ghost use Rattle.lu_cache.specs.Forgetting.{Forgets};

use super::facts::Fact;
use super::filing::Filing;
use super::guards::Guards;
use super::numbers::next_number;
use super::topics::Topic;
use lu_base::{Cookie, Memory, Numbers};
use std::alloc::Global;
use std::collections::{BTreeMap, HashMap};
use std::marker::Model;

/// The numbers of the facts under each lock.
type ByLock = HashMap<Cookie, Numbers>;

/// The known facts, the last learned first.
#[derive(Debug, Drop)]
pub(crate) struct Facts {
    alloc: Global,
    /// The facts by number; one learned later has a lesser number.
    log: BTreeMap<u64, Fact>,
    /// Under each topic and lock the number of the newest fact.
    topics: Filing<Topic>,
    /// Under each lock the numbers of its facts.
    locks: ByLock,
}

impl Model for Facts {
    ghost use Rattle.lu_cache.specs.Logs.{Log, IsIndexed};

    ghost Value = { Log };

    ghost view = { λ f. f.log.entries };

    ghost invariant = { λ f. IsIndexed f.log.entries f.topics f.locks.entries };
}

/// Files a number under a lock.
fn file_lock(locks: &mut ByLock, alloc: Global, cookie: Cookie, number: u64) -> Result<(), Memory>
    ensures filed { OnOk result (has (numbers_at cookie locks.new.entries) number ≡ true) }
    ensures grows { Grows locks.old.entries locks.new.entries }
{
    match locks.get_mut(&cookie) {
        Some(numbers) => numbers.push(number),
        None => {
            let mut numbers = Numbers::new(alloc);
            numbers.push(number)?;
            locks.insert(cookie, numbers)?;
            Ok(())
        }
    }
}

/// Files what was filed there before.
fn restore(topics: &mut Filing<Topic>, topic: Topic, cookie: Cookie, previous: Option<u64>)
    requires there { IsSome (filed same_topic topic cookie topics.old) }
    ensures restored { Refiled same_topic topic cookie previous topics.old topics.new }
{
    match previous {
        None => {
            topics.take_away(&topic, cookie);
        }
        Some(number) => {
            let _filed = topics.file(topic, cookie, number);
        }
    }
}

/// The first cookie that may be used, and its number.
fn first_usable<'a, G: Guards>(
    cookies: &'a BTreeMap<Cookie, u64>,
    guards: &G,
) -> Option<(&'a Cookie, &'a u64)>
    ensures first { option_map deref_pair result
        ≡ slice_get (filter (λ e. G.may_use guards.now e.0) cookies.now.entries) 0 }
    ensures sorted { IsStrictlySortedBy by_cookie (keys_of cookies.now.entries) }
{
    cookies
        .iter()
        .filter(|entry| guards.is_usable(*entry.0))
        .nth(0)
}

/// Forgets one fact, where it is under this lock.
fn forget_one(
    log: &mut BTreeMap<u64, Fact>,
    topics: &mut Filing<Topic>,
    number: u64,
    cookie: Cookie,
)
    requires rising { RisingFrom 0 log.old.entries }
    ensures forgets { Forgets cookie (number ∷ []) log.old.entries topics.old log.new.entries topics.new }
{
    let Some(fact) = log.get(&number) else {
        return;
    };
    if fact.cookie != cookie {
        return;
    }
    topics.take_away(&fact.topic, cookie);
    log.remove(&number);
}

/// Forgets the facts of these numbers that are under this lock.
fn forget_each(
    log: &mut BTreeMap<u64, Fact>,
    topics: &mut Filing<Topic>,
    numbers: &[u64],
    cookie: Cookie,
)
    requires rising { RisingFrom 0 log.old.entries }
    ensures forgets { Forgets cookie numbers.now log.old.entries topics.old log.new.entries topics.new }
{
    let Some((number, others)) = numbers.split_first() else {
        return;
    };
    forget_one(log, topics, *number, cookie);
    forget_each(log, topics, others, cookie);
}

impl Facts {
    /// Nothing is known. It takes no memory yet.
    pub(crate) fn new(alloc: Global) -> Facts
        ensures empty { result ≡ [] }
    {
        Facts {
            alloc,
            log: BTreeMap::new(alloc),
            topics: Filing::new(alloc),
            locks: HashMap::new(alloc),
        }
    }

    /// Adds a fact. It answers which fact about the same was the newest before. After want of memory nothing has
    /// changed.
    fn add(&mut self, fact: Fact) -> Result<Option<u64>, Memory>
        ensures undone { IfOk result (λ previous. IsUndone previous self.new) }
        ensures added { OnOk result (IsAdded fact self.old self.new) }
        ensures kept { OnErr result (self.new ≡ self.old) }
    {
        let number = next_number(&self.log)?;
        let topic = fact.topic.copy(self.alloc)?;
        let cookie = fact.cookie;
        file_lock(&mut self.locks, self.alloc, cookie, number)?;
        self.log.insert(number, fact)?;
        match self.topics.file(topic, cookie, number) {
            Ok(previous) => Ok(previous),
            Err(error) => {
                self.log.remove(&number);
                Err(error)
            }
        }
    }

    /// Takes the newest fact back.
    fn undo(&mut self, previous: Option<u64>)
        requires { IsUndone previous self.old }
        ensures { self.new ≡ drop 1 self.old }
    {
        let Some((_, fact)) = self.log.pop_first() else {
            return;
        };
        let Fact { topic, cookie, .. } = fact;
        restore(&mut self.topics, topic, cookie, previous);
    }

    /// Learns these facts, the first of them as the newest. After want of memory nothing has changed.
    pub(crate) fn learn(&mut self, mut facts: Vec<Fact>) -> Result<(), Memory>
        ensures learned { OnOk result (facts_of self.new ≡ row_facts facts.items ++ facts_of self.old) }
        ensures kept { OnErr result (self.new ≡ self.old) }
    {
        let Some(fact) = facts.pop() else {
            return Ok(());
        };
        let previous = self.add(fact)?;
        if self.learn(facts).is_err() {
            self.undo(previous);
            return Err(Memory);
        }
        Ok(())
    }

    /// Forgets what is known under the lock with this cookie.
    pub(crate) fn forget(&mut self, cookie: Cookie)
        ensures forgotten { facts_of self.new ≡ filter (is_kept cookie.0) (facts_of self.old) }
    {
        let Some(numbers) = self.locks.remove(&cookie) else {
            return;
        };
        forget_each(&mut self.log, &mut self.topics, numbers.as_slice(), cookie);
    }

    /// What is known of a topic under a lock that may be used, of several the one of least cookie.
    pub(crate) fn find<G: Guards>(&self, topic: &Topic, guards: &G) -> Option<&Fact>
        ensures found { (n : Notes) → AreSeen (G.may_use guards.now) (facts_of self.now) n
            → option_map row_fact (option_copied result) ≡ fact_on (part_of topic.now) n }
    {
        let cookies = self.topics.under(topic)?;
        let (_, number) = first_usable(cookies, guards)?;
        self.log.get(number)
    }
}
