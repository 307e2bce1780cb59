//! Callbacks (Wang et al., Understanding Lustre Filesystem Internals, the lock manager: blocking and glimpse
//! callbacks).

ghost use Rattle.std.specs.Prelude.{◌≡◌, ◌<◌, not, false, if◌then◌else◌, [], AllPairs, slice_get, option_map, map, IfOk, OnOk, OnErr};
ghost use Rattle.std.specs.Option.{option_copied};
ghost use Rattle.lu_callback.specs.declared.callbacks.Kind.TheVariants as kind;
ghost use Rattle.lu_callback.specs.Callbacks.{is_block, same_kind, is_outstanding, with_asked, without, of_lock, without_glimpse, is_among, is_for, without_locks, without_lives, is_due, due, IsSound};
ghost use Rattle.lu_callback.specs.Filed.{all_asked, is_idle, IsHeld};

use super::holders::Holder;
use lu_base::{Cookie, Cookies, Memory, Sequence, Who, Xid};
use std::alloc::{AllocError, Global};
use std::collections::BTreeMap;
use std::marker::Model;

/// What the holder of a lock was asked for.
#[derive(Clone, Copy, Debug, PartialEq, Eq)]
pub enum Kind {
    /// To give the lock back.
    Block,
    /// To say how long the object is, for a request of this life and number.
    Glimpse(Who, Xid),
}

/// Something that was asked of the holder of a lock.
#[derive(Clone, Copy, Debug, PartialEq, Eq)]
pub struct Asked {
    pub cookie: Cookie,
    pub kind: Kind,
    /// The tick in which it was asked.
    pub tick: u64,
}

/// Whether both are blocks, or both are glimpses for one request.
pub(crate) fn same_kind(one: Kind, other: Kind) -> bool
    ensures { result ≡ same_kind one other }
{
    match (one, other) {
        (Kind::Block, Kind::Block) => true,
        (Kind::Glimpse(who, xid), Kind::Glimpse(life, number)) => who == life && xid == number,
        _ => false,
    }
}

/// Whether it is a block.
pub(crate) fn is_block(kind: Kind) -> bool
    ensures { result ≡ is_block kind }
{
    match kind {
        Kind::Block => true,
        Kind::Glimpse(..) => false,
    }
}

/// Whether it is a glimpse for a request of one of these lives.
pub(crate) fn is_for(kind: Kind, lives: &[Who]) -> bool
    ensures { result ≡ is_for lives.now kind }
{
    match kind {
        Kind::Block => false,
        Kind::Glimpse(who, _) => is_among(who, lives),
    }
}

/// Whether a life is one of these.
fn is_among(who: Who, lives: &[Who]) -> bool
    ensures { result ≡ is_among who lives.now }
{
    lives.iter().any(|life| *life == who)
}

/// Takes away all that is outstanding of a lock.
fn remove(holders: &mut BTreeMap<Cookie, Holder>, cookie: Cookie)
    requires { IsHeld holders.old.entries }
    ensures held { IsHeld holders.new.entries }
    ensures without { all_asked holders.new.entries ≡ without cookie (all_asked holders.old.entries) }
{
    holders.remove(&cookie);
}

/// Takes away all that is outstanding of these locks.
fn remove_all(holders: &mut BTreeMap<Cookie, Holder>, locks: &[Cookie])
    requires { IsHeld holders.old.entries }
    ensures held { IsHeld holders.new.entries }
    ensures without { all_asked holders.new.entries ≡ without_locks locks.now (all_asked holders.old.entries) }
{
    for cookie in locks {
        remove(holders, *cookie);
    }
}

/// Whether it is a block that was asked at least `age` ticks before `tick`.
fn is_due(asked: &Asked, tick: u64, age: u64) -> bool
    ensures { result ≡ is_due tick age asked.now }
{
    is_block(asked.kind) && asked.tick <= tick && tick - asked.tick >= age
}

/// The locks whose blocks were asked at least `age` ticks before `tick`.
fn due(
    alloc: Global,
    holders: &BTreeMap<Cookie, Holder>,
    tick: u64,
    age: u64,
) -> Result<Vec<Cookie>, AllocError>
    ensures { IfOk result (λ cookies. cookies.items ≡ due tick age (all_asked holders.now.entries)) }
{
    holders
        .values()
        .flat_map(|holder| holder.as_slice())
        .filter(|asked| is_due(asked, tick, age))
        .map(|asked| asked.cookie)
        .collect(alloc)
}

/// What is outstanding at this place; none past the last.
fn asked_at(holders: &BTreeMap<Cookie, Holder>, at: usize) -> Option<&Asked>
    ensures { option_copied result ≡ slice_get (all_asked holders.now.entries) at }
{
    holders
        .values()
        .flat_map(|holder| holder.as_slice())
        .nth(at)
}

/// All that is outstanding.
fn all(alloc: Global, holders: &BTreeMap<Cookie, Holder>) -> Result<Vec<Asked>, AllocError>
    ensures { IfOk result (λ asked. asked.items ≡ all_asked holders.now.entries) }
{
    let mut asked: Vec<Asked> = Vec::new(alloc);
    for (_, holder) in holders {
        asked.extend_from_slice(holder.as_slice())?;
    }
    Ok(asked)
}

/// Whether this lock is there, and nothing is outstanding of it.
fn is_idle(holders: &BTreeMap<Cookie, Holder>, cookie: Cookie) -> bool
    ensures { result ≡ is_idle cookie holders.now.entries }
{
    match holders.get(&cookie) {
        Some(holder) => holder.is_empty(),
        None => false,
    }
}

/// All that is outstanding: in rising cookie, for one cookie the block first and then the glimpses in
/// the order in which they were asked.
#[derive(Debug, Drop)]
pub struct Callbacks {
    alloc: Global,
    /// What was asked of the holder of each lock, by the lock's cookie.
    holders: BTreeMap<Cookie, Holder>,
}

impl Model for Callbacks {
    ghost use Rattle.std.specs.Prelude.{List};
    ghost use Rattle.lu_callback.specs.declared.callbacks.Asked.{Asked};
    ghost use Rattle.lu_callback.specs.Filed.{all_asked, IsHeld};

    ghost Value = { List Asked };

    ghost view = { λ callbacks. all_asked callbacks.holders.entries };

    ghost invariant = { λ callbacks. IsHeld callbacks.holders.entries };
}

impl Callbacks {
    /// Nothing is outstanding. It takes no memory yet.
    pub fn new(alloc: Global) -> Callbacks
        ensures empty { result ≡ [] }
        ensures sound { IsSound result }
    {
        Callbacks {
            alloc,
            holders: BTreeMap::new(alloc),
        }
    }

    /// Asks the holder of a lock, in this tick. False where the same is outstanding of that lock; then,
    /// and after want of memory, nothing has changed.
    pub fn ask(&mut self, cookie: Cookie, kind: Kind, tick: u64) -> Result<bool, Memory>
        ensures new { IfOk result (λ new. new ≡ not (is_outstanding cookie kind self.old)) }
        ensures added { IfOk result (λ new. self.new ≡ (if new
            then with_asked (record { cookie = cookie; kind = kind; tick = tick }) self.old
            else self.old)) }
        ensures kept { OnErr result (self.new ≡ self.old) }
        ensures sound { IsSound self.new }
    {
        if self.is_outstanding(cookie, kind) {
            return Ok(false);
        }
        self.put(Asked { cookie, kind, tick })?;
        Ok(true)
    }

    /// Whether this is outstanding of that lock.
    pub fn is_outstanding(&self, cookie: Cookie, kind: Kind) -> bool
        ensures outstanding { result ≡ is_outstanding cookie kind self.now }
        ensures sound { IsSound self.now }
    {
        match self.holders.get(&cookie) {
            Some(holder) => holder.has(kind),
            None => false,
        }
    }

    /// Asks what isn't outstanding. After want of memory nothing has changed.
    fn put(&mut self, asked: Asked) -> Result<(), Memory>
        requires absent { is_outstanding asked.cookie asked.kind self.old ≡ false }
        ensures added { OnOk result (self.new ≡ with_asked asked self.old) }
        ensures kept { OnErr result (self.new ≡ self.old) }
        ensures sound { IsSound self.new }
    {
        match self.holders.get_mut(&asked.cookie) {
            Some(holder) => holder.put(asked),
            None => {
                let mut holder = Holder::new(self.alloc);
                holder.put(asked)?;
                self.holders.insert(asked.cookie, holder)?;
                Ok(())
            }
        }
    }

    /// Takes away all that is outstanding of this lock.
    pub fn answered(&mut self, cookie: Cookie)
        ensures without { self.new ≡ without cookie self.old }
        ensures sound { IsSound self.new }
    {
        remove(&mut self.holders, cookie);
    }

    /// Takes away all that ends with these lives: what is outstanding of these locks, which are theirs, and the
    /// glimpses of any lock for their requests. It takes no memory.
    pub fn end_lives(&mut self, lives: &[Who], locks: &Cookies)
        ensures without { self.new ≡ without_lives lives.now (without_locks locks.now self.old) }
        ensures sound { IsSound self.new }
    {
        remove_all(&mut self.holders, locks.as_slice());
        self.forget_lives(lives);
    }

    /// Takes away the glimpses of any lock for requests of these lives. It takes no memory.
    pub fn forget_lives(&mut self, lives: &[Who])
        ensures without { self.new ≡ without_lives lives.now self.old }
        ensures sound { IsSound self.new }
    {
        self.holders.retain(|_, holder| holder.outlives(lives));
    }

    /// Takes away the glimpse of this lock for the request of this life and number. False where it
    /// isn't outstanding; then nothing has changed.
    pub fn glimpsed(&mut self, cookie: Cookie, who: Who, xid: Xid) -> bool
        ensures was { result ≡ is_outstanding cookie (kind.Glimpse who xid) self.old }
        ensures without { self.new ≡ without_glimpse cookie who xid self.old }
        ensures sound { IsSound self.new }
    {
        let kind = Kind::Glimpse(who, xid);
        let was = self.is_outstanding(cookie, kind);
        let Some(holder) = self.holders.get_mut(&cookie) else {
            return was;
        };
        holder.forget(kind);
        self.let_go(cookie);
        was
    }

    /// Lets go of a lock of which nothing is outstanding any more.
    fn let_go(&mut self, cookie: Cookie)
        ensures same { self.new ≡ self.old }
        ensures sound { IsSound self.new }
    {
        if !is_idle(&self.holders, cookie) {
            return;
        }
        self.holders.remove(&cookie);
    }

    /// The locks whose blocks were asked at least `age` ticks before `tick`, each once, rising.
    pub fn due(&self, alloc: Global, tick: u64, age: u64) -> Result<Cookies, Memory>
        ensures due { IfOk result (λ cookies. cookies ≡ due tick age self.now) }
        ensures rising { IfOk result (λ cookies. AllPairs (λ earlier later. earlier.0 < later.0) cookies) }
        ensures sound { IsSound self.now }
    {
        let cookies = due(alloc, &self.holders, tick, age)?;
        Ok(Cookies::from(cookies))
    }

    /// What is outstanding of this lock, from place 0 on: the block first and then the glimpses in the order in
    /// which they were asked; none past the last.
    pub fn of(&self, cookie: Cookie, at: usize) -> Option<Kind>
        ensures asked { result ≡ option_map (λ asked. asked.kind) (slice_get (of_lock cookie self.now) at) }
        ensures sound { IsSound self.now }
    {
        match self.holders.get(&cookie) {
            Some(holder) => holder.kind_at(at),
            None => None,
        }
    }

    /// All that is outstanding of this lock: the block first and then the glimpses in the order in which they were asked.
    pub fn kinds(&self, alloc: Global, cookie: Cookie) -> Result<Sequence<Kind>, Memory>
        ensures kinds { IfOk result (λ kinds. kinds ≡ map (λ asked. asked.kind) (of_lock cookie self.now)) }
        ensures sound { IsSound self.now }
    {
        match self.holders.get(&cookie) {
            Some(holder) => Ok(Sequence::from(holder.kinds(alloc)?)),
            None => Ok(Sequence::new(alloc)),
        }
    }

    /// All that is outstanding: in rising cookie, for one cookie the block first and then the glimpses in the order in
    /// which they were asked.
    pub fn all(&self, alloc: Global) -> Result<Sequence<Asked>, Memory>
        ensures all { IfOk result (λ all. all ≡ self.now) }
        ensures sound { IsSound self.now }
    {
        let asked = all(alloc, &self.holders)?;
        Ok(Sequence::from(asked))
    }

    /// What is outstanding, from place 0 on: in rising cookie, for one cookie the block first and then
    /// the glimpses in the order in which they were asked; none past the last.
    pub fn outstanding(&self, at: usize) -> Option<(Cookie, Kind)>
        ensures asked { result ≡ option_map (λ asked. (asked.cookie, asked.kind)) (slice_get self.now at) }
        ensures sound { IsSound self.now }
    {
        let asked = asked_at(&self.holders, at)?;
        Some((asked.cookie, asked.kind))
    }
}
