//! Calls on names: what they ask, and what they are told from what is known.

ghost use Rattle.std.specs.Prelude.{◌≡◌, ℕ, List, IfOk, OnOk};
ghost use Rattle.lu_base.specs.declared.ids.Cookie.{Cookie as CookieOf};
ghost use Rattle.lu_cache.specs.Tells.{notes, known_on, known_of, locks_of, of_file};
ghost use Rattle.lu_spec_client.specs.Known.{Known as RowKnown, KnownFile, found_at_path, directory_known, names_of};
ghost use Rattle.lu_spec_client.specs.Starts.{asks_names, names_op, starts_known, starts_stat, with_stripes};
ghost use Rattle.lu_spec_client.specs.Starts.{pins, with_pins, tells_known, stats};
ghost use Rattle.lu_spec_entries.specs.Carried.{Stats};
ghost use Rattle.lu_spec_entries.specs.Words.{Pins};
ghost use Rattle.lu_spec_client.specs.Advances.{pinned};
ghost use Rattle.lu_client_store.specs.Stored.{StoreState, stored_after, stored_turn};
ghost use Rattle.lu_call.specs.Going.{GoesBy, GoesFrom};
ghost use Rattle.lu_call.specs.Starting.{names_with, is_file};

use super::calls::{Asking, CallState};
use super::nexts::Next;
use super::works::{Kind, Work};
use lu_base::{At, Cookies, Duplicate, Fid, Memory, Path, TargetId};
use lu_cache::Known;
use lu_client_store::Store;
use lu_held::LockName;
use lu_layout::Layout;
use lu_msg::{Answer, Call, Op};
use std::alloc::Global;

/// The metadata target.
const MDT: TargetId = TargetId(0);

/// The stripe size of a new file that is given no numbers, in bytes.
const DEFAULT_SIZE: u64 = 1_048_576;

/// The number of stripes of a new file that is given no numbers.
const DEFAULT_COUNT: i32 = 1;

/// What the metadata target tells of a file.
#[derive(Clone, Copy, Debug)]
pub(crate) struct FileStat {
    pub(crate) fid: Fid,
    /// The mode, octal 0 to 7777.
    pub(crate) mode: u16,
    /// The number of names.
    pub(crate) links: u64,
    pub(crate) layout: Layout,
}

/// A `create` that doesn't say its stripes has those of a new file that is given no numbers: of 1 MiB, one of them.
pub fn with_stripes(call: Call) -> Call
    ensures call { result ≡ with_stripes call }
{
    match call {
        Call::Create {
            path,
            stripes: None,
        } => Call::Create {
            path,
            stripes: Some((DEFAULT_SIZE, DEFAULT_COUNT)),
        },
        other => other,
    }
}

/// What a call that always asks the metadata target asks; none of the other calls.
pub(crate) fn names_op(alloc: Global, call: &Call) -> Result<Option<Op>, Memory>
    ensures asks { IfOk result (λ asked. asked ≡ names_op call.now) }
{
    match call {
        Call::Mkdir(path) => Ok(Some(Op::Mkdir(path.copy(alloc)?))),
        Call::Create { path, stripes } => {
            let (size, count) = stripes.unwrap_or((DEFAULT_SIZE, DEFAULT_COUNT));
            Ok(Some(Op::Create {
                path: path.copy(alloc)?,
                size,
                count,
            }))
        }
        Call::Link { old, new } => Ok(Some(Op::Link {
            old: old.copy(alloc)?,
            new: new.copy(alloc)?,
        })),
        Call::Unlink(path) => Ok(Some(Op::Unlink(path.copy(alloc)?))),
        Call::Rmdir(path) => Ok(Some(Op::Rmdir(path.copy(alloc)?))),
        Call::Rename { old, new } => Ok(Some(Op::Rename {
            old: old.copy(alloc)?,
            new: new.copy(alloc)?,
        })),
        Call::Chmod { path, mode } => Ok(Some(Op::Chmod {
            path: path.copy(alloc)?,
            mode: *mode,
        })),
        Call::Open { path, .. } => Ok(Some(Op::Open(path.copy(alloc)?))),
        _ => Ok(None),
    }
}

/// Whether a path leads to a file, by what is known.
fn leads_to_file(alloc: Global, path: &Path, store: &Store) -> Result<bool, Memory>
    ensures file { IfOk result (λ file.
        file ≡ is_file (found_at_path (notes store.now.facts store.now.store.held) path.now).inode) }
{
    let lookup = Op::Lookup(path.copy(alloc)?);
    match store.known(alloc, &lookup)? {
        Some(
            Known {
                answer: Answer::File(_),
                ..
            },
        ) => Ok(true),
        _ => Ok(false),
    }
}

impl CallState {
    /// It asks the metadata target this, and waits for the answer.
    pub(crate) fn ask_names(&mut self, op: Op) -> Next
        ensures goes { (slot : ℕ) (store : StoreState)
            → GoesFrom (asks_names slot op) slot self.old self.new store store result }
    {
        self.asking = Asking::Asked;
        Next::Asks(MDT, op)
    }

    /// Pins a lock: the call uses it until it is told.
    fn pin(&mut self, name: LockName, store: &mut Store) -> Result<(), Memory>
        ensures pinned { OnOk result (self.new ≡ pinned name self.old) }
        ensures store { OnOk result (store.new ≡ stored_after store.old (Pins name)) }
    {
        self.pins.push(name)?;
        store.pin(name);
        Ok(())
    }

    /// Pins the metadata target's locks with these cookies, in this order.
    fn pin_all(&mut self, cookies: &Cookies, store: &mut Store) -> Result<(), Memory>
        ensures pinned { OnOk result (self.new ≡ with_pins (names_with cookies.now) self.old) }
        ensures store { OnOk result (store.new ≡ stored_turn store.old (pins (names_with cookies.now))) }
    {
        for cookie in cookies.as_slice() {
            let name = LockName {
                target: MDT,
                cookie: *cookie,
            };
            self.pin(name, store)?;
        }
        Ok(())
    }

    /// It acts on what is known, and is told.
    fn tell_known(&mut self, at: At, known: Known, store: &mut Store) -> Result<Next, Memory>
        ensures goes { IfOk result (λ out. (slot : ℕ) (row : RowKnown) → known ≡ known_of row
            → GoesBy (tells_known at slot self.old row) slot self.new store.old store.new out) }
    {
        self.pin_all(&known.locks, store)?;
        Ok(self.tell(at, known.answer, store))
    }

    /// A stat of a file goes on for its size. The locks under which the rest is known are pinned.
    pub(crate) fn stat_file(
        &mut self,
        at: At,
        file: FileStat,
        locks: &Cookies,
        store: &mut Store,
    ) -> Result<Next, Memory>
        ensures goes { IfOk result (λ out. (slot : ℕ) (cookies : List CookieOf) → locks.now ≡ locks_of cookies
            → GoesBy (stats at slot file.fid file.layout (Stats file.mode file.links) (names_of cookies) self.old
            store.old.store) slot self.new store.old store.new out) }
    {
        self.pin_all(locks, store)?;
        let FileStat {
            fid,
            mode,
            links,
            layout,
        } = file;
        let work = Work::new(self.alloc, layout, fid, Kind::Stats { mode, links })?;
        self.look_and_act(at, work, store)
    }

    /// A stat of a file goes on, where what the metadata target would tell of it is known.
    fn stat_known(&mut self, at: At, known: Known, store: &mut Store) -> Result<Next, Memory>
        ensures goes { IfOk result (λ out. (slot : ℕ) (file : KnownFile) → known ≡ known_of (of_file file)
            → GoesBy (stats at slot file.fid file.layout (Stats file.mode file.links) (names_of file.cookies) self.old
            store.old.store) slot self.new store.old store.new out) }
    {
        match &known.answer {
            Answer::FileStat {
                fid,
                mode,
                links,
                layout,
            } => {
                let file = FileStat {
                    fid: *fid,
                    mode: *mode,
                    links: *links,
                    layout: *layout,
                };
                self.stat_file(at, file, &known.locks, store)
            }
            _ => self.tell_known(at, known, store),
        }
    }

    /// It is told what is known, or else asks the metadata target.
    pub(crate) fn start_known(&mut self, at: At, op: Op, store: &mut Store) -> Result<Next, Memory>
        ensures goes { IfOk result (λ out. (slot : ℕ)
            → GoesFrom (starts_known at slot self.old op (known_on op (notes store.old.facts store.old.store.held)))
            slot self.old self.new store.old store.new out) }
    {
        match store.known(self.alloc, &op)? {
            Some(known) => self.tell_known(at, known, store),
            None => Ok(self.ask_names(op)),
        }
    }

    /// A stat of a directory is told what is known, and one of a file goes on for its size; where something isn't
    /// known it asks the metadata target.
    pub(crate) fn start_stat(
        &mut self,
        at: At,
        path: Path,
        store: &mut Store,
    ) -> Result<Next, Memory>
        ensures goes { IfOk result (λ out. (slot : ℕ)
            → GoesFrom (starts_stat at slot path self.old store.old.store (notes store.old.facts store.old.store.held)
            (found_at_path (notes store.old.facts store.old.store.held) path)
            (directory_known (notes store.old.facts store.old.store.held)
            (found_at_path (notes store.old.facts store.old.store.held) path)))
            slot self.old self.new store.old store.new out) }
    {
        let is_file = leads_to_file(self.alloc, &path, store)?;
        let op = Op::Stat(path);
        match store.known(self.alloc, &op)? {
            Some(known) if is_file => self.stat_known(at, known, store),
            Some(known) => self.tell_known(at, known, store),
            None => Ok(self.ask_names(op)),
        }
    }
}
