//! What a call does first, and what it makes of the metadata target's answer.

ghost use Rattle.std.specs.Prelude.{◌≡◌, ℕ, false, [], ◌∷◌, Some, IfOk};
ghost use Rattle.lu_spec_client.specs.Starts.{starts_close, starts_bytes, starts_flush, starts_glimpse};
ghost use Rattle.lu_spec_client.specs.Starts.{starts, answers};
ghost use Rattle.lu_base.specs.declared.ids.At.{At as AtOf};
ghost use Rattle.lu_client_store.specs.Stored.{StoreState};
ghost use Rattle.lu_msg.specs.declared.answers.Answer.TheVariants as answer;
ghost use Rattle.lu_call.specs.Going.{GoesBy, GoesFrom};
ghost use Rattle.lu_call.specs.Ranges.{IsInRange, is_glimpse};
ghost use Rattle.lu_call.specs.Starting.{alone, starts_on_handle};
ghost use Rattle.lu_call.specs.Views.{kind_of, file_of};

use super::calls::CallState;
use super::looking::unpin_all;
use super::names::{FileStat, names_op};
use super::nexts::{Binding, Next};
use super::works::{HandleFile, Kind, Work};
use lu_base::{At, Duplicate, Memory, Numbers};
use lu_client_store::Store;
use lu_msg::{Answer, Call, Op};

impl CallState {
    // ---- on a handle

    /// A close ends the open at the metadata target.
    fn start_close(&mut self) -> Next
        ensures goes { (slot : ℕ) (store : StoreState)
            → GoesFrom (starts_close slot (Some self.old ∷ []) self.old.file)
            slot self.old self.new store store result }
    {
        match self.file {
            Some(file) => self.ask_names(Op::Close {
                txn: file.number,
                fid: file.fid,
            }),
            None => Next::Waits,
        }
    }

    /// A call on bytes looks for its locks.
    fn start_bytes(&mut self, at: At, kind: Kind, store: &mut Store) -> Result<Next, Memory>
        requires range { IsInRange (kind_of kind) }
        requires acting { is_glimpse (kind_of kind) ≡ false }
        ensures goes { IfOk result (λ out. (slot : ℕ)
            → GoesFrom (starts_bytes at slot (kind_of kind) self.old store.old.store self.old.file)
            slot self.old self.new store.old store.new out) }
    {
        let Some(file) = self.file else {
            return Ok(Next::Waits);
        };
        let work = Work::new(self.alloc, file.layout, file.fid, kind)?;
        self.look_and_act(at, work, store)
    }

    /// A flush writes back from the first stripe on.
    fn start_flush(&mut self, at: At, store: &mut Store) -> Result<Next, Memory>
        ensures goes { IfOk result (λ out. (slot : ℕ)
            → GoesFrom (starts_flush at slot self.old store.old.store self.old.file)
            slot self.old self.new store.old store.new out) }
    {
        match self.file {
            Some(file) => self.flush_from(at, file, 0, store),
            None => Ok(Next::Waits),
        }
    }

    /// A glimpse begins with the first stripe.
    fn start_glimpse(&mut self, at: At, store: &mut Store) -> Result<Next, Memory>
        ensures goes { IfOk result (λ out. (slot : ℕ)
            → GoesFrom (starts_glimpse at slot self.old store.old.store self.old.file)
            slot self.old self.new store.old store.new out) }
    {
        let Some(file) = self.file else {
            return Ok(Next::Waits);
        };
        let kind = Kind::Glimpses {
            sizes: Numbers::new(self.alloc),
        };
        let work = Work::new(self.alloc, file.layout, file.fid, kind)?;
        self.glimpse(at, Numbers::new(self.alloc), work, store)
    }

    /// A call on a handle, or one that always asks the metadata target, begins.
    fn start_on_handle(&mut self, at: At, store: &mut Store) -> Result<Next, Memory>
        ensures goes { IfOk result (λ out. (slot : ℕ)
            → GoesFrom (starts_on_handle at slot self.old.call self.old store.old.store)
            slot self.old self.new store.old store.new out) }
    {
        match &self.call {
            Call::Close(_) => Ok(self.start_close()),
            Call::Flush(_) => self.start_flush(at, store),
            Call::Glimpse(_) => self.start_glimpse(at, store),
            Call::Read { offset, length, .. } => {
                let (offset, count) = (*offset, *length);
                self.start_bytes(at, Kind::Narrow { offset, count }, store)
            }
            Call::Write { offset, bytes, .. } => {
                let (offset, bytes) = (*offset, bytes.copy(self.alloc)?);
                self.start_bytes(at, Kind::Writes { offset, bytes }, store)
            }
            Call::Cut { size, .. } => {
                let size = *size;
                self.start_bytes(at, Kind::Cuts { size }, store)
            }
            call => match names_op(self.alloc, call)? {
                Some(op) => Ok(self.ask_names(op)),
                None => Ok(Next::Waits),
            },
        }
    }

    // ---- all calls

    /// A call that has asked nothing yet goes on. It is the only one on its open, where it is a close.
    pub(crate) fn start(&mut self, at: At, store: &mut Store) -> Result<Next, Memory>
        ensures goes { IfOk result (λ out. (slot : ℕ)
            → GoesFrom (starts at slot self.old.call self.old (alone self.old store.old))
            slot self.old self.new store.old store.new out) }
    {
        match &self.call {
            Call::Lookup(path) => {
                let op = Op::Lookup(path.copy(self.alloc)?);
                self.start_known(at, op, store)
            }
            Call::List(path) => {
                let op = Op::List(path.copy(self.alloc)?);
                self.start_known(at, op, store)
            }
            Call::Layout(path) => {
                let op = Op::Layout(path.copy(self.alloc)?);
                self.start_known(at, op, store)
            }
            Call::Stat(path) => {
                let path = path.copy(self.alloc)?;
                self.start_stat(at, path, store)
            }
            _ => self.start_on_handle(at, store),
        }
    }

    // ---- the metadata target's answer

    /// An open binds its handle when it is told; another call is told the answer as it is.
    fn opened(&mut self, acted: At, file: HandleFile, store: &mut Store) -> Next
        ensures goes { (at : AtOf) (slot : ℕ)
            → GoesBy (answers at slot acted (answer.OpenFile file.fid file.number file.layout) self.old.call self.old
            (alone self.old store.old)) slot self.new store.old store.new result }
    {
        let HandleFile {
            fid,
            number,
            layout,
        } = file;
        match &self.call {
            Call::Open { handle, .. } => {
                let handle = *handle;
                unpin_all(&self.pins, store);
                Next::Told {
                    at: acted,
                    answer: Answer::Made(fid),
                    binding: Some(Binding { handle, file }),
                }
            }
            _ => {
                let answer = Answer::OpenFile {
                    fid,
                    txn: number,
                    layout,
                };
                self.tell(acted, answer, store)
            }
        }
    }

    /// A stat of a file goes on for its size; another call is told the answer as it is.
    fn stat_answered(
        &mut self,
        at: At,
        acted: At,
        file: FileStat,
        store: &mut Store,
    ) -> Result<Next, Memory>
        ensures goes { IfOk result (λ out. (slot : ℕ)
            → GoesBy (answers at slot acted (answer.FileStat file.fid file.mode file.links file.layout) self.old.call
            self.old (alone self.old store.old)) slot self.new store.old store.new out) }
    {
        match &self.call {
            Call::Stat(path) => {
                let locks = store.stat_locks(self.alloc, path, file.fid)?;
                self.stat_file(at, file, &locks, store)
            }
            _ => {
                let FileStat {
                    fid,
                    mode,
                    links,
                    layout,
                } = file;
                let answer = Answer::FileStat {
                    fid,
                    mode,
                    links,
                    layout,
                };
                Ok(self.tell(acted, answer, store))
            }
        }
    }

    /// The metadata target answered, in the turn `acted`.
    pub(crate) fn answered(
        &mut self,
        at: At,
        acted: At,
        answer: Answer,
        store: &mut Store,
    ) -> Result<Next, Memory>
        ensures goes { IfOk result (λ out. (slot : ℕ)
            → GoesBy (answers at slot acted answer self.old.call self.old (alone self.old store.old))
            slot self.new store.old store.new out) }
    {
        match answer {
            Answer::OpenFile { fid, txn, layout } => {
                let number = txn;
                let file = HandleFile {
                    fid,
                    number,
                    layout,
                };
                Ok(self.opened(acted, file, store))
            }
            Answer::FileStat {
                fid,
                mode,
                links,
                layout,
            } => {
                let file = FileStat {
                    fid,
                    mode,
                    links,
                    layout,
                };
                self.stat_answered(at, acted, file, store)
            }
            answer => Ok(self.tell(acted, answer, store)),
        }
    }
}
