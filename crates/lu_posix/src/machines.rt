//! The machine.

ghost use Rattle.std.specs.Prelude.{◌≡◌, ℕ, ◌≤◌, ◌+◌, ◌^◌, length, IfOk, OnOk};
ghost use Rattle.lu_spec_machine.specs.Bytes.{read, write, cut};
ghost use Rattle.lu_spec_machine.specs.Machine.{Machine as Plain, start, answer, next, as_told, names_answer, names_next, data_answer, data_change, changed_bytes, piece_next, bytes_of, object_of};
ghost use Rattle.lu_spec_machine.specs.Objects.{object_size};
ghost use Rattle.lu_spec_machine.specs.Tree.{layout};
ghost use Rattle.lu_posix.specs.Limits.{KeepsLimits, KeepsCall, KeepsPiece};
ghost use Rattle.lu_posix.specs.Names.{asked};
ghost use Rattle.lu_posix.specs.Shown.{Shows, ShowsObjects};

use super::files::{cut_file, file_size, read_file, write_file};
use super::layouts::Layouts;
use super::names::Names;
use lu_base::{Bytes, Fid, Memory, Resource, Txn, Who};
use lu_msg::{Answer, Call, Errno, Op};
use lu_ost::Objects;
use lu_spec_machine::{Act, Deed};
use std::alloc::Global;
use std::marker::Model;

/// One POSIX namespace and the bytes of its files. A contract sees what shows a state of the plain machine: the names
/// that lead somewhere, the layout of each file that ever was, and the bytes of objects.
#[derive(Drop)]
pub struct Machine {
    names: Names,
    layouts: Layouts,
    objects: Objects,
}

impl Model for Machine {
    ghost use Rattle.lu_posix.specs.Shown.{MachineState};

    ghost Value = { MachineState };

    ghost view = { λ m. record { names = m.names; layouts = m.layouts; objects = m.objects } };
}

impl Machine {
    /// The machine of a new file system over this many object storage targets, 1 to 8.
    pub fn new(alloc: Global, osts: u16) -> Result<Machine, Memory>
        requires some { 1 ≤ osts }
        requires most { osts ≤ 8 }
        ensures starts { IfOk result (λ machine. Shows osts machine start) }
    {
        Ok(Machine {
            names: Names::new(alloc, osts)?,
            layouts: Layouts::new(alloc),
            objects: Objects::new(alloc),
        })
    }

    /// Answers an act that keeps the limits of calls and operations, as the plain machine does, and is afterwards what
    /// that is. After want of memory nothing is claimed.
    pub fn answer(&mut self, alloc: Global, act: &Act) -> Result<Answer, Memory>
        requires limits { KeepsLimits act.now.deed }
        ensures answer { IfOk result (λ told. (osts : ℕ) (m : Plain) → Shows osts self.old m
            → told ≡ answer osts m act.now) }
        ensures next { OnOk result ((osts : ℕ) (m : Plain) → Shows osts self.old m
            → Shows osts self.new (next osts m act.now)) }
    {
        match &act.deed {
            Deed::Names(op) => self.perform(alloc, act.number, act.who, op),
            Deed::Data(fid, call) => self.call(alloc, *fid, call),
            Deed::Piece(op) => {
                self.reach(alloc, op)?;
                Ok(Answer::Done)
            }
        }
    }

    /// Performs an operation on names of a life under a number, as `answer` does: for who has the operation by reference.
    /// After want of memory nothing is claimed.
    pub fn perform(
        &mut self,
        alloc: Global,
        number: Txn,
        who: Who,
        op: &Op,
    ) -> Result<Answer, Memory>
        ensures answer { IfOk result (λ told. (osts : ℕ) (m : Plain) → Shows osts self.old m
            → told ≡ names_answer osts m (asked number who op.now)) }
        ensures next { OnOk result ((osts : ℕ) (m : Plain) → Shows osts self.old m
            → Shows osts self.new (names_next osts m (asked number who op.now))) }
    {
        let answer = self.names.perform(alloc, number, who, op)?;
        if let Some(layout) = self.names.made(number, op, &answer) {
            self.layouts.add(Fid(number.0), layout)?;
        }
        Ok(self.told(answer))
    }

    /// What `perform` would answer. Nothing changes.
    pub fn would_answer(
        &self,
        alloc: Global,
        number: Txn,
        who: Who,
        op: &Op,
    ) -> Result<Answer, Memory>
        ensures answer { IfOk result (λ told. (osts : ℕ) (m : Plain) → Shows osts self.now m
            → told ≡ names_answer osts m (asked number who op.now)) }
    {
        let answer = self.names.answer(alloc, number, who, op)?;
        Ok(self.told(answer))
    }

    /// What the user is told: of an open the file, of a file's attributes its size.
    fn told(&self, answer: Answer) -> Answer
        ensures told { (m : Plain) → ShowsObjects self.now.objects m → result ≡ as_told m answer }
    {
        match answer {
            Answer::FileStat {
                fid,
                mode,
                links,
                layout,
            } => Answer::FileSize {
                fid,
                mode,
                links,
                size: file_size(&self.objects, fid, &layout),
            },
            Answer::OpenFile { fid, .. } => Answer::Made(fid),
            answer => answer,
        }
    }

    /// Performs a call on the bytes of a file, whatever its handle, as `answer` does: for who has the call by reference.
    /// After want of memory nothing is claimed.
    pub fn call(&mut self, alloc: Global, fid: Fid, call: &Call) -> Result<Answer, Memory>
        requires limits { KeepsCall call.now }
        ensures answer { IfOk result (λ told. (osts : ℕ) (m : Plain) → Shows osts self.old m
            → told ≡ data_answer m fid call.now) }
        ensures next { OnOk result ((osts : ℕ) (m : Plain) → Shows osts self.old m
            → Shows osts self.new (changed_bytes m fid (data_change m fid call.now))) }
    {
        match call {
            Call::Read { offset, length, .. } => {
                let bytes = self.read(alloc, fid, *offset, *length)?;
                Ok(Answer::Content(bytes))
            }
            Call::Write { offset, bytes, .. } => {
                self.write(alloc, fid, *offset, bytes.as_slice())?;
                Ok(Answer::Done)
            }
            Call::Cut { size, .. } => {
                self.cut(alloc, fid, *size)?;
                Ok(Answer::Done)
            }
            Call::Flush(_) => Ok(Answer::Done),
            _ => Ok(Answer::Refused(Errno::EBADF)),
        }
    }

    /// What `call` would answer. Nothing changes.
    pub fn would_tell(&self, alloc: Global, fid: Fid, call: &Call) -> Result<Answer, Memory>
        requires limits { KeepsCall call.now }
        ensures answer { IfOk result (λ told. (osts : ℕ) (m : Plain) → Shows osts self.now m
            → told ≡ data_answer m fid call.now) }
    {
        match call {
            Call::Read { offset, length, .. } => {
                let bytes = self.read(alloc, fid, *offset, *length)?;
                Ok(Answer::Content(bytes))
            }
            Call::Write { .. } => Ok(Answer::Done),
            Call::Cut { .. } => Ok(Answer::Done),
            Call::Flush(_) => Ok(Answer::Done),
            _ => Ok(Answer::Refused(Errno::EBADF)),
        }
    }

    /// The bytes that a read gives; none of what never was a file.
    fn read(&self, alloc: Global, fid: Fid, offset: u64, count: u64) -> Result<Bytes, Memory>
        requires fits { offset + count ≤ 2 ^ 40 }
        ensures read { IfOk result (λ bytes. (osts : ℕ) (m : Plain) → Shows osts self.now m
            → bytes ≡ read (layout m.tree fid) (bytes_of m fid) offset count) }
    {
        let Some(layout) = self.layouts.of(fid) else {
            return Ok(Bytes::new(alloc));
        };
        read_file(&self.objects, alloc, &layout, fid, offset, count)
    }

    /// Writes bytes of a file; of what never was one nothing is kept.
    fn write(&mut self, alloc: Global, fid: Fid, offset: u64, bytes: &[u8]) -> Result<(), Memory>
        requires fits { offset + length bytes.now ≤ 2 ^ 40 }
        ensures next { OnOk result ((osts : ℕ) (m : Plain) → Shows osts self.old m
            → Shows osts self.new (changed_bytes m fid (write (layout m.tree fid) offset bytes.now))) }
    {
        let Some(layout) = self.layouts.of(fid) else {
            return Ok(());
        };
        write_file(&mut self.objects, alloc, &layout, fid, offset, bytes)
    }

    /// Makes a file end at a size; of what never was one nothing changes.
    fn cut(&mut self, alloc: Global, fid: Fid, size: u64) -> Result<(), Memory>
        requires fits { size ≤ 2 ^ 40 }
        ensures next { OnOk result ((osts : ℕ) (m : Plain) → Shows osts self.old m
            → Shows osts self.new (changed_bytes m fid (cut (layout m.tree fid) size))) }
    {
        let Some(layout) = self.layouts.of(fid) else {
            return Ok(());
        };
        cut_file(&mut self.objects, alloc, &layout, fid, size)
    }

    /// Performs an operation that reaches the object of one stripe, as `answer` does, whose answer is that it is done: for
    /// who has the operation by reference. After want of memory nothing is claimed.
    pub fn reach(&mut self, alloc: Global, op: &Op) -> Result<(), Memory>
        requires limits { KeepsPiece op.now }
        ensures next { OnOk result ((osts : ℕ) (m : Plain) → Shows osts self.old m
            → Shows osts self.new (piece_next m op.now)) }
    {
        match op {
            Op::Put {
                resource,
                offset,
                bytes,
                ..
            } => self
                .objects
                .put(alloc, *resource, *offset, bytes.as_slice()),
            Op::Cut { resource, size, .. } => self.objects.cut(alloc, *resource, *size),
            _ => Ok(()),
        }
    }

    /// The size of an object: one past the greatest offset of that stripe with a byte, or 0. It takes no memory.
    pub fn object_size(&self, resource: Resource) -> u64
        ensures size { (osts : ℕ) (m : Plain) → Shows osts self.now m
            → result ≡ object_size (object_of m resource.fid resource.stripe) }
    {
        self.objects.size(resource)
    }
}
