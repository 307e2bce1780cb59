//! Where the operations come to.

ghost use Rattle.std.specs.Prelude.{◌≡◌, ◌++◌, ◌≤◌};
ghost use Rattle.lu_base.specs.declared.ids.Txn.{Txn as SpecTxn};
ghost use Rattle.lu_base.specs.declared.ids.Who.{Who as SpecWho};
ghost use Rattle.lu_spec_machine.specs.Footprint.{outcome_of};
ghost use Rattle.lu_spec_machine.specs.Footprint as footprint;
ghost use Rattle.lu_spec_machine.specs.Table.{root};
ghost use Rattle.lu_tree.specs.Ends.{ended, looked_of, names_of, path_of, Seen};
ghost use Rattle.lu_tree.specs.State.{asked};
ghost use Rattle.lu_tree.specs.Walks.{trail};

use super::ends::End;
use super::inodes::Inodes;
use super::rows::{Ask, LastAsk};
use lu_base::Name;
use lu_msg::{Errno, Op};

/// The names by which an operation on what a whole path leads to walks.
pub(crate) fn whole_path(op: &Op) -> &[Name]
    ensures { result.now ≡ path_of op.now }
{
    match op {
        Op::Lookup(path) => path.as_slice(),
        Op::Stat(path) => path.as_slice(),
        Op::List(path) => path.as_slice(),
        Op::Layout(path) => path.as_slice(),
        Op::Chmod { path, .. } => path.as_slice(),
        Op::Open(path) => path.as_slice(),
        _ => &[],
    }
}

impl Inodes {
    /// Where an operation comes to. One of an object storage target is none on names.
    pub(crate) fn end<'a>(&self, osts: u16, op: &'a Op) -> End<'a>
        requires { 1 ≤ osts }
        ensures ends { (number : SpecTxn) (who : SpecWho) → outcome_of osts self.now (asked number who op.now)
            ≡ ended osts self.now number who (trail self.now root (path_of op.now)) result }
        ensures looks { (number : SpecTxn) (who : SpecWho) →
            footprint.touches osts self.now (asked number who op.now) ≡ names_of self.now op.now ++ looked_of result }
        ensures seen { Seen osts self.now result }
    {
        match op {
            Op::Lookup(path) => self.whole_end(Ask::Lookup, path.as_slice()),
            Op::Stat(path) => self.whole_end(Ask::Stat, path.as_slice()),
            Op::List(path) => self.whole_end(Ask::List, path.as_slice()),
            Op::Layout(path) => self.whole_end(Ask::Layout, path.as_slice()),
            Op::Mkdir(path) => self.last_end(osts, LastAsk::Mkdir, path.as_slice()),
            Op::Create { path, size, count } => self.last_end(
                osts,
                LastAsk::Create {
                    size: *size,
                    count: *count,
                },
                path.as_slice(),
            ),
            Op::Link { old, new } => self.link_end(osts, old.as_slice(), new.as_slice()),
            Op::Unlink(path) => self.last_end(osts, LastAsk::Unlink, path.as_slice()),
            Op::Rmdir(path) => self.last_end(osts, LastAsk::Rmdir, path.as_slice()),
            Op::Rename { old, new } => self.rename_end(old.as_slice(), new.as_slice()),
            Op::Chmod { path, mode } => self.whole_end(Ask::Chmod(*mode), path.as_slice()),
            Op::Open(path) => self.whole_end(Ask::Open, path.as_slice()),
            Op::Close { txn, fid } => End::ClosesFile(*txn, *fid),
            Op::Enqueue { .. } => End::Refused(Errno::EBADF),
            Op::Get { .. } => End::Refused(Errno::EBADF),
            Op::Put { .. } => End::Refused(Errno::EBADF),
            Op::Cut { .. } => End::Refused(Errno::EBADF),
            Op::Size(_) => End::Refused(Errno::EBADF),
        }
    }
}
