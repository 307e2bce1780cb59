//! The rows of the table, from the ends of the walks on.

ghost use Rattle.std.specs.Prelude.{◌≡◌, ◌++◌, ℕ, ◌≤◌, [], Some, None, List as SpecList};
ghost use Rattle.lu_base.specs.declared.ids.Txn.{Txn as SpecTxn};
ghost use Rattle.lu_base.specs.declared.ids.Who.{Who as SpecWho};
ghost use Rattle.lu_spec_machine.specs.declared.child.Child.{Child as SpecChild};
ghost use Rattle.lu_spec_machine.specs.declared.child.Child.TheVariants.{Dir as SpecDir};
ghost use Rattle.lu_spec_machine.specs.Plan.{outcome, looked};
ghost use Rattle.lu_spec_machine.specs.Striping.{new_layout};
ghost use Rattle.lu_spec_machine.specs.Table.{root, walk, to_last, last_of, row_chmod, row_create, row_link, row_unlink, row_rmdir};
ghost use Rattle.lu_spec_machine.specs.Tree.{child};
ghost use Rattle.lu_tree.specs.Ends.{ended, looked_of, names_after, IsReached, Seen};
ghost use Rattle.lu_tree.specs.Rows.{row_of, last_row_of, no_last, IsAskable};
ghost use Rattle.lu_tree.specs.Walks.{looks, reach, trail};

use super::ends::{End, Place};
use super::inodes::Inodes;
use super::striping::{is_bad, stripe_count, stripe_size};
use super::walks::Found;
use lu_base::{Fid, Name};
use lu_msg::Errno;
use lu_spec_machine::Child;

/// What is asked of that to which a whole path leads.
#[derive(Clone, Copy)]
pub(crate) enum Ask {
    Lookup,
    Stat,
    List,
    Layout,
    Chmod(u16),
    Open,
}

/// What is asked of a path's last name.
#[derive(Clone, Copy)]
pub(crate) enum LastAsk {
    Mkdir,
    Create { size: u64, count: i32 },
    /// To this file.
    Link(Fid),
    Unlink,
    Rmdir,
}

impl Inodes {
    /// The end of a `chmod` of this.
    fn chmod_row<'a>(&self, at: Child, mode: u16) -> End<'a>
        ensures ends { (osts : ℕ) (number : SpecTxn) (who : SpecWho) (passed : SpecList SpecChild) →
            outcome self.now (row_chmod mode at) ≡ ended osts self.now number who passed result }
        ensures looks { looked self.now (row_chmod mode at) ≡ looked_of result }
        ensures seen { (osts : ℕ) → IsReached self.now at → Seen osts self.now result }
    {
        if self.mode(at) == mode {
            End::KeepsMode(at)
        } else {
            End::SetsMode(at, mode)
        }
    }

    /// The end of what is asked of this.
    fn row<'a>(&self, ask: Ask, at: Child) -> End<'a>
        ensures ends { (osts : ℕ) (number : SpecTxn) (who : SpecWho) (passed : SpecList SpecChild) →
            outcome self.now (row_of number who ask passed at) ≡ ended osts self.now number who passed result }
        ensures looks { (number : SpecTxn) (who : SpecWho) (passed : SpecList SpecChild) →
            looked self.now (row_of number who ask passed at) ≡ looked_of result }
        ensures seen { (osts : ℕ) → IsReached self.now at → Seen osts self.now result }
    {
        match ask {
            Ask::Lookup => End::Finds(at),
            Ask::Stat => End::Stats(at),
            Ask::List => match at {
                Child::Dir(dir) => End::Lists(dir),
                Child::File(_) => End::Refused(Errno::ENOTDIR),
            },
            Ask::Layout => match at {
                Child::Dir(_) => End::Refused(Errno::EISDIR),
                Child::File(file) => End::Shows(file),
            },
            Ask::Chmod(mode) => self.chmod_row(at, mode),
            Ask::Open => match at {
                Child::Dir(_) => End::Refused(Errno::EISDIR),
                Child::File(file) => End::OpensFile(file),
            },
        }
    }

    /// The end of what is asked of that to which the path leads.
    pub(crate) fn whole_end<'a>(&self, ask: Ask, path: &'a [Name]) -> End<'a>
        ensures ends { (osts : ℕ) (number : SpecTxn) (who : SpecWho) →
            outcome self.now (walk root path.now (λ passed. row_of number who ask passed (last_of root passed)))
            ≡ ended osts self.now number who (trail self.now root path.now) result }
        ensures looks { (number : SpecTxn) (who : SpecWho) →
            looked self.now (walk root path.now (λ passed. row_of number who ask passed (last_of root passed)))
            ≡ looks self.now root path.now ++ looked_of result }
        ensures seen { (osts : ℕ) → Seen osts self.now result }
    {
        match self.reach(path) {
            Err(errno) => End::Refused(errno),
            Ok(at) => self.row(ask, at),
        }
    }

    /// The end of an `unlink` of that to which this name leads.
    fn unlink_row<'a>(&self, old: Place<'a>, found: Child) -> End<'a>
        ensures ends { (osts : ℕ) (number : SpecTxn) (who : SpecWho) →
            outcome self.now (row_unlink old.entry.dir old.entry.name.now found)
            ≡ ended osts self.now number who [] result }
        ensures looks { looked self.now (row_unlink old.entry.dir old.entry.name.now found) ≡ looked_of result }
        ensures seen { (osts : ℕ) → child self.now old.entry.dir old.entry.name.now ≡ Some found →
            Seen osts self.now result }
    {
        match found {
            Child::Dir(_) => End::Refused(Errno::EISDIR),
            Child::File(file) => End::Loses(old, Child::File(file)),
        }
    }

    /// The end of a `rmdir` of that to which this name leads.
    fn rmdir_row<'a>(&self, old: Place<'a>, found: Child) -> End<'a>
        ensures ends { (osts : ℕ) (number : SpecTxn) (who : SpecWho) →
            outcome self.now (row_rmdir old.entry.dir old.entry.name.now found)
            ≡ ended osts self.now number who [] result }
        ensures looks { looked self.now (row_rmdir old.entry.dir old.entry.name.now found) ≡ looked_of result }
        ensures seen { (osts : ℕ) → child self.now old.entry.dir old.entry.name.now ≡ Some found →
            Seen osts self.now result }
    {
        match found {
            Child::File(_) => End::Refused(Errno::ENOTDIR),
            Child::Dir(gone) => {
                if self.is_empty(gone) {
                    End::Loses(old, Child::Dir(gone))
                } else {
                    End::NotEmpty(gone)
                }
            }
        }
    }

    /// The end of a `create` of a name that is free.
    fn create_row<'a>(&self, osts: u16, new: Place<'a>, size: u64, count: i32) -> End<'a>
        requires { 1 ≤ osts }
        ensures ends { (number : SpecTxn) (who : SpecWho) →
            outcome self.now (row_create number new.entry.dir new.entry.name.now (new_layout osts number size count))
            ≡ ended osts self.now number who [] result }
        ensures looks { (number : SpecTxn) → looked self.now
            (row_create number new.entry.dir new.entry.name.now (new_layout osts number size count))
            ≡ looked_of result }
        ensures seen { IsReached self.now (SpecDir new.entry.dir) → child self.now new.entry.dir new.entry.name.now
            ≡ None → Seen osts self.now result }
    {
        let size = stripe_size(size);
        let count = stripe_count(osts, count);
        if is_bad(osts, size, count) {
            End::Refused(Errno::EINVAL)
        } else {
            End::Creates { new, size, count }
        }
    }

    /// The end of what is asked of this name of this directory.
    fn last_row<'a>(
        &self,
        osts: u16,
        ask: LastAsk,
        place: Place<'a>,
        found: Option<Child>,
    ) -> End<'a>
        requires { 1 ≤ osts }
        ensures ends { (number : SpecTxn) (who : SpecWho) →
            outcome self.now (last_row_of osts number ask place.entry.dir place.entry.name.now found)
            ≡ ended osts self.now number who [] result }
        ensures looks { (number : SpecTxn) → looked self.now
            (last_row_of osts number ask place.entry.dir place.entry.name.now found) ≡ looked_of result }
        ensures seen { IsAskable self.now ask → IsReached self.now (SpecDir place.entry.dir) →
            child self.now place.entry.dir place.entry.name.now ≡ found → Seen osts self.now result }
    {
        match (ask, found) {
            (LastAsk::Mkdir, None) => End::Makes(place),
            (LastAsk::Mkdir, Some(_)) => End::Refused(Errno::EEXIST),
            (LastAsk::Create { size, count }, None) => { self.create_row(osts, place, size, count) }
            (LastAsk::Create { .. }, Some(_)) => End::Refused(Errno::EEXIST),
            (LastAsk::Link(file), None) => End::Links(place, file),
            (LastAsk::Link(_), Some(_)) => End::Refused(Errno::EEXIST),
            (LastAsk::Unlink, None) => End::Refused(Errno::ENOENT),
            (LastAsk::Unlink, Some(found)) => self.unlink_row(place, found),
            (LastAsk::Rmdir, None) => End::Refused(Errno::ENOENT),
            (LastAsk::Rmdir, Some(found)) => self.rmdir_row(place, found),
        }
    }

    /// The end of what is asked of the path's last name.
    pub(crate) fn last_end<'a>(&self, osts: u16, ask: LastAsk, path: &'a [Name]) -> End<'a>
        requires { 1 ≤ osts }
        ensures ends { (number : SpecTxn) (who : SpecWho) →
            outcome self.now (to_last (no_last ask) path.now (λ passed. last_row_of osts number ask))
            ≡ ended osts self.now number who [] result }
        ensures looks { (number : SpecTxn) → looked self.now
            (to_last (no_last ask) path.now (λ passed. last_row_of osts number ask)) ≡ looks self.now root path.now
            ++ looked_of result }
        ensures seen { IsAskable self.now ask → Seen osts self.now result }
    {
        let Some((name, front)) = path.split_last() else {
            return End::Refused(no_last(ask));
        };
        match self.find_last(front, name) {
            Err(errno) => End::Refused(errno),
            Ok(Found { dir, child }) => { self.last_row(osts, ask, Place { dir, name }, child) },
        }
    }

    /// The end of a `link`.
    pub(crate) fn link_end<'a>(&self, osts: u16, old: &[Name], new: &'a [Name]) -> End<'a>
        requires { 1 ≤ osts }
        ensures ends { (number : SpecTxn) (who : SpecWho) →
            outcome self.now (walk root old.now (λ passed. row_link new.now (last_of root passed)))
            ≡ ended osts self.now number who [] result }
        ensures looks { looked self.now (walk root old.now (λ passed. row_link new.now (last_of root passed)))
            ≡ looks self.now root old.now ++ names_after self.now new.now (reach self.now root old.now)
            ++ looked_of result }
        ensures seen { Seen osts self.now result }
    {
        match self.reach(old) {
            Err(errno) => End::Refused(errno),
            Ok(at) => match at {
                Child::Dir(_) => End::Refused(Errno::EPERM),
                Child::File(file) => self.last_end(osts, LastAsk::Link(file), new),
            },
        }
    }
}

/// What is answered where the path is that of the root.
fn no_last(ask: LastAsk) -> Errno
    ensures { result ≡ no_last ask }
{
    match ask {
        LastAsk::Mkdir => Errno::EEXIST,
        LastAsk::Create { .. } => Errno::EEXIST,
        LastAsk::Link(_) => Errno::EEXIST,
        LastAsk::Unlink => Errno::EISDIR,
        LastAsk::Rmdir => Errno::EBUSY,
    }
}
