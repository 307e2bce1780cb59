//! The rows of `rename`.

ghost use Rattle.std.specs.Prelude.{◌≡◌, ◌++◌, ℕ, [], Some, false, List as SpecList};
ghost use Rattle.lu_base.specs.declared.ids.Txn.{Txn as SpecTxn};
ghost use Rattle.lu_base.specs.declared.ids.Who.{Who as SpecWho};
ghost use Rattle.lu_msg.specs.declared.answers.Errno.TheVariants.{EBUSY as SpecBusy};
ghost use Rattle.lu_spec_machine.specs.declared.child.Child.{Child as SpecChild};
ghost use Rattle.lu_spec_machine.specs.declared.child.Child.TheVariants.{Dir as SpecDir};
ghost use Rattle.lu_spec_machine.specs.Plan.{outcome, looked};
ghost use Rattle.lu_spec_machine.specs.Table.{root, to_last, passes, row_replace, row_rename, rename};
ghost use Rattle.lu_spec_machine.specs.Tree.{child, fid_of, same_fid};
ghost use Rattle.lu_tree.specs.Ends.{ended, looked_of, rename_names, IsReached, Seen};
ghost use Rattle.lu_tree.specs.Walks.{looks};

use super::ends::{End, Place};
use super::inodes::Inodes;
use super::walks::{Found, fid};
use lu_base::Name;
use lu_msg::Errno;
use lu_spec_machine::Child;

impl Inodes {
    /// The end where the new name leads to another inode.
    fn replace_row<'a>(&self, old: Place<'a>, moved: Child, new: Place<'a>, gone: Child) -> End<'a>
        ensures ends { (osts : ℕ) (number : SpecTxn) (who : SpecWho) →
            outcome self.now
            (row_replace old.entry.dir old.entry.name.now moved new.entry.dir new.entry.name.now gone)
            ≡ ended osts self.now number who [] result }
        ensures looks { looked self.now
            (row_replace old.entry.dir old.entry.name.now moved new.entry.dir new.entry.name.now gone)
            ≡ looked_of result }
        ensures seen { (osts : ℕ) → child self.now old.entry.dir old.entry.name.now ≡ Some moved →
            child self.now new.entry.dir new.entry.name.now ≡ Some gone → same_fid (fid_of gone) (fid_of moved)
            ≡ false → Seen osts self.now result }
    {
        match moved {
            Child::Dir(_) => match gone {
                Child::File(_) => End::Refused(Errno::ENOTDIR),
                Child::Dir(dir) => {
                    if self.is_empty(dir) {
                        End::Replaces(old, moved, new, gone)
                    } else {
                        End::NotEmpty(dir)
                    }
                }
            },
            Child::File(_) => match gone {
                Child::Dir(_) => End::Refused(Errno::EISDIR),
                Child::File(_) => End::Replaces(old, moved, new, gone),
            },
        }
    }

    /// The end of a rename of what the old name leads to. `inside` says whether the walk to the new name passes it.
    fn rename_row<'a>(
        &self,
        old: Place<'a>,
        moved: Child,
        new: Place<'a>,
        found: Option<Child>,
        inside: bool,
    ) -> End<'a>
        ensures ends { (osts : ℕ) (number : SpecTxn) (who : SpecWho) (passed : SpecList SpecChild) → inside
            ≡ passes moved passed → outcome self.now
            (row_rename old.entry.dir old.entry.name.now moved passed new.entry.dir new.entry.name.now found)
            ≡ ended osts self.now number who [] result }
        ensures looks { (passed : SpecList SpecChild) → inside ≡ passes moved passed →
            looked self.now
            (row_rename old.entry.dir old.entry.name.now moved passed new.entry.dir new.entry.name.now found)
            ≡ looked_of result }
        ensures seen { (osts : ℕ) → child self.now old.entry.dir old.entry.name.now ≡ Some moved →
            child self.now new.entry.dir new.entry.name.now ≡ found → IsReached self.now (SpecDir new.entry.dir) →
            Seen osts self.now result }
    {
        match found {
            None => {
                if inside {
                    End::Refused(Errno::EINVAL)
                } else {
                    End::Moves(old, moved, new)
                }
            }
            Some(gone) => {
                if fid(gone) == fid(moved) {
                    End::Same
                } else if inside {
                    End::Refused(Errno::EINVAL)
                } else {
                    self.replace_row(old, moved, new, gone)
                }
            }
        }
    }

    /// The end of a rename of what the old name leads to, to this path.
    fn rename_to<'a>(&self, old: Place<'a>, moved: Child, path: &'a [Name]) -> End<'a>
        ensures ends { (osts : ℕ) (number : SpecTxn) (who : SpecWho) →
            outcome self.now (to_last SpecBusy path.now (row_rename old.entry.dir old.entry.name.now moved))
            ≡ ended osts self.now number who [] result }
        ensures looks { looked self.now (to_last SpecBusy path.now
            (row_rename old.entry.dir old.entry.name.now moved)) ≡ looks self.now root path.now ++ looked_of result }
        ensures seen { (osts : ℕ) → child self.now old.entry.dir old.entry.name.now ≡ Some moved →
            Seen osts self.now result }
    {
        let Some((name, front)) = path.split_last() else {
            return End::Refused(Errno::EBUSY);
        };
        match self.find_last(front, name) {
            Err(errno) => End::Refused(errno),
            Ok(Found { dir, child }) => {
                let inside = self.passes(moved, front);
                self.rename_row(old, moved, Place { dir, name }, child, inside)
            }
        }
    }

    /// The end of a `rename`.
    pub(crate) fn rename_end<'a>(&self, old: &'a [Name], new: &'a [Name]) -> End<'a>
        ensures ends { (osts : ℕ) (number : SpecTxn) (who : SpecWho) → outcome self.now (rename old.now new.now)
            ≡ ended osts self.now number who [] result }
        ensures looks { looked self.now (rename old.now new.now) ≡ rename_names self.now old.now new.now
            ++ looked_of result }
        ensures seen { (osts : ℕ) → Seen osts self.now result }
    {
        if new.is_empty() {
            return End::Refused(Errno::EBUSY);
        }
        let Some((name, front)) = old.split_last() else {
            return End::Refused(Errno::EBUSY);
        };
        match self.find_last(front, name) {
            Err(errno) => End::Refused(errno),
            Ok(Found { dir, child }) => match child {
                None => End::Refused(Errno::ENOENT),
                Some(moved) => self.rename_to(Place { dir, name }, moved, new),
            },
        }
    }
}
