//! What the operations do to the inodes.

ghost use Rattle.std.specs.Prelude.{◌≡◌, ◌+◌, ◌-◌, ◌<◌, ◌≤◌, true, false, None, Some, [], ◌∷◌, OnOk, OnErr};
ghost use Rattle.std.specs.Map.{lookup};
ghost use Rattle.lu_spec_machine.specs.Footprint.{is_some_change};
ghost use Rattle.lu_spec_machine.specs.Tree.{child, fid_of, file as file_of, same_fid};
ghost use Rattle.lu_spec_machine.specs.Change.{Drops, Leads, MakesDir, MakesFile, Parted, SetLinks, change, changed};
ghost use Rattle.lu_spec_machine.proofs.Leads.{here};
ghost use Rattle.lu_spec_machine.specs.Order.{IsOrdered};
ghost use Rattle.lu_spec_machine.specs.declared.child.Child.TheVariants.{Dir as SpecDir, File as SpecFile};
ghost use Rattle.lu_spec_machine.specs.Table.{made_by};
ghost use Rattle.lu_spec_machine.specs.Trim.{trim};
ghost use Rattle.lu_tree.specs.Ends.{changes_of, leaving, MayLeave, Seen, IsFresh};
ghost use Rattle.lu_tree.specs.Lives.{IsThere};
ghost use Rattle.lu_tree.specs.State.{IsCounted};

use super::ends::{End, Place};
use super::inodes::Inodes;
use super::striping::striped;
use lu_base::{Duplicate, Fid, Memory, Txn, Who};
use lu_layout::Layout;
use lu_spec_machine::Child;
use std::alloc::Global;

impl Inodes {
    /// Makes a directory of this number, to which the name leads. After want of memory nothing has changed.
    fn make(&mut self, alloc: Global, number: Txn, new: Place<'_>) -> Result<(), Memory>
        requires unused { lookup (same_fid (made_by number)) self.old.dirs ≡ None }
        ensures made { OnOk result (self.new ≡ changed self.old
            (MakesDir (made_by number) ∷ Leads new.entry.dir new.entry.name.now (SpecDir (made_by number)) ∷ [])) }
        ensures kept { OnErr result (self.new ≡ self.old) }
    {
        let made = Fid(number.0);
        let name = new.name.copy(alloc)?;
        self.make_dir(alloc, made)?;
        if let Err(error) = self.lead(alloc, new.dir, name, Child::Dir(made)) {
            self.leave(made);
            return Err(error);
        }
        Ok(())
    }

    /// Makes a file of this number, to which the name leads. After want of memory nothing has changed.
    fn create(
        &mut self,
        alloc: Global,
        number: Txn,
        new: Place<'_>,
        layout: Layout,
    ) -> Result<(), Memory>
        requires unused { lookup (same_fid (made_by number)) self.old.files ≡ None }
        ensures made { OnOk result (self.new ≡ changed self.old
            (MakesFile (made_by number) layout ∷ Leads new.entry.dir new.entry.name.now (SpecFile (made_by number))
            ∷ [])) }
        ensures kept { OnErr result (self.new ≡ self.old) }
    {
        let made = Fid(number.0);
        let name = new.name.copy(alloc)?;
        self.make_file(made, layout)?;
        if let Err(error) = self.lead(alloc, new.dir, name, Child::File(made)) {
            self.drop_file(made);
            return Err(error);
        }
        Ok(())
    }

    /// Makes the name lead to a file that is there. After want of memory nothing has changed.
    fn link(&mut self, alloc: Global, new: Place<'_>, file: Fid) -> Result<(), Memory>
        requires there { IsThere self.old (SpecFile file) }
        requires room { (file_of self.old file).links < u64.MAX }
        ensures linked { OnOk result (self.new ≡ changed self.old
            (Leads new.entry.dir new.entry.name.now (SpecFile file)
            ∷ SetLinks file ((file_of self.old file).links + 1) ∷ [])) }
        ensures kept { OnErr result (self.new ≡ self.old) }
    {
        let links = self.links(file) + 1;
        let name = new.name.copy(alloc)?;
        self.lead(alloc, new.dir, name, Child::File(file))?;
        self.set_links(file, links);
        Ok(())
    }

    /// Makes the new name lead to this in place of the old one. After want of memory nothing has changed.
    fn move_name(
        &mut self,
        alloc: Global,
        old: Place<'_>,
        moved: Child,
        new: Place<'_>,
    ) -> Result<(), Memory>
        requires ordered { IsOrdered self.old }
        requires named { child self.old old.dir old.name.now ≡ Some moved }
        requires other { here new.dir new.name.now old.dir old.name.now ≡ false }
        ensures moved { OnOk result (self.new ≡ changed self.old
            (Drops old.entry.dir old.entry.name.now ∷ Leads new.entry.dir new.entry.name.now moved ∷ [])) }
        ensures kept { OnErr result (self.new ≡ self.old) }
    {
        let name = new.name.copy(alloc)?;
        self.lead(alloc, new.dir, name, moved)?;
        self.unlead(old.dir, old.name);
        Ok(())
    }

    /// Takes an empty directory out that has lost its name, or a link of a file, and the file if it has neither
    /// another name nor an open.
    fn lose(&mut self, gone: Child)
        requires there { IsThere self.old gone }
        requires empty { MayLeave self.old gone }
        requires lean { trim self.old ≡ self.old }
        ensures gone { self.new ≡ trim (change self.old (leaving self.old gone)) }
    {
        match gone {
            Child::Dir(dir) => self.leave(dir),
            Child::File(file) => {
                let links = self.links(file).saturating_sub(1);
                self.set_links(file, links);
                self.bury(file);
            }
        }
    }

    /// Takes the name out, and what it leads to if that is a directory or a file with neither another name nor an
    /// open.
    fn lose_name(&mut self, old: Place<'_>, gone: Child)
        requires named { child self.old old.dir old.name.now ≡ Some gone }
        requires there { IsThere self.old gone }
        requires empty { MayLeave self.old gone }
        requires lean { trim self.old ≡ self.old }
        ensures gone { self.new ≡ trim (changed self.old (Drops old.entry.dir old.entry.name.now
            ∷ Parted (fid_of gone) ∷ leaving self.old gone ∷ [])) }
    {
        self.unlead(old.dir, old.name);
        self.lose(gone);
    }

    /// Does what an operation of a life comes to, as transaction `number`, over this many object storage
    /// targets. After want of memory nothing has changed.
    pub(crate) fn perform(
        &mut self,
        alloc: Global,
        osts: u16,
        number: Txn,
        who: Who,
        end: End<'_>,
    ) -> Result<(), Memory>
        requires some { 1 ≤ osts }
        requires most { osts ≤ 8 }
        requires ordered { IsOrdered self.old }
        requires lean { trim self.old ≡ self.old }
        requires counted { IsCounted self.old }
        requires fresh { is_some_change (changes_of osts self.old number who end) ≡ true → IsFresh self.old number }
        requires seen { Seen osts self.old end }
        ensures done { OnOk result (self.new ≡ trim (changed self.old
            (changes_of osts self.old number who end.entry))) }
        ensures kept { OnErr result (self.new ≡ self.old) }
    {
        match end {
            End::Makes(new) => self.make(alloc, number, new),
            End::Creates { new, size, count } => {
                let layout = striped(osts, number, size, count);
                self.create(alloc, number, new, layout)
            }
            End::Links(new, file) => self.link(alloc, new, file),
            End::Loses(old, gone) => {
                self.lose_name(old, gone);
                Ok(())
            }
            End::Moves(old, moved, new) => self.move_name(alloc, old, moved, new),
            End::Replaces(old, moved, new, gone) => {
                self.move_name(alloc, old, moved, new)?;
                self.lose(gone);
                Ok(())
            }
            End::SetsMode(child, mode) => self.set_mode(alloc, child, mode),
            End::OpensFile(fid) => self.open(number, who, fid),
            End::ClosesFile(opened, fid) => {
                self.close(opened, who, fid);
                Ok(())
            }
            _ => Ok(()),
        }
    }
}
