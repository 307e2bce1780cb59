//! The inodes, found by map.

ghost use Rattle.std.specs.Prelude.{◌≡◌, [], List, IsTrue, ◌↔◌, IsSome, IfOk, OnOk, OnErr};
ghost use Rattle.std.specs.Map.{lookup};
ghost use Rattle.lu_spec_machine.specs.declared.child.Child.TheVariants.{Dir as SpecDir, File as SpecFile};
ghost use Rattle.lu_spec_machine.specs.Tree.{same_fid, attributes, child, directory, file, layout, listing};
ghost use Rattle.lu_spec_machine.specs.Change.{Leads, Drops, MakesDir, MakesFile, SetLinks, SetMode, Leaves, Opens, Closes, change};
ghost use Rattle.lu_spec_machine.specs.Footprint.{empty, forget};
ghost use Rattle.lu_spec_machine.specs.Trim.{trim};
ghost use Rattle.lu_tree.specs.Ends.{IsReached};
ghost use Rattle.lu_tree.specs.Lives.{AreOthersLiving, IsThere, is_dead, opens_only, without_file};
ghost use Rattle.lu_tree.specs.State.{IsCounted};

use super::files::{FileNode, OpenFile, is_alive};
use super::folders::Folder;
use super::walks::ROOT;
use lu_base::{Fid, Memory, Name, Names, Txn, Who};
use lu_layout::Layout;
use lu_spec_machine::Child;
use std::alloc::Global;
use std::collections::BTreeMap;
use std::marker::Model;

/// The inodes of a tree, and the opens of files in the order in which they came.
#[derive(Drop)]
pub(crate) struct Inodes {
    dirs: BTreeMap<Fid, Folder>,
    files: BTreeMap<Fid, FileNode>,
    opens: Vec<OpenFile>,
}

impl Model for Inodes {
    ghost use Rattle.lu_spec_machine.specs.Tree.{Tree};
    ghost use Rattle.lu_spec_machine.specs.Order.{IsOrdered};

    ghost Value = { Tree };

    ghost view = { λ a. record { dirs = a.dirs.entries; files = a.files.entries; opens = a.opens.items } };

    ghost invariant = { λ a. IsOrdered (record {
      dirs = a.dirs.entries;
      files = a.files.entries;
      opens = a.opens.items;
    }) };
}

impl Inodes {
    /// The root without names.
    pub(crate) fn new(alloc: Global) -> Result<Inodes, Memory>
        ensures empty { IfOk result (λ inodes. inodes ≡ empty) }
    {
        let mut dirs = BTreeMap::new(alloc);
        dirs.insert(Fid(ROOT), Folder::new(alloc))?;
        Ok(Inodes {
            dirs,
            files: BTreeMap::new(alloc),
            opens: Vec::new(alloc),
        })
    }

    /// What the name leads to.
    pub(crate) fn child(&self, dir: Fid, name: &Name) -> Option<Child>
        ensures found { result ≡ child self.now dir name.now }
    {
        self.dirs.get(&dir)?.find(name)
    }

    /// Whether the directory has no names, as has one that isn't there.
    pub(crate) fn is_empty(&self, dir: Fid) -> bool
        ensures empty { IsTrue result ↔ (listing self.now dir ≡ []) }
    {
        match self.dirs.get(&dir) {
            Some(folder) => folder.is_empty(),
            None => true,
        }
    }

    /// The names in the directory, none where it isn't there.
    pub(crate) fn names(&self, alloc: Global, dir: Fid) -> Result<Names, Memory>
        ensures names { IfOk result (λ names. names ≡ listing self.now dir) }
    {
        match self.dirs.get(&dir) {
            Some(folder) => folder.names(alloc),
            None => Ok(Names::new(alloc)),
        }
    }

    /// The mode of the directory, 0 where it isn't there.
    pub(crate) fn dir_mode(&self, dir: Fid) -> u16
        ensures mode { result ≡ (directory self.now dir).mode }
    {
        match self.dirs.get(&dir) {
            Some(folder) => folder.mode(),
            None => 0,
        }
    }

    /// The mode of the file, 0 where it isn't there.
    pub(crate) fn file_mode(&self, fid: Fid) -> u16
        ensures mode { result ≡ (file self.now fid).mode }
    {
        match self.files.get(&fid) {
            Some(file) => file.mode(),
            None => 0,
        }
    }

    /// The mode of an inode, 0 where it isn't there.
    pub(crate) fn mode(&self, child: Child) -> u16
        ensures mode { result ≡ (attributes self.now child).mode }
    {
        match child {
            Child::Dir(fid) => self.dir_mode(fid),
            Child::File(fid) => self.file_mode(fid),
        }
    }

    /// How many names lead to the file, 0 where it isn't there.
    pub(crate) fn links(&self, fid: Fid) -> u64
        ensures links { result ≡ (file self.now fid).links }
    {
        match self.files.get(&fid) {
            Some(file) => file.links(),
            None => 0,
        }
    }

    /// The layout of a file that has a name.
    pub(crate) fn layout(&self, fid: Fid) -> Layout
        requires counted { IsCounted self.now }
        requires reached { IsReached self.now (SpecFile fid) }
        ensures layout { result ≡ layout self.now fid }
    {
        let Some(file) = self.files.get(&fid) else {
            unreachable!();
        };
        file.layout()
    }

    /// Makes the name lead there. A directory that isn't there comes to be with mode 0, as the tree has it.
    /// After want of memory nothing has changed.
    pub(crate) fn lead(
        &mut self,
        alloc: Global,
        dir: Fid,
        name: Name,
        child: Child,
    ) -> Result<(), Memory>
        ensures led { OnOk result (self.new ≡ change self.old (Leads dir name child)) }
        ensures kept { OnErr result (self.new ≡ self.old) }
    {
        match self.dirs.get_mut(&dir) {
            Some(folder) => folder.put(name, child),
            None => {
                let mut folder = Folder::bare(alloc);
                folder.put(name, child)?;
                self.dirs.insert(dir, folder)?;
                Ok(())
            }
        }
    }

    /// Takes the name out.
    pub(crate) fn unlead(&mut self, dir: Fid, name: &Name)
        requires { IsSome (child self.old dir name.now) }
        ensures gone { self.new ≡ change self.old (Drops dir name.now) }
    {
        let Some(folder) = self.dirs.get_mut(&dir) else {
            unreachable!();
        };
        folder.remove(name);
    }

    /// Makes a directory without names. After want of memory nothing has changed.
    pub(crate) fn make_dir(&mut self, alloc: Global, dir: Fid) -> Result<(), Memory>
        ensures made { OnOk result (self.new ≡ change self.old (MakesDir dir)) }
        ensures kept { OnErr result (self.new ≡ self.old) }
    {
        self.dirs.insert(dir, Folder::new(alloc))?;
        Ok(())
    }

    /// Takes a directory without names out.
    pub(crate) fn leave(&mut self, dir: Fid)
        requires { listing self.old dir ≡ [] }
        ensures gone { self.new ≡ change self.old (Leaves dir) }
    {
        self.dirs.remove(&dir);
    }

    /// Makes a file with one link. After want of memory nothing has changed.
    pub(crate) fn make_file(&mut self, fid: Fid, layout: Layout) -> Result<(), Memory>
        ensures made { OnOk result (self.new ≡ change self.old (MakesFile fid layout)) }
        ensures kept { OnErr result (self.new ≡ self.old) }
    {
        self.files.insert(fid, FileNode::new(layout))?;
        Ok(())
    }

    /// Sets how many names lead to a file that is there.
    pub(crate) fn set_links(&mut self, fid: Fid, links: u64)
        requires there { IsSome (lookup (same_fid fid) self.old.files) }
        ensures set { self.new ≡ change self.old (SetLinks fid links) }
    {
        let Some(file) = self.files.get_mut(&fid) else {
            unreachable!();
        };
        file.set_links(links);
    }

    /// Sets the mode of a file that is there.
    fn set_file_mode(&mut self, fid: Fid, mode: u16)
        requires there { IsSome (lookup (same_fid fid) self.old.files) }
        ensures set { self.new ≡ change self.old (SetMode (SpecFile fid) mode) }
    {
        let Some(file) = self.files.get_mut(&fid) else {
            unreachable!();
        };
        file.set_mode(mode);
    }

    /// Sets the mode of a directory. One that isn't there comes to be without names, as the tree has it. After
    /// want of memory nothing has changed.
    fn set_dir_mode(&mut self, alloc: Global, dir: Fid, mode: u16) -> Result<(), Memory>
        ensures set { OnOk result (self.new ≡ change self.old (SetMode (SpecDir dir) mode)) }
        ensures kept { OnErr result (self.new ≡ self.old) }
    {
        match self.dirs.get_mut(&dir) {
            Some(folder) => {
                folder.set_mode(mode);
                Ok(())
            }
            None => {
                let mut folder = Folder::bare(alloc);
                folder.set_mode(mode);
                self.dirs.insert(dir, folder)?;
                Ok(())
            }
        }
    }

    /// Sets the mode of an inode that is there. After want of memory nothing has changed.
    pub(crate) fn set_mode(&mut self, alloc: Global, child: Child, mode: u16) -> Result<(), Memory>
        requires there { IsThere self.old child }
        ensures set { OnOk result (self.new ≡ change self.old (SetMode child mode)) }
        ensures kept { OnErr result (self.new ≡ self.old) }
    {
        match child {
            Child::Dir(dir) => self.set_dir_mode(alloc, dir, mode),
            Child::File(file) => {
                self.set_file_mode(file, mode);
                Ok(())
            }
        }
    }

    /// Takes a file out.
    pub(crate) fn drop_file(&mut self, fid: Fid)
        ensures gone { self.new ≡ without_file self.old fid }
    {
        self.files.remove(&fid);
    }

    /// Adds an open. After want of memory nothing has changed.
    pub(crate) fn open(&mut self, number: Txn, who: Who, fid: Fid) -> Result<(), Memory>
        ensures opened { OnOk result (self.new ≡ change self.old (Opens number who fid)) }
        ensures kept { OnErr result (self.new ≡ self.old) }
    {
        self.opens.push(OpenFile::new(number, who, fid))?;
        Ok(())
    }

    /// Whether each open that this transaction made, as this life asked for it, is of the file.
    fn opens_only(&self, number: Txn, who: Who, fid: Fid) -> bool
        ensures only { result ≡ opens_only number who fid self.now.opens }
    {
        self.opens
            .iter()
            .all(|open| !open.is_made(number, who) || open.is_of(fid))
    }

    /// Takes out the open that this transaction made, as this life asked for it.
    fn drop_open(&mut self, number: Txn, who: Who)
        ensures gone { self.new ≡ change self.old (Closes number who) }
    {
        self.opens.retain(|open| !open.is_made(number, who));
    }

    /// Whether the file is there and isn't alive.
    fn is_dead(&self, fid: Fid) -> bool
        ensures dead { result ≡ is_dead self.now fid }
    {
        match self.files.get(&fid) {
            Some(file) => !is_alive(self.opens.as_slice(), fid, file),
            None => false,
        }
    }

    /// Takes the file out if it isn't alive, as each other file is.
    pub(crate) fn bury(&mut self, fid: Fid)
        requires others { AreOthersLiving self.old fid }
        ensures buried { self.new ≡ trim self.old }
    {
        if self.is_dead(fid) {
            self.files.remove(&fid);
        }
    }

    /// Closes the open that this transaction made, as this life asked for it. It is mostly of this file.
    pub(crate) fn close(&mut self, number: Txn, who: Who, fid: Fid)
        requires lean { trim self.old ≡ self.old }
        ensures closed { self.new ≡ trim (change self.old (Closes number who)) }
    {
        let only = self.opens_only(number, who, fid);
        self.drop_open(number, who);
        if only {
            self.bury(fid);
        } else {
            self.sweep();
        }
    }

    /// Takes the opens of a life out.
    fn drop_opens(&mut self, who: Who)
        ensures gone { self.new ≡ forget self.old who }
    {
        self.opens.retain(|open| !open.is_by(who));
    }

    /// Takes each file out that isn't alive.
    fn sweep(&mut self)
        ensures swept { self.new ≡ trim self.old }
    {
        let opens = self.opens.as_slice();
        self.files.retain(|fid, file| is_alive(opens, *fid, file));
    }

    /// Takes the opens of a life out, and each file that isn't alive then.
    pub(crate) fn forget(&mut self, who: Who)
        ensures forgotten { self.new ≡ trim (forget self.old who) }
    {
        self.drop_opens(who);
        self.sweep();
    }
}
