//! Files and opens as the program has them.

ghost use Rattle.std.specs.Prelude.{◌≡◌, not, nat_lt, ◌==◌, ◌&&◌};
ghost use Rattle.lu_spec_machine.specs.Tree.{same_fid, same_life};
ghost use Rattle.lu_spec_machine.specs.Change.{new_file};
ghost use Rattle.lu_spec_machine.specs.Trim.{is_open, is_alive};

use lu_base::{Fid, Txn, Who};
use lu_layout::Layout;
use std::marker::Model;

/// The mode of a new file.
const NEW_MODE: u16 = 0o644;

/// A file: its mode, how many names lead to it, and its layout.
#[derive(Drop)]
pub(crate) struct FileNode {
    mode: u16,
    links: u64,
    layout: Layout,
}

impl Model for FileNode {
    ghost use Rattle.lu_spec_machine.specs.Tree.{Inode};

    ghost Value = { Inode };

    ghost view = { λ a. record { mode = a.mode; links = a.links; layout = a.layout } };
}

impl FileNode {
    /// A new file, to which one name leads.
    pub(crate) fn new(layout: Layout) -> FileNode
        ensures new { result ≡ new_file layout }
    {
        FileNode {
            mode: NEW_MODE,
            links: 1,
            layout,
        }
    }

    /// Whether a name leads to it.
    fn is_named(&self) -> bool
        ensures { result ≡ nat_lt 0 self.now.links }
    {
        self.links > 0
    }

    /// Its mode.
    pub(crate) fn mode(&self) -> u16
        ensures { result ≡ self.now.mode }
    {
        self.mode
    }

    /// How many names lead to it.
    pub(crate) fn links(&self) -> u64
        ensures { result ≡ self.now.links }
    {
        self.links
    }

    /// Sets its mode.
    pub(crate) fn set_mode(&mut self, mode: u16)
        ensures set { self.new ≡ record self.old { mode = mode } }
    {
        self.mode = mode;
    }

    /// Sets how many names lead to it.
    pub(crate) fn set_links(&mut self, links: u64)
        ensures set { self.new ≡ record self.old { links = links } }
    {
        self.links = links;
    }

    /// Its layout.
    pub(crate) fn layout(&self) -> Layout
        ensures { result ≡ self.now.layout }
    {
        self.layout
    }
}

/// An open of a file: the transaction that opened it, and the life that asked for it.
#[derive(Drop)]
pub(crate) struct OpenFile {
    number: Txn,
    life: Who,
    fid: Fid,
}

impl Model for OpenFile {
    ghost use Rattle.lu_spec_machine.specs.Tree.{Opened};

    ghost Value = { Opened };

    ghost view = { λ a. record { number = a.number; life = a.life; fid = a.fid } };
}

impl OpenFile {
    /// The open that this transaction made of a file, as this life asked for it.
    pub(crate) fn new(number: Txn, life: Who, fid: Fid) -> OpenFile
        ensures new { result ≡ record { number = number; life = life; fid = fid } }
    {
        OpenFile { number, life, fid }
    }

    /// Whether this transaction made it, and this life asked for it.
    pub(crate) fn is_made(&self, number: Txn, who: Who) -> bool
        ensures { result ≡ (self.now.number.0 == number.0 && same_life self.now.life who) }
    {
        self.number == number && self.life == who
    }

    /// Whether it is an open of this file.
    pub(crate) fn is_of(&self, file: Fid) -> bool
        ensures { result ≡ same_fid self.now.fid file }
    {
        self.fid == file
    }

    /// Whether this life asked for it.
    pub(crate) fn is_by(&self, who: Who) -> bool
        ensures { result ≡ same_life self.now.life who }
    {
        self.life == who
    }
}

/// Whether the file is open.
fn is_open(opens: &[OpenFile], file: Fid) -> bool
    ensures { result ≡ is_open file opens.now }
{
    opens.iter().any(|open| open.is_of(file))
}

/// Whether the file is alive: a name leads to it, or it is open.
pub(crate) fn is_alive(opens: &[OpenFile], fid: Fid, file: &FileNode) -> bool
    ensures { result ≡ is_alive opens.now (fid, file.now) }
{
    file.is_named() || is_open(opens, fid)
}
