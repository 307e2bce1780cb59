//! Where an operation comes to in the table.

ghost use Rattle.std.specs.Prelude.{◌≡◌, ℕ, if◌then◌else◌};
ghost use Rattle.lu_base.specs.declared.ids.Txn.{Txn as SpecTxn};
ghost use Rattle.lu_base.specs.declared.ids.Who.{Who as SpecWho};
ghost use Rattle.lu_spec_machine.specs.Tree.{Tree};
ghost use Rattle.lu_spec_machine.specs.Footprint.{is_some_change};
ghost use Rattle.lu_tree.specs.Ends.{changes_of, bits_of};

use lu_base::{Fid, Name, Txn};
use lu_msg::Errno;
use lu_part::{LAYOUT, UPDATE};
use lu_spec_machine::Child;

/// A name of a directory.
#[derive(Clone, Copy)]
pub(crate) struct Place<'a> {
    pub(crate) dir: Fid,
    pub(crate) name: &'a Name,
}

/// One case for each row's end.
#[derive(Clone, Copy)]
pub(crate) enum End<'a> {
    /// It is refused.
    Refused(Errno),
    /// It is refused, since this directory has names.
    NotEmpty(Fid),
    /// A look-up tells this.
    Finds(Child),
    /// The attributes of this are told, and of a file the layout.
    Stats(Child),
    /// The names in this directory are told.
    Lists(Fid),
    /// The layout of this file is told.
    Shows(Fid),
    /// A directory is made, to which the name leads.
    Makes(Place<'a>),
    /// A file with this stripe size, in bytes, and so many stripes is made, to which the name leads.
    Creates {
        new: Place<'a>,
        size: u64,
        count: u64,
    },
    /// The name is made lead to this file, which has a name.
    Links(Place<'a>, Fid),
    /// The name goes, which leads to this: an empty directory, which goes too, or a file.
    Loses(Place<'a>, Child),
    /// Both names lead to one inode, which is as before.
    Same,
    /// The name goes, and this, to which it leads, gets the free name.
    Moves(Place<'a>, Child, Place<'a>),
    /// The name goes, and this, to which it leads, gets the name that leads to that.
    Replaces(Place<'a>, Child, Place<'a>, Child),
    /// This gets this mode.
    SetsMode(Child, u16),
    /// This has the mode already.
    KeepsMode(Child),
    /// This file is opened.
    OpensFile(Fid),
    /// The open that this transaction made is closed. It is said to be of this file.
    ClosesFile(Txn, Fid),
}

/// Whether it makes a transaction.
pub(crate) fn changes(end: End<'_>) -> bool
    ensures { (osts : ℕ) (t : Tree) (number : SpecTxn) (who : SpecWho) → result
        ≡ is_some_change (changes_of osts t number who end.entry) }
{
    match end {
        End::Makes(_) => true,
        End::Creates { .. } => true,
        End::Links(_, _) => true,
        End::Loses(_, _) => true,
        End::Moves(_, _, _) => true,
        End::Replaces(_, _, _, _) => true,
        End::SetsMode(_, _) => true,
        End::OpensFile(_) => true,
        End::ClosesFile(_, _) => true,
        _ => false,
    }
}

/// The greatest number that was used once it is done, where `last` was it before.
pub(crate) fn last_used(last: u64, number: Txn, end: End<'_>) -> u64
    ensures { (osts : ℕ) (t : Tree) (who : SpecWho) → result
        ≡ (if is_some_change (changes_of osts t number who end.entry) then number.0 else last) }
{
    if changes(end) { number.0 } else { last }
}

/// The bits, besides LOOKUP, that a reading is granted on the last inode of its walk, none where it gets no locks.
pub(crate) fn bits(end: End<'_>) -> Option<u8>
    ensures { result ≡ bits_of end.entry }
{
    match end {
        End::Finds(_) => Some(0),
        End::Stats(child) => match child {
            Child::Dir(_) => Some(UPDATE),
            Child::File(_) => Some(UPDATE + LAYOUT),
        },
        End::Lists(_) => Some(UPDATE),
        End::Shows(_) => Some(LAYOUT),
        _ => None,
    }
}
