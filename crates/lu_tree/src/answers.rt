//! What is answered.

ghost use Rattle.std.specs.Prelude.{◌≡◌, ℕ, IfOk};
ghost use Rattle.lu_spec_machine.specs.Table.{found};
ghost use Rattle.lu_spec_machine.specs.declared.child.Child.TheVariants.{File};
ghost use Rattle.lu_tree.specs.Ends.{told_of, stat_of, IsReached, Seen};
ghost use Rattle.lu_tree.specs.State.{IsCounted};

use super::ends::End;
use super::inodes::Inodes;
use lu_base::{Fid, Memory, Txn};
use lu_msg::{Answer, Errno};
use lu_spec_machine::Child;
use std::alloc::Global;

/// What a look-up tells.
fn found(child: Child) -> Answer
    ensures { result ≡ found child }
{
    match child {
        Child::Dir(fid) => Answer::Dir(fid),
        Child::File(fid) => Answer::File(fid),
    }
}

impl Inodes {
    /// The attributes of a directory, or of a file that has a name, with its layout.
    fn stat(&self, child: Child) -> Answer
        requires counted { IsCounted self.now }
        requires reached { IsReached self.now child }
        ensures stat { result ≡ stat_of self.now child }
    {
        match child {
            Child::Dir(fid) => Answer::DirStat {
                fid,
                mode: self.dir_mode(fid),
            },
            Child::File(fid) => Answer::FileStat {
                fid,
                mode: self.file_mode(fid),
                links: self.links(fid),
                layout: self.layout(fid),
            },
        }
    }

    /// What is answered where an operation comes to this.
    pub(crate) fn answer(&self, alloc: Global, number: Txn, end: End<'_>) -> Result<Answer, Memory>
        requires counted { IsCounted self.now }
        requires seen { (osts : ℕ) × Seen osts self.now end }
        ensures answer { IfOk result (λ answer. answer ≡ told_of self.now number end.entry) }
    {
        match end {
            End::Refused(errno) => Ok(Answer::Refused(errno)),
            End::NotEmpty(_) => Ok(Answer::Refused(Errno::ENOTEMPTY)),
            End::Finds(child) => Ok(found(child)),
            End::Stats(child) => Ok(self.stat(child)),
            End::Lists(dir) => Ok(Answer::Names(self.names(alloc, dir)?)),
            End::Shows(file) => Ok(Answer::Layout(self.layout(file))),
            End::Makes(_) => Ok(Answer::Made(Fid(number.0))),
            End::Creates { .. } => Ok(Answer::Made(Fid(number.0))),
            End::Links(_, _) => Ok(Answer::Done),
            End::Loses(_, _) => Ok(Answer::Done),
            End::Same => Ok(Answer::Done),
            End::Moves(_, _, _) => Ok(Answer::Done),
            End::Replaces(_, _, _, _) => Ok(Answer::Done),
            End::SetsMode(_, _) => Ok(Answer::Done),
            End::KeepsMode(_) => Ok(Answer::Done),
            End::OpensFile(fid) => Ok(Answer::OpenFile {
                fid,
                txn: number,
                layout: self.layout(fid),
            }),
            End::ClosesFile(_, _) => Ok(Answer::Done),
        }
    }
}
