//! What lives handed in at each target since its last boot.

ghost use Rattle.std.specs.Prelude.{◌≡◌, ℕ, ◌==◌, false, List, [], ◌∷◌, reverse, map, OnOk};
ghost use Rattle.lu_msg.specs.declared.messages.Message.{Message};
ghost use Rattle.lu_trace.specs.declared.entries.Line.{Line};
ghost use Rattle.lu_spec_laws.specs.Words.Pasts.{Past};
ghost use Rattle.lu_spec_laws.specs.Words.Boots.{boot};
ghost use Rattle.lu_spec_laws.specs.Words.Handed.{handed, has_all, has_newer, locks};
ghost use Rattle.lu_judge_pass.specs.Tables.{ShowsSendings};
ghost use Rattle.lu_judge_windows.specs.Marks.{ShowsMarks};

use super::handed::Handed;
use super::marks::Marks;
use lu_base::{Memory, Node, Who};
use lu_judge_pass::Sendings;
use lu_msg::{LockReplay, Message};
use lu_trace::{Entry, Line};
use std::alloc::Global;
use std::collections::HashMap;

/// What lives handed in at each target since its last boot.
#[derive(Debug, Drop)]
pub(crate) struct Offers<'a> {
    alloc: Global,
    by_target: HashMap<u16, Handed<'a>>,
    /// The locks of a target that took nothing.
    none: Vec<&'a LockReplay>,
    ghost bare: { none.items ≡ [] },
}

impl<'a> Offers<'a> {
    ghost use Rattle.lu_judge_windows.specs.Offers.{offer_in, ShowsOffer, ShowsOffers};

    /// Of no line. It takes no memory yet.
    pub(crate) fn new(alloc: Global) -> Offers<'a>
        ensures shows { ShowsOffers result [] }
    {
        Offers {
            alloc,
            by_target: HashMap::new(alloc),
            none: Vec::new(alloc),
        }
    }

    /// Whether the life asked to join, or handed in as much as a word of it says.
    pub(crate) fn has_all(&self, target: u16, who: Who) -> bool
        ensures all { (past : Past) → ShowsOffers self.now past
            → result ≡ has_all (boot target past) who (handed target past) }
    {
        match self.by_target.get(&target) {
            Some(here) => here.has_all(who),
            None => false,
        }
    }

    /// Whether the life has all after this message, which the target takes next in this boot.
    pub(crate) fn has_all_after(&self, target: u16, boot: u32, message: &Message, who: Who) -> bool
        ensures all { (messages : List Message) → ShowsOffer (offer_in self.now target) boot messages
            → result ≡ has_all boot who (message.now ∷ messages) }
    {
        match self.by_target.get(&target) {
            Some(here) => here.has_all_after(boot, message, who),
            None => {
                let here = Handed::new(self.alloc);
                here.has_all_after(boot, message, who)
            }
        }
    }

    /// Whether a newer life of its client asked to join.
    pub(crate) fn has_newer(&self, target: u16, who: Who) -> bool
        ensures newer { (past : Past) → ShowsOffers self.now past → result ≡ has_newer target past who }
    {
        match self.by_target.get(&target) {
            Some(here) => here.has_newer(who),
            None => false,
        }
    }

    /// The different locks that were handed in, the first one first.
    pub(crate) fn locks(&self, target: u16) -> &[&'a LockReplay]
        ensures locks { (past : Past) → ShowsOffers self.now past
            → reverse (map (λ r. r.now) result.now) ≡ locks (boot target past) (handed target past) }
    {
        match self.by_target.get(&target) {
            Some(here) => here.locks(),
            None => self.none.as_slice(),
        }
    }

    /// The target takes a message in this boot.
    fn take(&mut self, target: u16, boot: u32, message: &'a Message) -> Result<(), Memory>
        ensures taken { OnOk result ((messages : List Message) → ShowsOffer (offer_in self.old target) boot messages
            → ShowsOffer (offer_in self.new target) boot (message.now ∷ messages)) }
        ensures others { OnOk result ((t : ℕ) → (target == t) ≡ false → offer_in self.new t ≡ offer_in self.old t) }
    {
        match self.by_target.get_mut(&target) {
            Some(here) => {
                here.take(boot, message)?;
                Ok(())
            }
            None => {
                let mut here = Handed::new(self.alloc);
                here.take(boot, message)?;
                self.by_target.insert(target, here)?;
                Ok(())
            }
        }
    }

    /// Takes in the next line. After want of memory nothing is known of the table.
    pub(crate) fn step(
        &mut self,
        marks: &Marks,
        sendings: &Sendings<'a>,
        line: &Line,
    ) -> Result<(), Memory>
        ensures shows { OnOk result ((past : Past) → ShowsMarks marks.now past → ShowsSendings sendings.now past
            → ShowsOffers self.old past → ShowsOffers self.new (line.now ∷ past)) }
    {
        match &line.entry {
            Entry::Take(number) => match line.at.node {
                Node::Target(target) => match sendings.get(*number) {
                    Some(sending) => {
                        self.take(target, marks.get(target).boot, sending.message)?;
                        Ok(())
                    }
                    None => Ok(()),
                },
                Node::Client(_) => Ok(()),
            },
            Entry::Boot(_) => match line.at.node {
                Node::Target(target) => {
                    self.by_target.remove(&target);
                    Ok(())
                }
                Node::Client(_) => Ok(()),
            },
            _ => Ok(()),
        }
    }
}
