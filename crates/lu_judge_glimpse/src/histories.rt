//! The plain machine over what stands of the lines so far.

ghost use Rattle.std.specs.Prelude.{◌≡◌, ℕ, ◌≤◌, Bool, Option, List, [], ◌∷◌, ◌++◌, OnOk, IfOk, IfSome, IsSome, IsTrue};
ghost use Rattle.lu_base.specs.declared.ids.Who.{Who};
ghost use Rattle.lu_trace.specs.declared.entries.Line.{Line};
ghost use Rattle.lu_trace.specs.WellFormed.{IsCall};
ghost use Rattle.lu_spec_machine.specs.Machine.{Machine as Plain, object_of, start, changed_bytes, data_change};
ghost use Rattle.lu_spec_machine.specs.Objects.{object_size};
ghost use Rattle.lu_spec_laws.specs.Words.Pasts.{Past};
ghost use Rattle.lu_spec_laws.specs.Words.Lives.{is_gone};
ghost use Rattle.lu_spec_laws.specs.Words.Lost.{is_lost};
ghost use Rattle.lu_spec_laws.specs.Words.Histories.{after_item};
ghost use Rattle.lu_spec_laws.specs.Words.Glimpses.{machine_cut};
ghost use Rattle.lu_judge_pass.specs.Ledgers.{ShowsLedger, ShowsGone};
ghost use Rattle.lu_judge_calls.specs.Tables.{ShowsOpenCalls};
ghost use Rattle.lu_judge_windows.specs.Windows.{ShowsWindows};
ghost use Rattle.lu_judge_glimpse.specs.Items.{Keeps, act_if, after_items};
ghost use Rattle.lu_judge_glimpse.specs.Histories.{IsKept, ShowsHistory, ShowsPlain, IsFormed, LeavesStanding};

use super::items::{Item, item_at};
use lu_base::{At, Fid, Memory, Node, Resource};
use lu_judge_calls::OpenCalls;
use lu_judge_pass::{Gone, Ledger};
use lu_judge_windows::Windows;
use lu_msg::Call;
use lu_posix::Machine;
use lu_trace::{Entry, Line};
use std::alloc::Global;

/// What may count in the history of the lines so far, and the plain machine over what counts now. Which lives are gone and
/// which transactions are lost is told by the tables that are given, which show the same lines.
#[derive(Drop)]
pub struct History<'a> {
    alloc: Global,
    osts: u16,
    items: Vec<Item<'a>>,
    /// None where it must be built anew: at first, and after a line that changed what older items count.
    machine: Option<Machine>,
}

/// Performs a call on the bytes of a file: a read and a flush change nothing.
fn perform_call(alloc: Global, machine: &mut Machine, fid: Fid, call: &Call) -> Result<(), Memory>
    requires kept { IsCall call.now }
    ensures next { OnOk result ((osts : ℕ) (m : Plain) → 1 ≤ osts → osts ≤ 8
        → ShowsPlain osts machine.old m → ShowsPlain osts machine.new
        (changed_bytes m fid (data_change m fid call.now))) }
{
    match call {
        Call::Read { .. } => Ok(()),
        Call::Flush(_) => Ok(()),
        _ => {
            machine.call(alloc, fid, call)?;
            Ok(())
        }
    }
}

/// Performs what an item counts.
fn perform(
    alloc: Global,
    machine: &mut Machine,
    gone: &Gone,
    windows: &Windows,
    item: &Item,
) -> Result<(), Memory>
    requires kept { Keeps item.now }
    ensures next { OnOk result ((past : Past) (osts : ℕ) (m : Plain) → 1 ≤ osts → osts ≤ 8
        → ShowsGone gone.now past → ShowsWindows windows.now past → ShowsPlain osts machine.old m
        → ShowsPlain osts machine.new (after_item osts m (act_if (is_gone past) (is_lost past) item.now))) }
{
    match item {
        Item::Txn {
            target,
            number,
            who,
            op,
        } => {
            if windows.is_lost(*target, number.0) {
                return Ok(());
            }
            if *target == 0 {
                machine.perform(alloc, *number, *who, op)?;
                return Ok(());
            }
            if gone.has(*who) {
                return machine.reach(alloc, op);
            }
            Ok(())
        }
        Item::Told { who, fid, call } => {
            if gone.has(*who) {
                return Ok(());
            }
            perform_call(alloc, machine, *fid, call)
        }
    }
}

impl<'a> History<'a> {
    /// Of no line, over this many object storage targets, 1 to 8. It takes no memory yet.
    pub fn new(alloc: Global, osts: u16) -> History<'a>
        requires some { 1 ≤ osts }
        requires most { osts ≤ 8 }
        ensures shows { ShowsHistory result [] }
        ensures osts { result.osts ≡ osts }
    {
        History {
            alloc,
            osts,
            items: Vec::new(alloc),
            machine: None,
        }
    }

    /// Takes an item in, and performs it where there is a machine.
    fn add(&mut self, gone: &Gone, windows: &Windows, item: Item<'a>) -> Result<(), Memory>
        requires kept { Keeps item }
        ensures items { OnOk result (self.new.items.items ≡ self.old.items.items ++ item.entry ∷ []) }
        ensures osts { OnOk result (self.new.osts ≡ self.old.osts) }
        ensures machine { OnOk result ((past : Past) (m : Plain) → 1 ≤ self.old.osts → self.old.osts ≤ 8
            → ShowsGone gone.now past → ShowsWindows windows.now past
            → IfSome self.old.machine (λ old. ShowsPlain self.old.osts old m)
            → IfSome self.new.machine (λ new. ShowsPlain self.old.osts new
            (after_item self.old.osts m (act_if (is_gone past) (is_lost past) item.entry)))) }
    {
        if let Some(machine) = &mut self.machine {
            perform(self.alloc, machine, gone, windows, &item)?;
        }
        self.items.push(item)?;
        Ok(())
    }

    /// The machine after all items.
    fn built(&self, gone: &Gone, windows: &Windows) -> Result<Machine, Memory>
        requires kept { IsKept self.now }
        ensures machine { IfOk result (λ machine. (past : Past)
            → ShowsGone gone.now past → ShowsWindows windows.now past
            → ShowsPlain self.now.osts machine
            (after_items (is_gone past) (is_lost past) self.now.osts start self.now.items.items)) }
    {
        let mut machine = Machine::new(self.alloc, self.osts)?;
        for item in &self.items {
            perform(self.alloc, &mut machine, gone, windows, item)?;
        }
        Ok(machine)
    }

    /// Has the machine built, if it isn't. The tables show the same lines.
    pub fn build(&mut self, gone: &Gone, windows: &Windows) -> Result<(), Memory>
        requires kept { IsKept self.old }
        ensures shows { OnOk result ((past : Past)
            → ShowsGone gone.now past → ShowsWindows windows.now past → ShowsHistory self.old past
            → ShowsHistory self.new past) }
        ensures built { OnOk result (IsSome self.new.machine) }
        ensures osts { OnOk result (self.new.osts ≡ self.old.osts) }
    {
        if self.machine.is_none() {
            let machine = self.built(gone, windows)?;
            self.machine = Some(machine);
        }
        Ok(())
    }

    /// The size of the object of that stripe of the file.
    pub fn size(&self, fid: Fid, stripe: usize) -> u64
        requires built { IsSome self.now.machine }
        ensures size { (past : Past) → ShowsHistory self.now past
            → result ≡ object_size (object_of (machine_cut self.now.osts past) fid stripe) }
    {
        match &self.machine {
            Some(machine) => match u16::try_from(stripe) {
                Ok(stripe) => machine.object_size(Resource { fid, stripe }),
                Err(_) => 0,
            },
            None => 0,
        }
    }

    /// What changes with the lines that count may be lost from the machine: it is built anew when it is asked for.
    fn forget(&mut self)
        ensures items { self.new.items.items ≡ self.old.items.items }
        ensures osts { self.new.osts ≡ self.old.osts }
        ensures machine { self.new.machine ≡ None }
    {
        self.machine = None;
    }

    /// Takes in a line that leaves who is gone and what is lost as it was.
    fn take(
        &mut self,
        ledger: &Ledger<'a>,
        calls: &OpenCalls<'a>,
        gone: &Gone,
        windows: &Windows,
        line: &'a Line,
    ) -> Result<(), Memory>
        requires formed { IsFormed ledger.now calls.now }
        ensures shows { OnOk result ((past : Past)
            → ShowsLedger ledger.now past → ShowsOpenCalls calls.now past
            → ShowsGone gone.now past → ShowsWindows windows.now past → LeavesStanding past line.now
            → ShowsHistory self.old past → ShowsHistory self.new (line.now ∷ past)) }
        ensures osts { OnOk result (self.new.osts ≡ self.old.osts) }
    {
        match item_at(ledger, calls, line) {
            Some(item) => self.add(gone, windows, item),
            None => Ok(()),
        }
    }

    /// Takes in the close of a recovery window at a node.
    fn close(&mut self, ledger: &Ledger<'a>, windows: &Windows<'a>, at: At) -> Result<(), Memory>
        ensures shows { OnOk result ((past : Past)
            → ShowsLedger ledger.now past → ShowsWindows windows.now past → ShowsHistory self.old past
            → ShowsHistory self.new (record { at = at; entry = Entry.Close } ∷ past)) }
        ensures osts { OnOk result (self.new.osts ≡ self.old.osts) }
    {
        let Node::Target(target) = at.node else {
            return Ok(());
        };
        let lost = windows.lost_at(ledger, target)?;
        if lost.len() > 0 {
            self.forget();
        }
        Ok(())
    }

    /// Takes in the next line. The tables show the lines before it. After want of memory nothing is known of it.
    pub fn step(
        &mut self,
        ledger: &Ledger<'a>,
        calls: &OpenCalls<'a>,
        gone: &Gone,
        windows: &Windows<'a>,
        line: &'a Line,
    ) -> Result<(), Memory>
        requires formed { IsFormed ledger.now calls.now }
        ensures shows { OnOk result ((past : Past)
            → ShowsLedger ledger.now past → ShowsOpenCalls calls.now past
            → ShowsGone gone.now past → ShowsWindows windows.now past → ShowsHistory self.old past
            → ShowsHistory self.new (line.now ∷ past)) }
        ensures osts { OnOk result (self.new.osts ≡ self.old.osts) }
    {
        match &line.entry {
            Entry::Txn { .. } => self.take(ledger, calls, gone, windows, line),
            Entry::Told { .. } => self.take(ledger, calls, gone, windows, line),
            Entry::Evict { who, .. } => {
                if !gone.has(*who) {
                    self.forget();
                }
                Ok(())
            }
            Entry::Close => self.close(ledger, windows, line.at),
            Entry::Fail => {
                self.forget();
                Ok(())
            }
            _ => Ok(()),
        }
    }
}
