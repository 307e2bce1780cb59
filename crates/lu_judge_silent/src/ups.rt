//! The boots that lives were told of.

ghost use Rattle.std.specs.Prelude.{◌≡◌, ℕ, true, false, ◌==◌, ◌&&◌, if◌then◌else◌, [], OnOk};
ghost use Rattle.lu_base.specs.declared.ids.Who.{Who as SpecWho};
ghost use Rattle.lu_spec_laws.specs.Words.Pasts.{Past};
ghost use Rattle.lu_spec_laws.specs.Words.Repeats.{is_ready, unready};
ghost use Rattle.lu_spec_machine.specs.Tree.{same_life};
ghost use Rattle.lu_judge_silent.specs.Tables.{has_boot, is_waiting};
ghost use Rattle.lu_judge_silent.specs.Shown.{ShowsUps};
ghost use Rattle.lu_judge_silent.specs.Waits.{waits_after};

use lu_base::{Memory, Node, Who};
use lu_msg::Message;
use std::alloc::Global;
use std::collections::{HashMap, HashSet};

/// The targets and boots that each life was told of by an `up`, without a `ready` since.
#[derive(Debug, Drop)]
pub struct Ups {
    alloc: Global,
    by_life: HashMap<Who, HashSet<(u16, u32)>>,
}

impl Ups {
    /// Of no line. It takes no memory yet.
    pub fn new(alloc: Global) -> Ups
        ensures shows { ShowsUps result [] }
    {
        Ups {
            alloc,
            by_life: HashMap::new(alloc),
        }
    }

    /// Whether each `up` had its `ready`.
    pub fn is_ready(&self, who: Who) -> bool
        ensures ready { (past : Past) → ShowsUps self.now past → result ≡ is_ready who past }
    {
        match self.by_life.get(&who) {
            Some(boots) => boots.is_empty(),
            None => true,
        }
    }

    /// The life takes a message. After want of memory nothing is known of the table.
    pub fn take(&mut self, who: Who, from: Node, message: &Message) -> Result<(), Memory>
        ensures takes { OnOk result ((w : SpecWho) (up : ℕ × ℕ) → is_waiting self.new w up
            ≡ waits_after (same_life who w) from message.now up (is_waiting self.old w up)) }
    {
        match message {
            Message::Up(boot) => match from {
                Node::Target(target) => self.add(who, (target, *boot)),
                Node::Client(_) => Ok(()),
            },
            Message::Ready { boot, .. } => match from {
                Node::Target(target) => self.remove(who, (target, *boot)),
                Node::Client(_) => Ok(()),
            },
            _ => Ok(()),
        }
    }

    /// The life is told of a boot.
    fn add(&mut self, who: Who, up: (u16, u32)) -> Result<(), Memory>
        ensures adds { OnOk result ((w : SpecWho) (other : ℕ × ℕ) → is_waiting self.new w other
            ≡ (if same_life who w && (up.0 == other.0 && up.1 == other.1) then true else is_waiting self.old w other)) }
    {
        let mut boots = self.take_out(who);
        boots.insert(up)?;
        self.put(who, boots)
    }

    /// The life's slot in a boot is ready.
    fn remove(&mut self, who: Who, up: (u16, u32)) -> Result<(), Memory>
        ensures removes { OnOk result ((w : SpecWho) (other : ℕ × ℕ) → is_waiting self.new w other
            ≡ (if same_life who w && (up.0 == other.0 && up.1 == other.1) then false
            else is_waiting self.old w other)) }
    {
        let mut boots = self.take_out(who);
        boots.remove(&up);
        self.put(who, boots)
    }

    /// The boots of a life, of which the table has none afterwards.
    fn take_out(&mut self, who: Who) -> HashSet<(u16, u32)>
        ensures boots { (up : ℕ × ℕ) → has_boot result up ≡ is_waiting self.old who up }
        ensures rest { (w : SpecWho) (up : ℕ × ℕ) → is_waiting self.new w up
            ≡ (if same_life who w then false else is_waiting self.old w up) }
    {
        match self.by_life.remove(&who) {
            Some(boots) => boots,
            None => HashSet::new(self.alloc),
        }
    }

    /// These are the boots of a life.
    fn put(&mut self, who: Who, boots: HashSet<(u16, u32)>) -> Result<(), Memory>
        ensures boots { OnOk result ((w : SpecWho) (up : ℕ × ℕ) → is_waiting self.new w up
            ≡ (if same_life who w then has_boot boots up else is_waiting self.old w up)) }
    {
        self.by_life.insert(who, boots)?;
        Ok(())
    }
}
