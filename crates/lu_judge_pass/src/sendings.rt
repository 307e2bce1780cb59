//! The messages that were sent, by their numbers.

ghost use Rattle.std.specs.Prelude.{◌≡◌, [], ◌∷◌, OnOk};
ghost use Rattle.std.specs.Option.{option_map};
ghost use Rattle.lu_trace.specs.declared.entries.Line.{Line};
ghost use Rattle.lu_spec_laws.specs.Words.Pasts.{Past};
ghost use Rattle.lu_judge_pass.specs.Tables.{sending_of, sending_in, ShowsSendings};

use lu_base::{Memory, Node};
use lu_msg::Message;
use lu_trace::{Entry, Line};
use std::alloc::Global;
use std::collections::HashMap;

/// A message that was sent.
#[derive(Clone, Copy, Debug)]
pub struct Sending<'a> {
    pub from: Node,
    pub to: Node,
    pub message: &'a Message,
}

/// The messages that were sent so far: of each number the last one.
#[derive(Debug, Drop)]
pub struct Sendings<'a> {
    by_number: HashMap<u64, Sending<'a>>,
}

impl<'a> Sendings<'a> {
    /// Of no line. It takes no memory yet.
    pub fn new(alloc: Global) -> Sendings<'a>
        ensures shows { ShowsSendings result [] }
    {
        Sendings {
            by_number: HashMap::new(alloc),
        }
    }

    /// The message of this number; none where none was sent.
    pub fn get(&self, number: u64) -> Option<Sending<'a>>
        ensures sending { option_map sending_of result ≡ sending_in self.now number }
    {
        self.by_number.get(&number).copied()
    }

    /// Takes in the next line. After want of memory nothing is known of the table.
    pub fn step(&mut self, line: &'a Line) -> Result<(), Memory>
        ensures shows { OnOk result ((past : Past) → ShowsSendings self.old past
            → ShowsSendings self.new (line.now ∷ past)) }
    {
        match &line.entry {
            Entry::Send {
                number,
                to,
                message,
            } => {
                let sending = Sending {
                    from: line.at.node,
                    to: *to,
                    message,
                };
                self.by_number.insert(*number, sending)?;
                Ok(())
            }
            _ => Ok(()),
        }
    }
}
