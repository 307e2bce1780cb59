//! What the plain machine answered where the metadata target executed a request.

ghost use Rattle.std.specs.Prelude.{◌≡◌, ℕ, ◌==◌, ◌&&◌, None, if◌then◌else◌, OnOk};
ghost use Rattle.std.specs.Option.{option_copied};
ghost use Rattle.lu_base.specs.declared.ids.At.{At as SpecAt};
ghost use Rattle.lu_base.specs.declared.ids.Who.{Who as SpecWho};
ghost use Rattle.lu_judge_history.specs.Tables.{answer_in, is_key};

use lu_base::{At, Memory, Node, Stamp, Who, Xid};
use lu_msg::Answer;
use std::alloc::Global;
use std::collections::HashMap;

/// The machine's answers, by the turn of the metadata target, the life and the request number.
#[derive(Debug, Drop)]
pub(crate) struct Answers {
    /// By the turn's stamp, the life and the request number.
    by_stamp: HashMap<((u64, (u16, u32)), u64), Answer>,
}

impl Answers {
    /// None. It takes no memory yet.
    pub(crate) fn new(alloc: Global) -> Answers
        ensures none { (turn : SpecAt) (who : SpecWho) (x : ℕ) → answer_in result turn who x ≡ None }
    {
        Answers {
            by_stamp: HashMap::new(alloc),
        }
    }

    /// The machine's answer to the life's request in that turn; none where the metadata target didn't execute it there.
    pub(crate) fn get(&self, turn: At, who: Who, xid: Xid) -> Option<&Answer>
        ensures answer { option_copied result ≡ answer_in self.now turn who xid.0 }
    {
        match turn.node {
            Node::Client(_) => None,
            Node::Target(target) => {
                if target == 0 {
                    self.by_stamp
                        .get(&((turn.stamp.0, (who.client, who.life)), xid.0))
                } else {
                    None
                }
            }
        }
    }

    /// In a turn of the metadata target of this stamp the life's request was executed, and the machine gave this answer, or
    /// none. After want of memory nothing is known.
    pub(crate) fn put(
        &mut self,
        stamp: Stamp,
        who: Who,
        xid: Xid,
        answer: Option<Answer>,
    ) -> Result<(), Memory>
        ensures put { OnOk result ((turn : SpecAt) (w : SpecWho) (x : ℕ) → answer_in self.new turn w x
            ≡ (if is_key stamp who xid.0 turn w x then answer else answer_in self.old turn w x)) }
    {
        let key = ((stamp.0, (who.client, who.life)), xid.0);
        match answer {
            Some(answer) => {
                self.by_stamp.insert(key, answer)?;
                Ok(())
            }
            None => {
                self.by_stamp.remove(&key);
                Ok(())
            }
        }
    }
}
