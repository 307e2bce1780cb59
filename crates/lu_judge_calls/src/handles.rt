//! What the handles are bound to.

ghost use Rattle.std.specs.Prelude.{◌≡◌, ℕ, ◌==◌, ◌&&◌, if◌then◌else◌, Some, None, OnOk};
ghost use Rattle.std.specs.Option.{option_map};
ghost use Rattle.lu_base.specs.declared.ids.Who.{Who};
ghost use Rattle.lu_spec_laws.specs.Words.Calls.{begun_binding, told_binding};
ghost use Rattle.lu_judge_calls.specs.Tables.{binding_of, binding_in, is_life};

use super::begun::Binding;
use lu_base::{Memory, Txn, Who};
use lu_msg::{Answer, Call};
use std::alloc::Global;
use std::collections::HashMap;

/// What the handles of each life are bound to.
#[derive(Debug, Drop)]
pub struct Handles {
    by_life: HashMap<((u16, u32), u8), Binding>,
}

impl Handles {
    /// None is bound. It takes no memory yet.
    pub fn new(alloc: Global) -> Handles
        ensures none { (who : Who) (h : ℕ) → binding_in result who h ≡ None }
    {
        Handles {
            by_life: HashMap::new(alloc),
        }
    }

    /// What the life's handle is bound to; none where it isn't bound.
    pub fn get(&self, who: Who, handle: u8) -> Option<Binding>
        ensures binding { option_map binding_of result ≡ binding_in self.now who handle }
    {
        self.by_life.get(&((who.client, who.life), handle)).copied()
    }

    /// A call of the life begins: a `close` ends the binding of its handle.
    pub fn begin(&mut self, who: Who, call: &Call)
        ensures bindings { (other : Who) (h : ℕ) → binding_in self.new other h
            ≡ (if is_life who other then begun_binding h call.now (binding_in self.old other h)
            else binding_in self.old other h) }
    {
        match call {
            Call::Close(handle) => {
                self.by_life.remove(&((who.client, who.life), *handle));
            }
            _ => {}
        }
    }

    /// The life is told the answer to this call: an `open` that is told `ok` binds its handle, to the transaction of this
    /// number.
    fn bind(
        &mut self,
        who: Who,
        call: &Call,
        answer: &Answer,
        number: Option<Txn>,
    ) -> Result<(), Memory>
        ensures bindings { OnOk result ((other : Who) (h : ℕ) → binding_in self.new other h
            ≡ (if is_life who other
            then told_binding h (Some call.now) answer.now number (binding_in self.old other h)
            else binding_in self.old other h)) }
    {
        match call {
            Call::Open { handle, .. } => match answer {
                Answer::Made(fid) => {
                    let binding = Binding { fid: *fid, number };
                    self.by_life
                        .insert(((who.client, who.life), *handle), binding)?;
                    Ok(())
                }
                _ => Ok(()),
            },
            _ => Ok(()),
        }
    }

    /// The same for the call that stands, where one does.
    pub fn tell(
        &mut self,
        who: Who,
        call: Option<&Call>,
        answer: &Answer,
        number: Option<Txn>,
    ) -> Result<(), Memory>
        ensures bindings { OnOk result ((other : Who) (h : ℕ) → binding_in self.new other h
            ≡ (if is_life who other
            then told_binding h (option_map (λ c. c.now) call.entry) answer.now number
            (binding_in self.old other h)
            else binding_in self.old other h)) }
    {
        match call {
            Some(call) => self.bind(who, call, answer, number),
            None => Ok(()),
        }
    }
}
