//! A client.

ghost use Rattle.std.specs.Prelude.{◌≡◌, ℕ, ◌+◌, ◌<◌, ◌≤◌, IfOk, length};
ghost use Rattle.lu_msg.specs.Limits.{tag_count};
ghost use Rattle.lu_trace.specs.Turns.{no_step};
ghost use Rattle.lu_spec_client.specs.States.{Limits, first_imports};
ghost use Rattle.lu_client_refines.specs.Imports.{imports_of, AreImports};
ghost use Rattle.lu_client.specs.Clients.{first_client, turn_of};

use lu_base::{At, Memory, Node, Stamp, TargetId, Who};
use lu_call::{Binding, CallState};
use lu_client_store::Store;
use lu_import::Import;
use lu_trace::Turn;
use std::alloc::Global;
use std::marker::Model;

/// A client: its life, its handles, its calls on four slots, what it asks of each target, and what it holds and knows. Each
/// step is one turn of it. Once memory ran out in a step the client is spent: each later step answers so too.
#[derive(Drop)]
pub struct Client {
    pub(crate) alloc: Global,
    /// How many object storage targets the run has, 0 to 8.
    pub(crate) osts: u16,
    /// At most so many requests are in flight at a target, 1 to 8.
    pub(crate) flight: u8,
    /// Above so many dirty bytes changes are written back.
    pub(crate) dirty: u64,
    pub(crate) who: Who,
    /// The handles that are bound, the last one first.
    pub(crate) handles: Vec<Binding>,
    /// The calls that aren't told, by slot.
    pub(crate) calls: Vec<Option<CallState>>,
    /// What the life asks of each target, the metadata target first.
    pub(crate) imports: Vec<Import>,
    pub(crate) store: Store,
    pub(crate) spent: bool,
}

impl Model for Client {
    ghost use Rattle.lu_client.specs.Clients.{ClientState, AreKept, state_of};

    ghost Value = { ClientState };

    ghost view = { λ c.
        state_of c.osts c.flight c.dirty c.who c.handles.items c.calls.items c.imports.items c.store c.spent };

    ghost invariant = { λ c. AreKept c.osts c.flight c.dirty c.who c.calls.items c.imports.items c.store };
}

/// The imports of a first life, target by target.
fn first_imports(alloc: Global, who: Who, osts: u16, flight: u8) -> Result<Vec<Import>, Memory>
    requires first { who.life ≡ 1 }
    requires osts { osts ≤ 8 }
    requires least { 0 < flight }
    requires most { flight ≤ tag_count }
    ensures imports { IfOk result (λ imports. imports_of imports.items ≡ first_imports (osts + 1)) }
    ensures count { IfOk result (λ imports. length imports.items ≡ osts + 1) }
    ensures kept { IfOk result (λ imports. (limits : Limits) → limits.flight ≡ flight
        → AreImports limits who 0 imports.items) }
{
    let mut imports = Vec::new(alloc);
    for target in 0..osts + 1 {
        imports.push(Import::new(alloc, TargetId(target), who, 1, flight))?;
    }
    Ok(imports)
}

impl Client {
    /// A client of this number, 0 to 15, before its first turn, in a run with `osts` object storage targets, 0 to 8. At most
    /// `flight` of its requests, 1 to 8, are in flight at a target; above `dirty` dirty bytes it writes changes back; and it
    /// keeps at most `unused` locks that are neither in use nor called back. Its first life is served from the start.
    pub fn new(
        alloc: Global,
        client: u16,
        osts: u16,
        flight: u8,
        dirty: u64,
        unused: u32,
    ) -> Result<Client, Memory>
        requires osts { osts ≤ 8 }
        requires least { 0 < flight }
        requires most { flight ≤ tag_count }
        ensures first { IfOk result (λ made. made ≡ first_client (record {
          osts = osts;
          flight = flight;
          dirty = dirty;
          unused = unused;
        }) client) }
    {
        let who = Who { client, life: 1 };
        let imports = first_imports(alloc, who, osts, flight)?;
        let calls = Vec::from_array(alloc, [None, None, None, None])?;
        Ok(Client {
            alloc,
            osts,
            flight,
            dirty,
            who,
            handles: Vec::new(alloc),
            calls,
            imports,
            store: Store::new(alloc, unused)?,
            spent: false,
        })
    }

    /// A turn of the client, without lines yet.
    pub fn turn(&self, stamp: Stamp) -> Turn
        ensures empty { result ≡ record { at = turn_of stamp self.now; step = no_step } }
    {
        Turn::new(
            self.alloc,
            At {
                stamp,
                node: Node::Client(self.who.client),
            },
        )
    }
}
