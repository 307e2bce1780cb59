//! Playing a client: what comes to it, in turns of given stamps, and the text of the lines that it prints.

ghost use Rattle.std.specs.Prelude.{◌<◌, ◌≤◌, IfOk, OnOk};
ghost use Rattle.lu_client.specs.Numbers.{AreCounted, HasAsked, HasNumbers};

use super::faults::PlayFault;
use super::said::{Said, message_of, path};
use super::told::put_turn;
use lu_base::{Bytes, Memory, Stamp, TargetId};
use lu_client::{Client, is_in_range};
use lu_msg::{Call, Message};
use lu_trace::Step;
use std::alloc::Global;

/// The most turns that a test has.
const MOST_TURNS: u32 = 1_000;

/// A call, whose path is one name in the root.
#[derive(Clone, Copy, Debug)]
pub enum Called {
    Lookup(&'static [u8]),
    Mkdir(&'static [u8]),
    Rmdir(&'static [u8]),
}

/// What comes to a client.
#[derive(Clone, Copy, Debug)]
pub enum Meets {
    /// A call begins on a slot, 0 to 3.
    Call(u8, Called),
    /// The metadata target says this.
    Says(Said),
    Tick,
    Die,
}

fn call_of(alloc: Global, called: Called) -> Result<Call, Memory> {
    match called {
        Called::Lookup(name) => Ok(Call::Lookup(path(alloc, name)?)),
        Called::Mkdir(name) => Ok(Call::Mkdir(path(alloc, name)?)),
        Called::Rmdir(name) => Ok(Call::Rmdir(path(alloc, name)?)),
    }
}

/// Client 0 of a run with one object storage target.
fn begin(alloc: Global) -> Result<Client, PlayFault>
    ensures first { IfOk result (λ client. HasAsked 0 client.client.imports) }
{
    let client = Client::new(alloc, 0, 1, 1, 1_048_576, 64)?;
    Ok(client)
}

/// A call begins on a slot.
fn call(client: &mut Client, stamp: Stamp, slot: u8, call: Call) -> Result<Step, PlayFault>
    requires numbers { HasNumbers client.old.client.imports }
    ensures counted { OnOk result (AreCounted client.old.client.imports client.new.client.imports) }
{
    if slot >= 4 || !is_in_range(&call) {
        return Err(PlayFault::Misplaced);
    }
    Ok(client.call(stamp, slot, call)?)
}

/// A message of the metadata target comes, if it may.
fn deliver(client: &mut Client, stamp: Stamp, message: &Message) -> Result<Option<Step>, PlayFault>
    requires numbers { HasNumbers client.old.client.imports }
    ensures counted { OnOk result (AreCounted client.old.client.imports client.new.client.imports) }
{
    if !client.accepts(TargetId(0), message) {
        return Ok(None);
    }
    Ok(Some(client.deliver(stamp, TargetId(0), message)?))
}

/// What a client gives when this comes; none where it doesn't come.
fn turn(
    alloc: Global,
    client: &mut Client,
    stamp: Stamp,
    meets: Meets,
) -> Result<Option<Step>, PlayFault>
    requires numbers { HasNumbers client.old.client.imports }
    ensures counted { OnOk result (AreCounted client.old.client.imports client.new.client.imports) }
{
    match meets {
        Meets::Call(slot, called) => {
            let step = self::call(client, stamp, slot, call_of(alloc, called)?)?;
            Ok(Some(step))
        }
        Meets::Says(said) => deliver(client, stamp, &message_of(alloc, said)?),
        Meets::Tick => Ok(Some(client.tick(stamp)?)),
        Meets::Die => Ok(Some(client.die(stamp)?)),
    }
}

/// All this comes to a new client.
fn play_on(alloc: Global, all: &[(u64, Meets)], out: &mut Bytes) -> Result<(), PlayFault> {
    let mut client = begin(alloc)?;
    let mut count: u32 = 0;
    for next in all {
        if count == MOST_TURNS {
            return Err(PlayFault::Misplaced);
        }
        count += 1;
        let given = turn(alloc, &mut client, Stamp(next.0), next.1)?;
        put_turn(alloc, out, given)?;
    }
    Ok(())
}

/// What client 0 prints when all this comes to it, each in the turn of its stamp.
pub fn played(alloc: Global, all: &[(u64, Meets)]) -> Result<Bytes, PlayFault> {
    let mut out = Bytes::new(alloc);
    play_on(alloc, all, &mut out)?;
    Ok(out)
}
