//! Printing a scenario. What appends a text may leave a part of it after want of memory.
#![tactic(auto, using(std::proofs::Common::append_assoc))]

ghost use Rattle.std.specs.Prelude.{◌≡◌, ℕ, ◌++◌, ◌∷◌, [], length, take, IfOk, OnOk, OnErr, decimal};
ghost use Rattle.lu_base.specs.Values.{client_text, target_text, node_text};
ghost use Rattle.lu_trace.specs.Words.{words};
ghost use Rattle.lu_trace.specs.Calls.{call_words, call_text};
ghost use Rattle.lu_scene.specs.Words.{header_text, verb_text};
ghost use Rattle.lu_scene.specs.Grammar.{SceneFits, HasShortLines, IsScene};
ghost use Rattle.lu_scene.specs.Print.{lines_text, header_words, head_words, slot_text, line_words, scene_text};

use super::scene::{Head, Scene, SceneLine};
use super::words::{Header, Verb};
use lu_base::{Bytes, Memory, Node, TargetId, put_client, put_node, put_number, put_target};
use lu_msg::Call;
use lu_trace::{put_call, put_with_number, then_number};
use std::alloc::Global;

/// The text of a scenario: the seven lines of its head and its lines, each ended by a line feed,
/// with one space between words.
pub fn print_scene(alloc: Global, scene: &Scene) -> Result<Bytes, Memory>
    // The text is the scenario's.
    ensures text { IfOk result (λ text. text ≡ scene_text scene.now) }
    // It is read as the scenario, where that keeps the limits and no line is too long.
    ensures scenario { IfOk result (λ text. SceneFits scene.now → HasShortLines scene.now → IsScene text scene.now) }
{
    let mut out = Bytes::new(alloc);
    put_head(&mut out, &scene.head)?;
    for line in scene.lines.as_slice() {
        put_line(&mut out, line)?;
        out.push(b'\n')?;
    }
    Ok(out)
}

/// Appends the lines of the head.
fn put_head(out: &mut Bytes, head: &Head) -> Result<(), Memory>
    ensures put { OnOk result (out.new ≡ out.old ++ lines_text (head_words head.now)) }
{
    put_header(out, Header::Clients, head.clients as u64)?;
    put_header(out, Header::Osts, head.osts as u64)?;
    put_header(out, Header::Expire, head.expire)?;
    put_header(out, Header::Dirty, head.dirty)?;
    put_header(out, Header::Unused, head.unused as u64)?;
    put_header(out, Header::Rounds, head.rounds)?;
    put_header(out, Header::Flight, head.flight as u64)?;
    Ok(())
}

/// Appends a line of the head.
fn put_header(out: &mut Bytes, header: Header, n: u64) -> Result<(), Memory>
    ensures put { OnOk result (out.new ≡ out.old ++ (words (header_words header n) ++ 10 ∷ [])) }
{
    put_with_number(out, header.text(), n)?;
    out.push(b'\n')
}

/// Appends a line that isn't of the head, without its line feed.
fn put_line(out: &mut Bytes, line: &SceneLine) -> Result<(), Memory>
    ensures put { OnOk result (out.new ≡ out.old ++ words (line_words line.now)) }
{
    match line {
        SceneLine::Call { client, slot, call } => put_call_line(out, *client, *slot, call),
        SceneLine::Run => out.extend(Verb::Run.text()),
        SceneLine::RunSome(turns) => put_with_number(out, Verb::Run.text(), *turns),
        SceneLine::Deliver(number) => put_with_number(out, Verb::Deliver.text(), *number),
        SceneLine::Lose(number) => put_with_number(out, Verb::Lose.text(), *number),
        SceneLine::Tick(node) => put_tick(out, *node),
        SceneLine::Commit(target) => put_targeted(out, Verb::Commit, *target),
        SceneLine::CommitSome { target, count } => {
            put_targeted(out, Verb::Commit, *target)?;
            then_number(out, *count)
        }
        SceneLine::Crash(target) => put_targeted(out, Verb::Crash, *target),
        SceneLine::Boot(target) => put_targeted(out, Verb::Boot, *target),
        SceneLine::Close(target) => put_targeted(out, Verb::Close, *target),
        SceneLine::Die(client) => {
            out.extend(Verb::Die.text())?;
            out.push(b' ')?;
            put_client(out, *client)
        }
    }
}

/// Appends a line of a verb and a target.
fn put_targeted(out: &mut Bytes, verb: Verb, target: TargetId) -> Result<(), Memory>
    ensures put { OnOk result (out.new ≡ out.old ++ (verb_text verb ++ 32 ∷ target_text target.0)) }
{
    out.extend(verb.text())?;
    out.push(b' ')?;
    put_target(out, target)
}

/// Appends a `tick`.
fn put_tick(out: &mut Bytes, node: Node) -> Result<(), Memory>
    ensures put { OnOk result (out.new ≡ out.old ++ (verb_text Verb.Tick ++ 32 ∷ node_text node)) }
{
    out.extend(Verb::Tick.text())?;
    out.push(b' ')?;
    put_node(out, node)
}

/// Appends a call and the slot on which it begins.
#[tactic(auto, using(crate::proofs::Printed::call_behind, std::proofs::Common::append_assoc))]
fn put_call_line(out: &mut Bytes, client: u16, slot: u8, call: &Call) -> Result<(), Memory>
    ensures put { OnOk result (out.new ≡ out.old ++ words (line_words (SceneLine.Call client slot call.now))) }
{
    out.extend(Verb::Call.text())?;
    put_slot(out, client, slot)?;
    out.push(b' ')?;
    put_call(out, call)
}

/// Appends a space and a client and its slot.
fn put_slot(out: &mut Bytes, client: u16, slot: u8) -> Result<(), Memory>
    ensures put { OnOk result (out.new ≡ out.old ++ 32 ∷ slot_text client slot) }
{
    then_number(out, u64::from(client))?;
    out.push(b'.')?;
    put_number(out, u64::from(slot))
}
