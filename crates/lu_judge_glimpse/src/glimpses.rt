//! The law of glimpses, decided at the end of each turn.
//!
//! What a glimpse is told may be a size that an object has when the turn ends. So a line isn't judged when it comes: what
//! it tells is compared with the sizes that were seen since the call began, and what is left over with the objects when
//! the turn ends. Sizes are seen after each turn, and after each line by which a call begins or is told.

ghost use Rattle.std.specs.Prelude.{◌≡◌, ℕ, ◌+◌, ◌-◌, ◌<◌, ◌≤◌, Bool, true, false, if◌then◌else◌, ◌==◌, ◌&&◌, nat_lt, Option, Some, None, List, [], ◌∷◌, ◌++◌, reverse, length, drop, IfOk, OnOk, IfSome, IfNone, IsSome, ◌↔◌};
ghost use Rattle.std.specs.HashMap.{values};
ghost use Rattle.lu_base.specs.declared.ids.Fid.{Fid};
ghost use Rattle.lu_trace.specs.declared.entries.Line.{Line};
ghost use Rattle.lu_trace.specs.WellFormed.{IsWellFormed};
ghost use Rattle.lu_spec_laws.specs.Words.Pasts.{Past};
ghost use Rattle.lu_spec_laws.specs.Words.Lives.{is_gone};
ghost use Rattle.lu_spec_laws.specs.Words.Calls.{file_of, open_call};
ghost use Rattle.lu_spec_laws.specs.Words.Glimpses.{machine_cut, is_moment, goes_on};
ghost use Rattle.lu_spec_laws.specs.Holds.{Holds};
ghost use Rattle.lu_spec_laws.specs.Laws.Messages.{Messages};
ghost use Rattle.lu_spec_laws.specs.Laws.Glimpse.{Glimpse as GlimpseLaw};
ghost use Rattle.lu_judge_pass.specs.Firsts.{IsFirst, before};
ghost use Rattle.lu_judge_pass.specs.Ledgers.{ShowsGone};
ghost use Rattle.lu_judge_calls.specs.Tables.{begun_of};
ghost use Rattle.lu_judge_glimpse.specs.Begins.{begun_place};
ghost use Rattle.lu_judge_glimpse.specs.Sightings.{last_in};
ghost use Rattle.lu_judge_glimpse.specs.Histories.{ShowsHistory};
ghost use Rattle.lu_judge_glimpse.specs.Shown.{Shown, Looked, Stepped, ends, is_cut, law_of, watch_at};
ghost use Rattle.lu_judge_glimpse.specs.Tables.{ShowsTables};
ghost use Rattle.lu_judge_glimpse.specs.Told.{told_entry};
ghost use Rattle.lu_judge_glimpse.specs.Watched.{logged, seen_after, heard_after, watch_begun, watch_after};

use super::tables::Tables;
use super::wanted::{Wanted, first_unmet, want};
use crate::{Counts, History, Sightings, counts_in};
use lu_base::{At, Fid, Memory, Node};
use lu_judge_calls::Begun;
use lu_judge_pass::{Gone, gone_in, same_turn};
use lu_msg::Answer;
use lu_trace::{Entry, Line, Trace};
use std::alloc::Global;
use std::collections::HashMap;

/// A call that stands and will be told sizes.
#[derive(Clone, Copy, Debug)]
struct Watch {
    fid: Fid,
    /// At least how many it will be told: those of the stripes from 0 on.
    count: usize,
}

/// A pass over the lines of a trace.
#[derive(Drop)]
struct Pass<'a> {
    lines: &'a [Line],
    /// How many of them were taken in.
    place: usize,
    /// The lives that are gone in the whole trace.
    out: Gone,
    /// How many sizes calls are told in it.
    counts: Counts,
    tables: Tables<'a>,
    history: History<'a>,
    /// The sizes that objects had at moments at which a call stood that will be told them, and those that lives which
    /// were gone answered.
    sightings: Sightings,
    /// The calls that stand and will be told sizes, by client and slot.
    standing: HashMap<(u16, u8), Watch>,
    /// What was told in this turn and must be the size of an object when it ends.
    wanted: Vec<Wanted>,
}

/// The sizes of a file's objects, as many as are asked for, are seen at the line of this place.
fn see_file(
    sightings: &mut Sightings,
    history: &History,
    watch: Watch,
    place: usize,
) -> Result<(), Memory>
    requires built { IsSome history.now.machine }
    ensures seen { OnOk result ((past : Past) → ShowsHistory history.now past → (f : Fid) (s n : ℕ)
        → last_in sightings.new f s n
        ≡ seen_after (machine_cut history.now.osts past) place (watch.fid.0 == f.0 && nat_lt s watch.count) f s n
        (last_in sightings.old f s n)) }
{
    let mut stripe = 0;
    while stripe < watch.count {
        let size = history.size(watch.fid, stripe);
        sightings.note(watch.fid, stripe, size, place)?;
        stripe += 1;
    }
    Ok(())
}

/// The sizes of the objects of all files that are watched are seen at the line of this place.
fn see_files(
    sightings: &mut Sightings,
    history: &History,
    standing: &HashMap<(u16, u8), Watch>,
    place: usize,
) -> Result<(), Memory>
    requires built { IsSome history.now.machine }
    ensures seen { OnOk result ((past : Past) → ShowsHistory history.now past → (f : Fid) (s n : ℕ)
        → last_in sightings.new f s n
        ≡ seen_after (machine_cut history.now.osts past) place (logged (values standing.now) f s) f s n
        (last_in sightings.old f s n)) }
{
    for watch in standing.values() {
        see_file(sightings, history, *watch, place)?;
    }
    Ok(())
}

/// The file of a call on a handle.
fn file_of(begun: &Begun) -> Option<Fid>
    ensures { result ≡ file_of (begun_of begun.now) }
{
    match begun.bound {
        Some(binding) => Some(binding.fid),
        None => None,
    }
}

/// Compares what a line tells, next, with what was seen.
fn judge<'a>(
    wanted: &mut Vec<Wanted>,
    out: &Gone,
    tables: &Tables<'a>,
    sightings: &Sightings,
    line: &'a Line,
    place: usize,
) -> Result<(), Memory>
    ensures wanted { OnOk result ((past : Past) → ShowsTables tables.now past
        → (whole : Past) → ShowsGone out.now whole
        → wanted.new.items ≡ wanted.old.items
        ++ told_entry sightings.now (is_gone whole) past place line.now.at.node line.now.entry) }
{
    match &line.entry {
        Entry::Told {
            slot,
            answer: Answer::Sizes(sizes),
            ..
        } => match line.at.node {
            Node::Client(client) => {
                if out.has(tables.ledger.lives.who(client)) {
                    return Ok(());
                }
                match tables.calls.call(client, *slot) {
                    Some(begun) => want(
                        wanted,
                        sightings,
                        file_of(&begun),
                        tables.begins.get(client, *slot),
                        place,
                        sizes.as_slice(),
                    ),
                    None => Ok(()),
                }
            }
            Node::Target(_) => Ok(()),
        },
        _ => Ok(()),
    }
}

/// Takes in what a life that is gone answers in a line, next.
fn hear(sightings: &mut Sightings, tables: &Tables, line: &Line, place: usize) -> Result<(), Memory>
    ensures heard { OnOk result ((past : Past) → ShowsTables tables.now past → (f : Fid) (stripe size : ℕ)
        → last_in sightings.new f stripe size
        ≡ heard_after past place line.now f stripe size (last_in sightings.old f stripe size)) }
{
    match &line.entry {
        Entry::Peek {
            target,
            cookie,
            size,
        } => match line.at.node {
            Node::Client(client) => {
                if !tables.gone.has(tables.ledger.lives.who(client)) {
                    return Ok(());
                }
                match tables.locks.get(target.0, *cookie) {
                    Some(resource) => sightings.note(
                        resource.fid,
                        usize::from(resource.stripe),
                        *size,
                        place,
                    ),
                    None => Ok(()),
                }
            }
            Node::Target(_) => Ok(()),
        },
        _ => Ok(()),
    }
}

/// Watches a call that began, where it will be told sizes. The tables have its line.
fn watch_call<'a>(
    standing: &mut HashMap<(u16, u8), Watch>,
    counts: &Counts,
    tables: &Tables<'a>,
    client: u16,
    slot: u8,
) -> Result<(), Memory>
    ensures watched { OnOk result ((past : Past) → ShowsTables tables.now past → (c s : ℕ)
        → watch_at standing.new c s
        ≡ (if client == c && slot == s
        then watch_begun counts.now (begun_place client slot past) (watch_at standing.old c s)
        (open_call client slot past)
        else watch_at standing.old c s)) }
{
    let Some(begun) = tables.calls.call(client, slot) else {
        return Ok(());
    };
    let Some(fid) = file_of(&begun) else {
        return Ok(());
    };
    let count = counts.get(tables.begins.get(client, slot));
    if count > 0 {
        standing.insert((client, slot), Watch { fid, count })?;
    }
    Ok(())
}

/// Watches a call that began in the line that was taken in last, and no longer one that was told.
fn watch_line<'a>(
    standing: &mut HashMap<(u16, u8), Watch>,
    counts: &Counts,
    tables: &Tables<'a>,
    line: &'a Line,
) -> Result<(), Memory>
    ensures watched { OnOk result ((past : Past) → ShowsTables tables.now past → (c s : ℕ)
        → watch_at standing.new c s ≡ watch_after counts.now past line.now c s (watch_at standing.old c s)) }
{
    match &line.entry {
        Entry::Begin { slot, .. } => match line.at.node {
            Node::Client(client) => watch_call(standing, counts, tables, client, *slot),
            Node::Target(_) => Ok(()),
        },
        Entry::Told { slot, .. } => match line.at.node {
            Node::Client(client) => {
                standing.remove(&(client, *slot));
                Ok(())
            }
            Node::Target(_) => Ok(()),
        },
        _ => Ok(()),
    }
}

/// Whether a call begins in the line or is told.
fn is_moment(line: &Line) -> bool
    ensures { result ≡ is_moment line.now }
{
    matches!(line.entry, Entry::Begin { .. } | Entry::Told { .. })
}

/// Whether nobody looks between the line and the next one, which is of this turn.
fn goes_on(line: &Line, next: At) -> bool
    ensures { result ≡ goes_on line.now next }
{
    same_turn(line.at, next) && !is_moment(line)
}

impl<'a> Pass<'a> {
    /// Takes in the next line.
    fn step(&mut self) -> Result<(), Memory>
        requires shown { Shown self.old }
        requires more { self.old.place < length self.old.lines.now }
        ensures stepped { OnOk result (Stepped self.new) }
        ensures place { OnOk result (self.new.place ≡ self.old.place + 1) }
        ensures lines { OnOk result (self.new.lines ≡ self.old.lines) }
        ensures osts { OnOk result (self.new.history.osts ≡ self.old.history.osts) }
    {
        let lines = self.lines;
        let line = &lines[self.place];
        judge(
            &mut self.wanted,
            &self.out,
            &self.tables,
            &self.sightings,
            line,
            self.place,
        )?;
        hear(&mut self.sightings, &self.tables, line, self.place)?;
        self.tables.tell(&mut self.history, line)?;
        self.tables.step(line, self.place)?;
        watch_line(&mut self.standing, &self.counts, &self.tables, line)?;
        self.place += 1;
        Ok(())
    }

    /// Whether the turn ends here.
    fn ends(&self) -> bool
        requires some { 0 < self.now.place }
        requires within { self.now.place ≤ length self.now.lines.now }
        ensures ends { result ≡ ends (before self.now.lines.now self.now.place)
            (drop self.now.place self.now.lines.now) }
    {
        if self.place == self.lines.len() {
            return true;
        }
        !same_turn(self.lines[self.place - 1].at, self.lines[self.place].at)
    }

    /// Whether the trace is cut here: sizes may be those of this moment.
    fn is_cut(&self) -> bool
        requires some { 0 < self.now.place }
        requires within { self.now.place ≤ length self.now.lines.now }
        ensures cut { result ≡ is_cut (before self.now.lines.now self.now.place)
            (drop self.now.place self.now.lines.now) }
    {
        if self.place == self.lines.len() {
            return true;
        }
        !goes_on(&self.lines[self.place - 1], self.lines[self.place].at)
    }

    /// Sees the objects of the files that are watched, where the trace is cut here.
    fn look(&mut self) -> Result<(), Memory>
        requires stepped { Stepped self.old }
        requires some { 0 < self.old.place }
        ensures looked { OnOk result (Looked self.new) }
        ensures place { OnOk result (self.new.place ≡ self.old.place) }
        ensures lines { OnOk result (self.new.lines ≡ self.old.lines) }
        ensures osts { OnOk result (self.new.history.osts ≡ self.old.history.osts) }
    {
        if !self.is_cut() {
            return Ok(());
        }
        if self.standing.len() == 0 {
            return Ok(());
        }
        self.tables.build(&mut self.history)?;
        see_files(
            &mut self.sightings,
            &self.history,
            &self.standing,
            self.place - 1,
        )?;
        Ok(())
    }

    /// Judges what was told in the turn that ends here: the place of the first line that breaks the law, if any does.
    fn end_turn(&mut self) -> Result<Option<usize>, Memory>
        requires looked { Looked self.old }
        requires ended { ends (before self.old.lines.now self.old.place) (drop self.old.place self.old.lines.now)
            ≡ true }
        ensures none { IfOk result (λ first. IfNone first (Shown self.new)) }
        ensures some { IfOk result (λ first. IfSome first (λ place. IsFirst (law_of self.new) self.new.lines.now
            (Some place))) }
        ensures place { OnOk result (self.new.place ≡ self.old.place) }
        ensures lines { OnOk result (self.new.lines ≡ self.old.lines) }
        ensures osts { OnOk result (self.new.history.osts ≡ self.old.history.osts) }
    {
        if self.wanted.len() == 0 {
            return Ok(None);
        }
        self.tables.build(&mut self.history)?;
        let first = first_unmet(&self.history, self.wanted.as_slice());
        self.wanted.clear();
        Ok(first)
    }
}

/// The place of the first line that breaks the law.
fn first_place(pass: Pass) -> Result<Option<usize>, Memory>
    requires shown { Shown pass }
    ensures { IfOk result (IsFirst (law_of pass.entry) pass.entry.lines.now) }
{
    let mut pass = pass;
    while pass.place < pass.lines.len() {
        pass.step()?;
        pass.look()?;
        if pass.ends() {
            if let Some(place) = pass.end_turn()? {
                return Ok(Some(place));
            }
        }
    }
    Ok(None)
}

/// The place, from 0, of the first line that breaks the law of glimpses; none exactly where the law holds of the trace. It
/// answers want of memory alone.
pub fn first_in_glimpse(alloc: Global, trace: &Trace) -> Result<Option<usize>, Memory>
    requires formed { IsWellFormed trace.now }
    requires messages { Holds Messages (reverse trace.now.entries) }
    ensures first { IfOk result (IsFirst (GlimpseLaw trace.now.osts (reverse trace.now.entries)) trace.now.entries) }
    ensures none { IfOk result (λ place. (place ≡ None)
        ↔ Holds (GlimpseLaw trace.now.osts (reverse trace.now.entries)) (reverse trace.now.entries)) }
{
    let lines = trace.entries.as_slice();
    first_place(Pass {
        lines,
        place: 0,
        out: gone_in(alloc, lines)?,
        counts: counts_in(alloc, lines)?,
        tables: Tables::new(alloc),
        history: History::new(alloc, trace.osts),
        sightings: Sightings::new(alloc),
        standing: HashMap::new(alloc),
        wanted: Vec::new(alloc),
    })
}
