//! Scenarios that are made from a number.

ghost use Rattle.std.specs.Prelude.{◌≡◌, ℕ, ◌+◌, ◌≤◌, ◌<◌, List, [], ◌∷◌, ◌++◌, IfOk, OnOk};
ghost use Rattle.std.specs.List.{flat_map};
ghost use Rattle.rand_xoshiro.specs.SplitMix64.{mix_u64};
ghost use Rattle.lu_scene.specs.Storms.{draw_of, handle_of, offset_of, short_path, call_of, called, directory, file, other_lines, drawn_lines, run_if, word_lines, words, begun, creates, opens, opening, storm_of};

use super::scene::{Head, Lines, Scene, SceneLine};
use lu_base::{Bytes, Memory, Name, Node, Path, TargetId};
use lu_msg::Call;
use rand_core::SeedableRng;
use rand_core::utils::NextWord;
use rand_xoshiro::SplitMix64;
use std::alloc::Global;

/// How many words a storm draws.
const WORDS: usize = 2000;

/// How many bytes each read and write has.
const PIECE: usize = 512;

/// The stripe size of both files, in bytes, and their number of stripes.
const STRIPES: (u64, i32) = (65536, 2);

/// What a word says.
#[derive(Clone, Copy)]
pub(crate) struct Draw {
    /// The client that calls, 0 to 3.
    client: u16,
    /// What is called, 0 to 15.
    kind: u8,
    /// The directory, 0 to 7. It tells the file, too, and what is written.
    name: u8,
    /// The page of the file, 0 to 31.
    page: u8,
    /// Whether the scenario runs after it.
    runs: bool,
    /// The slot of the call, 0 to 3.
    slot: u8,
}

impl Draw {
    /// What a word says.
    fn of(word: u64) -> Draw
        ensures { result ≡ draw_of word }
    {
        Draw {
            client: (word % 4) as u16,
            kind: (word / 4 % 16) as u8,
            name: (word / 64 % 8) as u8,
            page: (word / 512 % 32) as u8,
            runs: word / 16384 % 2 == 1,
            slot: (word / 32768 % 4) as u8,
        }
    }

    /// The file's number, which is that of the handle under which each client has it open.
    fn handle(self) -> u8
        ensures { result ≡ handle_of self }
    {
        self.name % 2
    }

    /// The start of the page, in bytes.
    fn offset(self) -> u64
        ensures { result ≡ offset_of self }
    {
        u64::from(self.page) * 4096
    }

    /// The call that a word of a kind below 15 says.
    fn call(self, alloc: Global) -> Result<Call, Memory>
        requires name { self.name < 8 }
        ensures call { IfOk result (λ call. call ≡ call_of self) }
    {
        match self.kind {
            0..=4 => Ok(Call::Write {
                handle: self.handle(),
                offset: self.offset(),
                bytes: Bytes::from_slice(alloc, [self.name; PIECE].as_slice())?,
            }),
            5..=7 => Ok(Call::Read {
                handle: self.handle(),
                offset: self.offset(),
                length: PIECE as u64,
            }),
            8 => Ok(Call::Mkdir(directory(alloc, self.name)?)),
            9 => Ok(Call::Rmdir(directory(alloc, self.name)?)),
            10 => Ok(Call::List(Path::new(alloc))),
            11 => Ok(Call::Stat(file(alloc, self.handle())?)),
            12 => Ok(Call::Rename {
                old: directory(alloc, self.name)?,
                new: directory(alloc, (self.name + 1) % 8)?,
            }),
            13 => Ok(Call::Cut {
                handle: self.handle(),
                size: self.offset(),
            }),
            _ => Ok(Call::Lookup(directory(alloc, self.name)?)),
        }
    }

    /// A call on the word's client and slot.
    fn calls(self, call: Call) -> SceneLine
        ensures line { result ∷ [] ≡ called self call }
    {
        SceneLine::Call {
            client: self.client,
            slot: self.slot,
            call,
        }
    }

    /// Adds what a word of kind 15 says.
    fn push_other(self, lines: &mut Lines) -> Result<(), Memory>
        ensures added { OnOk result (lines.new ≡ lines.old ++ other_lines self) }
    {
        let target = TargetId(u16::from(self.page % 3));
        match self.name {
            0..=2 => lines.push(SceneLine::Commit(TargetId(u16::from(self.name)))),
            3 => {
                lines.push(SceneLine::Crash(target))?;
                lines.push(SceneLine::Boot(target))
            }
            4 => lines.push(SceneLine::Tick(Node::Target(target.0))),
            5 => lines.push(self.calls(Call::Glimpse(self.handle()))),
            6 => lines.push(self.calls(Call::Flush(self.handle()))),
            _ => lines.push(SceneLine::Run),
        }
    }

    /// Adds what a word says, but for the run after it.
    fn push(self, alloc: Global, lines: &mut Lines) -> Result<(), Memory>
        requires name { self.name < 8 }
        ensures added { OnOk result (lines.new ≡ lines.old ++ drawn_lines self) }
    {
        if self.kind < 15 {
            lines.push(self.calls(self.call(alloc)?))
        } else {
            self.push_other(lines)
        }
    }

    /// Adds the run after what the word says, if there is one.
    fn push_run(self, lines: &mut Lines) -> Result<(), Memory>
        ensures added { OnOk result (lines.new ≡ lines.old ++ run_if self.runs) }
    {
        if self.runs {
            lines.push(SceneLine::Run)?;
        }
        Ok(())
    }
}

/// A path of one letter and one digit.
fn short_path(alloc: Global, letter: u8, digit: u8) -> Result<Path, Memory>
    requires digit { digit ≤ 9 }
    ensures path { IfOk result (λ path. path ≡ short_path letter digit) }
{
    let mut path = Path::new(alloc);
    path.push(Name::from_slice(alloc, [letter, b'0' + digit].as_slice())?)?;
    Ok(path)
}

/// The directory of this number.
fn directory(alloc: Global, name: u8) -> Result<Path, Memory>
    requires name { name ≤ 9 }
    ensures path { IfOk result (λ path. path ≡ directory name) }
{
    short_path(alloc, b'd', name)
}

/// The file of this number.
fn file(alloc: Global, handle: u8) -> Result<Path, Memory>
    requires handle { handle ≤ 9 }
    ensures path { IfOk result (λ path. path ≡ file handle) }
{
    short_path(alloc, b'f', handle)
}

/// Adds what a word says.
fn push_word(alloc: Global, lines: &mut Lines, word: u64) -> Result<(), Memory>
    ensures added { OnOk result (lines.new ≡ lines.old ++ word_lines word) }
{
    let draw = Draw::of(word);
    draw.push(alloc, lines)?;
    draw.push_run(lines)?;
    Ok(())
}

/// Adds what so many words of this seed say.
#[tactic(auto, unfolding(crate::specs::Storms::words))]
fn push_words(alloc: Global, lines: &mut Lines, seed: u64, count: usize) -> Result<(), Memory>
    ensures added { OnOk result (lines.new ≡ lines.old ++ flat_map word_lines (words count seed)) }
{
    let mut generator = SplitMix64::seed_from_u64(seed);
    for _place in 0..count {
        push_word(alloc, lines, generator.next_word())?;
    }
    Ok(())
}

/// Adds a call on slot 0 of this client, which runs to its end.
fn push_begun(lines: &mut Lines, client: u16, call: Call) -> Result<(), Memory>
    ensures added { OnOk result (lines.new ≡ lines.old ++ begun client call) }
{
    lines.push(SceneLine::Call {
        client,
        slot: 0,
        call,
    })?;
    lines.push(SceneLine::Run)
}

/// Adds the making of a file by client 0.
fn push_creates(alloc: Global, lines: &mut Lines, handle: u8) -> Result<(), Memory>
    requires handle { handle ≤ 9 }
    ensures added { OnOk result (lines.new ≡ lines.old ++ creates handle) }
{
    let path = file(alloc, handle)?;
    push_begun(
        lines,
        0,
        Call::Create {
            path,
            stripes: Some(STRIPES),
        },
    )
}

/// Adds that a client opens both files.
fn push_opens(alloc: Global, lines: &mut Lines, client: u16) -> Result<(), Memory>
    ensures added { OnOk result (lines.new ≡ lines.old ++ opens client) }
{
    let path = file(alloc, 0)?;
    push_begun(lines, client, Call::Open { handle: 0, path })?;
    let path = file(alloc, 1)?;
    push_begun(lines, client, Call::Open { handle: 1, path })
}

/// The lines before the first word's.
fn opening(alloc: Global) -> Result<Lines, Memory>
    ensures lines { IfOk result (λ lines. lines ≡ opening) }
{
    let mut lines = Lines::new(alloc);
    push_creates(alloc, &mut lines, 0)?;
    push_creates(alloc, &mut lines, 1)?;
    push_opens(alloc, &mut lines, 0)?;
    push_opens(alloc, &mut lines, 1)?;
    push_opens(alloc, &mut lines, 2)?;
    push_opens(alloc, &mut lines, 3)?;
    Ok(lines)
}

/// The storm of this number: four clients that call at random on eight directories and two files over two object storage
/// targets, and commits, crashes, boots and ticks of the targets between their calls. The same number gives the same
/// scenario. It has 20 lines, 2,000 words of one to three lines each, and a last run.
pub fn storm(alloc: Global, seed: u64) -> Result<Scene, Memory>
    ensures storm { IfOk result (λ scene. scene ≡ storm_of seed) }
{
    let mut lines = opening(alloc)?;
    push_words(alloc, &mut lines, seed, WORDS)?;
    lines.push(SceneLine::Run)?;
    let head = Head {
        clients: 4,
        osts: 2,
        ..Head::plain()
    };
    Ok(Scene { head, lines })
}
