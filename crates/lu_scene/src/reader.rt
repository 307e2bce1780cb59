//! Reading a scenario, line by line.

ghost use Rattle.std.specs.Prelude.{◌≡◌, ℕ, ◌+◌, ◌==◌, ◌≤◌, ◌&&◌, nat_le, map, IfOk, Ok, Err, ◌⊎◌};
ghost use Rattle.std.specs.List.{list_all};
ghost use Rattle.lu_scene.specs.Gives.{Gives};
ghost use Rattle.lu_scene.specs.Ends.{Ends};
ghost use Rattle.lu_scene.specs.Grammar.{IsScene, IsFirstFault};
ghost use Rattle.lu_scene.specs.declared.faults.Fault.{Fault};
ghost use Rattle.lu_scene.specs.declared.scene.Scene.{Scene};
ghost use Rattle.lu_scene.specs.Lines.{nothing, lines_after, lines_of, words_of, is_plain, is_comment, one_number, one_target, call_line, run_line, tick_line, commit_line, die_line, line_of};

use super::calls::call_of;
use super::faults::{Fault, LineError, SceneFault};
use super::fields::{client_at, node_at, number_in, slot_at, target_at};
use super::scene::{Head, Lines, Scene, SceneLine};
use super::words::{Header, Verb, call_name_of, header_of, verb_of};
use lu_base::{Sequence, TargetId};
use std::alloc::{AllocError, Global};

/// The most bytes of a line.
const MOST_LINE_BYTES: usize = 2000;

/// The most turns or commits that a line asks for.
const MOST_TIMES: u64 = 65536;

/// The greatest number of a message that a line names.
const MOST_MESSAGE: u64 = 1_000_000;

/// What was read so far.
#[derive(Drop)]
pub struct Progress {
    /// The head so far.
    pub head: Head,
    /// Which lines of the head stood.
    pub given: Sequence<Header>,
    /// The lines so far.
    pub lines: Lines,
}

/// The lines of a text.
fn lines_of(alloc: Global, text: &[u8]) -> Result<Vec<&[u8]>, AllocError>
    ensures lines { IfOk result (λ lines. map (λ line. line.now) lines.items ≡ lines_of text.now) }
{
    text.split(|b| *b == b'\n').collect(alloc)
}

/// The words of a line.
fn words_of(alloc: Global, line: &[u8]) -> Result<Vec<&[u8]>, AllocError>
    ensures words { IfOk result (λ words. map (λ word. word.now) words.items ≡ words_of line.now) }
{
    line.split(|b| *b == b' ')
        .filter(|word| !word.is_empty())
        .collect(alloc)
}

/// Whether a line has at most 2,000 bytes, each from 32 to 126.
fn is_plain(line: &[u8]) -> bool
    ensures plain { result ≡ is_plain line.now }
{
    line.len() <= MOST_LINE_BYTES && are_plain(line)
}

/// Whether each byte is from 32 to 126.
fn are_plain(line: &[u8]) -> bool
    ensures plain { result ≡ list_all (λ b. nat_le 32 b && nat_le b 126) line.now }
{
    line.iter().all(|b| 32 <= *b && *b <= 126)
}

/// Whether a line begins with `#`.
fn is_comment(line: &[u8]) -> bool
    ensures comment { result ≡ is_comment line.now }
{
    match line.first() {
        Some(b) => *b == b'#',
        None => false,
    }
}

/// One number.
fn one_number(words: &[&[u8]], least: u64, most: u64) -> Result<u64, LineError>
    ensures number { Gives result (one_number least most (map (λ w. w.now) words.now)) }
{
    match words {
        [word] => number_in(word, least, most),
        _ => Err(LineError::Bad(Fault::Fields)),
    }
}

/// One target.
fn one_target(words: &[&[u8]], osts: u16) -> Result<TargetId, LineError>
    ensures target { Gives result (one_target osts (map (λ w. w.now) words.now)) }
{
    match words {
        [word] => target_at(word, osts),
        _ => Err(LineError::Bad(Fault::Fields)),
    }
}

/// A `call`: a client and a slot, a name, and the words of the call.
fn call_line(alloc: Global, head: &Head, words: &[&[u8]]) -> Result<SceneLine, LineError>
    ensures line { Gives result (call_line head.now (map (λ w. w.now) words.now)) }
{
    match words {
        [place, word, rest @ ..] => {
            let (client, slot) = slot_at(alloc, place, head.clients)?;
            let Some(name) = call_name_of(word) else {
                return Err(LineError::Bad(Fault::UnknownCall));
            };
            let call = call_of(alloc, name, rest)?;
            Ok(SceneLine::Call { client, slot, call })
        }
        [] => Err(LineError::Bad(Fault::Fields)),
        [_] => Err(LineError::Bad(Fault::Fields)),
    }
}

/// A `run`, perhaps with a number of turns.
fn run_line(words: &[&[u8]]) -> Result<SceneLine, LineError>
    ensures line { Gives result (run_line (map (λ w. w.now) words.now)) }
{
    match words {
        [] => Ok(SceneLine::Run),
        _ => {
            let turns = one_number(words, 1, MOST_TIMES)?;
            Ok(SceneLine::RunSome(turns))
        }
    }
}

/// A `tick`: a node.
fn tick_line(head: &Head, words: &[&[u8]]) -> Result<SceneLine, LineError>
    ensures line { Gives result (tick_line head.now (map (λ w. w.now) words.now)) }
{
    match words {
        [word] => {
            let node = node_at(word, head.clients, head.osts)?;
            Ok(SceneLine::Tick(node))
        }
        _ => Err(LineError::Bad(Fault::Fields)),
    }
}

/// A `commit`: a target, and perhaps a number of transactions.
fn commit_line(head: &Head, words: &[&[u8]]) -> Result<SceneLine, LineError>
    ensures line { Gives result (commit_line head.now (map (λ w. w.now) words.now)) }
{
    match words {
        [word] => {
            let target = target_at(word, head.osts)?;
            Ok(SceneLine::Commit(target))
        }
        [word, second] => {
            let target = target_at(word, head.osts)?;
            let count = number_in(second, 1, MOST_TIMES)?;
            Ok(SceneLine::CommitSome { target, count })
        }
        _ => Err(LineError::Bad(Fault::Fields)),
    }
}

/// A `die`: a client.
fn die_line(head: &Head, words: &[&[u8]]) -> Result<SceneLine, LineError>
    ensures line { Gives result (die_line head.now (map (λ w. w.now) words.now)) }
{
    match words {
        [word] => {
            let client = client_at(word, head.clients)?;
            Ok(SceneLine::Die(client))
        }
        _ => Err(LineError::Bad(Fault::Fields)),
    }
}

/// The line that begins so, with these words after its first.
fn line_of(alloc: Global, head: &Head, verb: Verb, words: &[&[u8]]) -> Result<SceneLine, LineError>
    ensures line { Gives result (line_of head.now verb (map (λ w. w.now) words.now)) }
{
    match verb {
        Verb::Call => call_line(alloc, head, words),
        Verb::Run => run_line(words),
        Verb::Deliver => Ok(SceneLine::Deliver(one_number(words, 1, MOST_MESSAGE)?)),
        Verb::Lose => Ok(SceneLine::Lose(one_number(words, 1, MOST_MESSAGE)?)),
        Verb::Tick => tick_line(head, words),
        Verb::Commit => commit_line(head, words),
        Verb::Crash => Ok(SceneLine::Crash(one_target(words, head.osts)?)),
        Verb::Boot => Ok(SceneLine::Boot(one_target(words, head.osts)?)),
        Verb::Close => Ok(SceneLine::Close(one_target(words, head.osts)?)),
        Verb::Die => die_line(head, words),
    }
}

impl Header {
    ghost use Rattle.lu_scene.specs.Lines.{least_of, most_of};

    /// The least number that may stand.
    fn least(self) -> u64
        ensures least { result ≡ least_of self }
    {
        match self {
            Header::Dirty => 4096,
            _ => 1,
        }
    }

    /// The greatest number that may stand.
    fn most(self) -> u64
        ensures most { result ≡ most_of self }
    {
        match self {
            Header::Clients => 16,
            Header::Osts => 8,
            Header::Expire => 1000,
            Header::Dirty => 1 << 30,
            Header::Unused => 100_000,
            Header::Rounds => 1_000_000,
            Header::Flight => 8,
        }
    }
}

impl Head {
    ghost use Rattle.lu_scene.specs.Lines.{default_head, most_of, with_number};

    /// The head where nothing is said.
    pub(crate) fn plain() -> Head
        ensures head { result ≡ default_head }
    {
        Head {
            clients: 1,
            osts: 1,
            expire: 8,
            dirty: 1 << 20,
            unused: 64,
            rounds: 1_000_000,
            flight: 1,
        }
    }

    /// The head with the number of one of its lines.
    fn with_number(self, header: Header, n: u64) -> Head
        requires { n ≤ most_of header }
        ensures head { result ≡ with_number header n self }
    {
        let mut head = self;
        match header {
            Header::Clients => head.clients = n as u16,
            Header::Osts => head.osts = n as u16,
            Header::Expire => head.expire = n,
            Header::Dirty => head.dirty = n,
            Header::Unused => head.unused = n as u32,
            Header::Rounds => head.rounds = n,
            Header::Flight => head.flight = n as u16,
        }
        head
    }
}

impl Progress {
    ghost use Rattle.std.specs.Prelude.{◌++◌, ◌∷◌, [], Ok};
    ghost use Rattle.lu_scene.specs.Gives.{Follows};
    ghost use Rattle.lu_scene.specs.Lines.{header_after, said_after, words_after, line_after, nothing, is_given};

    /// Nothing was read yet.
    fn nothing(alloc: Global) -> Progress
        ensures nothing { result ≡ nothing }
    {
        Progress {
            head: Head::plain(),
            given: Sequence::new(alloc),
            lines: Sequence::new(alloc),
        }
    }

    /// Whether this line of the head stood before.
    fn is_given(&self, header: Header) -> bool
        ensures given { result ≡ is_given header self.now.given }
    {
        self.given.as_slice().iter().any(|other| *other == header)
    }

    /// Takes a line of the head.
    fn take_header(&mut self, header: Header, words: &[&[u8]]) -> Result<(), LineError>
        ensures after { Follows result self.new (header_after self.old header (map (λ w. w.now) words.now)) }
    {
        if self.is_given(header) || !self.lines.is_empty() {
            return Err(LineError::Bad(Fault::Header));
        }
        let n = one_number(words, header.least(), header.most())?;
        self.given.push(header)?;
        self.head = self.head.with_number(header, n);
        Ok(())
    }

    /// Takes the words of a line.
    fn take_words(&mut self, alloc: Global, words: &[&[u8]]) -> Result<(), LineError>
        ensures after { Follows result self.new (words_after self.old (map (λ w. w.now) words.now)) }
    {
        let Some((first, rest)) = words.split_first() else {
            return Ok(());
        };
        if let Some(header) = header_of(first) {
            return self.take_header(header, rest);
        }
        let Some(verb) = verb_of(first) else {
            return Err(LineError::Bad(Fault::UnknownLine));
        };
        let line = line_of(alloc, &self.head, verb, rest)?;
        self.lines.push(line)?;
        Ok(())
    }

    /// Takes a line.
    #[tactic(auto, unfolding(crate::specs::Lines::line_after))]
    fn take_line(&mut self, alloc: Global, line: &[u8]) -> Result<(), LineError>
        ensures after { Follows result self.new (line_after self.old line.now) }
    {
        if !is_plain(line) {
            return Err(LineError::Bad(Fault::Line));
        }
        if is_comment(line) {
            return Ok(());
        }
        let words = words_of(alloc, line)?;
        self.take_words(alloc, words.as_slice())
    }
}

/// What a text says, line by line.
fn read(alloc: Global, text: &[u8]) -> Result<Progress, SceneFault>
    ensures read { Ends result (lines_after 1 nothing (lines_of text.now)) }
{
    let lines = lines_of(alloc, text)?;
    let mut progress = Progress::nothing(alloc);
    for (place, line) in lines.iter().enumerate() {
        if let Err(error) = progress.take_line(alloc, line) {
            return Err(error.on_line(place as u64 + 1));
        }
    }
    Ok(progress)
}

/// The scenario that a text is. `Bad` names the first line that is wrong, from 1, and what is wrong
/// with it: lines are counted with those that say nothing, and each is looked at as [`Fault`] says,
/// its words from left to right.
pub fn read_scene(alloc: Global, text: &[u8]) -> Result<Scene, SceneFault>
    // What is read is a scenario: that one.
    ensures scene { IfOk result (λ scene. IsScene text.now scene) }
    // A scenario is read, unless memory runs out.
    ensures only { (scene : Scene) → IsScene text.now scene → (result ≡ Ok scene) ⊎ (result ≡ Err SceneFault.Memory) }
    // What is wrong is the first bad line, with its first fault.
    ensures fault { (n : ℕ) (f : Fault) → result ≡ Err (SceneFault.Bad n f) → IsFirstFault (lines_of text.now) n f }
{
    let progress = read(alloc, text)?;
    Ok(Scene {
        head: progress.head,
        lines: progress.lines,
    })
}
