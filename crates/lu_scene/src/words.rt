//! The words with which lines and calls begin.

ghost use Rattle.std.specs.Prelude.{◌≡◌};
ghost use Rattle.lu_scene.specs.Words.{header_text, header_of, verb_text, verb_of, name_text, call_name_of};

/// A line of the head.
#[derive(Clone, Copy, Debug, PartialEq, Eq)]
pub enum Header {
    Clients,
    Osts,
    Expire,
    Dirty,
    Unused,
    Rounds,
    Flight,
}

/// The lines of the head, in the order in which they are printed.
const HEADERS: [Header; 7] = [
    Header::Clients,
    Header::Osts,
    Header::Expire,
    Header::Dirty,
    Header::Unused,
    Header::Rounds,
    Header::Flight,
];

impl Header {
    /// The word with which the line begins.
    pub fn text(self) -> &'static [u8]
        ensures text { result.now ≡ header_text self }
    {
        match self {
            Header::Clients => b"clients",
            Header::Osts => b"osts",
            Header::Expire => b"expire",
            Header::Dirty => b"dirty",
            Header::Unused => b"unused",
            Header::Rounds => b"rounds",
            Header::Flight => b"flight",
        }
    }
}

/// The line of the head that begins with this word.
pub fn header_of(word: &[u8]) -> Option<Header>
    ensures header { result ≡ header_of word.now }
{
    HEADERS.iter().copied().find(|header| header.text() == word)
}

/// What a line does that isn't of the head.
#[derive(Clone, Copy, Debug, PartialEq, Eq)]
pub enum Verb {
    Call,
    Run,
    Deliver,
    Lose,
    Tick,
    Commit,
    Crash,
    Boot,
    Close,
    Die,
}

/// All of these.
const VERBS: [Verb; 10] = [
    Verb::Call,
    Verb::Run,
    Verb::Deliver,
    Verb::Lose,
    Verb::Tick,
    Verb::Commit,
    Verb::Crash,
    Verb::Boot,
    Verb::Close,
    Verb::Die,
];

impl Verb {
    /// The word with which the line begins.
    pub fn text(self) -> &'static [u8]
        ensures text { result.now ≡ verb_text self }
    {
        match self {
            Verb::Call => b"call",
            Verb::Run => b"run",
            Verb::Deliver => b"deliver",
            Verb::Lose => b"lose",
            Verb::Tick => b"tick",
            Verb::Commit => b"commit",
            Verb::Crash => b"crash",
            Verb::Boot => b"boot",
            Verb::Close => b"close",
            Verb::Die => b"die",
        }
    }
}

/// What a line that begins with this word does.
pub fn verb_of(word: &[u8]) -> Option<Verb>
    ensures verb { result ≡ verb_of word.now }
{
    VERBS.iter().copied().find(|verb| verb.text() == word)
}

/// The name of a call.
#[derive(Clone, Copy, Debug, PartialEq, Eq)]
pub enum CallName {
    Lookup,
    Stat,
    List,
    Layout,
    Mkdir,
    Create,
    Link,
    Unlink,
    Rmdir,
    Rename,
    Chmod,
    Open,
    Close,
    Read,
    Write,
    Cut,
    Flush,
    Glimpse,
}

/// All of these.
const CALL_NAMES: [CallName; 18] = [
    CallName::Lookup,
    CallName::Stat,
    CallName::List,
    CallName::Layout,
    CallName::Mkdir,
    CallName::Create,
    CallName::Link,
    CallName::Unlink,
    CallName::Rmdir,
    CallName::Rename,
    CallName::Chmod,
    CallName::Open,
    CallName::Close,
    CallName::Read,
    CallName::Write,
    CallName::Cut,
    CallName::Flush,
    CallName::Glimpse,
];

impl CallName {
    /// The word that names the call.
    pub fn text(self) -> &'static [u8]
        ensures text { result.now ≡ name_text self }
    {
        match self {
            CallName::Lookup => b"lookup",
            CallName::Stat => b"stat",
            CallName::List => b"list",
            CallName::Layout => b"layout",
            CallName::Mkdir => b"mkdir",
            CallName::Create => b"create",
            CallName::Link => b"link",
            CallName::Unlink => b"unlink",
            CallName::Rmdir => b"rmdir",
            CallName::Rename => b"rename",
            CallName::Chmod => b"chmod",
            CallName::Open => b"open",
            CallName::Close => b"close",
            CallName::Read => b"read",
            CallName::Write => b"write",
            CallName::Cut => b"cut",
            CallName::Flush => b"flush",
            CallName::Glimpse => b"glimpse",
        }
    }
}

/// The call of this name.
pub fn call_name_of(word: &[u8]) -> Option<CallName>
    ensures name { result ≡ call_name_of word.now }
{
    CALL_NAMES.iter().copied().find(|name| name.text() == word)
}
