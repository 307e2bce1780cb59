//! The words with which operations, answers, messages and entries begin.

ghost use Rattle.std.specs.Prelude.{◌≡◌};
ghost use Rattle.lu_trace.specs.Answers.{errno_text};
ghost use Rattle.lu_judge_reader.specs.Names.{op_word, op_name_of, answer_word, answer_name_of, message_word, message_name_of, entry_word, entry_name_of};

use lu_msg::Errno;

/// The first word of an operation.
#[derive(Clone, Copy, Debug, PartialEq, Eq)]
pub enum OpName {
    Lookup,
    Stat,
    List,
    Layout,
    Mkdir,
    Create,
    Link,
    Unlink,
    Rmdir,
    Rename,
    Chmod,
    Open,
    Close,
    Enqueue,
    Get,
    Put,
    Cut,
    Size,
}

/// All of these.
const OPERATIONS: [OpName; 18] = [
    OpName::Lookup,
    OpName::Stat,
    OpName::List,
    OpName::Layout,
    OpName::Mkdir,
    OpName::Create,
    OpName::Link,
    OpName::Unlink,
    OpName::Rmdir,
    OpName::Rename,
    OpName::Chmod,
    OpName::Open,
    OpName::Close,
    OpName::Enqueue,
    OpName::Get,
    OpName::Put,
    OpName::Cut,
    OpName::Size,
];

impl OpName {
    /// The word.
    pub fn word(self) -> &'static [u8]
        ensures word { result.now ≡ op_word self }
    {
        match self {
            OpName::Lookup => b"lookup",
            OpName::Stat => b"stat",
            OpName::List => b"list",
            OpName::Layout => b"layout",
            OpName::Mkdir => b"mkdir",
            OpName::Create => b"create",
            OpName::Link => b"link",
            OpName::Unlink => b"unlink",
            OpName::Rmdir => b"rmdir",
            OpName::Rename => b"rename",
            OpName::Chmod => b"chmod",
            OpName::Open => b"open",
            OpName::Close => b"close",
            OpName::Enqueue => b"enqueue",
            OpName::Get => b"get",
            OpName::Put => b"put",
            OpName::Cut => b"cut",
            OpName::Size => b"size",
        }
    }
}

/// What begins with this word.
pub fn op_name_of(word: &[u8]) -> Option<OpName>
    ensures name { result ≡ op_name_of word.now }
{
    OPERATIONS.iter().copied().find(|name| name.word() == word)
}

/// The first word of an answer.
#[derive(Clone, Copy, Debug, PartialEq, Eq)]
pub enum AnswerName {
    Fine,
    Dir,
    File,
    Names,
    Layout,
    Open,
    Granted,
    Waiting,
    Content,
    Size,
    Lock,
    Sizes,
    Uncovered,
    /// A refusal.
    Refused(Errno),
}

/// All of these.
const ANSWERS: [AnswerName; 24] = [
    AnswerName::Fine,
    AnswerName::Dir,
    AnswerName::File,
    AnswerName::Names,
    AnswerName::Layout,
    AnswerName::Open,
    AnswerName::Granted,
    AnswerName::Waiting,
    AnswerName::Content,
    AnswerName::Size,
    AnswerName::Lock,
    AnswerName::Sizes,
    AnswerName::Uncovered,
    AnswerName::Refused(Errno::ENOENT),
    AnswerName::Refused(Errno::EEXIST),
    AnswerName::Refused(Errno::ENOTDIR),
    AnswerName::Refused(Errno::EISDIR),
    AnswerName::Refused(Errno::ENOTEMPTY),
    AnswerName::Refused(Errno::EPERM),
    AnswerName::Refused(Errno::EINVAL),
    AnswerName::Refused(Errno::EBUSY),
    AnswerName::Refused(Errno::EBADF),
    AnswerName::Refused(Errno::ENAMETOOLONG),
    AnswerName::Refused(Errno::EIO),
];

impl AnswerName {
    /// The word.
    pub fn word(self) -> &'static [u8]
        ensures word { result.now ≡ answer_word self }
    {
        match self {
            AnswerName::Fine => b"ok",
            AnswerName::Dir => b"dir",
            AnswerName::File => b"file",
            AnswerName::Names => b"names",
            AnswerName::Layout => b"layout",
            AnswerName::Open => b"open",
            AnswerName::Granted => b"granted",
            AnswerName::Waiting => b"waiting",
            AnswerName::Content => b"content",
            AnswerName::Size => b"size",
            AnswerName::Lock => b"lock",
            AnswerName::Sizes => b"sizes",
            AnswerName::Uncovered => b"uncovered",
            AnswerName::Refused(errno) => errno_word(errno),
        }
    }
}

/// The name of an error.
fn errno_word(errno: Errno) -> &'static [u8]
    ensures word { result.now ≡ errno_text errno }
{
    match errno {
        Errno::ENOENT => b"ENOENT",
        Errno::EEXIST => b"EEXIST",
        Errno::ENOTDIR => b"ENOTDIR",
        Errno::EISDIR => b"EISDIR",
        Errno::ENOTEMPTY => b"ENOTEMPTY",
        Errno::EPERM => b"EPERM",
        Errno::EINVAL => b"EINVAL",
        Errno::EBUSY => b"EBUSY",
        Errno::EBADF => b"EBADF",
        Errno::ENAMETOOLONG => b"ENAMETOOLONG",
        Errno::EIO => b"EIO",
    }
}

/// What begins with this word.
pub fn answer_name_of(word: &[u8]) -> Option<AnswerName>
    ensures name { result ≡ answer_name_of word.now }
{
    ANSWERS.iter().copied().find(|name| name.word() == word)
}

/// The first word of a message.
#[derive(Clone, Copy, Debug, PartialEq, Eq)]
pub enum MessageName {
    Request,
    Cancel,
    Where,
    Replay,
    Lock,
    Word,
    Join,
    Size,
    Up,
    Reply,
    Grant,
    Block,
    Ask,
    Ready,
    Evicted,
}

/// All of these.
const MESSAGES: [MessageName; 15] = [
    MessageName::Request,
    MessageName::Cancel,
    MessageName::Where,
    MessageName::Replay,
    MessageName::Lock,
    MessageName::Word,
    MessageName::Join,
    MessageName::Size,
    MessageName::Up,
    MessageName::Reply,
    MessageName::Grant,
    MessageName::Block,
    MessageName::Ask,
    MessageName::Ready,
    MessageName::Evicted,
];

impl MessageName {
    /// The word.
    pub fn word(self) -> &'static [u8]
        ensures word { result.now ≡ message_word self }
    {
        match self {
            MessageName::Request => b"req",
            MessageName::Cancel => b"cancel",
            MessageName::Where => b"where",
            MessageName::Replay => b"replay",
            MessageName::Lock => b"lock",
            MessageName::Word => b"word",
            MessageName::Join => b"join",
            MessageName::Size => b"size",
            MessageName::Up => b"up",
            MessageName::Reply => b"reply",
            MessageName::Grant => b"grant",
            MessageName::Block => b"block",
            MessageName::Ask => b"ask",
            MessageName::Ready => b"ready",
            MessageName::Evicted => b"evicted",
        }
    }
}

/// What begins with this word.
pub fn message_name_of(word: &[u8]) -> Option<MessageName>
    ensures name { result ≡ message_name_of word.now }
{
    MESSAGES.iter().copied().find(|name| name.word() == word)
}

/// The first word of an entry.
#[derive(Clone, Copy, Debug, PartialEq, Eq)]
pub enum EntryName {
    Begin,
    Busy,
    Skip,
    Send,
    Take,
    Tick,
    Heard,
    Hold,
    Drop,
    Told,
    Peek,
    Life,
    Die,
    Act,
    Txn,
    Grant,
    Wait,
    Block,
    Release,
    Commit,
    Crash,
    Boot,
    Back,
    Close,
    Kept,
    Restore,
    Evict,
    Joined,
    Fail,
}

/// All of these.
const ENTRIES: [EntryName; 29] = [
    EntryName::Begin,
    EntryName::Busy,
    EntryName::Skip,
    EntryName::Send,
    EntryName::Take,
    EntryName::Tick,
    EntryName::Heard,
    EntryName::Hold,
    EntryName::Drop,
    EntryName::Told,
    EntryName::Peek,
    EntryName::Life,
    EntryName::Die,
    EntryName::Act,
    EntryName::Txn,
    EntryName::Grant,
    EntryName::Wait,
    EntryName::Block,
    EntryName::Release,
    EntryName::Commit,
    EntryName::Crash,
    EntryName::Boot,
    EntryName::Back,
    EntryName::Close,
    EntryName::Kept,
    EntryName::Restore,
    EntryName::Evict,
    EntryName::Joined,
    EntryName::Fail,
];

impl EntryName {
    /// The word.
    pub fn word(self) -> &'static [u8]
        ensures word { result.now ≡ entry_word self }
    {
        match self {
            EntryName::Begin => b"begin",
            EntryName::Busy => b"busy",
            EntryName::Skip => b"skip",
            EntryName::Send => b"send",
            EntryName::Take => b"take",
            EntryName::Tick => b"tick",
            EntryName::Heard => b"heard",
            EntryName::Hold => b"hold",
            EntryName::Drop => b"drop",
            EntryName::Told => b"told",
            EntryName::Peek => b"peek",
            EntryName::Life => b"life",
            EntryName::Die => b"die",
            EntryName::Act => b"act",
            EntryName::Txn => b"txn",
            EntryName::Grant => b"grant",
            EntryName::Wait => b"wait",
            EntryName::Block => b"block",
            EntryName::Release => b"release",
            EntryName::Commit => b"commit",
            EntryName::Crash => b"crash",
            EntryName::Boot => b"boot",
            EntryName::Back => b"back",
            EntryName::Close => b"close",
            EntryName::Kept => b"kept",
            EntryName::Restore => b"restore",
            EntryName::Evict => b"evict",
            EntryName::Joined => b"joined",
            EntryName::Fail => b"fail",
        }
    }
}

/// What begins with this word.
pub fn entry_name_of(word: &[u8]) -> Option<EntryName>
    ensures name { result ≡ entry_name_of word.now }
{
    ENTRIES.iter().copied().find(|name| name.word() == word)
}
