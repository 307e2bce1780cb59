//! Messages on their way, under the numbers in which they were posted (this project's profile).

ghost use Rattle.std.specs.Prelude.{◌≡◌, ℕ, ◌+◌, ◌-◌, ◌≤◌, Bool, true, false, List, [], ◌∷◌, ◌++◌, length, IfOk, OnOk, OnErr, IfSome, IfNone, MatchOption};
ghost use Rattle.std.specs.List.{position_or_len};
ghost use Rattle.std.specs.Option.{option_copied};
ghost use Rattle.lu_net.specs.Posts.{sent_at, is_unspent, IsUnspent, least_unspent, spend};

use lu_base::{Memory, Node, Stamp};
use lu_msg::Message;
use std::alloc::Global;
use std::marker::Model;

/// A message that was sent.
#[derive(Debug, PartialEq, Eq, Drop)]
pub struct Sent {
    /// The message's number, from 1, as its sender names it.
    pub number: u64,
    /// The turn that sent it.
    pub stamp: Stamp,
    pub from: Node,
    pub to: Node,
    pub message: Message,
}

/// A message that was posted, and whether it is spent: it was handed over or lost once.
#[derive(Debug, Drop)]
pub struct Posted {
    pub sent: Sent,
    pub spent: bool,
}

/// All messages that were posted, in the order of their numbers, which count from 1. A spent one
/// can be looked up too, since a message can come late or twice.
#[derive(Debug, Drop)]
pub struct Links {
    posts: Vec<Posted>,
    /// The place of the first message that isn't spent; all before it are spent.
    low: usize,
}

impl Model for Links {
    ghost use Rattle.std.specs.Prelude.{◌≡◌, List};
    ghost use Rattle.std.specs.List.{position_or_len};
    ghost use Rattle.lu_net.specs.declared.links.Posted.{Posted};
    ghost use Rattle.lu_net.specs.Posts.{is_unspent};

    ghost Value = { List Posted };

    ghost view = { λ links. links.posts.items };

    ghost invariant = { λ links. links.low ≡ position_or_len is_unspent links.posts.items };
}

impl Links {
    /// No message. It takes no memory yet.
    pub fn new(alloc: Global) -> Links
        ensures empty { result ≡ [] }
    {
        Links {
            posts: Vec::new(alloc),
            low: 0,
        }
    }

    /// Keeps a message that isn't spent, and answers its number: the numbers count from 1 in the order
    /// of the posts. The number that the message itself names isn't looked at. After want of memory
    /// nothing has changed.
    pub fn post(&mut self, sent: Sent) -> Result<u64, Memory>
        ensures number { IfOk result (λ number. number ≡ length self.old + 1) }
        ensures added { OnOk result (self.new ≡ self.old ++ record { sent = sent; spent = false } ∷ []) }
        ensures kept { OnErr result (self.new ≡ self.old) }
    {
        self.posts.push(Posted { sent, spent: false })?;
        Ok(self.posts.len() as u64)
    }

    /// The message that was posted under this number; none where none was.
    pub fn at(&self, number: u64) -> Option<&Sent>
        ensures sent { option_copied result ≡ sent_at self.now number }
    {
        let place = place_of(number)?;
        let post = self.posts.get(place)?;
        Some(&post.sent)
    }

    /// The least number whose message isn't spent; none where each posted message is spent.
    pub fn least_unspent(&self) -> Option<u64>
        ensures number { result ≡ least_unspent self.now }
        ensures unspent { IfSome result (λ number. IsUnspent self.now number) }
        ensures least { IfSome result (λ number. (other : ℕ) → IsUnspent self.now other → number ≤ other) }
        ensures none { IfNone result ((number : ℕ) → ¬ IsUnspent self.now number) }
    {
        if self.low < self.posts.len() {
            Some(self.low as u64 + 1)
        } else {
            None
        }
    }

    /// Marks the message that was posted under this number as spent; it does nothing where none was.
    pub fn spend(&mut self, number: u64)
        ensures spent { self.new ≡ spend self.old number }
    {
        let Some(place) = place_of(number) else {
            return;
        };
        let Some(post) = self.posts.get_mut(place) else {
            return;
        };
        post.spent = true;
        self.low = first_unspent(&self.posts, self.low);
    }
}

/// The place, from 0, of the message with this number; none for 0, which is no message's number.
fn place_of(number: u64) -> Option<usize>
    ensures { MatchOption result (number ≡ 0) (λ place. number ≡ place + 1) }
{
    let before = number.checked_sub(1)?;
    Some(before as usize)
}

/// The place of the first message that isn't spent, or past the last; all before `from` are spent.
fn first_unspent(posts: &[Posted], from: usize) -> usize
    requires { from ≤ position_or_len is_unspent posts.now }
    ensures { result ≡ position_or_len is_unspent posts.now }
{
    let mut place = from;
    while let Some(post) = posts.get(place) {
        if !post.spent {
            return place;
        }
        place += 1;
    }
    posts.len()
}
