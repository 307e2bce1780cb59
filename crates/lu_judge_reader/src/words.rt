//! The words of a line, read one after another.

ghost use Rattle.std.specs.Prelude.{◌≡◌, ◌≢◌, ◌∷◌, [], map, IfOk, IsTrue, ◌↔◌, Err};

use super::faults::LineFault;
use std::alloc::Global;
use std::marker::Model;

/// The words of a line that aren't read yet.
#[derive(Drop)]
pub struct Words<'a> {
    pub(crate) alloc: Global,
    words: &'a [&'a [u8]],
    read: usize,
}

impl<'a> Model for Words<'a> {
    ghost use Rattle.std.specs.Prelude.{ℕ, List, map, drop};

    ghost Value = { List (List ℕ) };

    ghost view = { λ line. map (λ word. word.now) (drop line.read line.words.now) };
}

impl<'a> Words<'a> {
    /// All of these words.
    pub fn new(alloc: Global, words: &'a [&'a [u8]]) -> Words<'a>
        ensures all { result ≡ map (λ word. word.now) words.now }
    {
        Words {
            alloc,
            words,
            read: 0,
        }
    }

    /// Whether no word is left.
    #[tactic(auto, using(crate::proofs::Lefts::none_left))]
    pub fn are_read(&self) -> bool
        ensures none { IsTrue result ↔ (self.now ≡ []) }
    {
        self.read >= self.words.len()
    }

    /// The next word.
    #[tactic(auto, using(crate::proofs::Lefts::next_left, crate::proofs::Lefts::none_left))]
    pub fn word(&mut self) -> Result<&'a [u8], LineFault>
        ensures word { IfOk result (λ word. self.old ≡ word.now ∷ self.new) }
        ensures none { result ≡ Err LineFault.Unread → self.old ≡ [] }
        ensures fault { result ≢ Err LineFault.Memory }
    {
        match self.words.get(self.read) {
            Some(word) => {
                self.read += 1;
                Ok(word)
            }
            None => Err(LineFault::Unread),
        }
    }

    /// All words that are left.
    #[tactic(auto, using(crate::proofs::Lefts::none_left))]
    pub fn rest(&mut self) -> &'a [&'a [u8]]
        ensures words { map (λ word. word.now) result.now ≡ self.old }
        ensures none { self.new ≡ [] }
    {
        if self.read >= self.words.len() {
            return &self.words[..0];
        }
        let rest = &self.words[self.read..];
        self.read = self.words.len();
        rest
    }
}
