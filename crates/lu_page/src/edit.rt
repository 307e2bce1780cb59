//! What becomes of items.

ghost use Rattle.std.specs.Prelude.{ℕ, Option, ◌≡◌};

/// What becomes of each item, by where it stands.
pub trait Edit<T> {
    ghost edits: { Self → ℕ → T → Option T };

    /// What stands there in place of an item, or nothing.
    fn edit(&self, position: u64, item: T) -> Option<T>
        ensures { result ≡ edits self.now position item };
}
