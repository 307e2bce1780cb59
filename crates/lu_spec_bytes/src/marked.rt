//! Items with a mark.

ghost use Rattle.std.specs.Prelude.{Bool, ◌≡◌};

/// An item that may carry a mark.
pub trait Marked: Copy {
    ghost marked: { Self → Bool };

    /// Whether it carries the mark.
    fn is_marked(&self) -> bool
        ensures { result ≡ marked self.now };
}
