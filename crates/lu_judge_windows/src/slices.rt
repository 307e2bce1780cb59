//! Slices that may be missing.

ghost use Rattle.std.specs.Prelude.{◌≡◌, []};
ghost use Rattle.std.specs.Option.{option_map_or};

/// The items; none where they are missing.
pub(crate) fn or_none<T>(items: Option<&[T]>) -> &[T]
    ensures { result.now ≡ option_map_or (λ items. items.now) items.entry [] }
{
    match items {
        Some(items) => items,
        None => &[],
    }
}
