//! Parts of slices.
ghost use Rattle.std.specs.Prelude.{◌≡◌, drop};

/// The items after the first.
pub(crate) fn after_first<T>(items: &[T]) -> &[T]
    ensures { result.now ≡ drop 1 items.now }
{
    match items {
        [_, rest @ ..] => rest,
        [] => items,
    }
}
