//! Parts of slices that may be too short for them.
ghost use Rattle.std.specs.Prelude.{◌≡◌, ◌≤◌, length, take, drop};

/// The first so many items.
pub fn front<T>(items: &[T], count: usize) -> &[T]
    ensures value { result.now ≡ take count items.now }
    ensures few { length result.now ≤ count }
{
    &items[..count.min(items.len())]
}

/// The items behind the first so many.
pub fn behind<T>(items: &[T], count: usize) -> &[T]
    ensures { result.now ≡ drop count items.now }
{
    &items[count.min(items.len())..]
}
