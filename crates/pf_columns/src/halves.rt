//! Halves of lists.

ghost use Rattle.std.specs.Prelude.{◌≡◌, ◌+◌, ◌++◌, ◌<◌, ◌≤◌, length};

/// The first half of a list, and the others.
#[derive(Drop)]
pub(crate) struct Halves<'a, T> {
    pub(crate) front: &'a [T],
    pub(crate) behind: &'a [T],
}

pub(crate) fn halved<T>(items: &[T]) -> Halves<'_, T>
    requires { 2 ≤ length items.now }
    ensures all { items.now ≡ result.front.now ++ result.behind.now }
    ensures front { length result.front.now < length items.now }
    ensures behind { length result.behind.now < length items.now }
    ensures both { length result.front.now + length result.behind.now ≡ length items.now }
{
    let half = items.len() / 2;
    Halves {
        front: &items[..half],
        behind: &items[half..],
    }
}
