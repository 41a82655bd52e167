//! The front of a list is dropped, and what is left moves to its place.
ghost use Rattle.std.specs.Prelude.{◌≡◌, ◌≤◌, drop, length};

/// Drops so many at the front.
pub(crate) fn drop_front<T: Copy>(list: &mut Vec<T>, count: usize)
    requires { count ≤ length list.old.items }
    ensures { list.new.items ≡ drop count list.old.items }
{
    let left = list.len() - count;
    list.copy_within(count.., 0);
    list.truncate(left);
}
