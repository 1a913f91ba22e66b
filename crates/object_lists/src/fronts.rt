// The front of a vector.
ghost use Rattle.std.specs.Prelude.{◌≡◌, ◌≤◌, drop, vec_len};

/// Drops so many items at the front, at most as many as there are. It takes no memory. Time: linear in
/// the length.
pub fn drop_front<T: Drop>(items: &mut Vec<T>, count: usize)
    requires { count ≤ vec_len items.old }
    ensures { items.new.items ≡ drop count items.old.items }
{
    let left = items.len() - count;
    items.as_mut_slice().rotate_left(count);
    items.truncate(left);
}
