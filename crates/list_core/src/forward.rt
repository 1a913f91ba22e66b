// An element brought to the front.
ghost use Rattle.std.specs.Prelude.{◌≡◌, ◌<◌, length, vec_len, remove, slice_get};
ghost use Rattle.list_core.specs.Firsts.{in_front};

/// Puts the element at a place, which is below the length, before all others, and those behind it in
/// their order. It takes no memory.
pub fn bring_forward<T>(items: &mut Vec<T>, place: usize)
    requires { place < vec_len items.old }
    ensures items { items.new.items ≡ in_front (slice_get items.old.items place) (remove items.old.items place) }
    ensures len { vec_len items.new ≡ vec_len items.old }
{
    turn(items.as_mut_slice(), place);
}

// The same over a slice.
fn turn<T>(items: &mut [T], place: usize)
    requires { place < length items.old }
    ensures { items.new ≡ in_front (slice_get items.old place) (remove items.old place) }
{
    items[..=place].rotate_right(1);
}
