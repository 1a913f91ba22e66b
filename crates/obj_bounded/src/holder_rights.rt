// The rights of a holder.
ghost use Rattle.std.specs.Prelude.{◌≡◌, ◌≤◌, ◌*◌, ◌+ℤ◌, ◌-ℤ◌, length};
ghost use Rattle.std.specs.Int.{w128, int_wrap};
ghost use Rattle.obj_counter.specs.Counter.{total};
ghost use Rattle.obj_bounded.specs.declared.cell_names.TheConstants.{MOST_HOLDERS};
ghost use Rattle.obj_bounded.specs.HolderRights.{rights_of};

/// The rights of a holder, by the values of its cells in the order of `cells`. The sum wraps at the ends of an `i128`, as
/// the sum of a counter does.
pub fn rights(values: &[i128], holders: u8) -> i128
    requires range { (1 ≤ holders) × (holders ≤ MOST_HOLDERS) }
    requires each { length values.now ≡ 2 * holders }
    ensures { result ≡ int_wrap w128 (rights_of holders values.now) }
{
    let (gains, losses) = values.split_at(usize::from(holders));
    difference(gains, losses)
}

// What the sum of some values has over that of others.
fn difference(gains: &[i128], losses: &[i128]) -> i128
    ensures { result ≡ int_wrap w128 (total gains.now -ℤ total losses.now) }
{
    sum_of(gains).wrapping_sub(sum_of(losses))
}

// The sum of values.
fn sum_of(values: &[i128]) -> i128
    ensures { result ≡ int_wrap w128 (total values.now) }
{
    let mut sum = 0;
    for value in values {
        sum = add_wrapped(sum, *value);
    }
    sum
}

fn add_wrapped(sum: i128, value: i128) -> i128
    ensures { result ≡ int_wrap w128 (sum +ℤ value) }
{
    sum.wrapping_add(value)
}
