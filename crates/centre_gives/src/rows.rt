// The rows of a bundle.
ghost use Rattle.std.specs.Prelude.{◌≡◌, ◌≤◌, ◌-◌, length, slice_set};

use join_bundle::Rows;
use list_core::List;
use vv_core::Vector;

// The rows, with its own vector in the place of a centre. It takes no memory.
pub(crate) fn rows_with(rows: Rows, me: u8, own: Vector) -> Rows
    requires { (1 ≤ me) × (me ≤ length rows) }
    ensures { result ≡ slice_set rows (me - 1) own }
{
    let mut rows = rows.into_vec();
    rows[usize::from(me - 1)] = own;
    List::from_vec(rows)
}
