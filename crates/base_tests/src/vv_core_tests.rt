// Version vectors.
ghost use Rattle.std.specs.Prelude.{◌≡◌, length};

use samples::pair;
use std::process::Abort;
use vv_core::{Lack, Stamp, Vector};

// What two vectors of two entries are in common, and which has what.
fn combine(rt: &impl Abort, v: &Vector, w: &Vector)
    requires { (length v.now ≡ 2) × (length w.now ≡ 2) }
{
    assert!(rt; v.join(w) == pair(3, 5));
    assert!(rt; v.meet(w) == pair(2, 1));
    assert!(rt; !v.covers(w));
    let stamp = Stamp { centre: 1, seq: 3 };
    assert!(rt; v.has(&stamp));
    assert!(rt; !w.has(&stamp));
}

// What the second vector has that the first lacks.
fn lack(v: &Vector, w: &Vector) -> Option<(u8, u64, u64)>
    requires { (length v.now ≡ 2) × (length w.now ≡ 2) }
{
    match Vector::first_lack(v, w) {
        Some(Lack { centre, need, have }) => Some((centre, need, have)),
        None => None,
    }
}

#[test]
fn vectors_are_combined(rt: HostRuntime) {
    let (v, w) = (pair(3, 1), pair(2, 5));
    assert!(rt; v.as_slice() == [3, 1].as_slice());
    assert!(rt; v.width() == 2);
    assert!(rt; v.get(2) == 1);
    assert!(rt; v.covers(&pair(3, 0)));
    combine(&rt, &v, &w);
    assert!(rt; lack(&v, &w) == Some((2, 5, 1)));
}

#[test]
fn rows_are_counted_at_each_centre(rt: HostRuntime) {
    let rows = [pair(3, 1), pair(2, 5), pair(4, 4)];
    assert!(rt; Vector::kth(&rows, 1) == pair(4, 5));
    assert!(rt; Vector::kth(&rows, 2) == pair(3, 4));
    assert!(rt; Vector::kth(&rows, 3) == pair(2, 1));
}
