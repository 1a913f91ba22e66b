// What a centre knows of the others.
ghost use Rattle.std.specs.Prelude.{◌≡◌, ◌≤◌, length};

use k_stable::Told;
use vv_core::{Stamp, Vector};

// The vector of these entries.
fn three(first: u32, second: u32, third: u32) -> Vector
    ensures { length result ≡ 3 }
{
    let first = Stamp {
        centre: 1,
        seq: first,
    };
    let second = Stamp {
        centre: 2,
        seq: second,
    };
    let third = Stamp {
        centre: 3,
        seq: third,
    };
    Vector::zero(3).raise(&first).raise(&second).raise(&third)
}

// Whether a vector of another centre changes what a centre of three knows.
fn learns(told: &mut Told, from: u8, vector: &Vector) -> bool
    requires from { (1 ≤ from) × (from ≤ 3) }
    requires width { length vector.now ≡ 3 }
    requires number { told.old.n ≡ 3 }
    ensures { told.new.n ≡ 3 }
{
    told.learn(from, vector)
}

// Whether this is stable at a centre of three.
fn is_stable(told: &Told, own: &Vector, want: &Vector) -> bool
    requires width { length own.now ≡ 3 }
    requires number { told.now.n ≡ 3 }
{
    told.stable(own) == *want
}

// Whether all of three centres know this.
fn is_known(told: &Told, own: &Vector, want: &Vector) -> bool
    requires width { length own.now ≡ 3 }
    requires number { told.now.n ≡ 3 }
{
    told.all_known(own) == *want
}

#[test]
fn two_of_three_make_stable(rt: HostRuntime) {
    let own = three(2, 1, 0);
    let mut told = Told::new(1, 3, 2);
    assert!(rt; is_stable(&told, &own, &three(0, 0, 0)));
    assert!(rt; learns(&mut told, 2, &three(1, 0, 0)));
    assert!(rt; learns(&mut told, 3, &three(1, 2, 0)));
    assert!(rt; is_stable(&told, &own, &three(1, 1, 0)));
    assert!(rt; is_known(&told, &own, &three(1, 0, 0)));
    assert!(rt; !learns(&mut told, 2, &three(1, 0, 0)));
    assert!(rt; !learns(&mut told, 1, &three(9, 9, 9)));
    assert!(rt; is_stable(&told, &own, &three(1, 1, 0)));
}
