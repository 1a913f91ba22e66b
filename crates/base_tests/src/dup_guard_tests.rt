// What a centre knows of the clients' commits.
ghost use Rattle.std.specs.Prelude.{◌≡◌};

use dup_guard::Guard;
use ids_core::Dot;
use std::test::Fail;
use vv_core::Stamp;

fn dot(client: u32, number: u64) -> Dot
    ensures { result ≡ record { client = client; number = number } }
{
    Dot { client, number }
}

// Whether this number and stamp are the last that were noted of a client.
fn has(guard: &Guard, client: u32, number: u64, stamp: Option<Stamp>) -> bool {
    let seen = guard.seen(&dot(client, number));
    let next = guard.seen(&dot(client, number.saturating_add(1)));
    let through = guard.through(client) == number;
    through && guard.first_stamp(client) == stamp && seen && !next
}

// Notes two commits of client 3, and one of the last client.
fn note(guard: &mut Guard, early: &Stamp, late: &Stamp) -> bool {
    if guard.through(3) > 0 || guard.through(1_024) > 0 {
        return false;
    }
    guard.note(&dot(3, 1), early);
    guard.note(&dot(3, 2), late);
    guard.note(&dot(1_024, 1), early);
    has(guard, 3, 2, Some(*late)) && has(guard, 1_024, 1, Some(*early))
}

#[test]
fn dots_are_noted_by_client(rt: HostRuntime) -> Result<(), Fail> {
    let mut guard = Guard::new(rt.alloc())?;
    let early = Stamp { centre: 1, seq: 5 };
    let late = Stamp { centre: 2, seq: 7 };
    assert!(rt; note(&mut guard, &early, &late));
    assert!(rt; has(&guard, 0, 0, None) && has(&guard, 4, 0, None) && has(&guard, 1_025, 0, None));
    Ok(())
}

#[test]
fn a_guard_is_made_again_of_its_parts(rt: HostRuntime) -> Result<(), Fail> {
    let mut guard = Guard::new(rt.alloc())?;
    let early = Stamp { centre: 1, seq: 5 };
    let late = Stamp { centre: 2, seq: 7 };
    assert!(rt; note(&mut guard, &early, &late));
    let parts = guard.parts(rt.alloc())?;
    assert!(rt; parts.len() == 2);
    let again = Guard::of_parts(rt.alloc(), &parts)?;
    assert!(rt; has(&again, 3, 2, Some(late)) && has(&again, 1_024, 1, Some(early)));
    assert!(rt; has(&again, 4, 0, None));
    Ok(())
}
