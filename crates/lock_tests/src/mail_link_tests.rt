// Links, on one thread and with a thread at each end.
ghost use Rattle.std.specs.Prelude.{◌≡◌};

use mail_link::{Giver, Link, Taker};
use std::alloc::Global;
use std::sync::Wait;
use std::test::Fail;
use std::thread::{Threads, join};

// How many items go over a link between two threads.
const MANY: u32 = 10_000;

// Puts an item, and the end again.
fn put<R: Wait>(rt: &R, link: &Link<u32>, mut giver: Giver<u32>, item: u32) -> Giver<u32>
    requires { giver.link ≡ link.now }
    ensures { result.link ≡ link.now }
{
    let _back = link.put(rt, &mut giver, item);
    giver
}

// Takes an item, and the end again.
fn take<R: Wait>(rt: &R, link: &Link<u32>, mut taker: Taker<u32>) -> (Option<u32>, Taker<u32>)
    requires { taker.link ≡ link.now }
    ensures { result.1.link ≡ link.now }
{
    let item = link.take(rt, &mut taker);
    (item, taker)
}

// Puts the numbers from 0 on, and the end again.
fn puts<R: Wait>(rt: &R, link: &Link<u32>, giver: Giver<u32>) -> Giver<u32>
    requires { giver.link ≡ link.now }
    ensures { result.link ≡ link.now }
{
    let mut giver = giver;
    for item in 0..MANY {
        giver = put(rt, link, giver, item);
    }
    giver
}

// Takes until all have come, and how many of them came in their order, and the end again.
fn takes<R: Wait>(rt: &R, link: &Link<u32>, taker: Taker<u32>) -> (u32, Taker<u32>)
    requires { taker.link ≡ link.now }
    ensures { result.1.link ≡ link.now }
{
    let mut taker = taker;
    let mut next = 0;
    for _turn in 0..u64::MAX {
        if next == MANY {
            break;
        }
        let (item, again) = take(rt, link, taker);
        taker = again;
        if item == Some(next) {
            next += 1;
        }
    }
    (next, taker)
}

// How many items came in their order from one thread to another, and how many were left.
fn over<R: Threads + Wait + Sync>(rt: &R, alloc: Global) -> Option<(u32, u64)> {
    let (link, giver, taker) = Link::new(alloc).ok()?;
    let shared = &link;
    let (giver, (came, taker)) = join(
        rt,
        move || -> Giver<u32>
            requires { giver.link ≡ shared.now }
            ensures { result.link ≡ shared.entry.now }
        { puts(rt, shared, giver) },
        move || -> (u32, Taker<u32>)
            requires { taker.link ≡ shared.now }
            ensures { result.1.link ≡ shared.entry.now }
        { takes(rt, shared, taker) },
    );
    Some((came, link.close(rt, giver, taker)))
}

#[test]
fn items_come_in_order_from_another_thread(rt: HostRuntime) -> Result<(), Fail> {
    let (came, left) = over(&rt, rt.alloc()).ok_or("memory")?;
    assert_eq!(rt; (came, left), (MANY, 0));
    Ok(())
}

#[test]
fn a_filled_link_gives_its_items(rt: HostRuntime) -> Result<(), Fail> {
    let (link, giver, taker) = Link::new(rt.alloc())?;
    let giver = put(&rt, &link, giver, 7);
    let giver = put(&rt, &link, giver, 8);
    let giver = put(&rt, &link, giver, 9);
    let (first, taker) = take(&rt, &link, taker);
    let (second, taker) = take(&rt, &link, taker);
    assert_eq!(rt; (first, second), (Some(7), Some(8)));
    assert_eq!(rt; (giver.puts(), taker.takes(), taker.misses()), (3, 2, 0));
    assert_eq!(rt; link.close(&rt, giver, taker), 1);
    Ok(())
}

#[test]
fn an_empty_link_is_missed(rt: HostRuntime) -> Result<(), Fail> {
    let (link, giver, taker) = Link::new(rt.alloc())?;
    let (none, taker) = take(&rt, &link, taker);
    assert_eq!(rt; (none, taker.takes(), taker.misses()), (None, 0, 1));
    assert_eq!(rt; link.close(&rt, giver, taker), 0);
    Ok(())
}
