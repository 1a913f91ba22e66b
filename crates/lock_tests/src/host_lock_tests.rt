// Hosts whose passes are each in a thread of its own: one host with two of them, and two with one each.
ghost use Rattle.std.specs.Prelude.{◌≡◌};
ghost use Rattle.machine_trail.specs.History.{IsKept};
ghost use Rattle.host_lock.specs.Hosts.{IsOf};
ghost use Rattle.lock_tests.specs.Gates.{gate_reply, gate_stands};

use crate::held::{Held, comes};
use host_lock::{Host, Pass, Tried};
use ids_core::NoMemory;
use machine_trail::{Kept, Machine};
use samples::Gate;
use std::alloc::Global;
use std::sync::atomic::{AtomicU64, Ordering};
use std::sync::{Arc, Wait};
use std::test::Fail;
use std::thread::{Threads, join};

// One call with a pass, and the pass again.
fn calls<R: Wait, M: Machine>(
    rt: &R,
    host: &Host<M>,
    mut pass: Pass<M>,
    ask: &M::Ask,
) -> (Option<M::Say>, Pass<M>)
    requires { IsOf host.now pass }
    ensures { IsOf host.now result.1 × (result.1.number ≡ pass.number) }
{
    let said = host.call(rt, &mut pass, ask).ok();
    (said, pass)
}

// The pass that had the turn at one try with this one, 0 where the call was made, and the pass again.
fn tries<M: Machine>(host: &Host<M>, mut pass: Pass<M>, ask: &M::Ask) -> (Option<u32>, Pass<M>)
    requires { IsOf host.now pass }
    ensures { IsOf host.now result.1 × (result.1.number ≡ pass.number) }
{
    let holder = match host.try_call(&mut pass, ask) {
        Ok(Tried::Busy { holder }) => Some(holder),
        Ok(Tried::Done(_)) => Some(0),
        Err(NoMemory) => None,
    };
    (holder, pass)
}

// While pass 1 is in its call, pass 2 tries, and then lets the call go on.
fn meanwhile<R: Wait + Send + Drop>(
    rt: &R,
    host: &Host<Held<R>>,
    pass: Pass<Held<R>>,
    begun: &Arc<AtomicU64, Global>,
    may: &Arc<AtomicU64, Global>,
) -> (Option<u32>, Pass<Held<R>>)
    requires { IsOf host.now pass }
    ensures { IsOf host.now result.1 × (result.1.number ≡ pass.number) }
{
    comes(rt, begun);
    let tried = tries(host, pass, &71);
    may.store(1, Ordering::SeqCst);
    tried
}

// How many entries there are with one call more, at a host over what came out of another.
fn once_more<R: Wait + Send + Drop>(
    rt: &R,
    alloc: Global,
    kept: Kept<Held<R>>,
    ask: &u32,
) -> Option<usize>
    requires { IsKept gate_reply (λ held log. gate_stands held.gate log) (λ held. held.gate.most) kept.machine kept.trail.entries }
{
    let (host, mut passes) = Host::new(alloc, kept, 1).ok()?;
    let pass = passes.pop()?;
    let (_said, pass) = calls(rt, &host, pass, ask);
    passes.push(pass).ok()?;
    let kept = host.close(passes);
    Some(kept.trail.len())
}

// Who had the turn at the tries of pass 2, while pass 1 was in its call and afterwards, and how many entries
// came out, then and after one call more.
fn two_passes<R: Threads + Wait + Send + Sync + Drop>(
    rt: &R,
    alloc: Global,
    machine: Held<R>,
    begun: &Arc<AtomicU64, Global>,
    may: &Arc<AtomicU64, Global>,
) -> Option<(u32, u32, usize, usize)>
    requires { machine.gate.inside ≡ 0 }
{
    let (host, mut passes) = Host::new(alloc, Kept::new(alloc, machine), 2).ok()?;
    let second = passes.pop()?;
    let first = passes.pop()?;
    let shared = &host;
    let (one, other) = join(
        rt,
        move || -> (Option<bool>, Pass<Held<R>>)
            requires { IsOf shared.now first }
            ensures { IsOf shared.entry.now result.1 × (result.1.number ≡ first.number) }
        { calls(rt, shared, first, &70) },
        move || -> (Option<u32>, Pass<Held<R>>)
            requires { IsOf shared.now second }
            ensures { IsOf shared.entry.now result.1 × (result.1.number ≡ second.number) }
        { meanwhile(rt, shared, second, begun, may) },
    );
    let (found, second) = other;
    let (then, second) = tries(&host, second, &72);
    let mut all = Vec::new(alloc);
    all.push(one.1).ok()?;
    all.push(second).ok()?;
    let kept = host.close(all);
    let before = kept.trail.len();
    let after = once_more(rt, alloc, kept, &73)?;
    Some((found?, then?, before, after))
}

#[test]
fn a_try_finds_the_call_of_the_other_pass(rt: HostRuntime) -> Result<(), Fail> {
    let begun = Arc::new(rt.alloc(), AtomicU64::new(0))?;
    let may = Arc::new(rt.alloc(), AtomicU64::new(0))?;
    let machine = Held {
        rt,
        begun: Arc::try_clone(&begun)?,
        may: Arc::try_clone(&may)?,
        gate: Gate::new(2),
    };
    let (found, then, before, after) = two_passes(&rt, rt.alloc(), machine, &begun, &may).ok_or(
        "memory",
    )?;
    assert_eq!(rt; found, 1);
    assert_eq!(rt; then, 0);
    assert_eq!(rt; before, 2);
    assert_eq!(rt; after, 3);
    Ok(())
}

// What came out of two hosts, each asked once with its pass in a thread of its own: how many entries each one has.
fn two_hosts<R: Threads + Wait + Send + Sync + Drop>(
    rt: &R,
    alloc: Global,
    here: Held<R>,
    there: Held<R>,
) -> Option<(usize, usize)>
    requires { (here.gate.inside ≡ 0) × (there.gate.inside ≡ 0) }
{
    let (one, mut ones) = Host::new(alloc, Kept::new(alloc, here), 1).ok()?;
    let (other, mut others) = Host::new(alloc, Kept::new(alloc, there), 1).ok()?;
    let first = ones.pop()?;
    let second = others.pop()?;
    let (mine, yours) = (&one, &other);
    let (asked, also) = join(
        rt,
        move || -> (Option<bool>, Pass<Held<R>>)
            requires { IsOf mine.now first }
            ensures { IsOf mine.entry.now result.1 × (result.1.number ≡ first.number) }
        { calls(rt, mine, first, &70) },
        move || -> (Option<bool>, Pass<Held<R>>)
            requires { IsOf yours.now second }
            ensures { IsOf yours.entry.now result.1 × (result.1.number ≡ second.number) }
        { calls(rt, yours, second, &71) },
    );
    ones.push(asked.1).ok()?;
    others.push(also.1).ok()?;
    let one = one.close(ones);
    let other = other.close(others);
    Some((one.trail.len(), other.trail.len()))
}

// One lock around all asks would keep each of the two from the answer that the other one waits in.
#[test]
fn two_hosts_answer_at_once(rt: HostRuntime) -> Result<(), Fail> {
    let one = Arc::new(rt.alloc(), AtomicU64::new(0))?;
    let other = Arc::new(rt.alloc(), AtomicU64::new(0))?;
    let here = Held {
        rt,
        begun: Arc::try_clone(&one)?,
        may: Arc::try_clone(&other)?,
        gate: Gate::new(1),
    };
    let there = Held {
        rt,
        begun: Arc::try_clone(&other)?,
        may: Arc::try_clone(&one)?,
        gate: Gate::new(1),
    };
    let (asked, also) = two_hosts(&rt, rt.alloc(), here, there).ok_or("memory")?;
    assert_eq!(rt; asked, 1);
    assert_eq!(rt; also, 1);
    assert_eq!(rt; one.load(Ordering::SeqCst), 2);
    assert_eq!(rt; other.load(Ordering::SeqCst), 2);
    Ok(())
}
