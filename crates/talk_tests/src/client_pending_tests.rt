// What pending commits may change. No clause says that nothing else may be changed.
ghost use Rattle.std.specs.Prelude.{◌≤◌, IfOk, length};

use client_pending::Pending;
use ids_core::{Dot, NoMemory, ObjectId};
use samples::{counter, inc_tx, single};
use std::alloc::Global;
use std::test::Fail;
use tx_core::Tx;

// The first commit of client 1, which adds 1 to the object.
fn commit(alloc: Global, object: &ObjectId) -> Result<Tx, NoMemory>
    ensures { IfOk result (λ tx. length tx.updates ≤ 256) }
{
    let dot = Dot {
        client: 1,
        number: 1,
    };
    inc_tx(alloc, dot, 1, single(0), object, &[1])
}

// Puts such a commit at the end.
fn push(alloc: Global, pending: &mut Pending, object: &ObjectId) -> Result<(), NoMemory> {
    match pending.push(commit(alloc, object)?) {
        Ok(()) => Ok(()),
        Err(_commit) => Err(NoMemory),
    }
}

#[test]
fn commits_may_change_their_objects_alone(rt: HostRuntime) -> Result<(), Fail> {
    let (a, b) = (counter("a")?, counter("b")?);
    let mut pending = Pending::new(rt.alloc());
    push(rt.alloc(), &mut pending, &a)?;
    assert!(rt; pending.may_change(&a));
    assert!(rt; !pending.may_change(&b));
    Ok(())
}
