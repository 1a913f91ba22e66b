// A session: how a commit goes out and comes back, and how it has what came to an object, with answers that no centre of
// a run gives. What the steps of a script show of a session is among the examples.
use client_session::{Heard, Session};
use dc_talk::{Ask, Change, Refusal, Say, SharedState};
use ids_core::{Name, NoMemory, ObjectId, Sort};
use samples::{counter, id, mark, single};
use std::alloc::Global;
use std::process::Abort;
use std::test::Fail;
use tx_core::{Op, State, Tail, Value};
use vv_core::{Stamp, Vector};

// Lets a session hear that centre 1 has nothing of it.
fn connect(session: &mut Session) -> Result<Heard, NoMemory> {
    let hello = session.ask_hello();
    session.hear(1, &hello, &Say::Welcome { through: 0 })
}

// Whether a session takes an answer of a centre to its ask.
fn takes(session: &mut Session, centre: u8, ask: &Ask, say: &Say) -> Result<bool, NoMemory> {
    let heard = session.hear(centre, ask, say)?;
    Ok(matches!(heard, Heard::Took))
}

// Lets a session have this state of an object; whether it asked centre 1, and took it.
fn fetch(
    alloc: Global,
    session: &mut Session,
    object: &ObjectId,
    state: State,
) -> Result<bool, Fail> {
    let (centre, ask) = session.ask_fetch(object)?;
    let state = SharedState::new(alloc, state)?;
    let took = takes(session, centre, &ask, &Say::Object { state })?;
    Ok(centre == 1 && took)
}

// Commits a transaction that adds 5 to a counter: the number of the commit.
fn commit(alloc: Global, session: &mut Session) -> Result<Option<u64>, Fail> {
    connect(session)?;
    session.begin(alloc)?;
    session.abort()?;
    session.begin(alloc)?;
    session.update(alloc, &counter("a")?, &Change::Inc { delta: 5 })?;
    Ok(session.commit()?)
}

// Lets a session have the empty counter, and whether it then reads its own commit.
fn reads_5(alloc: Global, session: &mut Session) -> Result<bool, Fail> {
    let object = counter("a")?;
    let took = fetch(alloc, session, &object, State::empty(alloc, Sort::Counter)?)?;
    Ok(took && matches!(session.read(alloc, &object)?, Value::Number(5)))
}

// Whether an ask sends the first commit, under the rank 1.
fn is_first(ask: &Ask) -> bool {
    match ask {
        Ask::Commit { tx } => tx.as_tx().rank == 1 && tx.as_tx().dot.number == 1,
        _ => false,
    }
}

// Lets a session hear a stamp for the commit that it sends next, if it sends one: whether that is its
// first commit, under the rank 1, and the stamp was taken.
fn push(session: &mut Session, stamp: Stamp) -> Result<Option<bool>, Fail> {
    match session.ask_commit()? {
        None => Ok(None),
        Some((centre, ask)) => {
            let took = takes(session, centre, &ask, &Say::Stamped { stamp })?;
            Ok(Some(is_first(&ask) && took))
        }
    }
}

// Lets a session hear a snapshot with its commit, and the greatest rank that there is; whether it took
// it.
fn refresh(session: &mut Session, vector: Vector) -> Result<bool, Fail> {
    let (centre, ask) = session.ask_refresh()?;
    let (mine, top) = (1, 1 << 62);
    Ok(takes(session, centre, &ask, &Say::Snap { vector, mine, top })?)
}

// Has a session commit and push, and see its commit.
fn send_and_see(rt: &impl Abort, alloc: Global, session: &mut Session) -> Result<(), Fail> {
    let stamp = Stamp { centre: 1, seq: 1 };
    assert!(rt; commit(alloc, session)? == Some(1));
    assert!(rt; reads_5(alloc, session)?);
    assert!(rt; push(session, stamp)? == Some(true));
    assert!(rt; push(session, stamp)?.is_none());
    assert!(rt; session.facts().pending == 1);
    assert!(rt; refresh(session, single(1))?);
    let facts = session.facts();
    assert!(rt; facts.vector == single(1) && facts.mine == 1 && facts.pending == 0);
    assert!(rt; matches!(session.begin(alloc), Err(Refusal::ClockFull)));
    Ok(())
}

#[test]
fn a_commit_reaches_the_centre_and_comes_back(rt: HostRuntime) -> Result<(), Fail> {
    let mut session = Session::new(rt.alloc(), 1, 1, 2)?;
    assert_eq!(rt; session.client(), 1);
    send_and_see(&rt, rt.alloc(), &mut session)
}

// A session that has the empty counter at the snapshot 0, and is at the snapshot 1.
fn behind(alloc: Global, object: &ObjectId) -> Result<Session, Fail> {
    let mut session = Session::new(alloc, 1, 1, 2)?;
    connect(&mut session)?;
    fetch(
        alloc,
        &mut session,
        object,
        State::empty(alloc, Sort::Counter)?,
    )?;
    let (centre, ask) = session.ask_refresh()?;
    let (vector, mine, top) = (single(1), 0, 1);
    session.hear(centre, &ask, &Say::Snap { vector, mine, top })?;
    Ok(session)
}

// Whether an ask is for what came between the snapshots 0 and 1.
fn is_for_changes(ask: &Ask) -> bool {
    match ask {
        Ask::Delta {
            object: _,
            from,
            at,
        } => *from == single(0) && *at == single(1),
        _ => false,
    }
}

// What came to an object: this operation of client 2.
fn changes(alloc: Global, op: Op) -> Result<Say, NoMemory> {
    let mut ops = Vec::new(alloc);
    ops.push((mark(1, id(2, 1, 0)), op))?;
    let tail = Tail::from_vec(alloc, ops)?;
    Ok(Say::Changes { tail })
}

// The answer that the centre has pruned what came past the snapshot 0.
fn pruned() -> Say {
    let (centre, base, at) = (1, 1, 0);
    Say::Pruned { centre, base, at }
}

#[test]
fn what_came_to_an_object_is_folded_in(rt: HostRuntime) -> Result<(), Fail> {
    let object = counter("a")?;
    let mut session = behind(rt.alloc(), &object)?;
    let (centre, ask) = session.ask_fetch(&object)?;
    assert!(rt; is_for_changes(&ask));
    let say = changes(rt.alloc(), Op::Inc { delta: 3 })?;
    assert!(rt; takes(&mut session, centre, &ask, &say)?);
    assert!(rt; matches!(session.read(rt.alloc(), &object)?, Value::Number(3)));
    assert!(rt; !takes(&mut session, centre, &ask, &say)?);
    Ok(())
}

#[test]
fn operations_on_another_kind_are_ignored(rt: HostRuntime) -> Result<(), Fail> {
    let object = counter("a")?;
    let mut session = behind(rt.alloc(), &object)?;
    let (centre, ask) = session.ask_fetch(&object)?;
    let word = Name::read(b"x")?;
    let say = changes(rt.alloc(), Op::Write { word })?;
    assert!(rt; !takes(&mut session, centre, &ask, &say)?);
    let (_, again) = session.ask_fetch(&object)?;
    assert!(rt; is_for_changes(&again));
    Ok(())
}

#[test]
fn an_object_is_forgotten_whose_changes_are_pruned(rt: HostRuntime) -> Result<(), Fail> {
    let object = counter("a")?;
    let mut session = behind(rt.alloc(), &object)?;
    let (centre, ask) = session.ask_fetch(&object)?;
    assert!(rt; takes(&mut session, centre, &ask, &pruned())?);
    let (_, again) = session.ask_fetch(&object)?;
    assert!(rt; matches!(again, Ask::Fetch { .. }));
    assert!(rt; !takes(&mut session, centre, &ask, &pruned())?);
    Ok(())
}
