// Which parts make a bundle.

use ids_core::{Dot, NoMemory, ObjectId, Sort};
use join_bundle::{Bundle, BundleParts, Cause, ClientPart, Condition};
use list_core::List;
use samples::{counter, inc_tx, pair};
use std::alloc::Global;
use std::test::Fail;
use tx_core::{RestPart, State, StatePart};
use vv_core::{Stamp, Vector};

// A way to break good parts.
#[derive(Clone, Copy)]
enum Spoil {
    Nothing,
    WideBase,
    WideMark,
    NoRow,
    WideRow,
    DonorZero,
    DonorThree,
    DepthNine,
    EarlyMark,
    LateMark,
    TwiceClient,
    LateClient,
    ClientZero,
    NoNumber,
    NoCentre,
    TwiceObject,
    OtherKind,
    NoUpdate,
    LateNumber,
    TwiceDot,
    NoStamp,
}

// Each way, with the condition that the parts break then.
const SPOILS: [(Spoil, Condition); 20] = [
    (Spoil::WideBase, Condition::BaseWidth),
    (Spoil::WideMark, Condition::MarkWidth),
    (Spoil::NoRow, Condition::RowCount),
    (Spoil::WideRow, Condition::RowWidths),
    (Spoil::DonorZero, Condition::Donor),
    (Spoil::DonorThree, Condition::Donor),
    (Spoil::DepthNine, Condition::Depth),
    (Spoil::EarlyMark, Condition::MarkOverBase),
    (Spoil::LateMark, Condition::VectorOverMark),
    (Spoil::TwiceClient, Condition::ClientOrder),
    (Spoil::LateClient, Condition::ClientRange),
    (Spoil::ClientZero, Condition::ClientRange),
    (Spoil::NoNumber, Condition::ClientNumbers),
    (Spoil::NoCentre, Condition::ClientStamps),
    (Spoil::TwiceObject, Condition::ObjectOrder),
    (Spoil::OtherKind, Condition::StateSorts),
    (Spoil::NoUpdate, Condition::RestFit),
    (Spoil::LateNumber, Condition::RestNumbers),
    (Spoil::TwiceDot, Condition::RestDots),
    (Spoil::NoStamp, Condition::RestStamps),
];

// What each of two centres has told.
fn rows_of(alloc: Global, spoil: Spoil) -> Result<List<Vector>, NoMemory> {
    let mut rows = List::new(alloc);
    rows.push(pair(3, 2))?;
    match spoil {
        Spoil::NoRow => {}
        Spoil::WideRow => rows.push(Vector::zero(3))?,
        _ => rows.push(pair(1, 2))?,
    }
    Ok(rows)
}

// A client with its number and the centre of its stamp.
fn client(client: u32, number: u64, centre: u8) -> ClientPart {
    ClientPart {
        client,
        number,
        stamp: Stamp { centre, seq: 1 },
        folded: 0,
    }
}

// Clients 1 and 1,024, of which the first has number 2.
fn clients_of(alloc: Global, spoil: Spoil) -> Result<List<ClientPart>, NoMemory> {
    let mut clients = List::new(alloc);
    clients.push(match spoil {
        Spoil::ClientZero => client(0, 2, 1),
        Spoil::TwiceClient => client(1_024, 2, 1),
        Spoil::NoCentre => client(1, 2, 0),
        _ => client(1, 2, 1),
    })?;
    clients.push(match spoil {
        Spoil::LateClient => client(1_025, 1, 2),
        Spoil::NoNumber => client(1_024, 0, 2),
        _ => client(1_024, 1, 2),
    })?;
    Ok(clients)
}

// A counter and a set of one name.
fn states_of(alloc: Global, spoil: Spoil, counter: &ObjectId) -> Result<List<StatePart>, NoMemory> {
    let mut states = List::new(alloc);
    states.push(StatePart {
        object: *counter,
        state: State::empty(alloc, Sort::Counter)?,
    })?;
    let sort = match spoil {
        Spoil::TwiceObject => Sort::Counter,
        _ => Sort::Set,
    };
    states.push(StatePart {
        object: ObjectId {
            sort,
            name: counter.name,
        },
        state: match spoil {
            Spoil::OtherKind => State::empty(alloc, Sort::Map)?,
            _ => State::empty(alloc, sort)?,
        },
    })?;
    Ok(states)
}

// A transaction of client 1 that adds deltas to a counter, with a stamp or none.
fn rest_part(
    alloc: Global,
    number: u64,
    counter: &ObjectId,
    deltas: &[i64],
    stamp: Option<Stamp>,
) -> Result<RestPart, NoMemory> {
    let mut stamps = List::new(alloc);
    if let Some(stamp) = stamp {
        stamps.push(stamp)?;
    }
    let dot = Dot { client: 1, number };
    Ok(RestPart {
        tx: inc_tx(alloc, dot, 1, pair(0, 0), counter, deltas)?,
        stamps,
    })
}

// Transactions 1 and 2 of client 1.
fn rest_of(alloc: Global, spoil: Spoil, counter: &ObjectId) -> Result<List<RestPart>, NoMemory> {
    let mut rest = List::new(alloc);
    let stamp = Some(Stamp { centre: 1, seq: 1 });
    rest.push(match spoil {
        Spoil::NoUpdate => rest_part(alloc, 1, counter, &[], stamp)?,
        Spoil::NoStamp => rest_part(alloc, 1, counter, &[5], None)?,
        _ => rest_part(alloc, 1, counter, &[5], stamp)?,
    })?;
    rest.push(match spoil {
        Spoil::TwiceDot => rest_part(alloc, 1, counter, &[7], stamp)?,
        Spoil::LateNumber => rest_part(alloc, 3, counter, &[7], stamp)?,
        _ => rest_part(alloc, 2, counter, &[7], stamp)?,
    })?;
    Ok(rest)
}

// The parts of centre 1 of two, broken in a way.
fn parts_of(alloc: Global, spoil: Spoil, counter: &ObjectId) -> Result<BundleParts, NoMemory> {
    Ok(BundleParts {
        donor: match spoil {
            Spoil::DonorZero => 0,
            Spoil::DonorThree => 3,
            _ => 1,
        },
        depth: match spoil {
            Spoil::DepthNine => 9,
            _ => 8,
        },
        vector: pair(3, 2),
        rows: rows_of(alloc, spoil)?,
        base: match spoil {
            Spoil::WideBase => Vector::zero(3),
            _ => pair(1, 0),
        },
        mark: match spoil {
            Spoil::WideMark => Vector::zero(3),
            Spoil::EarlyMark => pair(0, 2),
            Spoil::LateMark => pair(1, 3),
            _ => pair(1, 2),
        },
        folded: 1,
        top: 1,
        clients: clients_of(alloc, spoil)?,
        states: states_of(alloc, spoil, counter)?,
        rest: rest_of(alloc, spoil, counter)?,
    })
}

// Whether the cause is that the condition is broken.
fn is_broken(cause: &Cause, want: Condition) -> bool {
    match cause {
        Cause::Broken { condition } => *condition == want,
        Cause::OutOfMemory => false,
    }
}

// Whether the parts that are broken in a way come back with the condition that they break.
fn comes_back(alloc: Global, spoil: Spoil, want: Condition) -> Result<bool, Fail> {
    let parts = parts_of(alloc, spoil, &counter("a")?)?;
    match Bundle::of(alloc, parts) {
        Ok(_) => Ok(false),
        Err(refused) => Ok(is_broken(&refused.cause, want) && refused.parts.rest.len() == 2),
    }
}

#[test]
fn broken_parts_come_back_with_the_condition(rt: HostRuntime) -> Result<(), Fail> {
    for (spoil, want) in &SPOILS {
        assert!(rt; comes_back(rt.alloc(), *spoil, *want)?);
    }
    Ok(())
}

#[test]
fn good_parts_make_a_bundle(rt: HostRuntime) -> Result<(), Fail> {
    let parts = parts_of(rt.alloc(), Spoil::Nothing, &counter("a")?)?;
    match Bundle::of(rt.alloc(), parts) {
        Ok(bundle) => {
            let copy = bundle.copy()?;
            assert!(rt; bundle.parts().vector == pair(3, 2));
            assert!(rt; copy.parts().rest.len() == 2 && copy.parts().depth == 8);
        }
        Err(_) => assert!(rt; false),
    }
    Ok(())
}
