// Lines that no example has, and no test of what a client or an operator is told.
use dc_talk::{Line, Miss, ShipEnd, StepWord};
use ids_core::{NoMemory, ObjectId};
use print_text::write_line;
use samples::counter;
use std::alloc::Global;
use std::test::Fail;
use vv_core::Lack;

// Whether a line is written so.
fn prints(alloc: Global, line: Line, want: &str) -> Result<bool, NoMemory> {
    let mut text = Vec::new(alloc);
    write_line(&mut text, &line)?;
    Ok(text.as_slice() == want.as_bytes())
}

// Whether the line of a connect to a centre that finds a misfit is written as it is to be.
fn prints_misfit(alloc: Global) -> Result<bool, NoMemory> {
    let missed = Line::ConnectMissed {
        client: 2,
        centre: 3,
        miss: Miss::Misfit,
    };
    prints(alloc, missed, "c2 connect 3 misfit")
}

// Whether the line of a change with too many identifiers is written as it is to be.
fn prints_tags(alloc: Global, object: ObjectId) -> Result<bool, NoMemory> {
    let tags = Line::ManyTags {
        client: 5,
        word: StepWord::Add,
        object,
        count: 4_097,
    };
    prints(alloc, tags, "c5 add c.stock_7 tags 4097")
}

#[test]
fn lines_of_steps_that_fail(rt: HostRuntime) -> Result<(), Fail> {
    assert!(rt; prints_misfit(rt.alloc())?);
    assert!(rt; prints(rt.alloc(), Line::BeginClock { client: 2 }, "c2 begin clock")?);
    assert!(rt; prints_tags(rt.alloc(), counter("stock_7")?)?);
    Ok(())
}

// Whether the line of a relay that ends so is written so.
fn prints_relay(alloc: Global, end: ShipEnd, want: &str) -> Result<bool, NoMemory> {
    let (from, origin, to) = (2, 1, 3);
    let relay = Line::Relay {
        from,
        origin,
        to,
        end,
    };
    prints(alloc, relay, want)
}

#[test]
fn lines_of_relays(rt: HostRuntime) -> Result<(), Fail> {
    let lack = Lack {
        centre: 3,
        need: 9,
        have: 7,
    };
    let waits = ShipEnd::Waits { lack };
    assert!(rt;
        prints_relay(
            rt.alloc(),
            ShipEnd::Applied { seq: 7 },
            "3 from 2 of 1 applied 7"
        )?
    );
    assert!(rt;
        prints_relay(
            rt.alloc(),
            ShipEnd::Alias { seq: 7 },
            "3 from 2 of 1 alias 7"
        )?
    );
    assert!(rt; prints_relay(rt.alloc(), waits, "3 from 2 of 1 waits 3:9 has 7")?);
    assert!(rt;
        prints_relay(
            rt.alloc(),
            ShipEnd::Trimmed { from: 4 },
            "3 from 2 of 1 trimmed 4"
        )?
    );
    assert!(rt;
        prints_relay(
            rt.alloc(),
            ShipEnd::Down { centre: 2 },
            "3 from 2 of 1 down 2"
        )?
    );
    Ok(())
}
