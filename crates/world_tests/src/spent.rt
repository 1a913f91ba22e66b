// A world that was refused memory in the midst of an event. Run it with each allocation failing in turn: where none
// fails, it looks at the book alone.
use script_reader::parse;
use std::alloc::Global;
use std::test::Fail;
use world_core::{Event, World};

const SCRIPT: &[u8] = b"\
centres 1 k 1
clients 1
c1 connect 1
c1 begin
c1 add s.a x
c1 commit
c1 flush
c1 refresh
c1 read s.a
";

// A set on a tap, which is fed as sections 6 and 7, and looked at behind each.
const LOOKS: &[u8] = b"\
centres 1 k 1
clients 1
tap 1 s.a
c1 connect 1
c1 begin
c1 add s.a x
c1 commit
c1 flush
feed 1
feed 1
c1 tap 1 s.a
c1 tap 1 s.a
";

// The step of the client that is a section, or that of the operator.
fn event_of(section: u32, fed: bool) -> Event {
    let (client, step) = (1, 1);
    if fed {
        return Event::Operator { section, step };
    }
    Event::Client {
        client,
        section,
        step,
    }
}

// Whether a world of a script, of which these sections are feeds, has a book behind so many sections; and where it was
// refused memory, whether it plays no more and has none.
fn ends_well(alloc: Global, text: &[u8], count: u32, feeds: [u32; 2]) -> Result<bool, Fail> {
    let script = parse(alloc, text)?;
    let mut world = World::new(alloc, &script)?;
    for section in 1..count.saturating_add(1) {
        let event = event_of(section, feeds.contains(&section));
        if world.play(alloc, &event).is_err() {
            let still = world.play(alloc, &event).is_err();
            let bare = world.finish(alloc).is_err();
            return Ok(still && bare);
        }
    }
    Ok(world.finish(alloc)?.n == 1)
}

#[test]
fn a_spent_world_plays_no_more_and_gives_no_book(rt: HostRuntime) -> Result<(), Fail> {
    assert!(rt; ends_well(rt.alloc(), SCRIPT, 7, [0, 0])?);
    Ok(())
}

#[test]
fn a_world_spent_by_a_feed_or_a_look_plays_no_more(rt: HostRuntime) -> Result<(), Fail> {
    assert!(rt; ends_well(rt.alloc(), LOOKS, 9, [6, 7])?);
    Ok(())
}
