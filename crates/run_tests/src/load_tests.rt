// What a load writes: the values that are read behind the last phase.
use load_text::{last_phase, load_text};
use script_reader::parse;
use std::test::Fail;
use world_core::serial;

// Reads before a phase without rounds, in it and behind it; the last one gets no value.
const READS: &[u8] =
    b"centres 1 k 1\nclients 3\nrounds 0\nc1 connect 1\nc1 read c.a\nphase\nc2 connect 1\nc2 begin\nc2 inc c.a 5\nc2 read c.a\nc2 commit\nc2 push\nend\nc2 read r.b\nc1 refresh\nc1 read c.a\nc3 read c.a\n";

#[test]
fn the_values_behind_the_last_phase_are_told(rt: HostRuntime) -> Result<(), Fail> {
    let alloc = rt.alloc();
    let script = parse(alloc, READS)?;
    let book = serial(alloc, &script)?;
    let text = load_text(alloc, &script, book.logs.as_slice())?;
    assert_eq!(rt; last_phase(&script), 3);
    assert_eq!(rt;
        text.as_slice(),
        b"c2 read r.b -\nc1 read c.a 5\n".as_slice()
    );
    Ok(())
}
