// What is printed of the journal of a centre.
use crate::fault::Fault;
use file_disk::FileDisk;
use ids_core::NoMemory;
use pair_centre::PairCentre;
use print_text::{write_named, write_vector};
use std::str;

// The line of the journal of a centre.
fn write_line(line: &mut Vec<u8>, me: u8, pair: &PairCentre<FileDisk>) -> Result<(), NoMemory> {
    write_named(line, b"journal ", u64::from(me))?;
    write_named(line, b" bytes ", pair.size())?;
    write_named(line, b" checkpoint ", pair.checkpoint_size())?;
    line.extend_from_slice(b" vector ")?;
    write_vector(line, &pair.vector())?;
    line.extend_from_slice(b"\n")?;
    Ok(())
}

/// Prints the line of the journal of a centre: how long its live file is, how long that was with its checkpoint alone, and
/// how many records of each centre it has.
pub(crate) fn tell<R: Print + AllocGlobal>(
    rt: &R,
    me: u8,
    pair: &PairCentre<FileDisk>,
) -> Result<(), Fault> {
    let mut line = Vec::new(rt.alloc());
    if write_line(&mut line, me, pair).is_err() {
        return Err(Fault::NoMemory);
    }
    match str::from_utf8(&line) {
        Ok(line) => match print!(rt; "{line}") {
            Ok(()) => Ok(()),
            Err(_) => Err(Fault::Output),
        },
        Err(_) => Err(Fault::Output),
    }
}
