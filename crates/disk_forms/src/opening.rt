// The journals in a folder are opened.
ghost use Rattle.std.specs.Prelude.{◌<◌};

use crate::fault::Fault;
use crate::folder::{Wanted, disks_of, files_of};
use crate::numbers::{Numbers, read_numbers};
use crate::told::tell;
use pair_centre::PairCentre;
use std::fs;
use std::fs::Files;

// Opens the two files of a centre, and prints the line of its journal.
fn open_one<R: Files<File = fs::File> + Print + AllocGlobal>(
    rt: &R,
    folder: &str,
    numbers: Numbers,
    before: u8,
) -> Result<(), Fault>
    requires { before < numbers.n }
{
    let me = before + 1;
    let (first, second) = disks_of(rt, folder, me, Wanted::Old)?;
    let Numbers { n, k, limit } = numbers;
    match PairCentre::open(rt.alloc(), me, n, k, limit, first, second) {
        Ok(pair) => tell(rt, me, &pair),
        Err(unopened) => Err(Fault::of_centre(files_of(rt.alloc(), folder, me)?, unopened.why)),
    }
}

/// Opens the journals in a folder, and prints the line of each. Where one is bad the others are opened all the same; the
/// faults are those of the centres, in their order. `Err` is that the folder has no numbers, or want of memory. It changes
/// nothing but what stands behind the last gate of a file.
pub fn recover_from<R: Files<File = fs::File> + Print + AllocGlobal>(
    rt: &R,
    folder: &str,
) -> Result<Vec<Fault>, Fault> {
    let numbers = read_numbers(rt, folder)?;
    let mut faults = Vec::new(rt.alloc());
    for before in 0..numbers.n {
        if let Err(fault) = open_one(rt, folder, numbers, before) {
            faults.push(fault)?;
        }
    }
    Ok(faults)
}
