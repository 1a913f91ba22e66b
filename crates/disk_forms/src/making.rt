// The journals of the centres of a book, in new files.
ghost use Rattle.std.specs.Prelude.{◌<◌, ◌≤◌};

use crate::fault::Fault;
use crate::folder::{Wanted, disks_of, files_of, make_folder};
use crate::numbers::{Numbers, write_numbers};
use crate::told::tell;
use file_disk::FileDisk;
use journal_file::JournalFault;
use pair_centre::PairCentre;
use run_book::Book;
use std::fs;
use std::fs::Files;
use trail_pair::ask_trail;

// A centre with an empty journal in two new files.
fn new_pair<R: Files<File = fs::File> + AllocGlobal>(
    rt: &R,
    folder: &str,
    numbers: Numbers,
    before: u8,
) -> Result<PairCentre<FileDisk>, Fault>
    requires { before < numbers.n }
{
    let me = before + 1;
    let (first, second) = disks_of(rt, folder, me, Wanted::New)?;
    let Numbers { n, k, limit } = numbers;
    match PairCentre::create(rt.alloc(), me, n, k, limit, first, second) {
        Ok(pair) => Ok(pair),
        Err(unopened) => Err(Fault::of_centre(files_of(rt.alloc(), folder, me)?, unopened.why)),
    }
}

// Asks a centre all asks of its trail, and prints the line of its journal.
fn fill<R: Files<File = fs::File> + Print + AllocGlobal>(
    rt: &R,
    folder: &str,
    book: &Book,
    me: u8,
    pair: &mut PairCentre<FileDisk>,
) -> Result<(), Fault>
    requires { 1 ≤ me }
{
    if pair.is_shut() {
        return Err(Fault::Disk(files_of(rt.alloc(), folder, me)?));
    }
    match ask_trail(rt.alloc(), pair, book.trail(me)) {
        Ok(()) => tell(rt, me, pair),
        Err(JournalFault::NoMemory) => Err(Fault::NoMemory),
        Err(_) => Err(Fault::Disk(files_of(rt.alloc(), folder, me)?)),
    }
}

/// Makes the journals of the centres of a book in new files of a folder, of which each centre stamps at most `limit`
/// transactions, and prints the line of each once all of its trail is there. The folder is made where it is not there. After
/// an `Err` some files are made, and the journal of each centre has a front of its trail.
pub fn journal_in<R: Files<File = fs::File> + Print + AllocGlobal>(
    rt: &R,
    folder: &str,
    book: &Book,
    limit: u64,
) -> Result<(), Fault> {
    let Some(numbers) = Numbers::new(book.n, book.k, limit) else {
        return Err(Fault::Settings(String::from_str(rt.alloc(), folder)?));
    };
    make_folder(rt, folder)?;
    let mut pairs = Vec::new(rt.alloc());
    for before in 0..numbers.n {
        pairs.push(new_pair(rt, folder, numbers, before)?)?;
    }
    write_numbers(rt, folder, numbers)?;
    let mut before = 0u8;
    for pair in &mut pairs {
        let Some(me) = before.checked_add(1) else {
            break;
        };
        fill(rt, folder, book, me, pair)?;
        before = me;
    }
    Ok(())
}
