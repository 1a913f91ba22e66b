// The journals of the centres of a book.
ghost use Rattle.std.specs.Prelude.{◌≡◌, ◌+◌, ◌≤◌, ◌<◌, ◌++◌, ◌∷◌, [], IfOk, OnOk, map, take};
ghost use Rattle.journal_disk.specs.Steady.{steady_bytes};
ghost use Rattle.trail_journal.specs.Journals.{HasHistories, AreJournals, AreJournalsOf, centre_of};

use crate::steady::told_journal;
use crate::told::write_told;
use dc_talk::Settings;
use ids_core::NoMemory;
use journal_disk::SteadyDisk;
use run_book::Book;
use std::alloc::Global;

/// The journals of the centres of a book, in the order of the centres: a line for each, and their disks.
#[derive(Drop)]
pub struct Journals {
    pub text: Vec<u8>,
    pub disks: Vec<SteadyDisk>,
}

/// The journals of the centres of a book, of which each stamps at most `limit` transactions. Each centre is asked what
/// its trail has, and its disk is opened again. `Err` is want of memory. It takes time in the number of entries and in
/// what centres take for their answers, and copies the asks of one group at a time.
pub fn journals_of(alloc: Global, book: &Book, limit: u64) -> Result<Journals, NoMemory>
    requires { HasHistories book.now limit }
    ensures { IfOk result (λ journals. AreJournalsOf book.now limit journals.text.items (map steady_bytes journals.disks.items)) }
{
    let mut journals = Journals {
        text: Vec::new(alloc),
        disks: Vec::new(alloc),
    };
    for before in 0..book.n {
        add_journal(alloc, book, limit, before, &mut journals)?;
    }
    Ok(journals)
}

// Puts the journal of the next centre behind those of the centres before it.
fn add_journal(
    alloc: Global,
    book: &Book,
    limit: u64,
    before: u8,
    journals: &mut Journals,
) -> Result<(), NoMemory>
    requires histories { HasHistories book.now limit }
    requires next { before < book.now.n }
    requires first { AreJournals (centre_of book.now limit) 1 (take before book.now.trails) (map steady_bytes journals.old.disks.items) journals.old.text.items }
    ensures { OnOk result (AreJournals (centre_of book.now limit) 1 (take (before + 1) book.now.trails) (map steady_bytes journals.new.disks.items) journals.new.text.items) }
{
    let settings = Settings {
        me: before + 1,
        n: book.n,
        k: book.k,
        limit,
    };
    let (told, disk) = told_journal(alloc, settings, book.trail(before + 1))?;
    write_told(&mut journals.text, &told)?;
    journals.disks.push(disk)?;
    Ok(())
}
