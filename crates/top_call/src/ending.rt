// How a run ends, once it is known what is owed.
ghost use Rattle.std.specs.Prelude.{◌≡◌, ◌≢◌, None, []};
ghost use Rattle.io_edge.specs.Streams.{HasRisen};
ghost use Rattle.top_call.specs.Runs.{EndsSo, Given, IsOwed, empty_book};

use crate::engine::{Fault, Owed};
use crate::stream::write_all;
use io_edge::{Sink, WriteFault};
use journal_disk::SteadyDisk;
use run_book::Book;
use script_core::Script;
use std::alloc::Global;

/// How a run ended.
#[derive(Drop)]
pub struct Ended {
    /// 0 where all was written that the words ask for, 2 for words of no form, 3 for an input that is no script, 4 after
    /// a failed read, 5 after a failed write, and 6 for want of memory.
    pub status: u8,
    /// The script that was played, where one was.
    pub script: Option<Script>,
    /// What the run left, or an empty book.
    pub book: Book,
    /// The disks of the journals of the book's trails, in the order of the centres, where `journal` made them, and none for
    /// every other form and where the book is empty.
    pub disks: Vec<SteadyDisk>,
    /// Where the input is no script, why it is none; at each status but 3 there is no fault.
    pub fault: Option<Fault>,
}

/// The end with a status, an empty book and no disks.
pub fn ended_empty(alloc: Global, status: u8) -> Ended
    ensures status { result.status ≡ status }
    ensures script { result.script ≡ None }
    ensures book { result.book ≡ empty_book }
    ensures disks { result.disks.items ≡ [] }
    ensures sound { result.fault ≡ None }
{
    Ended {
        status,
        script: None,
        book: Book::new(alloc, 1, 1),
        disks: Vec::new(alloc),
        fault: None,
    }
}

/// Writes what is owed, and ends so.
pub fn write_owed<W: Sink>(alloc: Global, owed: Owed, sink: &mut W) -> Ended
    requires may_write { W.may_write sink.old }
    ensures ends { (given : Given) → given.taken ≡ W.taken sink.old → IsOwed given owed → EndsSo given result (W.taken sink.new) }
    ensures done { result.status ≡ 0 → owed.status ≡ 0 }
    ensures read { owed.status ≢ 4 → result.status ≢ 4 }
    ensures write { owed.status ≢ 5 → result.status ≡ 5 → HasRisen (W.faults sink.old) (W.faults sink.new) }
    ensures write_quiet { result.status ≢ 5 → W.faults sink.new ≡ W.faults sink.old }
{
    match write_all(sink, &owed.text) {
        Ok(()) => Ended {
            status: owed.status,
            script: owed.script,
            book: owed.book,
            disks: owed.disks,
            fault: owed.fault,
        },
        Err(WriteFault::Failed) => Ended {
            status: 5,
            script: owed.script,
            book: owed.book,
            disks: owed.disks,
            fault: None,
        },
        Err(WriteFault::NoMemory) => ended_empty(alloc, 6),
    }
}
