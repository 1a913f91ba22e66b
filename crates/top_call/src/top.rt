// The top call.
ghost use Rattle.std.specs.Prelude.{◌≡◌, ◌≢◌, ◌⊎◌, None, [], IfSome, IsSomeAnd};
ghost use Rattle.io_edge.specs.Streams.{HasRisen};
ghost use Rattle.top_call.specs.Runs.{IsAnswerable, IsAsked, IsBookOf, IsDone, IsFitAndCausal, IsRefusal, IsStatus, IsUsage, Plays, Reads, ShowsBy, Wrote, WroteFront, WroteNothing, WroteShort, given_by, texts};

use crate::alone::swift_alone;
use crate::ending::{Ended, ended_empty};
use crate::threads::{form_with_threads, run_with_threads};
use ids_core::NoMemory;
use io_edge::{Gate, Sink, Source};
use run_progress::Progress;
use std::alloc::Global;
use std::sync::Wait;
use std::thread::Threads;

/// Does what the words ask for ([`Form`](command_line::Form)): plays the script that the source has and writes the text
/// of the run to the sink, the values read and the answers of the steps; plays it, makes the journal of each centre's trail
/// in a disk in memory, and writes a line of each; plays the script that is made of a number and writes the values that are
/// read behind its last phase; writes the script that is made of a number; or tells how the program is used. The statuses
/// are those of [`Ended`]. After the first read or write that fails no other is made. `run` and `load` play a script with
/// threads, and each call that one of them makes of a centre passes through the gate; so there it may wait for ever. All
/// other words are done by [`swift_alone`], which may not. In each form that plays a script the gate hears how far the
/// play is.
pub fn swift_main<R: Threads + Wait + Sync, S: Source, W: Sink, G: Gate + Progress>(
    rt: &R,
    alloc: Global,
    words: &[String],
    source: &mut S,
    sink: &mut W,
    gate: &G,
) -> Ended
    // The source may be read, and the sink written to. Behind a read or a write that fails no other is made, and none behind the
    // end of the input: nothing says that it may be.
    requires may_read { S.may_read source.old }
    requires may_write { W.may_write sink.old }

    // There are no other statuses.
    ensures statuses { IsStatus result.status }

    // 0: the words have a form. Where it is one that plays a script, this is all that the source had, or for `load` what
    // is made of its number; the book is one that the form leaves of the script, and the sink took the text of that
    // book, and of its trails where they were asked for, or for `load` only the lines with the values that were read
    // behind the last phase. `serial` and `journal` leave a run on one thread; `run` and `load` leave one section by section,
    // where the actors of a phase did all that is theirs and no more, each in its order, in whatever order among them. By
    // `journal` the sink took for each centre in order the line of its journal, and there is a disk for each in this order:
    // its bytes are just the journal of the centre's trail. By `make` the sink took the script that is made of its number,
    // and of a question the text that answers it; then the book is empty. There are no disks but by `journal`.
    ensures success { result.status ≡ 0 → Wrote IsDone (given_by words.now (S.left source.old) (W.taken sink.old)) result (W.taken sink.new) }

    // What is read is read to its end.
    ensures read_to_end { result.status ≡ 0 → Reads (texts words.now) → IfSome (S.left source.new) (λ rest. rest ≡ []) }

    // Nothing is read for words that have no script read: those of `load`, of `make`, of a question and of no form.
    ensures unread { (Reads (texts words.now) → ⊥) → S.left source.new ≡ S.left source.old }

    // What is played, in three storeys that speak of the one script and the one book that are handed out.
    //
    // The book fits the setup that the script asks for, and is causal: each value that was read stands on a causally
    // closed set of transactions. This set holds all that the session committed and the sets of its earlier reads, each
    // other member of it was known to K centres, and the value is that of the object over the set and the open updates.
    ensures causal { result.status ≡ 0 → Plays (texts words.now) → IsSomeAnd result.script (λ script. IsFitAndCausal script result.book) }

    // The book is one that the form leaves of the script: it has its steps.
    ensures run { result.status ≡ 0 → (play : Plays (texts words.now)) → IsSomeAnd result.script (λ script. IsBookOf play.asked script result.book) }

    // Each line of a look shows one of the shows of the centre's tap: the opening one, or what a feed found. On one thread it
    // is the last one in front of the line's step. In a phase with threads it is there by the end of the phase, it is no
    // earlier one than the last of the sections before, and no earlier one than the client's last look there showed.
    ensures taps { result.status ≡ 0 → (play : Plays (texts words.now)) → IsSomeAnd result.script (λ script. ShowsBy play.asked script result.book) }

    // The script is the one that the source had, or for `load` the one that is made of its number.
    ensures input { result.status ≡ 0 → (play : Plays (texts words.now)) → IsSomeAnd result.script (IsAsked play.asked (S.left source.old)) }

    // 2: words of no form. 3: an input that was read and is no script; the text names the first line at fault and the
    // cause. They are handed out with the bytes that were read: the whole input, or a front of it that passes the limits of a
    // script.
    ensures words { result.status ≡ 2 → Wrote IsUsage (given_by words.now (S.left source.old) (W.taken sink.old)) result (W.taken sink.new) }
    ensures refused { result.status ≡ 3 → Wrote IsRefusal (given_by words.now (S.left source.old) (W.taken sink.old)) result (W.taken sink.new) }

    // Words of a form are answered, and a script is played where one is to be, where no read and no write failed,
    // or memory ran out. The source has to have a script only for words that have it read.
    ensures completeness { IsAnswerable (given_by words.now (S.left source.old) (W.taken sink.old))
        → ¬ HasRisen (S.faults source.old) (S.faults source.new) → ¬ HasRisen (W.faults sink.old) (W.faults sink.new)
        → (result.status ≡ 0) ⊎ (result.status ≡ 6) }

    // 4: a read failed, of words that have a script read, and nothing was written.
    ensures read_fault { result.status ≡ 4 → HasRisen (S.faults source.old) (S.faults source.new) }
    ensures failed_read { result.status ≡ 4 → WroteNothing (given_by words.now (S.left source.old) (W.taken sink.old)) result (W.taken sink.new) }

    // 5: a write failed, and the sink took a front of what is owed; script, book and disks are those of the run.
    ensures write_fault { result.status ≡ 5 → HasRisen (W.faults sink.old) (W.faults sink.new) }
    ensures failed_write { result.status ≡ 5 → WroteFront (given_by words.now (S.left source.old) (W.taken sink.old)) result (W.taken sink.new) }

    // 6: want of memory, after nothing or a front of what is owed.
    ensures no_memory { result.status ≡ 6 → WroteShort (given_by words.now (S.left source.old) (W.taken sink.old)) result (W.taken sink.new) }

    // A fault is handed out at status 3 alone.
    ensures sound { result.status ≢ 3 → result.fault ≡ None }

    // At every other status the counts of faults stand as they were.
    ensures read_quiet { result.status ≢ 4 → S.faults source.new ≡ S.faults source.old }
    ensures write_quiet { result.status ≢ 5 → W.faults sink.new ≡ W.faults sink.old }
{
    match form_with_threads(alloc, words) {
        Ok(Some(form)) => run_with_threads(rt, alloc, form, source, sink, gate),
        Ok(None) => swift_alone(alloc, words, source, sink, gate),
        Err(NoMemory) => ended_empty(alloc, 6),
    }
}
