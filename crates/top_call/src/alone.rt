// The words that are done on one thread: all but those of `run` and of `load`. Nothing here may wait.
ghost use Rattle.std.specs.Prelude.{◌≡◌, ◌≢◌, ◌⊎◌, ℕ, List, Option, None, [], Err, IfOk, IfSome, IsSomeAnd};
ghost use Rattle.command_line.specs.Forms.{IsForm, spelled};
ghost use Rattle.io_edge.specs.Streams.{HasRisen};
ghost use Rattle.top_call.specs.Runs.{AsksThreads, EndsSo, Given, IsAnswerable, IsAsked, IsBookOf, IsDone, IsFitAndCausal, IsOwed, IsRead, IsRefusal, IsStatus, IsThreaded, IsUsage, Plays, Reads, ShowsBy, Wrote, WroteFront, WroteNothing, WroteShort, given_by, texts};

use crate::ending::{Ended, ended_empty, write_owed};
use crate::engine::{Owed, answer, played, refusal, usage};
use crate::input::{Task, read_task};
use crate::stream::ReadFault;
use command_line::{Form, form_of, help, version_line};
use io_edge::{Sink, Source};
use load_maker::script_of;
use run_progress::Progress;
use std::alloc::Global;
use world_core::serial_with;

// Reads an input, and what is owed for it by a form that plays it on one thread: `serial` or `journal`.
#[tactic(auto, using(crate::proofs::Owing::read_plays, crate::proofs::Owing::alone_book))]
fn owed_by_turns<S: Source, G: Progress>(
    alloc: Global,
    gate: &G,
    form: Form,
    source: &mut S,
) -> Result<Owed, ReadFault>
    requires reads { IsRead form }
    requires alone { IsThreaded form → ⊥ }
    requires may_read { S.may_read source.old }
    ensures owed { IfOk result (λ owed. (given : Given) → given.words ≡ spelled form → given.left ≡ S.left source.old → IsOwed given owed) }
    ensures end { IfOk result (λ owed. owed.status ≡ 0 → IfSome (S.left source.new) (λ rest. rest ≡ [])) }
    ensures failed { result ≡ Err ReadFault.Failed → HasRisen (S.faults source.old) (S.faults source.new) }
    ensures quiet { result ≢ Err ReadFault.Failed → S.faults source.new ≡ S.faults source.old }
{
    match read_task(alloc, source)? {
        Task::Play(script) => {
            let book = serial_with(alloc, &script, gate)?;
            let owed = played(alloc, form, script, book)?;
            Ok(owed)
        }
        Task::Refuse(fault) => {
            let owed = refusal(alloc, fault)?;
            Ok(owed)
        }
    }
}

// What is owed for a form that needs no threads. Nothing is read from the source but a script that is to be played from
// there.
fn owed_by<S: Source, G: Progress>(
    alloc: Global,
    gate: &G,
    form: Form,
    source: &mut S,
) -> Result<Owed, ReadFault>
    requires known { IsForm form }
    requires alone { IsThreaded form → ⊥ }
    requires may_read { S.may_read source.old }
    ensures owed { IfOk result (λ owed. (given : Given) → given.words ≡ spelled form → given.left ≡ S.left source.old → IsOwed given owed) }
    ensures end { IfOk result (λ owed. owed.status ≡ 0 → IsRead form → IfSome (S.left source.new) (λ rest. rest ≡ [])) }
    ensures unread { (IsRead form → ⊥) → S.left source.new ≡ S.left source.old }
    ensures read { result ≡ Err ReadFault.Failed → IsRead form }
    ensures failed { result ≡ Err ReadFault.Failed → HasRisen (S.faults source.old) (S.faults source.new) }
    ensures quiet { result ≢ Err ReadFault.Failed → S.faults source.new ≡ S.faults source.old }
{
    match form {
        Form::Serial { .. } | Form::Journal => {
            let owed = owed_by_turns(alloc, gate, form, source)?;
            Ok(owed)
        }
        Form::Make { num } => Ok(answer(alloc, script_of(alloc, num)?)),
        Form::Help => Ok(answer(alloc, help(alloc)?)),
        Form::Version => Ok(answer(alloc, version_line(alloc)?)),
        Form::Run { .. } => unreachable!(),
        Form::Load { .. } => unreachable!(),
    }
}

// What is owed for the words and the source, from which nothing is read for words of another form.
#[tactic(auto, using(crate::proofs::Owing::alone_form))]
fn owed_to<S: Source, G: Progress>(
    alloc: Global,
    gate: &G,
    words: &[String],
    source: &mut S,
) -> Result<Owed, ReadFault>
    requires alone { AsksThreads (texts words.now) → ⊥ }
    requires may_read { S.may_read source.old }
    ensures owed { IfOk result (λ owed. (taken : Option (List ℕ)) → IsOwed (given_by words.now (S.left source.old) taken) owed) }
    ensures end { IfOk result (λ owed. owed.status ≡ 0 → Reads (texts words.now) → IfSome (S.left source.new) (λ rest. rest ≡ [])) }
    ensures unread { (Reads (texts words.now) → ⊥) → S.left source.new ≡ S.left source.old }
    ensures read { result ≡ Err ReadFault.Failed → Reads (texts words.now) }
    ensures failed { result ≡ Err ReadFault.Failed → HasRisen (S.faults source.old) (S.faults source.new) }
    ensures quiet { result ≢ Err ReadFault.Failed → S.faults source.new ≡ S.faults source.old }
{
    match form_of(alloc, words)? {
        Some(form) => {
            let owed = owed_by(alloc, gate, form, source)?;
            Ok(owed)
        }
        None => {
            let owed = usage(alloc)?;
            Ok(owed)
        }
    }
}

// Runs the words, by what is owed for them.
fn run_alone<S: Source, W: Sink, G: Progress>(
    alloc: Global,
    words: &[String],
    source: &mut S,
    sink: &mut W,
    gate: &G,
) -> Ended
    requires alone { AsksThreads (texts words.now) → ⊥ }
    requires may_read { S.may_read source.old }
    requires may_write { W.may_write sink.old }
    ensures ends { EndsSo (given_by words.now (S.left source.old) (W.taken sink.old)) result (W.taken sink.new) }
    ensures end { result.status ≡ 0 → Reads (texts words.now) → IfSome (S.left source.new) (λ rest. rest ≡ []) }
    ensures unread { (Reads (texts words.now) → ⊥) → S.left source.new ≡ S.left source.old }
    ensures read { result.status ≡ 4 → HasRisen (S.faults source.old) (S.faults source.new) }
    ensures write { result.status ≡ 5 → HasRisen (W.faults sink.old) (W.faults sink.new) }
    ensures read_quiet { result.status ≢ 4 → S.faults source.new ≡ S.faults source.old }
    ensures write_quiet { result.status ≢ 5 → W.faults sink.new ≡ W.faults sink.old }
{
    match owed_to(alloc, gate, words, source) {
        Ok(owed) => write_owed(alloc, owed, sink),
        Err(ReadFault::Failed) => ended_empty(alloc, 4),
        Err(ReadFault::NoMemory) => ended_empty(alloc, 6),
    }
}

/// Does on one thread what the words ask for, where they ask for no threads
/// ([`form_with_threads`](crate::form_with_threads)): by `serial` and `journal` it plays the script that the source has, by
/// `make` it writes a script, and it answers questions, words of no form, and inputs that are no script. It has no leave to wait, so
/// it returns. Its clauses are those of [`swift_main`](crate::swift_main), which say what they mean.
pub fn swift_alone<S: Source, W: Sink, G: Progress>(
    alloc: Global,
    words: &[String],
    source: &mut S,
    sink: &mut W,
    gate: &G,
) -> Ended
    requires alone { AsksThreads (texts words.now) → ⊥ }
    requires may_read { S.may_read source.old }
    requires may_write { W.may_write sink.old }
    ensures statuses { IsStatus result.status }
    ensures success { result.status ≡ 0 → Wrote IsDone (given_by words.now (S.left source.old) (W.taken sink.old)) result (W.taken sink.new) }
    ensures read_to_end { result.status ≡ 0 → Reads (texts words.now) → IfSome (S.left source.new) (λ rest. rest ≡ []) }
    ensures unread { (Reads (texts words.now) → ⊥) → S.left source.new ≡ S.left source.old }
    ensures causal { result.status ≡ 0 → Plays (texts words.now) → IsSomeAnd result.script (λ script. IsFitAndCausal script result.book) }
    ensures run { result.status ≡ 0 → (play : Plays (texts words.now)) → IsSomeAnd result.script (λ script. IsBookOf play.asked script result.book) }
    ensures taps { result.status ≡ 0 → (play : Plays (texts words.now)) → IsSomeAnd result.script (λ script. ShowsBy play.asked script result.book) }
    ensures input { result.status ≡ 0 → (play : Plays (texts words.now)) → IsSomeAnd result.script (IsAsked play.asked (S.left source.old)) }
    ensures words { result.status ≡ 2 → Wrote IsUsage (given_by words.now (S.left source.old) (W.taken sink.old)) result (W.taken sink.new) }
    ensures refused { result.status ≡ 3 → Wrote IsRefusal (given_by words.now (S.left source.old) (W.taken sink.old)) result (W.taken sink.new) }
    ensures completeness { IsAnswerable (given_by words.now (S.left source.old) (W.taken sink.old))
        → ¬ HasRisen (S.faults source.old) (S.faults source.new) → ¬ HasRisen (W.faults sink.old) (W.faults sink.new)
        → (result.status ≡ 0) ⊎ (result.status ≡ 6) }
    ensures read_fault { result.status ≡ 4 → HasRisen (S.faults source.old) (S.faults source.new) }
    ensures failed_read { result.status ≡ 4 → WroteNothing (given_by words.now (S.left source.old) (W.taken sink.old)) result (W.taken sink.new) }
    ensures write_fault { result.status ≡ 5 → HasRisen (W.faults sink.old) (W.faults sink.new) }
    ensures failed_write { result.status ≡ 5 → WroteFront (given_by words.now (S.left source.old) (W.taken sink.old)) result (W.taken sink.new) }
    ensures no_memory { result.status ≡ 6 → WroteShort (given_by words.now (S.left source.old) (W.taken sink.old)) result (W.taken sink.new) }
    ensures sound { result.status ≢ 3 → result.fault ≡ None }
    ensures read_quiet { result.status ≢ 4 → S.faults source.new ≡ S.faults source.old }
    ensures write_quiet { result.status ≢ 5 → W.faults sink.new ≡ W.faults sink.old }
{
    run_alone(alloc, words, source, sink, gate)
}
