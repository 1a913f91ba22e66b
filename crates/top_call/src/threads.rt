// The forms that play with threads, `run` and `load`, and what is owed for them. Of all that these two do the play alone
// may wait: what is read, parsed and written is as for each other form.
ghost use Rattle.std.specs.Prelude.{◌≡◌, ◌≢◌, ◌↔◌, [], IsTrue, IfOk, IfSome};
ghost use Rattle.command_line.specs.Forms.{IsForm, spelled};
ghost use Rattle.io_edge.specs.Streams.{HasRisen};
ghost use Rattle.top_call.specs.Runs.{EndsSo, Given, IsOwed, IsRead, IsThreaded, IsThreadedForm, given_form, texts};

use crate::ending::{Ended, ended_empty, write_owed};
use crate::engine::{Owed, played, refusal};
use crate::input::{Task, task_of};
use crate::stream::ReadFault;
use command_line::{Form, form_of};
use ids_core::NoMemory;
use io_edge::{Gate, Sink, Source};
use run_progress::Progress;
use std::alloc::Global;
use std::sync::Wait;
use std::thread::Threads;
use thread_run::run;

// Whether a form plays with threads.
fn is_threaded(form: Form) -> bool
    requires { IsForm form }
    ensures { IsTrue result ↔ IsThreaded form }
{
    matches!(form, Form::Run { .. } | Form::Load { .. })
}

/// The form that the words ask for, where it is one that plays with threads: `run` or `load`.
#[tactic(auto, using(crate::proofs::Owing::not_asked, crate::proofs::Owing::none_asked))]
pub fn form_with_threads(alloc: Global, words: &[String]) -> Result<Option<Form>, NoMemory>
    ensures { IfOk result (IsThreadedForm (texts words.now)) }
{
    match form_of(alloc, words)? {
        Some(form) => {
            if is_threaded(form) {
                return Ok(Some(form));
            }
            Ok(None)
        }
        None => Ok(None),
    }
}

// What is owed for a form that plays with threads.
#[tactic(auto, using(crate::proofs::Owing::threaded_plays, crate::proofs::Owing::threaded_book))]
fn owed_by_threads<R: Threads + Wait + Sync, S: Source, G: Gate + Progress>(
    rt: &R,
    alloc: Global,
    gate: &G,
    form: Form,
    source: &mut S,
) -> Result<Owed, ReadFault>
    requires threaded { IsThreaded form }
    requires may_read { S.may_read source.old }
    ensures owed { IfOk result (IsOwed (given_form form (S.left source.old))) }
    ensures end { IfOk result (λ owed. owed.status ≡ 0 → IsRead form → IfSome (S.left source.new) (λ rest. rest ≡ [])) }
    ensures unread { (IsRead form → ⊥) → S.left source.new ≡ S.left source.old }
    ensures read { result ≡ Err ReadFault.Failed → IsRead form }
    ensures failed { result ≡ Err ReadFault.Failed → HasRisen (S.faults source.old) (S.faults source.new) }
    ensures quiet { result ≢ Err ReadFault.Failed → S.faults source.new ≡ S.faults source.old }
{
    match task_of(alloc, form, source)? {
        Task::Play(script) => {
            let book = run(rt, alloc, gate, &script)?;
            let owed = played(alloc, form, script, book)?;
            Ok(owed)
        }
        Task::Refuse(fault) => {
            let owed = refusal(alloc, fault)?;
            Ok(owed)
        }
    }
}

/// Plays by a form with threads, and writes what is owed for it.
pub fn run_with_threads<R: Threads + Wait + Sync, S: Source, W: Sink, G: Gate + Progress>(
    rt: &R,
    alloc: Global,
    form: Form,
    source: &mut S,
    sink: &mut W,
    gate: &G,
) -> Ended
    requires threaded { IsThreaded form }
    requires may_read { S.may_read source.old }
    requires may_write { W.may_write sink.old }
    ensures ends { (given : Given) → given.words ≡ spelled form → given.left ≡ S.left source.old → given.taken ≡ W.taken sink.old → EndsSo given result (W.taken sink.new) }
    ensures end { result.status ≡ 0 → IsRead form → IfSome (S.left source.new) (λ rest. rest ≡ []) }
    ensures unread { (IsRead form → ⊥) → S.left source.new ≡ S.left source.old }
    ensures read { result.status ≡ 4 → HasRisen (S.faults source.old) (S.faults source.new) }
    ensures write { result.status ≡ 5 → HasRisen (W.faults sink.old) (W.faults sink.new) }
    ensures read_quiet { result.status ≢ 4 → S.faults source.new ≡ S.faults source.old }
    ensures write_quiet { result.status ≢ 5 → W.faults sink.new ≡ W.faults sink.old }
{
    match owed_by_threads(rt, alloc, gate, form, source) {
        Ok(owed) => write_owed(alloc, owed, sink),
        Err(ReadFault::Failed) => ended_empty(alloc, 4),
        Err(ReadFault::NoMemory) => ended_empty(alloc, 6),
    }
}
