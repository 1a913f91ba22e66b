// From an input to the script that is to be played, or to the line at fault.
ghost use Rattle.std.specs.Prelude.{◌≡◌, ◌≢◌, [], IfOk, IfSome};
ghost use Rattle.io_edge.specs.Streams.{HasRisen};
ghost use Rattle.load_maker.specs.Made.{made_script};
ghost use Rattle.script_reader.specs.Scripts.{script_read};
ghost use Rattle.script_core.specs.Scripts.{IsInRange};
ghost use Rattle.top_call.specs.Runs.{IsRead, IsTask, IsTaskIn, IsTaskOf, IsThreaded, IsToPlay};

use crate::engine::Fault;
use crate::stream::{ReadFault, read_input};
use command_line::Form;
use ids_core::NoMemory;
use io_edge::Source;
use load_maker::{law_made_script, script_of};
use script_core::Script;
use script_reader::{ScriptFault, parse};
use std::alloc::Global;

/// What an input asks for that is to be a script.
#[derive(Drop)]
pub enum Task {
    /// To play this script.
    Play(Script),
    /// To refuse it: it is no script.
    Refuse(Fault),
}

// What bytes ask for. Where they are no script, they are handed back.
fn task_in(alloc: Global, bytes: Vec<u8>) -> Result<Task, NoMemory>
    ensures { IfOk result (IsTaskOf bytes.items) }
{
    match parse(alloc, &bytes) {
        Ok(script) => Ok(Task::Play(script)),
        Err(ScriptFault::Refused { line, cause }) => Ok(Task::Refuse(Fault {
            line,
            cause,
            input: bytes,
        })),
        Err(ScriptFault::NoMemory) => Err(NoMemory),
    }
}

/// Reads an input that is to be a script, to its end or past the limits of a script, and says what it asks for.
pub fn read_task<S: Source>(alloc: Global, source: &mut S) -> Result<Task, ReadFault>
    requires may_read { S.may_read source.old }
    ensures task { IfOk result (IsTaskIn (S.left source.old)) }
    ensures end { IfOk result (λ task. IsToPlay task → IfSome (S.left source.new) (λ rest. rest ≡ [])) }
    ensures failed { result ≡ Err ReadFault.Failed → HasRisen (S.faults source.old) (S.faults source.new) }
    ensures quiet { result ≢ Err ReadFault.Failed → S.faults source.new ≡ S.faults source.old }
{
    let input = read_input(alloc, source)?;
    let task = task_in(alloc, input.bytes)?;
    Ok(task)
}

// The script that is made of a number.
fn made(alloc: Global, num: u32) -> Result<Script, NoMemory>
    ensures range { IfOk result IsInRange }
    ensures script { IfOk result (λ script. script_read (made_script num) ≡ Ok script) }
{
    law_made_script();
    let bytes = script_of(alloc, num)?;
    match parse(alloc, &bytes) {
        Ok(script) => Ok(script),
        Err(ScriptFault::Refused { .. }) => unreachable!(),
        Err(ScriptFault::NoMemory) => Err(NoMemory),
    }
}

/// What a form asks for that plays with threads: by `run` what the input does, and by `load` the script that is made of
/// the number. Nothing is read then.
pub fn task_of<S: Source>(alloc: Global, form: Form, source: &mut S) -> Result<Task, ReadFault>
    requires threaded { IsThreaded form }
    requires may_read { S.may_read source.old }
    ensures task { IfOk result (IsTask form (S.left source.old)) }
    ensures end { IfOk result (λ task. IsToPlay task → IsRead form → IfSome (S.left source.new) (λ rest. rest ≡ [])) }
    ensures unread { (IsRead form → ⊥) → S.left source.new ≡ S.left source.old }
    ensures read { result ≡ Err ReadFault.Failed → IsRead form }
    ensures failed { result ≡ Err ReadFault.Failed → HasRisen (S.faults source.old) (S.faults source.new) }
    ensures quiet { result ≢ Err ReadFault.Failed → S.faults source.new ≡ S.faults source.old }
{
    match form {
        Form::Run { .. } => {
            let task = read_task(alloc, source)?;
            Ok(task)
        }
        Form::Load { num } => {
            let script = made(alloc, num)?;
            Ok(Task::Play(script))
        }
        _ => unreachable!(),
    }
}
