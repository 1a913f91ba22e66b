// What events name.
ghost use Rattle.std.specs.Prelude.{◌≡◌, ◌+◌, Some, None, IfSome, IfNone, IfOk, slice_get};
ghost use Rattle.std.specs.List.{filter_map};
ghost use Rattle.std.specs.Option.{option_map, option_and_then};
ghost use Rattle.dc_talk.specs.declared.ask.Ask.TheVariants.{Commit};
ghost use Rattle.run_book.specs.Moves.{client_step, operator_step, client_steps, operator_steps};
ghost use Rattle.dc_door.specs.KeptDoors.{trail_at};
ghost use Rattle.run_table.specs.Tables.{log_at};
ghost use Rattle.run_table.specs.Works.{work_of};
ghost use Rattle.world_core.specs.Events.{numbered, step_named, role_of, work_in, work_named, commit_of, commit_named, records_of, record_named, delivery_of, if_centre};

use crate::world::World;
use dc_talk::{Ask, Deed, Log, Note, Say};
use ids_core::NoMemory;
use machine_trail::Entry;
use run_table::Work;
use script_core::{ClientStep, OperatorStep, Role, Script, Section, Step, StepsSeen};

// What a client does in a step, where the step is the client's.
fn client_step(step: &Step, client: u32) -> Option<ClientStep>
    ensures { result ≡ client_step client step.now }
{
    match step {
        Step::Client {
            client: other,
            step,
        } if *other == client => Some(*step),
        _ => None,
    }
}

// What the operator does in a step, where the step is the operator's.
fn operator_step(step: &Step) -> Option<OperatorStep>
    ensures { result ≡ operator_step step.now }
{
    match step {
        Step::Operator { step } => Some(*step),
        _ => None,
    }
}

// The step of a client with a number among these.
fn client_step_in(steps: &[Step], client: u32, number: u32) -> Option<ClientStep>
    ensures { result ≡ numbered (filter_map (client_step client) steps.now) number }
{
    let mut left = number;
    'steps: for step in steps {
        if let Some(does) = client_step(step, client) {
            if left == 1 {
                return Some(does);
            }
            left = left.saturating_sub(1);
        }
    }
    None
}

// The step of the operator with a number among these.
fn operator_step_in(steps: &[Step], number: u32) -> Option<OperatorStep>
    ensures { result ≡ numbered (filter_map operator_step steps.now) number }
{
    let mut left = number;
    'steps: for step in steps {
        if let Some(does) = operator_step(step) {
            if left == 1 {
                return Some(does);
            }
            left = left.saturating_sub(1);
        }
    }
    None
}

// The section of a number.
fn section_named(script: &Script, number: u32) -> Option<&Section>
    ensures some { IfSome result (λ found. numbered script.now.sections number ≡ Some found.now) }
    ensures none { IfNone result (numbered script.now.sections number ≡ None) }
{
    if number == 0 {
        return None;
    }
    script.sections.as_slice().get((number - 1) as usize)
}

/// The step of a client with a number in a section of a script.
pub(crate) fn client_step_named(
    script: &Script,
    client: u32,
    section: u32,
    number: u32,
) -> Option<ClientStep>
    ensures { result ≡ step_named (client_steps client) script.now section number }
{
    match section_named(script, section) {
        Some(found) => match found.steps.seen() {
            StepsSeen::One(step) => client_step_in(&[step], client, number),
            StepsSeen::Many(steps) => client_step_in(steps, client, number),
        },
        None => None,
    }
}

/// The step of the operator with a number in a section of a script.
pub(crate) fn operator_step_named(
    script: &Script,
    section: u32,
    number: u32,
) -> Option<OperatorStep>
    ensures { result ≡ step_named operator_steps script.now section number }
{
    match section_named(script, section) {
        Some(found) => match found.steps.seen() {
            StepsSeen::One(step) => operator_step_in(&[step], number),
            StepsSeen::Many(steps) => operator_step_in(steps, number),
        },
        None => None,
    }
}

// The role of a number.
fn role_of(number: u8) -> Option<Role>
    ensures { result ≡ role_of number }
{
    match number {
        1 => Some(Role::Sender),
        2 => Some(Role::Receiver),
        3 => Some(Role::Reporter),
        4 => Some(Role::Pruner),
        _ => None,
    }
}

// What the worker of a centre with a role does in a round of a phase.
fn work_in(script: &Script, round: u32, centre: u8, role: u8) -> Option<Work>
    ensures { option_map (work_of centre) result ≡ work_in script.now round centre role }
{
    if centre == 0 || centre > script.n {
        return None;
    }
    if round >= 1 && round <= script.rounds {
        return match role_of(role) {
            Some(role) => Some(Work::Round(role)),
            None => None,
        };
    }
    if round > script.rounds && round - script.rounds == 1 && role == 2 {
        return Some(Work::Close);
    }
    None
}

/// What the worker of a centre with a role does in a round of a section of a script.
pub(crate) fn work_named(
    script: &Script,
    section: u32,
    round: u32,
    centre: u8,
    role: u8,
) -> Option<Work>
    ensures { option_map (work_of centre) result ≡ work_named script.now section round centre role }
{
    match section_named(script, section) {
        Some(found) if found.phase => work_in(script, round, centre, role),
        _ => None,
    }
}

// The note at a place of a client's log.
fn note_at(logs: &[Log], client: u32, place: u64) -> Option<&Note>
    ensures some { IfSome result (λ note. slice_get (log_at logs.now (client + 1)).notes place ≡ Some note.now) }
    ensures none { IfNone result (slice_get (log_at logs.now (client + 1)).notes place ≡ None) }
{
    match logs.get(client as usize) {
        Some(log) => log.as_slice().get(place as usize),
        None => None,
    }
}

// The commit ask of a note again.
fn commit_again(note: &Note) -> Result<Option<Ask>, NoMemory>
    ensures { IfOk result (λ found. found ≡ option_map Commit (commit_of note.now.deed)) }
{
    match &note.deed {
        Deed::Asked {
            ask: Ask::Commit { tx },
            ..
        } => Ok(Some(Ask::Commit { tx: tx.copy()? })),
        _ => Ok(None),
    }
}

// The delivery of a record of an answer.
fn record_again(entry: &Entry<Ask, Say>, index: u32) -> Result<Option<Ask>, NoMemory>
    ensures { IfOk result (λ found. found ≡ option_map delivery_of (option_and_then (λ list. slice_get list index) (records_of entry.now.say))) }
{
    match &entry.say {
        Say::Records { list } => match list.as_slice().get(index as usize) {
            Some(sent) => Ok(Some(Ask::Deliver {
                item: sent.item.copy()?,
                hops: sent.hops,
            })),
            None => Ok(None),
        },
        _ => Ok(None),
    }
}

impl<'a> World<'a> {
    /// The ask of a late copy of a commit ask to a centre, where both are there.
    pub(crate) fn late_ask(
        &self,
        client: u32,
        note: u64,
        centre: u8,
    ) -> Result<Option<Ask>, NoMemory>
        ensures { IfOk result (λ found. found ≡ option_map Commit (if_centre self.now centre (commit_named self.now client note))) }
    {
        if centre == 0 || centre > self.script.n {
            return Ok(None);
        }
        match note_at(&self.table.logs, client, note) {
            Some(found) => commit_again(found),
            None => Ok(None),
        }
    }

    // The entry at a place of a centre's trail.
    fn entry_at(&self, from: u8, place: u64) -> Option<&Entry<Ask, Say>>
        ensures some { IfSome result (λ entry. slice_get (trail_at self.now.centres from) place ≡ Some entry.now) }
        ensures none { IfNone result (slice_get (trail_at self.now.centres from) place ≡ None) }
    {
        self.table.door.entries(from).get(place as usize)
    }

    /// The ask of a delivery of a record to a centre, where both are there.
    pub(crate) fn carry_ask(
        &self,
        from: u8,
        entry: u64,
        index: u32,
        to: u8,
    ) -> Result<Option<Ask>, NoMemory>
        ensures { IfOk result (λ found. found ≡ option_map delivery_of (if_centre self.now to (record_named self.now from entry index))) }
    {
        if to == 0 || to > self.script.n {
            return Ok(None);
        }
        match self.entry_at(from, entry) {
            Some(found) => record_again(found, index),
            None => Ok(None),
        }
    }
}
