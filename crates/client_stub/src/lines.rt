// The lines of steps, by how a call ended and by what became of an ask; an answer to an ask of another
// kind has none.
ghost use Rattle.std.specs.Prelude.{◌≡◌, IfOk};
ghost use Rattle.dc_talk.specs.declared.calls.Call.TheVariants.{Begin as BeginCall, Change as ChangeCall, Read as ReadCall, Commit as CommitCall, Abort as AbortCall};
ghost use Rattle.dc_talk.specs.declared.log.Fate.TheVariants.{Heard};
ghost use Rattle.script_core.specs.Deeds.{lack, missed_by, miss_of, hello_line, word_of, call_line, is_of_rights, cell_line, line_on, fetch_line, is_pruned, answer_end, push_end, push_line, again_line, goes_on, refresh_line};

use dc_talk::{Call, Change, Fate, Line, Miss, Outcome, PushEnd, Refusal, Say, StepWord};
use ids_core::{NoMemory, ObjectId};
use script_core::ObjectCall;
use vv_core::Lack;

// What a centre of which records are missing has, and what is needed of it.
fn lack(centre: u8, need: u64, have: u64) -> Lack
    ensures { result ≡ lack centre need have }
{
    Lack { centre, need, have }
}

// Why an answer counts for nothing, where it does.
fn missed_by(say: &Say) -> Option<Miss>
    ensures { result ≡ missed_by say.now }
{
    match say {
        Say::Down => Some(Miss::Unreachable),
        Say::Misfit => Some(Miss::Misfit),
        _ => None,
    }
}

// Why an ask has no answer that counts, where it has none.
fn miss_of(fate: &Fate) -> Option<Miss>
    ensures { result ≡ miss_of fate.now }
{
    match fate {
        Fate::AskLost => Some(Miss::Lost),
        Fate::ReplyLost(_) => Some(Miss::Lost),
        Fate::Heard(say) => missed_by(say),
        Fate::Unheard(say) => missed_by(say),
    }
}

/// The line of a connect whose ask came to this.
pub fn hello_line(client: u32, centre: u8, fate: &Fate) -> Option<Line>
    ensures { result ≡ hello_line client centre fate.now }
{
    match fate {
        Fate::Heard(say) => heard_hello(client, centre, say),
        _ => miss_of(fate).map(|miss| Line::ConnectMissed {
            client,
            centre,
            miss,
        }),
    }
}

// The line of a connect whose answer was heard.
fn heard_hello(client: u32, centre: u8, say: &Say) -> Option<Line>
    ensures { result ≡ hello_line client centre (Heard say.now) }
{
    match say {
        Say::Welcome { .. } => Some(Line::At { client, centre }),
        Say::Lacks {
            centre: of,
            need,
            have,
        } => Some(Line::Refused {
            client,
            centre,
            lack: lack(*of, *need, *have),
        }),
        _ => missed_by(say).map(|miss| Line::ConnectMissed {
            client,
            centre,
            miss,
        }),
    }
}

/// The word of the step that makes a change.
pub fn word_of(change: &Change) -> StepWord
    ensures { result ≡ word_of change.now }
{
    match change {
        Change::Inc { .. } => StepWord::Inc,
        Change::Write { .. } => StepWord::Set,
        Change::Add { .. } => StepWord::Add,
        Change::Remove { .. } => StepWord::Del,
        Change::Put { .. } => StepWord::Put,
        Change::Erase { .. } => StepWord::Drop,
    }
}

/// The line of a call that ended so, where it has one. Only the value of a read takes memory.
pub fn call_line(client: u32, call: &Call, outcome: &Outcome) -> Result<Option<Line>, NoMemory>
    ensures { IfOk result (λ line. line ≡ call_line client call.now outcome.now) }
{
    match call {
        Call::Begin => Ok(begin_line(client, outcome)),
        Call::Change { object, change } => Ok(change_line(client, object, change, outcome)),
        Call::Read { object } => read_line(client, object, outcome),
        Call::Commit => Ok(commit_line(client, outcome)),
        Call::Abort => Ok(abort_line(client, outcome)),
    }
}

fn begin_line(client: u32, outcome: &Outcome) -> Option<Line>
    ensures { result ≡ call_line client BeginCall outcome.now }
{
    match outcome {
        Outcome::Refused(Refusal::AlreadyOpen) => Some(Line::BeginOpen { client }),
        Outcome::Refused(Refusal::ClockFull) => Some(Line::BeginClock { client }),
        _ => None,
    }
}

fn change_line(client: u32, object: &ObjectId, change: &Change, outcome: &Outcome) -> Option<Line>
    ensures { result ≡ call_line client (ChangeCall object.now change.now) outcome.now }
{
    let (word, object) = (word_of(change), *object);
    match outcome {
        Outcome::Refused(Refusal::NotOpen) => Some(Line::Closed {
            client,
            word,
            object,
        }),
        Outcome::Refused(Refusal::TooManyUpdates { .. }) => Some(Line::ManyUpdates {
            client,
            word,
            object,
        }),
        Outcome::Refused(Refusal::TooManyTags { count }) => Some(Line::ManyTags {
            client,
            word,
            object,
            count: *count,
        }),
        _ => None,
    }
}

fn read_line(client: u32, object: &ObjectId, outcome: &Outcome) -> Result<Option<Line>, NoMemory>
    ensures { IfOk result (λ line. line ≡ call_line client (ReadCall object.now) outcome.now) }
{
    match outcome {
        Outcome::Got(value) => Ok(Some(Line::ReadValue {
            client,
            object: *object,
            value: value.clone()?,
        })),
        _ => Ok(None),
    }
}

fn commit_line(client: u32, outcome: &Outcome) -> Option<Line>
    ensures { result ≡ call_line client CommitCall outcome.now }
{
    match outcome {
        Outcome::Number(number) => Some(Line::CommitNumber {
            client,
            number: *number,
        }),
        Outcome::Nothing => Some(Line::CommitNone { client }),
        Outcome::Refused(Refusal::NotOpen) => Some(Line::CommitClosed { client }),
        Outcome::Refused(Refusal::PendingFull { .. }) => Some(Line::CommitPending { client }),
        _ => None,
    }
}

fn abort_line(client: u32, outcome: &Outcome) -> Option<Line>
    ensures { result ≡ call_line client AbortCall outcome.now }
{
    match outcome {
        Outcome::Refused(Refusal::NotOpen) => Some(Line::AbortClosed { client }),
        _ => None,
    }
}

/// The line of a call on an object that ended so, where it has one. Only the value of a read takes memory.
pub fn line_on(client: u32, on: &ObjectCall, outcome: &Outcome) -> Result<Option<Line>, NoMemory>
    ensures { IfOk result (λ line. line ≡ line_on client on.now outcome.now) }
{
    if is_of_rights(on.word) {
        Ok(cell_line(client, on, outcome))
    } else {
        call_line(client, &on.call, outcome)
    }
}

// Whether the step with this word is one of a bounded counter.
fn is_of_rights(word: StepWord) -> bool
    ensures { result ≡ is_of_rights word }
{
    matches!(
        word,
        StepWord::Grant | StepWord::Give | StepWord::Take | StepWord::Rights
    )
}

// The line of a call on a cell of a bounded counter: a value that was read has none.
fn cell_line(client: u32, on: &ObjectCall, outcome: &Outcome) -> Option<Line>
    ensures { result ≡ cell_line client on.now outcome.now }
{
    let (word, object) = (on.word, on.shown);
    match outcome {
        Outcome::Refused(Refusal::NotOpen) => Some(Line::Closed {
            client,
            word,
            object,
        }),
        Outcome::Refused(Refusal::TooManyUpdates { .. }) => Some(Line::ManyUpdates {
            client,
            word,
            object,
        }),
        _ => None,
    }
}

/// The line of a fetch for a call, where it gave no state.
pub fn fetch_line(client: u32, on: &ObjectCall, fate: &Fate) -> Option<Line>
    ensures { result ≡ fetch_line client on.now fate.now }
{
    let (word, object) = (on.word, on.shown);
    match fate {
        Fate::Heard(say) => heard_fetch(client, on, say),
        _ => miss_of(fate).map(|miss| Line::FetchMissed {
            client,
            word,
            object,
            miss,
        }),
    }
}

// The line of a fetch whose answer was heard.
fn heard_fetch(client: u32, on: &ObjectCall, say: &Say) -> Option<Line>
    ensures { result ≡ fetch_line client on.now (Heard say.now) }
{
    let (word, object) = (on.word, on.shown);
    match say {
        Say::Lacks { centre, need, have } => Some(Line::FetchLacks {
            client,
            word,
            object,
            lack: lack(*centre, *need, *have),
        }),
        Say::Pruned { centre, base, at } => Some(Line::FetchPruned {
            client,
            word,
            object,
            centre: *centre,
            base: *base,
            at: *at,
        }),
        Say::Object { .. } | Say::Changes { .. } => Some(Line::FetchIgnored {
            client,
            word,
            object,
        }),
        _ => missed_by(say).map(|miss| Line::FetchMissed {
            client,
            word,
            object,
            miss,
        }),
    }
}

/// Whether the centre answered that it has pruned what was asked for, and was heard.
pub fn is_pruned(fate: &Fate) -> bool
    ensures { result ≡ is_pruned fate.now }
{
    matches!(fate, Fate::Heard(Say::Pruned { .. }))
}

/// Whether a flush goes on after a push whose ask came to this: the commit is at the centre.
pub fn goes_on(fate: &Fate) -> bool
    ensures { result ≡ goes_on fate.now }
{
    matches!(
        fate,
        Fate::Heard(Say::Stamped { .. }) | Fate::Heard(Say::Known { .. })
    )
}

// How a push that was answered so ended.
fn answer_end(say: &Say) -> Option<PushEnd>
    ensures { result ≡ answer_end say.now }
{
    match say {
        Say::Stamped { stamp } => Some(PushEnd::Stamped { stamp: *stamp }),
        Say::Known { through } => Some(PushEnd::Known { through: *through }),
        Say::Full { limit } => Some(PushEnd::Full { limit: *limit }),
        Say::OutOfOrder { have } => Some(PushEnd::Order { have: *have }),
        Say::Lacks { centre, need, have } => Some(PushEnd::Lacks {
            lack: lack(*centre, *need, *have),
        }),
        _ => missed_by(say).map(|miss| PushEnd::Missed { miss }),
    }
}

// How a push ended, whether or not its answer was heard.
fn push_end(fate: &Fate) -> Option<PushEnd>
    ensures { result ≡ push_end fate.now }
{
    match fate {
        Fate::Heard(say) => answer_end(say),
        Fate::Unheard(say) => answer_end(say),
        _ => Some(PushEnd::Missed { miss: Miss::Lost }),
    }
}

/// The line of the push of the commit of this number whose ask came to this.
pub fn push_line(client: u32, number: u64, fate: &Fate) -> Option<Line>
    ensures { result ≡ push_line client number fate.now }
{
    push_end(fate).map(|end| Line::Push {
        client,
        number,
        end,
    })
}

/// The line of a late copy of the commit of this number whose ask came to this.
pub fn again_line(client: u32, centre: u8, number: u64, fate: &Fate) -> Option<Line>
    ensures { result ≡ again_line client centre number fate.now }
{
    push_end(fate).map(|end| Line::Again {
        client,
        centre,
        number,
        end,
    })
}

/// The line of a refresh whose ask came to this, by whether the session took the answer.
pub fn refresh_line(client: u32, took: bool, fate: &Fate) -> Option<Line>
    ensures { result ≡ refresh_line client took fate.now }
{
    match fate {
        Fate::Heard(say) => heard_refresh(client, took, say),
        _ => miss_of(fate).map(|miss| Line::RefreshMissed { client, miss }),
    }
}

// The line of a refresh whose answer was heard.
fn heard_refresh(client: u32, took: bool, say: &Say) -> Option<Line>
    ensures { result ≡ refresh_line client took (Heard say.now) }
{
    match say {
        Say::Snap { vector, mine, .. } => {
            if took {
                Some(Line::Sees {
                    client,
                    vector: *vector,
                    mine: *mine,
                })
            } else {
                Some(Line::RefreshIgnored { client })
            }
        }
        Say::Lacks { centre, need, have } => Some(Line::RefreshLacks {
            client,
            lack: lack(*centre, *need, *have),
        }),
        _ => missed_by(say).map(|miss| Line::RefreshMissed { client, miss }),
    }
}
