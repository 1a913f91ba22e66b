// What a line says that is not skipped.
ghost use Rattle.std.specs.Prelude.{◌≡◌, ◌≤◌, IsTrue, Ok, Option, Result as ResultOf, length, take, true};
ghost use Rattle.script_reader.specs.Rows.{change_row, client_row, inc_row, is_of_its_kind, is_of_kind, link_row, operator_row, row_behind, row_in, row_in_text, row_in_words, row_of, row_spelled, unless_refused, within_limits};
ghost use Rattle.script_reader.specs.Words.{is_plain_text, texts_of, words_of};

use crate::fault::Cause;
use crate::fit::form_in;
use crate::form::{Form, parts};
use crate::leads::first_letter;
use crate::said::{Said, say_all};
use crate::steps::{is_bare, put_bare, put_inc, put_read};
use crate::words::{MOST_WORDS, cut_words, is_plain_text, without_return};
use dc_talk::{Change, LinkFault};
use script_core::{AskFault, ClientStep, Header, MAX_LINE, MAX_LINES, OperatorStep, Step, Tapped};

/// What a line says.
#[derive(Clone, Copy)]
pub enum Row {
    /// How many centres there are, and how many of them make an update stable.
    Centres { n: u8, k: u8 },
    /// How many clients there are.
    Clients(u32),
    /// How many objects a client's cache holds.
    Cache(u32),
    /// How many transactions a centre stamps.
    Limit(u32),
    /// How many threads play a phase.
    Threads(u32),
    /// How many rounds a worker makes in a phase.
    Rounds(u32),
    /// An object that a tap shows.
    Tap(Tapped),
    /// A step of a client or of the operator.
    Does(Step),
    /// A phase begins.
    Phase,
    /// A phase ends.
    End,
}

// A step of the client that is named.
fn client_row(said: &Said, step: ClientStep) -> Row
    ensures { result ≡ client_row said.now step }
{
    Row::Does(Step::Client {
        client: said.client,
        step,
    })
}

// A change of the object that is named.
fn change_row(said: &Said, change: Change) -> Row
    ensures { result ≡ change_row said.now change }
{
    client_row(
        said,
        ClientStep::Change {
            object: said.object,
            change,
        },
    )
}

// An addition to the object that is named for it.
fn inc_row(said: &Said) -> Row
    ensures { result ≡ inc_row said.now }
{
    client_row(
        said,
        ClientStep::Change {
            object: said.summand,
            change: Change::Inc { delta: said.delta },
        },
    )
}

// A step of the operator.
fn operator_row(step: OperatorStep) -> Row
    ensures { result ≡ operator_row step }
{
    Row::Does(Step::Operator { step })
}

// A fault of the link between the two centres that are named.
fn link_row(said: &Said, fault: LinkFault) -> Row
    ensures { result ≡ link_row said.now fault }
{
    operator_row(OperatorStep::Link {
        from: said.centre,
        to: said.other,
        fault,
    })
}

/// What a line of a form says, whose words say this.
#[tactic(auto, unfolding(crate::specs::Rows::row_of))]
pub fn row_of(form: Form, said: &Said) -> Row
    ensures { result ≡ row_of form said.now }
{
    let every = u64::from(said.count);
    match form {
        Form::Centres => Row::Centres {
            n: said.n,
            k: said.k,
        },
        Form::Clients => Row::Clients(said.count),
        Form::Cache => Row::Cache(said.count),
        Form::Limit => Row::Limit(said.count),
        Form::Threads => Row::Threads(said.count),
        Form::Rounds => Row::Rounds(said.count),
        Form::Tap => Row::Tap(Tapped {
            centre: said.centre,
            object: said.object,
        }),
        Form::Connect => client_row(
            said,
            ClientStep::Connect {
                centre: said.centre,
            },
        ),
        Form::Begin => client_row(said, ClientStep::Begin),
        Form::Inc => inc_row(said),
        Form::Set => change_row(said, Change::Write { word: said.word }),
        Form::Add => change_row(said, Change::Add { word: said.word }),
        Form::Del => change_row(said, Change::Remove { word: said.word }),
        Form::Put => change_row(
            said,
            Change::Put {
                key: said.key,
                word: said.word,
            },
        ),
        Form::Drop => change_row(said, Change::Erase { key: said.key }),
        Form::Read => client_row(
            said,
            ClientStep::Read {
                object: said.object,
            },
        ),
        Form::Grant => client_row(
            said,
            ClientStep::Grant {
                share: said.share,
                amount: said.amount,
            },
        ),
        Form::Give => client_row(
            said,
            ClientStep::Give {
                share: said.share,
                to: said.to,
                amount: said.amount,
            },
        ),
        Form::Take => client_row(
            said,
            ClientStep::Take {
                share: said.share,
                amount: said.amount,
            },
        ),
        Form::Rights => client_row(said, ClientStep::Rights { share: said.share }),
        Form::Commit => client_row(said, ClientStep::Commit),
        Form::Abort => client_row(said, ClientStep::Abort),
        Form::Push => client_row(said, ClientStep::Push),
        Form::Flush => client_row(said, ClientStep::Flush),
        Form::Refresh => client_row(said, ClientStep::Refresh),
        Form::Again => client_row(
            said,
            ClientStep::Again {
                centre: said.centre,
                number: said.number,
            },
        ),
        Form::LoseAsk => client_row(
            said,
            ClientStep::Arm {
                fault: AskFault::LoseAsk,
            },
        ),
        Form::LoseReply => client_row(
            said,
            ClientStep::Arm {
                fault: AskFault::LoseReply,
            },
        ),
        Form::AskTwice => client_row(
            said,
            ClientStep::Arm {
                fault: AskFault::Twice,
            },
        ),
        Form::Look => client_row(
            said,
            ClientStep::Look {
                centre: said.centre,
                object: said.object,
            },
        ),
        Form::Down => operator_row(OperatorStep::Down {
            centre: said.centre,
        }),
        Form::Up => operator_row(OperatorStep::Up {
            centre: said.centre,
        }),
        Form::ShipOne => operator_row(OperatorStep::ShipOne {
            from: said.centre,
            to: said.other,
            seq: u64::from(said.count),
        }),
        Form::Ship => operator_row(OperatorStep::Ship {
            from: said.centre,
            to: said.other,
        }),
        Form::Relay => operator_row(OperatorStep::Relay {
            from: said.centre,
            origin: said.other,
            to: said.third,
        }),
        Form::Tell => operator_row(OperatorStep::Tell {
            from: said.centre,
            to: said.other,
        }),
        Form::Prune => operator_row(OperatorStep::Prune {
            centre: said.centre,
        }),
        Form::Feed => operator_row(OperatorStep::Feed {
            centre: said.centre,
        }),
        Form::LinkDrop => link_row(said, LinkFault::Drop { every }),
        Form::LinkTwice => link_row(said, LinkFault::Twice { every }),
        Form::LinkHold => link_row(said, LinkFault::Hold { every }),
        Form::LinkCut => link_row(said, LinkFault::Cut { every }),
        Form::LinkBend => link_row(said, LinkFault::Bend { every }),
        Form::LinkClean => link_row(said, LinkFault::Clean),
        Form::Settle => operator_row(OperatorStep::Settle),
        Form::Phase => Row::Phase,
        Form::End => Row::End,
    }
}

// Whether the object of a client's step is of the kind that the step changes.
fn is_of_kind(step: &ClientStep) -> bool
    ensures { result ≡ is_of_kind step.now }
{
    match step {
        ClientStep::Change { object, change } => object.sort == change.sort(),
        _ => true,
    }
}

// Whether the object of a line is of the kind that its step changes, where it has one.
fn is_of_its_kind(row: &Row) -> bool
    ensures { result ≡ is_of_its_kind row.now }
{
    match row {
        Row::Does(Step::Client { step, .. }) => is_of_kind(step),
        _ => true,
    }
}

// Puts what the words of a line of any form say in the place of a row, and says that they say something.
fn put_any(
    header: Option<Header>,
    form: Form,
    words: &[&[u8]],
    row: &mut Row,
) -> Result<bool, Cause>
    ensures { row_behind result row.new ≡ row_spelled header (texts_of words.now) (Ok form) }
{
    let mut said = Said::nothing();
    say_all(header, parts(form), words, &mut said)?;
    *row = row_of(form, &said);
    if is_of_its_kind(row) {
        Ok(true)
    } else {
        Err(Cause::Kind)
    }
}

// Puts what words say behind this header, or before one, in the place of a row.
#[tactic(auto, using(crate::proofs::Straight::bare_count))]
fn row_in_words(header: Option<Header>, words: &[&[u8]], row: &mut Row) -> Result<bool, Cause>
    ensures { row_behind result row.new ≡ row_in_words header (texts_of words.now) }
{
    let form = form_in(words)?;
    match form {
        Form::Inc => put_inc(header, words, row),
        Form::Read => put_read(header, words, row),
        _ => {
            if is_bare(form) {
                put_bare(header, form, words, row)
            } else {
                put_any(header, form, words, row)
            }
        }
    }
}

// Puts what a text says, of which these are the first words, in the place of a row, and says whether it says anything:
// it does not where it is skipped. Where it is said to be plain, it is.
fn row_with_words(
    header: Option<Header>,
    text: &[u8],
    plain: bool,
    words: &[&[u8]],
    row: &mut Row,
) -> Result<bool, Cause>
    requires plain { IsTrue plain → is_plain_text text.now ≡ true }
    requires words { texts_of words.now ≡ take MOST_WORDS (words_of text.now) }
    ensures { row_behind result row.new ≡ row_in_text header text.now }
{
    match words {
        [first, ..] => {
            if first_letter(first) == b'#' {
                return Ok(false);
            }
            if !plain && !is_plain_text(text) {
                return Err(Cause::Byte);
            }
            row_in_words(header, words, row)
        }
        [] => Ok(false),
    }
}

// The same of a text of which no words were cut off.
fn row_in_text(header: Option<Header>, text: &[u8], row: &mut Row) -> Result<bool, Cause>
    ensures { row_behind result row.new ≡ row_in_text header text.now }
{
    let none: &[u8] = b"";
    let mut places = [none; MOST_WORDS];
    let count = cut_words(text, &mut places);
    row_with_words(header, text, false, &places[..count], row)
}

// Whether a line of this number is within the limits of a script.
fn within(number: u32, line: &[u8]) -> Result<(), Cause>
    ensures { (said : ResultOf (Option Row) Cause) → unless_refused result said ≡ within_limits number line.now said }
{
    if number > MAX_LINES {
        return Err(Cause::Many);
    }
    if line.len() > MAX_LINE as usize {
        return Err(Cause::Long);
    }
    Ok(())
}

/// Puts what the line of this number says, behind this header, or before one, in the place of a row, and says whether
/// it says anything: it does not where it is skipped. An `Err` says why it is refused wherever it stands.
#[tactic(auto, unfolding(crate::specs::Rows::row_in))]
pub fn row_in(
    header: Option<Header>,
    number: u32,
    line: &[u8],
    row: &mut Row,
) -> Result<bool, Cause>
    ensures { row_behind result row.new ≡ row_in header number line.now }
{
    match within(number, line) {
        Ok(()) => row_in_text(header, without_return(line), row),
        Err(why) => Err(why),
    }
}

/// The same of a line that has such bytes alone as one has that is not skipped, and that was cut into these words.
#[tactic(auto, unfolding(crate::specs::Rows::row_in), using(crate::proofs::Plain::plain_has_no_return, crate::proofs::Cutting::all_cut))]
pub fn row_in_cut(
    header: Option<Header>,
    number: u32,
    line: &[u8],
    words: &[&[u8]],
    row: &mut Row,
) -> Result<bool, Cause>
    requires plain { is_plain_text line.now ≡ true }
    requires few { length words.now ≤ MOST_WORDS }
    requires words { texts_of words.now ≡ words_of line.now }
    ensures { row_behind result row.new ≡ row_in header number line.now }
{
    match within(number, line) {
        Ok(()) => row_with_words(header, line, true, words, row),
        Err(why) => Err(why),
    }
}
