// The steps of which scripts are full, read straight from their words.
ghost use Rattle.std.specs.Prelude.{◌≡◌, length, true, Ok};
ghost use Rattle.script_reader.specs.declared.form.Part.TheVariants.{Client as named_client};
ghost use Rattle.script_reader.specs.Numbers.{delta_in};
ghost use Rattle.script_reader.specs.Rows.{row_behind, row_of, row_spelled};
ghost use Rattle.script_reader.specs.Said.{said_word, unsaid, with_said};
ghost use Rattle.script_reader.specs.Steps.{is_bare, sum_of};
ghost use Rattle.script_reader.specs.Words.{texts_of};

use crate::fault::Cause;
use crate::form::Form;
use crate::names::object_named;
use crate::numbers::{delta_in, is_number, u32_in};
use crate::row::Row;
use crate::said::behind_first;
use crate::shares::summand_in;
use dc_talk::Change;
use ids_core::{ObjectId, Sort};
use script_core::{AskFault, ClientStep, Header, Step};

// The client whose number stands behind the first letter, or 1 before a header.
#[tactic(auto, unfolding(crate::specs::Said::said_word))]
fn client_in(header: Option<Header>, word: &[u8]) -> Result<u32, Cause>
    ensures { with_said (λ client. record unsaid { client = client }) result ≡ said_word header named_client word.now unsaid }
{
    let digits = behind_first(word);
    match header {
        Some(header) => u32_in(1, header.clients, digits),
        None => {
            if is_number(digits) {
                Ok(1)
            } else {
                Err(Cause::Number)
            }
        }
    }
}

// A step of a client.
fn client_row(client: u32, step: ClientStep) -> Row
    ensures { result ≡ Row.Does (Step.Client client step) }
{
    Row::Does(Step::Client { client, step })
}

/// Whether a client and one fixed word are all of a line of this form.
pub fn is_bare(form: Form) -> bool
    ensures { result ≡ is_bare form }
{
    matches!(
        form,
        Form::Begin
            | Form::Commit
            | Form::Abort
            | Form::Push
            | Form::Flush
            | Form::Refresh
            | Form::AskTwice
    )
}

// What a line of such a form says.
#[tactic(auto, unfolding(crate::specs::Rows::row_of))]
fn bare_row(form: Form, client: u32) -> Row
    requires { is_bare form ≡ true }
    ensures { result ≡ row_of form (record unsaid { client = client }) }
{
    match form {
        Form::Begin => client_row(client, ClientStep::Begin),
        Form::Commit => client_row(client, ClientStep::Commit),
        Form::Abort => client_row(client, ClientStep::Abort),
        Form::Push => client_row(client, ClientStep::Push),
        Form::Flush => client_row(client, ClientStep::Flush),
        Form::Refresh => client_row(client, ClientStep::Refresh),
        Form::AskTwice => client_row(
            client,
            ClientStep::Arm {
                fault: AskFault::Twice,
            },
        ),
        _ => unreachable!(),
    }
}

/// Puts what the words of a line of such a form say in the place of a row, and says that they say something.
pub fn put_bare(
    header: Option<Header>,
    form: Form,
    words: &[&[u8]],
    row: &mut Row,
) -> Result<bool, Cause>
    requires bare { is_bare form ≡ true }
    requires count { length words.now ≡ 2 }
    ensures { row_behind result row.new ≡ row_spelled header (texts_of words.now) (Ok form) }
{
    match client_in(header, words[0]) {
        Ok(client) => {
            *row = bare_row(form, client);
            Ok(true)
        }
        Err(why) => Err(why),
    }
}

/// The same of an addition.
pub fn put_inc(header: Option<Header>, words: &[&[u8]], row: &mut Row) -> Result<bool, Cause>
    requires { length words.now ≡ 4 }
    ensures { row_behind result row.new ≡ row_spelled header (texts_of words.now) (Ok Form.Inc) }
{
    match client_in(header, words[0]) {
        Ok(client) => match summand_in(words[2]) {
            Ok(object) => put_sum(client, object, words[3], row),
            Err(why) => Err(why),
        },
        Err(why) => Err(why),
    }
}

// Puts an addition in the place of a row, by the delta that a word says, where the object is a counter.
fn put_sum(client: u32, object: ObjectId, text: &[u8], row: &mut Row) -> Result<bool, Cause>
    ensures { row_behind result row.new ≡ sum_of client object (delta_in text.now) }
{
    match delta_in(text) {
        Ok(delta) => {
            if object.sort != Sort::Counter {
                return Err(Cause::Kind);
            }
            *row = client_row(
                client,
                ClientStep::Change {
                    object,
                    change: Change::Inc { delta },
                },
            );
            Ok(true)
        }
        Err(why) => Err(why),
    }
}

/// The same of a read.
pub fn put_read(header: Option<Header>, words: &[&[u8]], row: &mut Row) -> Result<bool, Cause>
    requires { length words.now ≡ 3 }
    ensures { row_behind result row.new ≡ row_spelled header (texts_of words.now) (Ok Form.Read) }
{
    match client_in(header, words[0]) {
        Ok(client) => match object_named(words[2]) {
            Some(object) => {
                *row = client_row(client, ClientStep::Read { object });
                Ok(true)
            }
            None => Err(Cause::Name),
        },
        Err(why) => Err(why),
    }
}
