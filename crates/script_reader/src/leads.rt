// The forms that words may have, by the letter that their first fixed word begins with, or by that word.
ghost use Rattle.std.specs.Prelude.{◌≡◌, ◌∷◌, [], drop, true, slice_index, IfSome};
ghost use Rattle.script_reader.specs.Forms.{parts_of};
ghost use Rattle.script_reader.specs.Leads.{are_open, client_forms, forms_from, verb_forms};

use crate::form::Form;

/// The first letter of a word, or 0 where it has none.
pub fn first_letter(word: &[u8]) -> u8
    ensures { result ≡ slice_index word.now 0 }
{
    if word.is_empty() { 0 } else { word[0] }
}

/// The forms whose first word is a fixed one that begins with this letter.
#[tactic(auto, unfolding(crate::specs::Leads::forms_from))]
pub fn forms_from(letter: u8) -> &'static [Form]
    ensures { result.now ≡ forms_from letter }
{
    match letter {
        b'c' => &[Form::Centres, Form::Clients, Form::Cache],
        b'd' => &[Form::Down],
        b'e' => &[Form::End],
        b'f' => &[Form::Feed],
        b'l' => &[
            Form::Limit,
            Form::LinkDrop,
            Form::LinkTwice,
            Form::LinkHold,
            Form::LinkCut,
            Form::LinkBend,
            Form::LinkClean,
        ],
        b'p' => &[Form::Prune, Form::Phase],
        b'r' => &[Form::Rounds, Form::Relay],
        b's' => &[Form::ShipOne, Form::Ship, Form::Settle],
        b't' => &[Form::Threads, Form::Tap, Form::Tell],
        b'u' => &[Form::Up],
        _ => &[],
    }
}

/// The forms of a client's steps whose second word, the fixed one, begins with this letter.
#[tactic(auto, unfolding(crate::specs::Leads::client_forms))]
pub fn client_forms(letter: u8) -> &'static [Form]
    ensures { result.now ≡ client_forms letter }
{
    match letter {
        b'a' => &[Form::Add, Form::Abort, Form::Again],
        b'b' => &[Form::Begin],
        b'c' => &[Form::Connect, Form::Commit],
        b'd' => &[Form::Del, Form::Drop],
        b'f' => &[Form::Flush],
        b'g' => &[Form::Grant, Form::Give],
        b'i' => &[Form::Inc],
        b'l' => &[Form::LoseAsk, Form::LoseReply],
        b'p' => &[Form::Put, Form::Push],
        b'r' => &[Form::Read, Form::Rights, Form::Refresh],
        b's' => &[Form::Set],
        b't' => &[Form::Take, Form::AskTwice, Form::Look],
        _ => &[],
    }
}

/// The form of a client's steps that has this word behind the client, where one form alone has it and no other fixed
/// word.
pub fn form_of_verb(verb: &[u8]) -> Option<Form>
    ensures one { IfSome result (λ one. verb_forms verb.now ≡ one ∷ []) }
    ensures open { IfSome result (λ one. are_open (drop 2 (parts_of one)) ≡ true) }
{
    match verb {
        b"connect" => Some(Form::Connect),
        b"begin" => Some(Form::Begin),
        b"inc" => Some(Form::Inc),
        b"set" => Some(Form::Set),
        b"add" => Some(Form::Add),
        b"del" => Some(Form::Del),
        b"put" => Some(Form::Put),
        b"drop" => Some(Form::Drop),
        b"read" => Some(Form::Read),
        b"grant" => Some(Form::Grant),
        b"give" => Some(Form::Give),
        b"take" => Some(Form::Take),
        b"rights" => Some(Form::Rights),
        b"commit" => Some(Form::Commit),
        b"abort" => Some(Form::Abort),
        b"push" => Some(Form::Push),
        b"flush" => Some(Form::Flush),
        b"refresh" => Some(Form::Refresh),
        b"again" => Some(Form::Again),
        b"twice" => Some(Form::AskTwice),
        b"tap" => Some(Form::Look),
        _ => None,
    }
}
