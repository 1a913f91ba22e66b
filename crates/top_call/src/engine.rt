// What is owed: a status, a text, what was played, and disks.
ghost use Rattle.std.specs.Prelude.{◌≡◌, ℕ, List, Option, Some, None, [], IfOk};
ghost use Rattle.command_line.specs.Texts.{usage_text};
ghost use Rattle.load_text.specs.LastReads.{load_text};
ghost use Rattle.run_book.specs.Fit.{FitsWith};
ghost use Rattle.run_book.specs.Setups.{Setup, setup_of};
ghost use Rattle.top_call.specs.Runs.{HasText, IsAsked, IsBookOf, IsOwed, IsPlay, empty_book, given_form, refusal_text, run_text};

use crate::refusal::refusal_line;
use command_line::{Form, usage_line};
use ids_core::NoMemory;
use journal_disk::SteadyDisk;
use load_text::load_text;
use print_text::text_of;
use run_book::Book;
use script_core::Script;
use script_reader::Cause;
use std::alloc::Global;
use std::fmt;
use trail_journal::{Journals, journals_of};
use trail_text::trail_text;

/// Why an input is no script.
#[derive(Drop)]
pub struct Fault {
    /// The first line at fault, counted from 1.
    pub line: u32,
    /// Why it is.
    pub cause: Cause,
    /// The bytes that were read: the whole input, or a front of it that passes the limits of a script.
    pub input: Vec<u8>,
}

impl fmt::Display for Fault {
    fn fmt<W: fmt::Write>(&self, f: &mut fmt::Formatter<W>) -> fmt::Result {
        let line = self.line;
        let cause = self.cause;
        write!(f, "line {line}: {cause:?}")
    }
}

/// What is owed: the status, the text, the script, the book and the disks with which a run ends where nothing fails, and
/// the fault of an input that is no script.
#[derive(Drop)]
pub struct Owed {
    pub status: u8,
    pub text: Vec<u8>,
    pub script: Option<Script>,
    pub book: Book,
    pub disks: Vec<SteadyDisk>,
    pub fault: Option<Fault>,
}

/// What is owed for a text that the program has to write without a run.
pub fn answer(alloc: Global, text: Vec<u8>) -> Owed
    ensures status { result.status ≡ 0 }
    ensures text { result.text ≡ text }
    ensures script { result.script ≡ None }
    ensures book { result.book ≡ empty_book }
    ensures disks { result.disks.items ≡ [] }
    ensures sound { result.fault ≡ None }
{
    Owed {
        status: 0,
        text,
        script: None,
        book: Book::new(alloc, 1, 1),
        disks: Vec::new(alloc),
        fault: None,
    }
}

/// What is owed for words of no form.
pub fn usage(alloc: Global) -> Result<Owed, NoMemory>
    ensures status { IfOk result (λ owed. owed.status ≡ 2) }
    ensures text { IfOk result (λ owed. owed.text.items ≡ usage_text) }
    ensures script { IfOk result (λ owed. owed.script ≡ None) }
    ensures book { IfOk result (λ owed. owed.book ≡ empty_book) }
    ensures disks { IfOk result (λ owed. owed.disks.items ≡ []) }
    ensures sound { IfOk result (λ owed. owed.fault ≡ None) }
{
    Ok(Owed {
        status: 2,
        text: usage_line(alloc)?,
        script: None,
        book: Book::new(alloc, 1, 1),
        disks: Vec::new(alloc),
        fault: None,
    })
}

/// What is owed for an input that is no script, of which this is the first line at fault.
pub fn refusal(alloc: Global, fault: Fault) -> Result<Owed, NoMemory>
    ensures status { IfOk result (λ owed. owed.status ≡ 3) }
    ensures text { IfOk result (λ owed. owed.text.items ≡ refusal_text fault.line fault.cause) }
    ensures script { IfOk result (λ owed. owed.script ≡ None) }
    ensures book { IfOk result (λ owed. owed.book ≡ empty_book) }
    ensures disks { IfOk result (λ owed. owed.disks.items ≡ []) }
    ensures told { IfOk result (λ owed. owed.fault ≡ Some fault) }
{
    Ok(Owed {
        status: 3,
        text: refusal_line(alloc, fault.line, fault.cause)?,
        script: None,
        book: Book::new(alloc, 1, 1),
        disks: Vec::new(alloc),
        fault: Some(fault),
    })
}

// The text of a run.
fn text_of_run(alloc: Global, book: &Book, trail: bool) -> Result<Vec<u8>, NoMemory>
    ensures { IfOk result (λ text. (setup : Setup) → FitsWith book.now setup → text.items ≡ run_text trail book.now setup) }
{
    let mut text = text_of(alloc, book.logs.as_slice())?;
    if trail {
        text.extend_from_slice(&trail_text(alloc, book)?)?;
    }
    Ok(text)
}

// The text of a run, without disks.
fn made_of_run(
    alloc: Global,
    script: &Script,
    book: &Book,
    trail: bool,
) -> Result<Journals, NoMemory>
    requires fits { FitsWith book.now (setup_of script.now) }
    ensures { IfOk result (λ made. (made.text.items ≡ run_text trail book.now (setup_of script.now)) × (made.disks.items ≡ [])) }
{
    let text = text_of_run(alloc, book, trail)?;
    Ok(Journals {
        text,
        disks: Vec::new(alloc),
    })
}

// The text of the last reads of a run, without disks.
fn made_of_load(alloc: Global, script: &Script, book: &Book) -> Result<Journals, NoMemory>
    ensures { IfOk result (λ made. (made.text.items ≡ load_text script.now book.now.logs) × (made.disks.items ≡ [])) }
{
    let text = load_text(alloc, script, book.logs.as_slice())?;
    Ok(Journals {
        text,
        disks: Vec::new(alloc),
    })
}

// The text that a form writes of the book that it left of a script, and the disks of its journals.
fn made_by(alloc: Global, form: Form, script: &Script, book: &Book) -> Result<Journals, NoMemory>
    requires play { IsPlay form }
    requires fits { FitsWith book.now (setup_of script.now) }
    ensures { IfOk result (λ made. HasText form script.now book.now made.text.items made.disks.items) }
{
    match form {
        Form::Run { trail } | Form::Serial { trail } => made_of_run(alloc, script, book, trail),
        Form::Journal => journals_of(alloc, book, script.limit),
        Form::Load { .. } => made_of_load(alloc, script, book),
        _ => unreachable!(),
    }
}

/// What is owed for a script by the book that a form left of it.
#[tactic(auto, using(crate::proofs::Owing::book_fits))]
pub fn played(alloc: Global, form: Form, script: Script, book: Book) -> Result<Owed, NoMemory>
    requires play { IsPlay form }
    requires run { IsBookOf form script book }
    ensures { IfOk result (λ owed. (left : Option (List ℕ)) → IsAsked form left script → IsOwed (given_form form left) owed) }
{
    let made = made_by(alloc, form, &script, &book)?;
    Ok(Owed {
        status: 0,
        text: made.text,
        script: Some(script),
        book,
        disks: made.disks,
        fault: None,
    })
}
