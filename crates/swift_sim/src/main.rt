//! SwiftCloud in one process: plays a script of client steps, and writes what the client sees.
#![tactic(auto)]

mod complaint;
mod journals;
mod progress;

use complaint::complain;
use disk_forms::dir_form;
use io_edge::{StdSink, StdSource};
use journals::with_folder;
use progress::Teller;
use std::process::ExitCode;
use std::rt::Env;
use std::{env, io, mem};
use top_call::swift_main;

// The words behind the program's name.
fn words(rt: &(impl Env + AllocGlobal)) -> io::Result<Vec<String>> {
    let mut words = Vec::new(rt.alloc());
    for word in env::args(rt)?.skip(1) {
        words.push(word)?;
    }
    Ok(words)
}

// The word that has the program tell no progress.
const QUIET: &str = "--quiet";

// Takes that word from the words where it is the first of them or else the last, and says whether it did. The other
// words are those of a form.
fn take_quiet(words: &mut Vec<String>) -> bool {
    if !words.is_empty() && words[0].as_str() == QUIET {
        words.remove(0);
        return true;
    }
    let last = words.len().saturating_sub(1);
    if !words.is_empty() && words[last].as_str() == QUIET {
        words.remove(last);
        return true;
    }
    false
}

// Words of which one is no UTF-8 are of no form, as no words are.
fn main(rt: HostRuntime) -> ExitCode {
    let mut words = match words(&rt) {
        Ok(words) => words,
        Err(error) => {
            if error.kind() == io::ErrorKind::OutOfMemory {
                return ExitCode::from(6);
            }
            Vec::new(rt.alloc())
        }
    };
    let teller = Teller::new(rt, take_quiet(&mut words));
    if let Some((form, folder)) = dir_form(&words) {
        return ExitCode::from(with_folder(rt, &teller, form, folder));
    }
    let mut source = StdSource::new(rt.reader());
    let mut sink = StdSink::new(io::writer(&rt));
    let ended = swift_main(&rt, rt.alloc(), &words, &mut source, &mut sink, &teller);
    teller.clear();
    // Where standard error takes nothing, the status says what there is to say.
    match complain(rt, &words, &ended) {
        Ok(()) => {}
        Err(_) => {}
    }
    let status = ended.status;
    // The process ends, and its memory goes back as a whole.
    mem::forget(ended);
    ExitCode::from(status)
}
