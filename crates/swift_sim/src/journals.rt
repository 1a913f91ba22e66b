// The forms that keep the journals of centres in files of a folder.
use crate::complaint::{complain, complain_of_files};
use crate::progress::Teller;
use disk_forms::{DirForm, Fault, is_taken, journal_in, recover_from};
use io_edge::{StdSource, SteadySink};
use std::str;
use top_call::{Ended, form_with_threads, swift_alone};

// The status with which the program ends after a fault, which it tells.
fn ended_by(rt: HostRuntime, fault: &Fault) -> u8 {
    // Where standard error takes nothing, the status says what there is to say.
    match complain_of_files(rt, fault) {
        Ok(()) => {}
        Err(_) => {}
    }
    fault.status()
}

// Plays the script that standard input has, as `serial` does, and keeps the text.
fn play(
    rt: HostRuntime,
    words: &[String],
    teller: &Teller,
    text: &mut SteadySink,
) -> Option<Ended> {
    match form_with_threads(rt.alloc(), words) {
        Ok(None) => {
            let mut source = StdSource::new(rt.reader());
            let ended = swift_alone(rt.alloc(), words, &mut source, text, teller);
            teller.clear();
            Some(ended)
        }
        _ => None,
    }
}

// Prints a text; the status is that of a write that failed, or else this one.
fn printed(rt: HostRuntime, text: &[u8], status: u8) -> u8 {
    match str::from_utf8(text) {
        Ok(text) => match print!(rt; "{text}") {
            Ok(()) => status,
            Err(_) => 5,
        },
        Err(_) => 5,
    }
}

// Ends a play that left no book: an input that is no script is told as by `serial`.
fn ended_early(rt: HostRuntime, words: &[String], ended: &Ended, text: &SteadySink) -> u8 {
    match complain(rt, words, ended) {
        Ok(()) => {}
        Err(_) => {}
    }
    printed(rt, text.bytes(), ended.status)
}

// Plays a script, and makes the journals of its centres in new files of a folder.
fn journal_of(rt: HostRuntime, teller: &Teller, folder: &str) -> Result<u8, Fault> {
    if is_taken(&rt, folder)? {
        return Err(Fault::taken(rt.alloc(), folder)?);
    }
    let mut words = Vec::new(rt.alloc());
    words.push(String::from_str(rt.alloc(), "serial")?)?;
    let mut text = SteadySink::new(rt.alloc());
    let Some(ended) = play(rt, &words, teller, &mut text) else {
        return Err(Fault::NoMemory);
    };
    match &ended.script {
        Some(script) => {
            journal_in(&rt, folder, &ended.book, script.limit)?;
            Ok(ended.status)
        }
        None => Ok(ended_early(rt, &words, &ended, &text)),
    }
}

// Opens the journals in a folder.
fn recovered(rt: HostRuntime, folder: &str) -> Result<u8, Fault> {
    let mut status = 0;
    for fault in &recover_from(&rt, folder)? {
        let told = ended_by(rt, fault);
        if status == 0 {
            status = told;
        }
    }
    Ok(status)
}

/// Does what a form with a folder asks for, and gives the status.
pub fn with_folder(rt: HostRuntime, teller: &Teller, form: DirForm, folder: &str) -> u8 {
    let done = match form {
        DirForm::Journal => journal_of(rt, teller, folder),
        DirForm::Recover => recovered(rt, folder),
    };
    match done {
        Ok(status) => status,
        Err(fault) => ended_by(rt, &fault),
    }
}
