// What the program says to its user where a run did not end well. It goes to standard error, of which no contract
// speaks.
use disk_forms::Fault as FileFault;
use script_advice::advice;
use std::io;
use top_call::{Ended, Fault};

// That the words of the command line have no form.
fn complain_of_words(rt: HostRuntime, words: &[String]) -> io::Result<()> {
    eprint!(rt; "swift_sim: invalid command line:")?;
    for word in words {
        eprint!(rt; " {word:?}")?;
    }
    if words.is_empty() {
        eprint!(rt; " no command, or a word that is no UTF-8")?;
    }
    eprintln!(rt; "; see swift_sim --help")
}

// Why an input is no script, and the line at fault; or, where there is no memory for that, its number and the cause.
fn complain_of_input(rt: HostRuntime, fault: &Fault) -> io::Result<()> {
    match advice(rt.alloc(), &fault.input, fault.line, fault.cause) {
        Ok(text) => {
            for line in text.as_str().lines() {
                eprintln!(rt; "swift_sim: {line}")?;
            }
            Ok(())
        }
        Err(_) => eprintln!(rt; "swift_sim: {fault}"),
    }
}

/// Says on standard error what went wrong, and where; of a run that ended well it says nothing. The words are those of
/// the command line, without the program's name; those of which one is no UTF-8 are none.
pub fn complain(rt: HostRuntime, words: &[String], ended: &Ended) -> io::Result<()> {
    match ended.status {
        0 => Ok(()),
        2 => complain_of_words(rt, words),
        3 => match &ended.fault {
            Some(fault) => complain_of_input(rt, fault),
            None => Ok(()),
        },
        4 => eprintln!(rt; "swift_sim: standard input was not read: a read failed"),
        5 => eprintln!(rt; "swift_sim: standard output was not written: a write failed"),
        _ => eprintln!(rt; "swift_sim: memory ran out"),
    }
}

/// Says on standard error why the journals of a folder were not made or not opened.
pub fn complain_of_files(rt: HostRuntime, fault: &FileFault) -> io::Result<()> {
    eprintln!(rt; "swift_sim: {fault}")
}
