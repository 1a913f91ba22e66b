//! Reads a script from standard input, lets go of it, and prints how many sections it has, for counts of what reading
//! takes. The status is 3 where the input is no script or there is no memory for its steps, and 1 where the input cannot
//! be read.
#![tactic(auto)]

use script_reader::parse;
use std::io::{self, Read};
use std::process::ExitCode;

fn main(rt: HostRuntime) -> io::Result<ExitCode> {
    let mut bytes = Vec::new(rt.alloc());
    rt.reader().read_to_end(&mut bytes)?;
    match parse(rt.alloc(), bytes.as_slice()) {
        Ok(script) => {
            let count = script.sections.len();
            println!(rt; "{count}")?;
            Ok(ExitCode::from(0))
        }
        Err(_) => Ok(ExitCode::from(3)),
    }
}
