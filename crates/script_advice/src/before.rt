// What the lines before the one at fault say.
use script_reader::{LineFault, Reading};
use std::alloc::{AllocError, Global};

/// What the lines before one say.
#[derive(Drop)]
pub struct Before {
    pub reading: Reading,
    /// The line in which the last phase begins, or 0 where none does.
    pub phase_line: u32,
}

/// Reads the lines before the one of this number, counted from 1.
pub fn read_before(alloc: Global, input: &[u8], number: u32) -> Result<Before, AllocError> {
    let mut reading = Reading::nothing(alloc);
    let mut phase_line = 0;
    for (earlier, line) in (1..number).zip(input.split(|byte| *byte == b'\n')) {
        let was_open = reading.phase.is_some();
        match reading.read(alloc, earlier, line) {
            Err(LineFault::NoMemory) => return Err(AllocError),
            Ok(()) | Err(LineFault::Refused(_)) => {}
        }
        if !was_open && reading.phase.is_some() {
            phase_line = earlier;
        }
    }
    Ok(Before {
        reading,
        phase_line,
    })
}
