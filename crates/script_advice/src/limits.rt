// What is told of a line too many, of one that is too long, and of a byte that no line has.
use script_core::{MAX_LINE, MAX_LINES};
use script_reader::is_plain;
use std::alloc::{AllocError, Global};

/// Of a line too many.
pub fn one_too_many(alloc: Global) -> Result<String, AllocError> {
    let most = MAX_LINES;
    format!(in alloc; "a script has at most {most} lines, and this is one more")
}

/// Of a line that is too long. More of it than is there may be left unread, unless a line feed ends it.
pub fn too_long(alloc: Global, line: &[u8], is_whole: bool) -> Result<String, AllocError> {
    let most = MAX_LINE;
    let length = line.len();
    let least = if is_whole { "" } else { "at least " };
    format!(in alloc; "the line has {least}{length} bytes, and a line has at most {most}")
}

/// Of the first byte that a line which is no comment can't have.
pub fn odd_byte(alloc: Global, line: &[u8]) -> Result<String, AllocError> {
    match line.iter().position(|byte| !is_plain(*byte)) {
        Some(before) => {
            let byte = line[before];
            let place = before + 1;
            format!(in alloc;
                "byte {place} is 0x{byte:02x}; but for comments, a line has tabs and printable ASCII alone"
            )
        }
        None => String::from_str(alloc, "the line has a byte that it may not have"),
    }
}
