// The line for an input that is no script.
ghost use Rattle.std.specs.Prelude.{◌≡◌, IfOk};
ghost use Rattle.top_call.specs.Runs.{refusal_text};

use ids_core::NoMemory;
use itoa::Buffer;
use script_reader::Cause;
use std::alloc::Global;

/// The line that names the first line at fault, and why it is.
pub fn refusal_line(alloc: Global, line: u32, cause: Cause) -> Result<Vec<u8>, NoMemory>
    ensures { IfOk result (λ text. text.items ≡ refusal_text line cause) }
{
    let mut buffer = Buffer::new();
    let mut text = Vec::from_slice(alloc, b"refused line ")?;
    text.extend_from_slice(buffer.format(line).as_bytes())?;
    text.extend_from_slice(b" ")?;
    text.extend_from_slice(cause.word())?;
    text.extend_from_slice(b"\n")?;
    Ok(text)
}
