// Why an input is no script.
ghost use Rattle.std.specs.Prelude.{◌≡◌};
ghost use Rattle.script_reader.specs.declared.fault.ScriptFault.TheVariants.{NoMemory as no_memory};
ghost use Rattle.script_reader.specs.Causes.{cause_text};

use std::alloc::AllocError;
use thiserror::Error;

/// Why a line is refused. Of several causes the first one in this order is named, but that number, range and name are
/// told word by word from left to right.
#[derive(Clone, Copy, Debug, PartialEq, Eq)]
pub enum Cause {
    /// There are more lines than 200,000 with it.
    Many,
    /// It has more than 256 bytes.
    Long,
    /// It holds a byte that is neither a tab nor from 0x20 to 0x7E.
    Byte,
    /// No line has such a word in this place.
    Word,
    /// It has too few or too many words.
    Count,
    /// A word that has to be a number is not spelled as one.
    Number,
    /// A number is outside its range.
    Range,
    /// A word that has to be a name or an object is none.
    Name,
    /// The object is not of the kind that the step changes.
    Kind,
    /// It may not stand here, or repeats a line of the header.
    Place,
}

impl Cause {
    /// The word for the cause.
    pub fn word(self) -> &'static [u8]
        ensures { result.now ≡ cause_text self }
    {
        match self {
            Cause::Many => b"many",
            Cause::Long => b"long",
            Cause::Byte => b"byte",
            Cause::Word => b"word",
            Cause::Count => b"count",
            Cause::Number => b"number",
            Cause::Range => b"range",
            Cause::Name => b"name",
            Cause::Kind => b"kind",
            Cause::Place => b"place",
        }
    }
}

/// Why an input was not taken.
#[derive(Clone, Copy, Debug, Error)]
pub enum ScriptFault {
    /// The first line at fault, counted from 1 to 200,001, and why it is.
    #[error("line {line}: {cause:?}")]
    Refused { line: u32, cause: Cause },
    /// There is no memory for its steps.
    #[error("memory ran out")]
    NoMemory,
}

impl From<AllocError> for ScriptFault {
    ghost from_gives = { λ _ e. e ≡ no_memory };

    fn from(_: AllocError) -> Self {
        ScriptFault::NoMemory
    }
}
