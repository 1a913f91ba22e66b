// Counts the lines of a text that is read piece by piece, against the limits of a script.
ghost use Rattle.std.specs.Prelude.{◌∷◌, ◌++◌, [], ◌↔◌, List, ℕ, IsTrue};
ghost use Rattle.script_core.specs.Limits.{PassesLimits};
ghost use Rattle.script_core.specs.LineCounts.{Counts};

/// The most bytes of a line, without its line feed.
pub const MAX_LINE: u32 = 256;

/// The most lines.
pub const MAX_LINES: u32 = 200_000;

/// How far a text came: the line feeds and the bytes of the line that stands open, or past the
/// limits, where it stays.
#[derive(Clone, Copy)]
pub enum LineCount {
    Within { feeds: u32, column: u32 },
    Past,
}

impl LineCount {
    /// No byte was seen.
    pub fn new() -> Self
        ensures { Counts result [] }
    {
        LineCount::Within {
            feeds: 0,
            column: 0,
        }
    }

    /// The count with these bytes behind those that were seen.
    pub fn after(self, piece: &[u8]) -> Self
        ensures { (seen : List ℕ) → Counts self seen → Counts result (seen ++ piece.now) }
    {
        let mut count = self;
        for byte in piece {
            count = count.after_byte(*byte);
        }
        count
    }

    fn after_byte(self, byte: u8) -> Self
        ensures { (seen : List ℕ) → Counts self seen → Counts result (seen ++ byte ∷ []) }
    {
        match self {
            LineCount::Past => LineCount::Past,
            LineCount::Within { feeds, column } => {
                if feeds >= MAX_LINES {
                    LineCount::Past
                } else if byte == b'\n' {
                    LineCount::Within {
                        feeds: feeds + 1,
                        column: 0,
                    }
                } else if column >= MAX_LINE {
                    LineCount::Past
                } else {
                    LineCount::Within {
                        feeds,
                        column: column + 1,
                    }
                }
            }
        }
    }

    /// Whether the bytes seen pass the limits.
    pub fn is_past(self) -> bool
        ensures { (seen : List ℕ) → Counts self seen → IsTrue result ↔ PassesLimits seen }
    {
        matches!(self, LineCount::Past)
    }
}
