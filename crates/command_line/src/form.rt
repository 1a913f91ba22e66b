// The forms of a command line.

/// The greatest number of which a script is made.
pub const MOST_NUM: u32 = 999_999_999;

/// What a list of words asks of the program.
#[derive(Clone, Copy)]
pub enum Form {
    /// `run`: to play a script with threads in its phases. With `--trail` the trails of the centres and
    /// the bases of the reads follow the text.
    Run { trail: bool },
    /// `serial`: to play a script on one thread, with `--trail` as above.
    Serial { trail: bool },
    /// `journal`: to play a script on one thread, and to make the journal of each centre's trail in a disk in memory.
    Journal,
    /// `make NUM`: to write the script that is made of the number, 1 to [`MOST_NUM`].
    Make { num: u32 },
    /// `load NUM`: to play with threads the script that is made of the number, 1 to [`MOST_NUM`], and to write the
    /// values that its clients read after the last phase.
    Load { num: u32 },
    /// `--help`: to tell how the program is used.
    Help,
    /// `--version`: to tell which version this is.
    Version,
}
