// The forms of lines, and what the words of each have to be.
ghost use Rattle.std.specs.Prelude.{◌≡◌};
ghost use Rattle.script_reader.specs.Forms.{parts_of, word_text};

use ids_core::{MOST_CACHED, MOST_CLIENTS, MOST_RECORDS};
use script_core::{MOST_ROUNDS, MOST_THREADS};

/// The most transactions of a centre, the greatest number of a record, and the rarest fault of a link.
pub const MOST_COUNTED: u32 = MOST_RECORDS;

/// A word that stands in lines as it is.
#[derive(Clone, Copy)]
pub enum Word {
    Centres,
    K,
    Clients,
    Cache,
    Limit,
    Threads,
    Rounds,
    Tap,
    Connect,
    Begin,
    Inc,
    Set,
    Add,
    Del,
    Put,
    Drop,
    Read,
    Grant,
    Give,
    Take,
    Rights,
    Commit,
    Abort,
    Push,
    Flush,
    Refresh,
    Again,
    Lose,
    Ask,
    Reply,
    Twice,
    Down,
    Up,
    Ship,
    Relay,
    Tell,
    Prune,
    Feed,
    Link,
    Hold,
    Cut,
    Bend,
    Clean,
    Settle,
    Phase,
    End,
}

/// What a word of a line has to be.
#[derive(Clone, Copy)]
pub enum Part {
    /// This word.
    Fixed(Word),
    /// A `c`, and the number of a client.
    Client,
    /// A `c`, and the number of a client that is a holder of bounded counters.
    Holder,
    /// The number of another holder than the one before.
    OtherHolder,
    /// The number of a centre.
    Centre,
    /// The number of another centre than the one before.
    Other,
    /// The number of another centre than the two before.
    Third,
    /// How many centres there are, from 1 to 8.
    Centres,
    /// How many of the centres make an update stable.
    Stable,
    /// A number from a least to a most.
    Count { least: u32, most: u32 },
    /// The number of a commit, from 1 to 2^62.
    Commit,
    /// A delta, from -10^12 to 10^12.
    Delta,
    /// An object.
    Object,
    /// An object to which may be added: no counter that may be a cell of a bounded one.
    Summand,
    /// A bounded counter.
    Bounded,
    /// An amount, from 1 to 10^12.
    Amount,
    /// A key, which is a name.
    Key,
    /// A word that is written, added or put, which is a name.
    Name,
}

/// The forms of lines.
#[derive(Clone, Copy)]
pub enum Form {
    Centres,
    Clients,
    Cache,
    Limit,
    Threads,
    Rounds,
    Tap,
    Connect,
    Begin,
    Inc,
    Set,
    Add,
    Del,
    Put,
    Drop,
    Read,
    Grant,
    Give,
    Take,
    Rights,
    Commit,
    Abort,
    Push,
    Flush,
    Refresh,
    Again,
    LoseAsk,
    LoseReply,
    AskTwice,
    Look,
    Down,
    Up,
    ShipOne,
    Ship,
    Relay,
    Tell,
    Prune,
    Feed,
    LinkDrop,
    LinkTwice,
    LinkHold,
    LinkCut,
    LinkBend,
    LinkClean,
    Settle,
    Phase,
    End,
}

/// All forms.
pub const FORMS: [Form; 47] = [
    Form::Centres,
    Form::Clients,
    Form::Cache,
    Form::Limit,
    Form::Threads,
    Form::Rounds,
    Form::Tap,
    Form::Connect,
    Form::Begin,
    Form::Inc,
    Form::Set,
    Form::Add,
    Form::Del,
    Form::Put,
    Form::Drop,
    Form::Read,
    Form::Grant,
    Form::Give,
    Form::Take,
    Form::Rights,
    Form::Commit,
    Form::Abort,
    Form::Push,
    Form::Flush,
    Form::Refresh,
    Form::Again,
    Form::LoseAsk,
    Form::LoseReply,
    Form::AskTwice,
    Form::Look,
    Form::Down,
    Form::Up,
    Form::ShipOne,
    Form::Ship,
    Form::Relay,
    Form::Tell,
    Form::Prune,
    Form::Feed,
    Form::LinkDrop,
    Form::LinkTwice,
    Form::LinkHold,
    Form::LinkCut,
    Form::LinkBend,
    Form::LinkClean,
    Form::Settle,
    Form::Phase,
    Form::End,
];

/// The bytes of a word.
pub fn spelled(word: Word) -> &'static [u8]
    ensures { result.now ≡ word_text word }
{
    match word {
        Word::Centres => b"centres",
        Word::K => b"k",
        Word::Clients => b"clients",
        Word::Cache => b"cache",
        Word::Limit => b"limit",
        Word::Threads => b"threads",
        Word::Rounds => b"rounds",
        Word::Tap => b"tap",
        Word::Connect => b"connect",
        Word::Begin => b"begin",
        Word::Inc => b"inc",
        Word::Set => b"set",
        Word::Add => b"add",
        Word::Del => b"del",
        Word::Put => b"put",
        Word::Drop => b"drop",
        Word::Read => b"read",
        Word::Grant => b"grant",
        Word::Give => b"give",
        Word::Take => b"take",
        Word::Rights => b"rights",
        Word::Commit => b"commit",
        Word::Abort => b"abort",
        Word::Push => b"push",
        Word::Flush => b"flush",
        Word::Refresh => b"refresh",
        Word::Again => b"again",
        Word::Lose => b"lose",
        Word::Ask => b"ask",
        Word::Reply => b"reply",
        Word::Twice => b"twice",
        Word::Down => b"down",
        Word::Up => b"up",
        Word::Ship => b"ship",
        Word::Relay => b"relay",
        Word::Tell => b"tell",
        Word::Prune => b"prune",
        Word::Feed => b"feed",
        Word::Link => b"link",
        Word::Hold => b"hold",
        Word::Cut => b"cut",
        Word::Bend => b"bend",
        Word::Clean => b"clean",
        Word::Settle => b"settle",
        Word::Phase => b"phase",
        Word::End => b"end",
    }
}

/// What the words of a form have to be, in their order.
pub fn parts(form: Form) -> &'static [Part]
    ensures { result.now ≡ parts_of form }
{
    match form {
        Form::Centres => &[
            Part::Fixed(Word::Centres),
            Part::Centres,
            Part::Fixed(Word::K),
            Part::Stable,
        ],
        Form::Clients => &[
            Part::Fixed(Word::Clients),
            Part::Count {
                least: 1,
                most: MOST_CLIENTS,
            },
        ],
        Form::Cache => &[
            Part::Fixed(Word::Cache),
            Part::Count {
                least: 1,
                most: MOST_CACHED,
            },
        ],
        Form::Limit => &[
            Part::Fixed(Word::Limit),
            Part::Count {
                least: 1,
                most: MOST_COUNTED,
            },
        ],
        Form::Threads => &[
            Part::Fixed(Word::Threads),
            Part::Count {
                least: 1,
                most: MOST_THREADS,
            },
        ],
        Form::Rounds => &[
            Part::Fixed(Word::Rounds),
            Part::Count {
                least: 0,
                most: MOST_ROUNDS,
            },
        ],
        Form::Tap => &[Part::Fixed(Word::Tap), Part::Centre, Part::Object],
        Form::Connect => &[Part::Client, Part::Fixed(Word::Connect), Part::Centre],
        Form::Begin => &[Part::Client, Part::Fixed(Word::Begin)],
        Form::Inc => &[
            Part::Client,
            Part::Fixed(Word::Inc),
            Part::Summand,
            Part::Delta,
        ],
        Form::Set => &[
            Part::Client,
            Part::Fixed(Word::Set),
            Part::Object,
            Part::Name,
        ],
        Form::Add => &[
            Part::Client,
            Part::Fixed(Word::Add),
            Part::Object,
            Part::Name,
        ],
        Form::Del => &[
            Part::Client,
            Part::Fixed(Word::Del),
            Part::Object,
            Part::Name,
        ],
        Form::Put => &[
            Part::Client,
            Part::Fixed(Word::Put),
            Part::Object,
            Part::Key,
            Part::Name,
        ],
        Form::Drop => &[
            Part::Client,
            Part::Fixed(Word::Drop),
            Part::Object,
            Part::Key,
        ],
        Form::Read => &[Part::Client, Part::Fixed(Word::Read), Part::Object],
        Form::Grant => &[
            Part::Holder,
            Part::Fixed(Word::Grant),
            Part::Bounded,
            Part::Amount,
        ],
        Form::Give => &[
            Part::Holder,
            Part::Fixed(Word::Give),
            Part::Bounded,
            Part::OtherHolder,
            Part::Amount,
        ],
        Form::Take => &[
            Part::Holder,
            Part::Fixed(Word::Take),
            Part::Bounded,
            Part::Amount,
        ],
        Form::Rights => &[Part::Holder, Part::Fixed(Word::Rights), Part::Bounded],
        Form::Commit => &[Part::Client, Part::Fixed(Word::Commit)],
        Form::Abort => &[Part::Client, Part::Fixed(Word::Abort)],
        Form::Push => &[Part::Client, Part::Fixed(Word::Push)],
        Form::Flush => &[Part::Client, Part::Fixed(Word::Flush)],
        Form::Refresh => &[Part::Client, Part::Fixed(Word::Refresh)],
        Form::Again => &[
            Part::Client,
            Part::Fixed(Word::Again),
            Part::Centre,
            Part::Commit,
        ],
        Form::LoseAsk => &[
            Part::Client,
            Part::Fixed(Word::Lose),
            Part::Fixed(Word::Ask),
        ],
        Form::LoseReply => &[
            Part::Client,
            Part::Fixed(Word::Lose),
            Part::Fixed(Word::Reply),
        ],
        Form::AskTwice => &[Part::Client, Part::Fixed(Word::Twice)],
        Form::Look => &[
            Part::Client,
            Part::Fixed(Word::Tap),
            Part::Centre,
            Part::Object,
        ],
        Form::Down => &[Part::Fixed(Word::Down), Part::Centre],
        Form::Up => &[Part::Fixed(Word::Up), Part::Centre],
        Form::ShipOne => &[
            Part::Fixed(Word::Ship),
            Part::Centre,
            Part::Other,
            Part::Count {
                least: 1,
                most: MOST_COUNTED,
            },
        ],
        Form::Ship => &[Part::Fixed(Word::Ship), Part::Centre, Part::Other],
        Form::Relay => &[
            Part::Fixed(Word::Relay),
            Part::Centre,
            Part::Other,
            Part::Third,
        ],
        Form::Tell => &[Part::Fixed(Word::Tell), Part::Centre, Part::Other],
        Form::Prune => &[Part::Fixed(Word::Prune), Part::Centre],
        Form::Feed => &[Part::Fixed(Word::Feed), Part::Centre],
        Form::LinkDrop => &[
            Part::Fixed(Word::Link),
            Part::Centre,
            Part::Other,
            Part::Fixed(Word::Drop),
            Part::Count {
                least: 1,
                most: MOST_COUNTED,
            },
        ],
        Form::LinkTwice => &[
            Part::Fixed(Word::Link),
            Part::Centre,
            Part::Other,
            Part::Fixed(Word::Twice),
            Part::Count {
                least: 1,
                most: MOST_COUNTED,
            },
        ],
        Form::LinkHold => &[
            Part::Fixed(Word::Link),
            Part::Centre,
            Part::Other,
            Part::Fixed(Word::Hold),
            Part::Count {
                least: 1,
                most: MOST_COUNTED,
            },
        ],
        Form::LinkCut => &[
            Part::Fixed(Word::Link),
            Part::Centre,
            Part::Other,
            Part::Fixed(Word::Cut),
            Part::Count {
                least: 1,
                most: MOST_COUNTED,
            },
        ],
        Form::LinkBend => &[
            Part::Fixed(Word::Link),
            Part::Centre,
            Part::Other,
            Part::Fixed(Word::Bend),
            Part::Count {
                least: 1,
                most: MOST_COUNTED,
            },
        ],
        Form::LinkClean => &[
            Part::Fixed(Word::Link),
            Part::Centre,
            Part::Other,
            Part::Fixed(Word::Clean),
        ],
        Form::Settle => &[Part::Fixed(Word::Settle)],
        Form::Phase => &[Part::Fixed(Word::Phase)],
        Form::End => &[Part::Fixed(Word::End)],
    }
}
