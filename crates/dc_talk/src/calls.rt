// What a client does at its session, how that ends, and parts of what a session keeps.
ghost use Rattle.std.specs.Prelude.{◌≡◌};
ghost use Rattle.dc_talk.specs.declared.calls.Refusal.TheVariants.{NoMemory as no_memory};

use ids_core::{Name, NoMemory, ObjectId, Sort};
use thiserror::Error;
use tx_core::{State, Value};
use vv_core::Vector;

/// A change of an object, as a client issues it.
#[derive(Clone, Copy)]
pub enum Change {
    /// Adds to a counter. Deltas are from -10^12 to 10^12.
    Inc { delta: i64 },
    /// Writes a register.
    Write { word: Name },
    /// Adds a word to a set.
    Add { word: Name },
    /// Removes a word from a set, with all adds of it that the client sees.
    Remove { word: Name },
    /// Puts a word under a key of a map.
    Put { key: Name, word: Name },
    /// Erases a key of a map, with all puts under it that the client sees.
    Erase { key: Name },
}

impl Change {
    ghost use Rattle.dc_talk.specs.Calls.{sort_of_change};

    /// The kind of objects that it is of.
    pub fn sort(&self) -> Sort
        ensures { result ≡ sort_of_change self.now }
    {
        match self {
            Change::Inc { .. } => Sort::Counter,
            Change::Write { .. } => Sort::Register,
            Change::Add { .. } | Change::Remove { .. } => Sort::Set,
            Change::Put { .. } | Change::Erase { .. } => Sort::Map,
        }
    }
}

/// One call of a session.
#[derive(Clone, Copy)]
pub enum Call {
    /// Opens a transaction.
    Begin,
    /// Changes an object in the open transaction.
    Change { object: ObjectId, change: Change },
    /// Reads an object.
    Read { object: ObjectId },
    /// Commits the open transaction.
    Commit,
    /// Ends the open transaction; its updates are gone.
    Abort,
}

/// Why a session refuses a call. After each of them the session is as it was, but that a call that
/// looked the object up has made its entry the first of the cache.
#[derive(Clone, Copy, Debug, Error)]
pub enum Refusal {
    /// A transaction is open.
    #[error("a transaction is open")]
    AlreadyOpen,
    /// The clock is at 2^62, the greatest rank.
    #[error("the clock is at the greatest rank")]
    ClockFull,
    /// No transaction is open.
    #[error("no transaction is open")]
    NotOpen,
    /// The change is of another kind than the object.
    #[error("the change is of another kind than the object")]
    WrongKind,
    /// The delta is outside -10^12 to 10^12.
    #[error("the delta is too large")]
    DeltaTooLarge,
    /// The open transaction has `limit` updates, the most there may be.
    #[error("the transaction has {limit} updates")]
    TooManyUpdates { limit: u64 },
    /// The object is not in the cache at the session's snapshot, and the call has to know its state.
    #[error("the object is not cached at the snapshot")]
    NeedsFetch { object: ObjectId },
    /// The client sees `count` live adds of the word, or puts under the key, and more than 4,096.
    #[error("the change is over {count} identifiers")]
    TooManyTags { count: u64 },
    /// So many commits are pending, the most there may be.
    #[error("{limit} commits are pending")]
    PendingFull { limit: u64 },
    /// No centre is connected.
    #[error("no centre is connected")]
    NotConnected,
    /// Memory was refused.
    #[error("memory ran out")]
    NoMemory,
}

impl From<NoMemory> for Refusal {
    ghost from_gives = { λ _ e. e ≡ no_memory };

    fn from(_: NoMemory) -> Self {
        Refusal::NoMemory
    }
}

/// How a call of a session ended.
#[derive(Drop)]
pub enum Outcome {
    /// The call was taken.
    Fine,
    /// A read has this value.
    Got(Value),
    /// A commit has this number.
    Number(u64),
    /// The transaction had no updates, and there is nothing to commit.
    Nothing,
    /// The call was refused.
    Refused(Refusal),
}

/// The centre that a session is connected to, and the greatest number of the session's own commits
/// that is known to be there.
#[derive(Clone, Copy)]
pub struct Connection {
    pub centre: u8,
    pub sent: u64,
}

/// One entry of a client's cache: the state of an object at a vector.
#[derive(Drop)]
pub struct Cached {
    pub object: ObjectId,
    pub vector: Vector,
    pub state: State,
}
