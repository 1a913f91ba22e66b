// The lines that the steps of a script write.
use crate::seen::{Fed, NotedSeen};
use ids_core::ObjectId;
use tx_core::Value;
use vv_core::{Lack, Stamp, Vector};

/// Why an ask has no reply that counts.
#[derive(Clone, Copy)]
pub enum Miss {
    /// The centre is stopped.
    Unreachable,
    /// The ask or the answer was lost.
    Lost,
    /// The ask does not fit the system.
    Misfit,
}

/// The word of a step that reads or changes an object. The object of the last four is a bounded counter.
#[derive(Clone, Copy)]
pub enum StepWord {
    /// Adds to a counter.
    Inc,
    /// Writes a register.
    Set,
    /// Adds a word to a set.
    Add,
    /// Removes a word from a set.
    Del,
    /// Puts a word under a key of a map.
    Put,
    /// Erases a key of a map.
    Drop,
    /// Reads an object.
    Read,
    /// Adds to a holder's own rights in a bounded counter.
    Grant,
    /// Gives rights in a bounded counter to another holder.
    Give,
    /// Takes from a bounded counter.
    Take,
    /// Tells a holder's rights in a bounded counter.
    Rights,
}

/// How the push of a commit ended.
#[derive(Clone, Copy)]
pub enum PushEnd {
    /// The commit has this stamp now.
    Stamped { stamp: Stamp },
    /// The centre had it before, and the client's commits up to this number.
    Known { through: u64 },
    /// The centre has stamped as many transactions as it may.
    Full { limit: u64 },
    /// An earlier commit is missing there: the greatest number that it has.
    Order { have: u64 },
    /// The centre lacks records that the commit needs.
    Lacks { lack: Lack },
    /// There was no reply that counts.
    Missed { miss: Miss },
}

/// How a delivery of records by hand ended.
#[derive(Clone, Copy)]
pub enum ShipEnd {
    /// The record of this number is not there.
    Absent { seq: u64 },
    /// The record of this number, the last one, is applied; its transaction is new there.
    Applied { seq: u64 },
    /// It is applied, and is one more stamp of a transaction that was there.
    Alias { seq: u64 },
    /// The last record was there: as many of its origin are.
    Old { have: u64 },
    /// An earlier record of its origin is missing, of which so many are there.
    Gap { have: u64 },
    /// The centre lacks records that the last record depends on.
    Waits { lack: Lack },
    /// An earlier transaction of its client is missing: its number, and the greatest that is there.
    Orphan { number: u64, have: u64 },
    /// The centre that was asked keeps the records of the origin from behind this number on alone.
    Trimmed { from: u64 },
    /// This centre is stopped.
    Down { centre: u8 },
    /// An ask does not fit the system.
    Misfit,
}

/// What a step of a script writes, one variant for each form of line.
#[derive(Drop)]
pub enum Line {
    /// The client is connected to the centre.
    At {
        client: u32,
        centre: u8,
    },
    /// The centre refused the client, since it lacks records that the client has seen.
    Refused {
        client: u32,
        centre: u8,
        lack: Lack,
    },
    /// The hello had no reply that counts.
    ConnectMissed {
        client: u32,
        centre: u8,
        miss: Miss,
    },
    /// A begin was refused: a transaction is open.
    BeginOpen {
        client: u32,
    },
    /// A begin was refused: the clock is at the greatest rank.
    BeginClock {
        client: u32,
    },
    /// A change was refused: no transaction is open.
    Closed {
        client: u32,
        word: StepWord,
        object: ObjectId,
    },
    /// A change was refused: the open transaction has `MOST_UPDATES` updates.
    ManyUpdates {
        client: u32,
        word: StepWord,
        object: ObjectId,
    },
    /// A change was refused: the client sees so many live adds of the word, or puts under the key.
    ManyTags {
        client: u32,
        word: StepWord,
        object: ObjectId,
        count: u64,
    },
    /// A fetch was needed, and the client is connected to no centre.
    Unconnected {
        client: u32,
        word: StepWord,
        object: ObjectId,
    },
    /// The fetch had no reply that counts.
    FetchMissed {
        client: u32,
        word: StepWord,
        object: ObjectId,
        miss: Miss,
    },
    /// The centre lacks records of the client's snapshot.
    FetchLacks {
        client: u32,
        word: StepWord,
        object: ObjectId,
        lack: Lack,
    },
    /// The centre keeps the object's state from the base on alone, and the client's snapshot is
    /// lower: the entry of that centre in the base, and in the snapshot.
    FetchPruned {
        client: u32,
        word: StepWord,
        object: ObjectId,
        centre: u8,
        base: u64,
        at: u64,
    },
    /// The session did not take the state that it fetched.
    FetchIgnored {
        client: u32,
        word: StepWord,
        object: ObjectId,
    },
    /// A read had this value.
    ReadValue {
        client: u32,
        object: ObjectId,
        value: Value,
    },
    /// A holder wanted to take or give more than its rights in a bounded counter, which are these.
    Short {
        client: u32,
        word: StepWord,
        object: ObjectId,
        rights: i128,
    },
    /// A holder has these rights in a bounded counter.
    RightsValue {
        client: u32,
        object: ObjectId,
        rights: i128,
    },
    /// A commit got this number.
    CommitNumber {
        client: u32,
        number: u64,
    },
    /// A commit had no updates.
    CommitNone {
        client: u32,
    },
    /// A commit was refused: no transaction is open.
    CommitClosed {
        client: u32,
    },
    /// A commit was refused: `MOST_PENDING` commits are pending.
    CommitPending {
        client: u32,
    },
    /// An abort was refused: no transaction is open.
    AbortClosed {
        client: u32,
    },
    /// A push was made with no centre connected.
    PushUnconnected {
        client: u32,
    },
    /// There was nothing to push.
    PushNone {
        client: u32,
    },
    /// The push of the commit of this number ended so.
    Push {
        client: u32,
        number: u64,
        end: PushEnd,
    },
    /// There is no commit of this number that the client has asked a centre to take.
    AgainNone {
        client: u32,
        centre: u8,
        number: u64,
    },
    /// The commit of this number was sent once more, to this centre, and that ended so.
    Again {
        client: u32,
        centre: u8,
        number: u64,
        end: PushEnd,
    },
    /// A flush left nothing to push. The client has committed so many transactions.
    Flushed {
        client: u32,
        own: u64,
    },
    /// The client has this snapshot now, and within it so many commits of its own.
    Sees {
        client: u32,
        vector: Vector,
        mine: u64,
    },
    /// A refresh was made with no centre connected.
    RefreshUnconnected {
        client: u32,
    },
    /// A refresh was refused: a transaction is open.
    RefreshOpen {
        client: u32,
    },
    /// The centre lacks records of the client's snapshot.
    RefreshLacks {
        client: u32,
        lack: Lack,
    },
    /// The refresh had no reply that counts.
    RefreshMissed {
        client: u32,
        miss: Miss,
    },
    /// The session did not take the snapshot.
    RefreshIgnored {
        client: u32,
    },
    /// Records were delivered from a centre to another one, and that ended so.
    Ship {
        from: u8,
        to: u8,
        end: ShipEnd,
    },
    /// Records that the origin stamped were delivered from a centre to another one, and that ended so.
    Relay {
        from: u8,
        origin: u8,
        to: u8,
        end: ShipEnd,
    },
    /// What a centre has was not told to another one: this one of the two is stopped.
    ToldDown {
        from: u8,
        to: u8,
        centre: u8,
    },
    /// What a centre has was not told to another one: an ask does not fit the system.
    ToldMisfit {
        from: u8,
        to: u8,
    },
    /// The centre pruned: it keeps states from this vector on, within which so many transactions are, and its own
    /// records from behind this number on.
    Based {
        centre: u8,
        vector: Vector,
        folded: u64,
        trimmed: u64,
    },
    /// The centre was not pruned: it is stopped.
    BaseDown {
        centre: u8,
    },
    /// The tap of the centre was fed, and that ended so.
    Feed {
        centre: u8,
        fed: Fed,
    },
    /// The client looked at an object through the tap of the centre, and saw this there.
    Look {
        client: u32,
        centre: u8,
        object: ObjectId,
        seen: NotedSeen,
    },
}
