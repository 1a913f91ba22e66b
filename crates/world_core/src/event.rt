// What may happen in a world.

/// One event of the system on one thread. Clients, centres, sections and steps are counted from 1; places in logs,
/// in trails and in lists of records from 0.
#[derive(Clone, Copy)]
pub enum Event {
    /// A client takes its step of this number in a section of the script, whether or not earlier steps were taken.
    Client {
        client: u32,
        section: u32,
        step: u32,
    },
    /// The operator takes its step of this number in a section.
    Operator {
        section: u32,
        step: u32,
    },
    /// A worker of a centre makes its round of a number in a phase, whether or not earlier ones were made. Roles are 1 for
    /// the sender, 2 for the receiver, 3 for the reporter and 4 for the pruner. Rounds are counted from 1 to those of the
    /// script; the receiver has one more, its closing round.
    Round {
        section: u32,
        round: u32,
        centre: u8,
        role: u8,
    },
    /// The commit ask at a place of the client's log comes again, late, to a centre. Its answer is not heard.
    Again {
        client: u32,
        note: u64,
        centre: u8,
    },
    /// A record of an answer to a send, at a place of the trail of `from` and at an index of the answer's records, is
    /// delivered to a centre by the operator.
    Carry {
        from: u8,
        entry: u64,
        index: u32,
        to: u8,
    },
}

/// Whether an event was played.
#[derive(Clone, Copy)]
pub enum Played {
    /// It was played.
    Done,
    /// What it names is not there: the client, the centre, the section, the step, the round, the role, the note, the entry
    /// or the index; a section that is no phase for a round, a note that is no commit ask and an entry that is no answer
    /// with records count as not there. Nothing changed.
    NoSuch,
}
