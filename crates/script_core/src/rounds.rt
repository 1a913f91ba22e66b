// The rounds that the workers of a centre make in a phase.

/// The most records that a worker puts on a link, or takes from one, in a round; a closing round takes all.
pub const MOST_MAILED: u32 = 64;

/// A centre prunes in each round whose number is a multiple of this.
pub const ROUNDS_BETWEEN_PRUNES: u32 = 8;

/// The most to which a fault of a link may count.
pub const MOST_EVERY: u64 = 1_000_000;

/// What a worker of a centre does in its rounds.
#[derive(Clone, Copy)]
pub enum Role {
    /// Puts on the link to each other centre what that one lacks of this centre's records.
    Sender,
    /// Delivers to this centre what it takes from the link from each other one.
    Receiver,
    /// Tells each other centre what this one has.
    Reporter,
    /// Has the centre prune, now and then.
    Pruner,
}
