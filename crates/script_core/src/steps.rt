// The steps of a script.
use crate::step_list::Steps;
use dc_talk::{Change, LinkFault};
use ids_core::{Name, ObjectId};
use list_core::List;

/// What goes wrong with a client's next ask.
#[derive(Clone, Copy)]
pub enum AskFault {
    /// The ask reaches no centre.
    LoseAsk,
    /// The centre answers, and the client hears nothing.
    LoseReply,
    /// The ask comes twice, one copy at once behind the other. The client hears the first answer alone.
    Twice,
}

/// A holder's share in a bounded counter (Balegas and others, SRDS 2015): the counter's name, of at most 25 bytes, the
/// holder, from 1, and how many holders there are, at most 8.
#[derive(Clone, Copy)]
pub struct Share {
    pub name: Name,
    pub holder: u8,
    pub holders: u8,
}

/// What a client does in one step. Centres are counted from 1. Amounts are from 1 to 10^12.
#[derive(Clone, Copy)]
pub enum ClientStep {
    /// Hello to this centre: for the first time, again, or to move there.
    Connect { centre: u8 },
    /// Opens a transaction.
    Begin,
    /// Changes an object of the change's kind; a delta is from -10^12 to 10^12.
    Change { object: ObjectId, change: Change },
    /// Reads an object.
    Read { object: ObjectId },
    /// Adds an amount to the holder's rights.
    Grant { share: Share, amount: u64 },
    /// Gives an amount of the holder's rights to another holder, where it has as much.
    Give { share: Share, to: u8, amount: u64 },
    /// Takes an amount of the holder's rights, and so of the counter, where it has as much.
    Take { share: Share, amount: u64 },
    /// Tells the holder's rights.
    Rights { share: Share },
    /// Ends the transaction, and keeps its updates.
    Commit,
    /// Ends the transaction, and drops its updates.
    Abort,
    /// Sends the next commit.
    Push,
    /// Sends commits, one after another, until none is left or one is not taken.
    Flush,
    /// Takes a new snapshot.
    Refresh,
    /// Sends the first commit ask of this number, from 1 to 2^62, once more, late, to this centre. The answer is
    /// not heard.
    Again { centre: u8, number: u64 },
    /// Arms a fault for the client's next ask, in place of one that is armed.
    Arm { fault: AskFault },
    /// Looks at an object through the tap of this centre.
    Look { centre: u8, object: ObjectId },
}

/// What the operator does in one step. Centres are counted from 1.
#[derive(Clone, Copy)]
pub enum OperatorStep {
    /// Stops the centre: until it is started it answers nothing.
    Down { centre: u8 },
    /// Starts the centre.
    Up { centre: u8 },
    /// Delivers the record of this number that a centre stamped, from 1 to 1,000,000, to another centre.
    ShipOne { from: u8, to: u8, seq: u64 },
    /// Delivers the records that a centre stamped and another one lacks there, at most 1,024 of them, until one is
    /// not taken.
    Ship { from: u8, to: u8 },
    /// Delivers the records of a third centre, the origin, that a centre has and another one lacks, at most 1,024 of
    /// them, until one is not taken.
    Relay { from: u8, origin: u8, to: u8 },
    /// Tells a centre what another one has.
    Tell { from: u8, to: u8 },
    /// Has the centre fold what may be folded, and let go of the records that all centres have.
    Prune { centre: u8 },
    /// Sets what the link from one centre to another makes of the items that are taken from it in the phases that
    /// follow, in place of what was set before, and counts its items anew.
    Link { from: u8, to: u8, fault: LinkFault },
    /// Delivers, relays and tells between all centres until nothing is new to any that is running.
    Settle,
    /// Has the tap of the centre show what its objects are at the centre's base, which is pruned for it.
    Feed { centre: u8 },
}

/// A step of a script: one of a client, counted from 1, or one of the operator.
#[derive(Clone, Copy)]
pub enum Step {
    /// A step of this client.
    Client { client: u32, step: ClientStep },
    /// A step of the operator.
    Operator { step: OperatorStep },
}

/// A part of a script: nothing of another part is done before all its steps are.
#[derive(Drop)]
pub struct Section {
    /// Whether it is a phase, in which the workers of the centres make their rounds beside its steps. Else it is one step.
    pub phase: bool,
    pub steps: Steps,
}

/// The sections of a script in their order, seen as their list.
pub type Sections = List<Section>;
