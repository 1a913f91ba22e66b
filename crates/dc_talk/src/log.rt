// What an actor did, note by note.
ghost use Rattle.std.specs.Prelude.{◌≡◌, ◌≤◌, [], ◌∷◌, ◌++◌, OnOk, OnErr, IsOk};

use crate::ask::Ask;
use crate::calls::Call;
use crate::commit_places::{CommitPlaces, commit_sent, keep_place};
use crate::line::Line;
use crate::links::FrameFault;
use crate::noted::NotedOutcome;
use crate::say::Say;
use crate::sent::SharedTx;
use ids_core::NoMemory;
use std::alloc::Global;
use std::collections::BTreeMap;
use std::marker::Model;

/// What became of an ask.
#[derive(Drop)]
pub enum Fate {
    /// It reached no centre.
    AskLost,
    /// The centre answered so, and the actor never heard of it.
    ReplyLost(Say),
    /// The actor's session heard this answer.
    Heard(Say),
    /// This answer was heard by no session.
    Unheard(Say),
}

/// One thing that an actor did.
#[derive(Drop)]
pub enum Deed {
    /// A call of the actor's session, with how it ended.
    Did {
        call: Call,
        outcome: NotedOutcome,
    },
    /// An ask of a centre, with what became of it.
    Asked {
        centre: u8,
        ask: Ask,
        fate: Fate,
    },
    /// A line of the output.
    Told(Line),
    /// An item of the link from a centre that was no record: its number, counted from 1, since the fault of the link was
    /// set, and why it was none. Nothing was delivered of it.
    Spoilt {
        from: u8,
        item: u64,
        why: FrameFault,
    },
}

/// One deed, with the section of the script and the step in it. Both are counted from 1.
#[derive(Drop)]
pub struct Note {
    pub section: u32,
    pub step: u32,
    pub deed: Deed,
}

/// All that one actor did, in order, with the section and the step that it is at (0 at first).
/// The operator is actor 1, and client X is actor X + 1.
#[derive(Drop)]
pub struct Log {
    actor: u32,
    section: u32,
    step: u32,
    notes: Vec<Note>,
    commits: CommitPlaces,
}

impl Model for Log {
    ghost use Rattle.std.specs.Prelude.{◌-◌, vec_len, vec_capacity};
    ghost use Rattle.dc_talk.specs.Logs.{Logged};
    ghost use Rattle.dc_talk.specs.CommitPlaces.{LeadToFirsts};
    ghost use Rattle.tx_core.specs.States.{state_codes};

    ghost Value = { Logged };

    ghost coded = { Prim.hlevel state_codes };

    ghost view = { λ l. record { actor = l.actor; section = l.section; step = l.step; notes = l.notes.items } };

    ghost invariant = { λ l. LeadToFirsts l.commits.entries l.notes.items };
}

impl Log {
    ghost use Rattle.std.specs.Option.{option_copied};
    ghost use Rattle.dc_talk.specs.Logs.{noted, commit_sent};

    /// The empty log of an actor.
    pub fn new(alloc: Global, actor: u32) -> Self
        ensures { result ≡ record { actor = actor; section = 0; step = 0; notes = [] } }
    {
        Log {
            actor,
            section: 0,
            step: 0,
            notes: Vec::new(alloc),
            commits: BTreeMap::new(alloc),
        }
    }

    /// Goes on to a step of a section.
    pub fn set(&mut self, section: u32, step: u32)
        ensures { self.new ≡ record self.old { section = section; step = step } }
    {
        self.section = section;
        self.step = step;
    }

    /// Notes a deed of the section and step that the log is at. Nothing changes where memory is
    /// refused.
    // Where the deed is made its parts are written to their place at once: a note is large to hand over.
    #[inline(always)]
    pub fn push(&mut self, deed: Deed) -> Result<(), NoMemory>
        ensures ok { OnOk result (self.new ≡ noted self.old deed) }
        ensures err { OnErr result (self.new ≡ self.old) }
    {
        self.notes.reserve(1)?;
        keep_place(&mut self.commits, self.notes.as_slice(), &deed)?;
        self.notes.push_reserved(Note {
            section: self.section,
            step: self.step,
            deed,
        });
        Ok(())
    }

    /// The actor's number.
    pub fn actor(&self) -> u32
        ensures { result ≡ self.now.actor }
    {
        self.actor
    }

    /// The notes in order.
    pub fn as_slice(&self) -> &[Note]
        ensures { result.now ≡ self.now.notes }
    {
        self.notes.as_slice()
    }

    /// The transaction of the first commit ask of this number, whatever became of it. Time: logarithmic in
    /// how many numbers have one.
    pub fn commit_sent(&self, number: u64) -> Option<&SharedTx>
        ensures { option_copied result ≡ commit_sent number self.now.notes }
    {
        commit_sent(&self.commits, self.notes.as_slice(), number)
    }
}
