// How calls ended, as notes keep it.
ghost use Rattle.std.specs.Prelude.{◌≡◌, IfOk};
ghost use Rattle.dc_talk.specs.Noted.{outcome_seen};

use crate::calls::{Outcome, Refusal};
use ids_core::NoMemory;
use std::alloc::Global;
use std::marker::Model;
use tx_core::Value;

/// How a call ended, as a note keeps it, seen as the outcome. A value and a refusal stand apart from the note, which
/// is as large as its largest deed.
#[derive(Drop)]
pub struct NotedOutcome {
    kept: Kept,
}

// The outcome, with its large parts apart.
#[derive(Drop)]
enum Kept {
    Fine,
    Got(Box<Value>),
    Number(u64),
    Nothing,
    Refused(Box<Refusal>),
}

/// How a call ended, as it is read from a note: what `Outcome` says, with its large parts lent.
#[derive(Clone, Copy)]
pub enum Ended<'a> {
    /// The call was taken.
    Fine,
    /// A read has this value.
    Got(&'a Value),
    /// A commit has this number.
    Number(u64),
    /// The transaction had no updates, and there is nothing to commit.
    Nothing,
    /// The call was refused.
    Refused(&'a Refusal),
}

impl Model for NotedOutcome {
    ghost use Rattle.dc_talk.specs.declared.calls.Outcome.{Outcome};

    ghost Value = { Outcome };

    ghost use Rattle.dc_talk.specs.Noted.{outcome_kept};

    ghost view = { λ n. outcome_kept n.kept };
}

impl NotedOutcome {
    /// Keeps an outcome. It takes memory for a value and for a refusal alone.
    pub fn new(alloc: Global, outcome: Outcome) -> Result<NotedOutcome, NoMemory>
        ensures { IfOk result (λ noted. noted ≡ outcome) }
    {
        let kept = match outcome {
            Outcome::Fine => Kept::Fine,
            Outcome::Got(value) => Kept::Got(Box::new(alloc, value)?),
            Outcome::Number(number) => Kept::Number(number),
            Outcome::Nothing => Kept::Nothing,
            Outcome::Refused(refusal) => Kept::Refused(Box::new(alloc, refusal)?),
        };
        Ok(NotedOutcome { kept })
    }

    /// The outcome.
    pub fn ended(&self) -> Ended<'_>
        ensures { outcome_seen result ≡ self.now }
    {
        match &self.kept {
            Kept::Fine => Ended::Fine,
            Kept::Got(value) => Ended::Got(value),
            Kept::Number(number) => Ended::Number(*number),
            Kept::Nothing => Ended::Nothing,
            Kept::Refused(refusal) => Ended::Refused(refusal),
        }
    }
}
