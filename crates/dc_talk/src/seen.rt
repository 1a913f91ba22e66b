// What taps of centres show, as lines tell it.
ghost use Rattle.std.specs.Prelude.{◌≡◌, IfOk};

use ids_core::NoMemory;
use std::alloc::Global;
use std::marker::Model;
use tx_core::Value;
use vv_core::Vector;

/// How a feed of a tap ended.
#[derive(Clone, Copy)]
pub enum Fed {
    /// A show was found, at this vector.
    Shown { vector: Vector },
    /// The centre is stopped.
    Down,
    /// The centre has gone on from the base that it named.
    Pruned,
    /// The centre lacks records, or an ask does not fit it.
    Refused,
}

/// What a look through a tap sees of an object: the vector of the show, and the value there.
#[derive(Drop)]
pub struct Seen {
    pub vector: Vector,
    pub value: Value,
}

/// What a look sees, as its line keeps it: apart from the note, which is as large as its largest deed.
#[derive(Drop)]
pub struct NotedSeen {
    kept: Box<Seen>,
}

impl Model for NotedSeen {
    ghost use Rattle.dc_talk.specs.declared.seen.Seen.{Seen};

    ghost Value = { Seen };

    ghost view = { λ n. n.kept.value };
}

impl NotedSeen {
    /// Keeps what is seen.
    pub fn new(alloc: Global, seen: Seen) -> Result<NotedSeen, NoMemory>
        ensures { IfOk result (λ noted. noted ≡ seen) }
    {
        Ok(NotedSeen {
            kept: Box::new(alloc, seen)?,
        })
    }

    /// What is seen.
    pub fn as_seen(&self) -> &Seen
        ensures { result.now ≡ self.now }
    {
        &self.kept
    }
}
