// What a client asks a centre for.
ghost use Rattle.std.specs.Prelude.{◌≡◌};
ghost use Rattle.client_stub.specs.Purposes.{next_where};

use crate::lines::{fetch_line, goes_on, hello_line, is_pruned, push_line, refresh_line};
use dc_talk::{Ask, Fate, Line};
use script_core::ObjectCall;

/// Why a client asks a centre.
#[derive(Clone, Copy)]
pub enum Purpose {
    /// To be connected to this centre.
    Connect { centre: u8 },
    /// For a call on an object.
    Fetch(ObjectCall),
    /// To push the commit of this number.
    Push { number: u64 },
    /// The same as one push of several.
    Flush { number: u64 },
    /// For a newer snapshot.
    Refresh,
}

/// What a step does after an ask.
#[derive(Clone, Copy)]
pub enum Next {
    /// It has come to its end.
    Done,
    /// It goes on: with the call where a state was taken, with more pushes in a flush.
    GoesOn,
    /// It asks for the state of an object, since the centre has pruned what came to it.
    AsksOn,
}

/// An ask of a centre, and what it is for.
#[derive(Drop)]
pub struct Errand {
    pub purpose: Purpose,
    pub centre: u8,
    pub ask: Ask,
}

impl Purpose {
    ghost use Rattle.client_stub.specs.Purposes.{line_after, next_after};

    /// The line that comes of what became of the ask, by whether the session took that; none where the
    /// session took the answer to a fetch, since the step goes on then, and where a flush goes on.
    pub fn line_after(&self, client: u32, took: bool, fate: &Fate) -> Option<Line>
        ensures { result ≡ line_after self.now client took fate.now }
    {
        match self {
            Purpose::Connect { centre } => hello_line(client, *centre, fate),
            Purpose::Fetch(on) => {
                if took {
                    None
                } else {
                    fetch_line(client, on, fate)
                }
            }
            Purpose::Push { number } => push_line(client, *number, fate),
            Purpose::Flush { number } => {
                if goes_on(fate) {
                    None
                } else {
                    push_line(client, *number, fate)
                }
            }
            Purpose::Refresh => refresh_line(client, took, fate),
        }
    }

    /// What the step does after the ask, by whether the session took what became of it.
    pub fn next_after(&self, took: bool, fate: &Fate) -> Next
        ensures { result ≡ next_after self.now took fate.now }
    {
        match self {
            Purpose::Fetch(_) => {
                if took && is_pruned(fate) {
                    Next::AsksOn
                } else {
                    next_where(took)
                }
            }
            Purpose::Flush { .. } => next_where(goes_on(fate)),
            _ => next_where(took),
        }
    }
}

impl Next {
    ghost use Rattle.client_stub.specs.Purposes.{is_more};

    /// Whether the step goes on in any way.
    pub fn is_more(&self) -> bool
        ensures { result ≡ is_more self.now }
    {
        !matches!(self, Next::Done)
    }
}

// What a step does that goes on where this is so.
fn next_where(goes: bool) -> Next
    ensures { result ≡ next_where goes }
{
    if goes { Next::GoesOn } else { Next::Done }
}
