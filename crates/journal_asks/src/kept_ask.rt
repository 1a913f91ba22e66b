// An ask as it stands in a journal.
ghost use Rattle.std.specs.Prelude.{◌≡◌};
ghost use Rattle.journal_asks.specs.Spellings.{is_kind, by_of, IsSpelledAsk, IsSpelledAsk-prop};

use crate::fits::see_ask;
use dc_talk::Ask;
use std::alloc::AllocError;

/// An ask that has bytes in a journal, with the centre that these name: that of a commit, and 0 for all others.
#[derive(Drop)]
pub struct KeptAsk {
    pub by: u8,
    pub ask: Ask,
    ghost fits: { IsSpelledAsk by ask } by { IsSpelledAsk-prop by ask },
}

impl KeptAsk {
    ghost use Rattle.std.specs.Prelude.{◌≡◌, ◌≤◌, true, IfOk};
    ghost use Rattle.ids_core.specs.declared.limits.TheConstants.{MOST_CENTRES};
    ghost use Rattle.dc_talk.specs.Answers.{fits};

    /// An ask of centre `me` among `n` that fits and is of a kind that a journal keeps. It has bytes there.
    pub fn of(me: u8, n: u8, ask: &Ask) -> Result<KeptAsk, AllocError>
        requires centre { (1 ≤ me) × (me ≤ n) }
        requires width { n ≤ MOST_CENTRES }
        requires kind { is_kind ask.now ≡ true }
        requires fits { fits n ask.now ≡ true }
        ensures by { IfOk result (λ x. x.by ≡ by_of me ask.now) }
        ensures ask { IfOk result (λ x. x.ask ≡ ask.now) }
    {
        see_ask(me, n, ask);
        Ok(KeptAsk {
            by: by_of(me, ask),
            ask: ask.clone()?,
        })
    }
}

/// Whether a journal keeps asks of this kind.
pub fn is_kind(ask: &Ask) -> bool
    ensures { result ≡ is_kind ask.now }
{
    matches!(
        ask,
        Ask::Commit { .. }
            | Ask::Deliver { .. }
            | Ask::Learn { .. }
            | Ask::Prune
            | Ask::Stop
            | Ask::Start
    )
}

/// The centre that the bytes of an ask of centre `me` name.
pub fn by_of(me: u8, ask: &Ask) -> u8
    ensures { result ≡ by_of me ask.now }
{
    match ask {
        Ask::Commit { .. } => me,
        _ => 0,
    }
}
