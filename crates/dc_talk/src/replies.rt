// Which answers a centre may give to an ask.
ghost use Rattle.std.specs.Prelude.{◌≡◌, ℕ, List};
ghost use Rattle.ids_core.specs.declared.object.ObjectId.{ObjectId};
ghost use Rattle.tx_core.specs.declared.tx.Tx.{Tx};
ghost use Rattle.tx_core.specs.declared.tx.Record.{Record};
ghost use Rattle.dc_talk.specs.declared.ask.Ask.TheVariants.{Hello, Refresh, Fetch, Delta, Commit, Send, Deliver, Relay, Report, Learn, Prune, Stop, Start};
ghost use Rattle.dc_talk.specs.Doors.{belongs};

use crate::ask::Ask;
use crate::say::Say;

/// Whether a centre may answer the ask so. Every centre may be stopped, and every ask a misfit; each other
/// answer is to asks of its kind.
pub fn belongs(ask: &Ask, say: &Say) -> bool
    ensures { result ≡ belongs ask.now say.now }
{
    match ask {
        Ask::Hello { .. } => is_to_hello(say),
        Ask::Refresh { .. } => is_to_refresh(say),
        Ask::Fetch { .. } => is_to_fetch(say),
        Ask::Delta { .. } => is_to_delta(say),
        Ask::Commit { .. } => is_to_commit(say),
        Ask::Send { .. } => is_to_send(say),
        Ask::Deliver { .. } => is_to_deliver(say),
        Ask::Relay { .. } => is_to_relay(say),
        Ask::Report => is_to_report(say),
        Ask::Learn { .. } => is_to_learn(say),
        Ask::Prune => is_to_prune(say),
        Ask::Stop => is_to_stop(say),
        Ask::Start => is_to_start(say),
    }
}

// Whether a hello may be answered so.
fn is_to_hello(say: &Say) -> bool
    ensures { (client : ℕ) (need : List ℕ) → result ≡ belongs (Hello client need) say.now }
{
    matches!(
        say,
        Say::Misfit | Say::Down | Say::Lacks { .. } | Say::Welcome { .. }
    )
}

// Whether a refresh may be answered so.
fn is_to_refresh(say: &Say) -> bool
    ensures { (client : ℕ) (here : List ℕ) → result ≡ belongs (Refresh client here) say.now }
{
    matches!(
        say,
        Say::Misfit | Say::Down | Say::Lacks { .. } | Say::Snap { .. }
    )
}

// Whether a fetch may be answered so.
fn is_to_fetch(say: &Say) -> bool
    ensures { (object : ObjectId) (here : List ℕ) → result ≡ belongs (Fetch object here) say.now }
{
    matches!(
        say,
        Say::Misfit | Say::Down | Say::Lacks { .. } | Say::Pruned { .. } | Say::Object { .. }
    )
}

// Whether a delta may be answered so.
fn is_to_delta(say: &Say) -> bool
    ensures { (object : ObjectId) (from here : List ℕ) → result ≡ belongs (Delta object from here) say.now }
{
    match say {
        Say::Misfit | Say::Down | Say::Lacks { .. } => true,
        Say::Pruned { .. } | Say::Object { .. } | Say::Changes { .. } => true,
        _ => false,
    }
}

// Whether a commit may be answered so.
fn is_to_commit(say: &Say) -> bool
    ensures { (tx : Tx) → result ≡ belongs (Commit tx) say.now }
{
    match say {
        Say::Misfit | Say::Down | Say::Known { .. } | Say::OutOfOrder { .. } => true,
        Say::Lacks { .. } | Say::Full { .. } | Say::Stamped { .. } => true,
        _ => false,
    }
}

// Whether a send may be answered so.
fn is_to_send(say: &Say) -> bool
    ensures { (after most : ℕ) → result ≡ belongs (Send after most) say.now }
{
    matches!(
        say,
        Say::Misfit | Say::Down | Say::Trimmed { .. } | Say::Records { .. }
    )
}

// Whether a delivery may be answered so.
fn is_to_deliver(say: &Say) -> bool
    ensures { (item : Record) (hops : ℕ) → result ≡ belongs (Deliver item hops) say.now }
{
    match say {
        Say::Misfit | Say::Down | Say::Old { .. } | Say::Gap { .. } => true,
        Say::Waits { .. } | Say::Orphan { .. } | Say::Applied { .. } => true,
        _ => false,
    }
}

// Whether a relay may be answered so.
fn is_to_relay(say: &Say) -> bool
    ensures { (origin after most : ℕ) → result ≡ belongs (Relay origin after most) say.now }
{
    matches!(
        say,
        Say::Misfit | Say::Down | Say::Trimmed { .. } | Say::Records { .. }
    )
}

// Whether a report may be answered so.
fn is_to_report(say: &Say) -> bool
    ensures { result ≡ belongs Report say.now }
{
    matches!(say, Say::Misfit | Say::Down | Say::Vector { .. })
}

// Whether what was taught may be answered so.
fn is_to_learn(say: &Say) -> bool
    ensures { (from : ℕ) (news : List ℕ) → result ≡ belongs (Learn from news) say.now }
{
    matches!(say, Say::Misfit | Say::Down | Say::Learned { .. })
}

// Whether a prune may be answered so.
fn is_to_prune(say: &Say) -> bool
    ensures { result ≡ belongs Prune say.now }
{
    matches!(say, Say::Misfit | Say::Down | Say::Base { .. })
}

// Whether a stop may be answered so.
fn is_to_stop(say: &Say) -> bool
    ensures { result ≡ belongs Stop say.now }
{
    matches!(say, Say::Misfit | Say::Down | Say::Stopped)
}

// Whether a start may be answered so.
fn is_to_start(say: &Say) -> bool
    ensures { result ≡ belongs Start say.now }
{
    matches!(say, Say::Misfit | Say::Down | Say::Started)
}
