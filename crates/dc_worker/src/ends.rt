// How a delivery ends, and the lines of deliveries and tells.
ghost use Rattle.std.specs.Prelude.{◌≡◌};
ghost use Rattle.tx_core.specs.declared.tx.Record.{Record};
ghost use Rattle.script_core.specs.Carrying.{route, detour, stopped_end, send_end, delivery_end, is_there, ship_line, relay_line, tell_line};
ghost use Rattle.script_core.specs.Orders.{base_line};

use dc_talk::{Line, Say, ShipEnd};
use vv_core::Lack;

// How a delivery ends by the answer of this centre, where it takes part no more.
pub(crate) fn stopped_end(centre: u8, say: &Say) -> Option<ShipEnd>
    ensures { result ≡ stopped_end centre say.now }
{
    match say {
        Say::Down => Some(ShipEnd::Down { centre }),
        Say::Misfit => Some(ShipEnd::Misfit),
        _ => None,
    }
}

// How a delivery ends by the answer, without records, of the centre that was asked for them.
pub(crate) fn send_end(from: u8, say: &Say) -> Option<ShipEnd>
    ensures { result ≡ send_end from say.now }
{
    match say {
        Say::Trimmed { from: low } => Some(ShipEnd::Trimmed { from: *low }),
        _ => stopped_end(from, say),
    }
}

// How a delivery ends by the answer to a record of this number.
pub(crate) fn delivery_end(to: u8, seq: u64, say: &Say) -> Option<ShipEnd>
    ensures { (item : Record) → item.stamp.seq ≡ seq → result ≡ delivery_end to item say.now }
{
    match say {
        Say::Applied { fresh: true } => Some(ShipEnd::Applied { seq }),
        Say::Applied { fresh: false } => Some(ShipEnd::Alias { seq }),
        Say::Old { have } => Some(ShipEnd::Old { have: *have }),
        Say::Gap { have } => Some(ShipEnd::Gap { have: *have }),
        Say::Waits { centre, need, have } => {
            let lack = Lack {
                centre: *centre,
                need: *need,
                have: *have,
            };
            Some(ShipEnd::Waits { lack })
        }
        Say::Orphan { number, have } => Some(ShipEnd::Orphan {
            number: *number,
            have: *have,
        }),
        _ => stopped_end(to, say),
    }
}

/// Whether a record is at the centre that answered its delivery so.
pub fn is_there(say: &Say) -> bool
    ensures { result ≡ is_there say.now }
{
    matches!(say, Say::Applied { .. } | Say::Old { .. })
}

/// The line of a delivery that ended so, where it has one.
pub fn ship_line(from: u8, to: u8, end: Option<ShipEnd>) -> Option<Line>
    ensures { result ≡ ship_line (route from to) end }
{
    match end {
        Some(end) => Some(Line::Ship { from, to, end }),
        None => None,
    }
}

/// The line of a relay that ended so, where it has one.
pub fn relay_line(from: u8, origin: u8, to: u8, end: Option<ShipEnd>) -> Option<Line>
    ensures { result ≡ relay_line (detour from origin to) end }
{
    match end {
        Some(end) => Some(Line::Relay {
            from,
            origin,
            to,
            end,
        }),
        None => None,
    }
}

/// The line of a prune by the centre's answer, where it has one.
pub fn base_line(centre: u8, say: &Say) -> Option<Line>
    ensures { result ≡ base_line centre say.now }
{
    match say {
        Say::Base {
            vector,
            folded,
            trimmed,
        } => Some(Line::Based {
            centre,
            vector: *vector,
            folded: *folded,
            trimmed: *trimmed,
        }),
        Say::Down => Some(Line::BaseDown { centre }),
        _ => None,
    }
}

// The line of a tell by the answer of this centre, where it has one.
pub(crate) fn tell_line(from: u8, to: u8, centre: u8, say: &Say) -> Option<Line>
    ensures { result ≡ tell_line (route from to) centre say.now }
{
    match say {
        Say::Down => Some(Line::ToldDown { from, to, centre }),
        Say::Misfit => Some(Line::ToldMisfit { from, to }),
        _ => None,
    }
}
