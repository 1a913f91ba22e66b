// The parts of a bundle, from those of the centre that gives it.
ghost use Rattle.std.specs.Prelude.{◌≡◌, IfOk};
ghost use Rattle.centre_parts.specs.Conditions.{MeetsAll};
ghost use Rattle.centre_gives.specs.Parts.{given_of};

use crate::clients::clients_of;
use crate::rows::rows_with;
use centre_parts::CentreParts;
use ids_core::NoMemory;
use join_bundle::BundleParts;
use std::alloc::Global;

// The parts of the bundle that a centre with these parts gives. No state is copied.
pub(crate) fn given_of(alloc: Global, parts: CentreParts) -> Result<BundleParts, NoMemory>
    requires { MeetsAll parts }
    ensures { IfOk result (λ bundle. bundle ≡ given_of parts) }
{
    let CentreParts {
        settings,
        applied,
        rows,
        mark,
        trimmed: _,
        outbox: _,
        stopped: _,
    } = parts;
    let point = applied.point;
    let clients = clients_of(alloc, applied.notes.as_slice(), point.numbers.as_slice())?;
    Ok(BundleParts {
        donor: settings.me,
        depth: 0,
        vector: applied.vector,
        rows: rows_with(rows, settings.me, applied.vector),
        base: point.vector,
        mark,
        folded: point.folded,
        top: applied.top,
        clients,
        states: point.states,
        rest: applied.rest,
    })
}
