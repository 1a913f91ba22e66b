// The records that a centre did not let go yet, taken apart and made again.
ghost use Rattle.std.specs.Prelude.{◌≡◌, IfOk, length};
ghost use Rattle.ids_core.specs.declared.limits.TheConstants.{MOST_CENTRES};

use crate::outbox::Outbox;
use centre_parts::{Outbox as OutboxParts, Sents};
use dc_talk::Sent;
use ids_core::NoMemory;
use list_core::List;
use std::alloc::Global;
use std::collections::VecDeque;

impl Outbox {
    // The records of each origin.
    pub(crate) fn parts(&self, alloc: Global) -> Result<OutboxParts, NoMemory>
        ensures told { IfOk result (λ parts. parts ≡ self.now.rows) }
        ensures many { IfOk result (λ parts. length parts ≡ MOST_CENTRES) }
    {
        let mut parts = List::new(alloc);
        'origins: for place in 0..self.rows.len() {
            parts.push(copies_of(alloc, &self.rows[place])?)?;
        }
        Ok(parts)
    }

    // The outbox with these records of each origin.
    pub(crate) fn of_parts(alloc: Global, parts: OutboxParts) -> Result<Outbox, NoMemory>
        requires { length parts ≡ MOST_CENTRES }
        ensures { IfOk result (λ outbox. outbox.rows ≡ parts) }
    {
        let mut rows = Vec::new(alloc);
        for row in parts.into_vec() {
            rows.push(VecDeque::from_vec(row.into_vec()))?;
        }
        Ok(Outbox { rows })
    }
}

// The same records again, in their order.
fn copies_of(alloc: Global, records: &VecDeque<Sent>) -> Result<Sents, NoMemory>
    ensures { IfOk result (λ copies. copies ≡ records.now.items) }
{
    let mut copies = List::new(alloc);
    'records: for place in 0..records.len() {
        copies.push(records[place].copy()?)?;
    }
    Ok(copies)
}
