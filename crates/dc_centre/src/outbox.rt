// The records that a centre has applied and did not let go yet, by their origin.
ghost use Rattle.std.specs.Prelude.{◌≡◌, ◌≤◌, ◌<◌, ◌-◌, ℕ, IfOk, OnOk, [], take, drop, length, replicate, slice_set, slice_index_or};
ghost use Rattle.dc_centre.specs.Outboxes.{row_of, room_of, put_by, HasTrimmed};
ghost use Rattle.ids_core.specs.declared.limits.TheConstants.{MOST_CENTRES};

use dc_talk::Sent;
use ids_core::{MOST_CENTRES, NoMemory};
use std::alloc::Global;
use std::collections::VecDeque;
use std::marker::Model;

// The records that a centre has applied and did not let go yet, by their origin, which is one of MOST_CENTRES.
#[derive(Drop)]
pub(crate) struct Outbox {
    pub(crate) rows: Vec<VecDeque<Sent>>,
}

impl Model for Outbox {
    ghost use Rattle.std.specs.Prelude.{◌≡◌, map, length};
    ghost use Rattle.ids_core.specs.declared.limits.TheConstants.{MOST_CENTRES};
    ghost use Rattle.std.specs.VecDeque.{deque_len, deque_capacity};
    ghost use Rattle.std.specs.Prelude.{◌-◌};
    ghost use Rattle.dc_centre.specs.Outboxes.{OutboxView};

    ghost Value = { OutboxView };

    ghost invariant = { λ o. length o.rows.items ≡ MOST_CENTRES };

    ghost view = { λ o. record { rows = map (λ row. row.items) o.rows.items; room = map (λ row. deque_capacity row - deque_len row) o.rows.items } };
}

impl Outbox {
    // Nothing of any origin.
    pub(crate) fn new(alloc: Global) -> Result<Outbox, NoMemory>
        ensures { IfOk result (λ outbox. outbox.rows ≡ replicate MOST_CENTRES []) }
    {
        let mut rows = Vec::new(alloc);
        'origins: for _origin in 0..MOST_CENTRES {
            rows.push(VecDeque::new(alloc))?;
        }
        Ok(Outbox { rows })
    }

    // The allocator.
    pub(crate) fn allocator(&self) -> Global {
        *self.rows.allocator()
    }

    // The records of an origin after the first so many, and at most so many.
    pub(crate) fn part(
        &self,
        alloc: Global,
        origin: u8,
        after: u64,
        most: u32,
    ) -> Result<Vec<Sent>, NoMemory>
        requires { (1 ≤ origin) × (origin ≤ MOST_CENTRES) }
        ensures { IfOk result (λ list. list.items ≡ take most (drop after (row_of self.now.rows origin))) }
    {
        part(&self.rows[usize::from(origin - 1)], alloc, after, most)
    }

    // Makes room for one more record of an origin. Nothing else changes.
    pub(crate) fn reserve(&mut self, origin: u8) -> Result<(), NoMemory>
        requires { (1 ≤ origin) × (origin ≤ MOST_CENTRES) }
        ensures rows { self.new.rows ≡ self.old.rows }
        ensures room { OnOk result (1 ≤ room_of self.new.room origin) }
    {
        self.rows[usize::from(origin - 1)].reserve(1)?;
        Ok(())
    }

    // Puts a record behind those of its origin, for which there is room.
    pub(crate) fn put(&mut self, sent: Sent)
        requires origin { (1 ≤ sent.item.stamp.centre) × (sent.item.stamp.centre ≤ MOST_CENTRES) }
        requires room { 1 ≤ room_of self.old.room sent.item.stamp.centre }
        ensures { self.new.rows ≡ put_by self.old.rows sent }
    {
        let origin = sent.item.as_record().stamp.centre;
        self.rows[usize::from(origin - 1)].push_back_reserved(sent);
    }

    // Lets the first so many records of the origin at a place go.
    fn trim_at(&mut self, place: usize, count: u32)
        requires { place < MOST_CENTRES }
        ensures rows { self.new.rows ≡ slice_set self.old.rows place (drop count (slice_index_or self.old.rows place [])) }
        ensures many { length self.old.rows ≡ MOST_CENTRES }
    {
        trim(&mut self.rows[place], count);
    }

    // Lets the first records of each origin go, as many as its entry rises from one vector to the other.
    pub(crate) fn trim(&mut self, low: &[u32], high: &[u32])
        requires low { length low.now ≤ MOST_CENTRES }
        requires high { length high.now ≡ length low.now }
        ensures { HasTrimmed (length low.now) low.now high.now self.old.rows self.new.rows }
    {
        'origins: for place in 0..low.len() {
            self.trim_at(place, high[place].saturating_sub(low[place]));
        }
    }
}

// Lets the first so many go.
fn trim(records: &mut VecDeque<Sent>, count: u32)
    ensures { records.new.items ≡ drop count records.old.items }
{
    for _ in 0..count {
        if records.pop_front().is_none() {
            return;
        }
    }
}

// The records after the first so many, and at most so many.
fn part(
    records: &VecDeque<Sent>,
    alloc: Global,
    after: u64,
    most: u32,
) -> Result<Vec<Sent>, NoMemory>
    ensures { IfOk result (λ list. list.items ≡ take most (drop after records.now.items)) }
{
    let len = records.len();
    let start = if after < len as u64 {
        after as usize
    } else {
        len
    };
    let count = (len - start).min(most as usize);
    let mut list = Vec::new(alloc);
    for place in start..start + count {
        list.push(records[place].copy()?)?;
    }
    Ok(list)
}
