// Rows of links with their ends.
ghost use Rattle.std.specs.Prelude.{◌≡◌, ◌-◌, [], ℕ, Some, length, drop, replicate, slice_get, IfOk, OnOk};
ghost use Rattle.dc_links.specs.Links.{IsMore, IsAmong, rows_of, row_of, AreSquare, AreGiverRows, AreTakerRows, taken_from, put_between, taken_between};
ghost use Rattle.dc_links.specs.Laying.{ends, giver_links, taker_links, HasLink, LaysRow};
ghost use Rattle.dc_links.specs.Closing.{ClosesRow};

use ids_core::NoMemory;
use link_frames::Frame;
use mail_link::{Giver, Link, Taker};
use std::alloc::Global;
use std::sync::Wait;

/// Empty rows of ends, for so many receivers.
pub(crate) fn no_rows(alloc: Global, n: u8) -> Result<Vec<Vec<Taker<Frame>>>, NoMemory>
    ensures { IfOk result (λ rows. rows_of rows.items ≡ replicate n []) }
{
    let mut takers = Vec::new(alloc);
    'receivers: for _to in 0..n {
        takers.push(Vec::new(alloc))?;
    }
    Ok(takers)
}

// Lays one link, with its ends.
fn lay_one(
    alloc: Global,
    row: &mut Vec<Link<Frame>>,
    givers: &mut Vec<Giver<Frame>>,
    takers: &mut Vec<Taker<Frame>>,
) -> Result<(), NoMemory>
    ensures { OnOk result (HasLink (ends row.old.items givers.old.items takers.old.items) (ends row.new.items givers.new.items takers.new.items)) }
{
    let (link, giver, taker) = Link::new(alloc)?;
    row.push(link)?;
    givers.push(giver)?;
    takers.push(taker)?;
    Ok(())
}

/// Lays links from one more centre to each receiver.
pub(crate) fn lay_row(
    alloc: Global,
    n: u8,
    takers: &mut Vec<Vec<Taker<Frame>>>,
) -> Result<(Vec<Link<Frame>>, Vec<Giver<Frame>>), NoMemory>
    requires { length takers.old.items ≡ n }
    ensures number { IfOk result (λ r. length r.0.items ≡ n) }
    ensures lays { IfOk result (λ r. LaysRow r.0.items r.1.items (rows_of takers.old.items) (rows_of takers.new.items)) }
{
    let mut row = Vec::new(alloc);
    let mut givers = Vec::new(alloc);
    'receivers: for before in 0..n {
        lay_one(
            alloc,
            &mut row,
            &mut givers,
            &mut takers[usize::from(before)],
        )?;
    }
    Ok((row, givers))
}

// Takes a link out of use, with its end that puts and the first one of a row of those that take.
fn close_one<R: Wait>(
    rt: &R,
    link: Link<Frame>,
    giver: Giver<Frame>,
    takers: &mut Vec<Taker<Frame>>,
)
    requires giver { giver.link ≡ link }
    requires taker { slice_get (taker_links takers.old.items) 0 ≡ Some link }
    ensures rest { takers.new.items ≡ drop 1 takers.old.items }
    ensures more { IsMore (taken_from takers.old.items 1) giver.put }
{
    let taker = takers.remove(0);
    link.close(rt, giver, taker);
}

// Takes the links from one centre out of use, with the first end of each receiver.
fn close_row<R: Wait>(
    rt: &R,
    row: Vec<Link<Frame>>,
    givers: Vec<Giver<Frame>>,
    takers: &mut Vec<Vec<Taker<Frame>>>,
)
    requires number { length takers.old.items ≡ length row.items }
    requires givers { giver_links givers.items ≡ row.items }
    requires takers { (j : ℕ) → IsAmong (length row.items) j → slice_get (taker_links (row_of (rows_of takers.old.items) j)) 0 ≡ slice_get row.items (j - 1) }
    ensures { ClosesRow (length row.items) givers.items (rows_of takers.old.items) (rows_of takers.new.items) }
{
    let mut links = row;
    let mut own = givers;
    'receivers: for place in 0..takers.len() {
        let link = links.remove(0);
        let giver = own.remove(0);
        close_one(rt, link, giver, &mut takers[place]);
    }
}

/// Takes links out of use, with all their ends.
pub(crate) fn close_rows<R: Wait>(
    rt: &R,
    rows: Vec<Vec<Link<Frame>>>,
    givers: Vec<Vec<Giver<Frame>>>,
    takers: Vec<Vec<Taker<Frame>>>,
)
    requires square { AreSquare (rows_of rows.items) }
    requires givers { AreGiverRows (rows_of rows.items) (rows_of givers.items) }
    requires takers { AreTakerRows (rows_of rows.items) (rows_of takers.items) }
    ensures { (i j : ℕ) → IsAmong (length rows.items) i → IsAmong (length rows.items) j → IsMore (taken_between (rows_of takers.items) i j) (put_between (rows_of givers.items) i j) }
{
    let mut links = rows;
    let mut own = givers;
    let mut all = takers;
    'senders: for _before in 0..links.len() {
        let row = links.remove(0);
        let givers = own.remove(0);
        close_row(rt, row, givers, &mut all);
    }
}
