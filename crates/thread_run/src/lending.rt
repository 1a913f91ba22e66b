// The ends of the links at which the receivers of a phase take, lent to them from between two sections.
ghost use Rattle.std.specs.Prelude.{◌≡◌, ◌≤◌, All, length, IfOk};
ghost use Rattle.ids_core.specs.declared.limits.TheConstants.{MOST_CENTRES};
ghost use Rattle.dc_mail.specs.Posts.{IsCentre};
ghost use Rattle.thread_run.specs.Lending.{AreInletsTo, AreInlets, HaveInletsTo, HaveInlets};

use dc_mail::Posts;
use dc_worker::Inlet;
use ids_core::NoMemory;
use std::alloc::Global;

// The ends of the links to a centre from the first `n`, in order.
fn lend_to(alloc: Global, posts: &mut Posts, n: u8, to: u8) -> Result<Vec<Inlet>, NoMemory>
    requires few { n ≤ MOST_CENTRES }
    requires to { IsCentre to }
    ensures { IfOk result (λ inlets. AreInletsTo posts.old n to inlets.items posts.new) }
{
    let mut inlets = Vec::with_capacity(alloc, usize::from(n))?;
    'centres: for before in 0..n {
        inlets.push(posts.lend(before + 1, to))?;
    }
    Ok(inlets)
}

/// The ends of the links to each of the first `n` centres from each of them, in order. What is lent is away from the
/// links. An `Err` is want of memory: some ends are gone.
pub(crate) fn lend_all(alloc: Global, posts: &mut Posts, n: u8) -> Result<Vec<Vec<Inlet>>, NoMemory>
    requires { n ≤ MOST_CENTRES }
    ensures { IfOk result (λ rows. AreInlets posts.old n rows.items) }
{
    let mut rows = Vec::with_capacity(alloc, usize::from(n))?;
    'centres: for before in 0..n {
        rows.push(lend_to(alloc, posts, n, before + 1)?)?;
    }
    Ok(rows)
}

// Gives the ends of the links to a centre back, of the first of them in order.
fn give_to(posts: &mut Posts, to: u8, inlets: Vec<Inlet>)
    requires few { length inlets.items ≤ MOST_CENTRES }
    requires to { IsCentre to }
    ensures { HaveInletsTo posts.old to inlets.items posts.new }
{
    let mut from = 0;
    'inlets: for inlet in inlets {
        from += 1;
        posts.give_back(from, to, inlet);
    }
}

/// Gives back the ends of the links to each of the first centres from the first of them, in order.
pub(crate) fn give_all(posts: &mut Posts, n: u8, rows: Vec<Vec<Inlet>>)
    requires few { n ≤ MOST_CENTRES }
    requires rows { length rows.items ≡ n }
    requires each { All (λ row. length row.items ≡ n) rows.items }
    ensures { HaveInlets n rows.items posts.new }
{
    let mut to = 0;
    'rows: for row in rows {
        to += 1;
        give_to(posts, to, row);
    }
}
