// Entries are put together from items, and taken apart.
ghost use Rattle.std.specs.Prelude.{◌≡◌, ◌+◌, List, [], map, IsNone, IfOk, IfSome};
ghost use Rattle.journal_pair.specs.declared.mark.Mark.{Mark as MarkOf};
ghost use Rattle.journal_pair.specs.declared.entry.Entry.TheVariants.{Behind as BehindOf};
ghost use Rattle.journal_pair.specs.Entries.{generation};
ghost use Rattle.journal_pair.specs.Files.{size_of};

use crate::{Entry, Mark};
use journal_file::Item;
use std::alloc::{AllocError, Global};

/// The entries of a generation: its number, its checkpoint, and the items behind that.
#[derive(Drop)]
pub struct Taken<T> {
    pub mark: Mark,
    pub checkpoint: Vec<T>,
    pub behind: Vec<T>,
}

/// The entries of a generation with no items behind its checkpoint.
pub fn begun<T: Drop>(
    alloc: Global,
    mark: Mark,
    checkpoint: Vec<T>,
) -> Result<Vec<Entry<T>>, AllocError>
    ensures { IfOk result (λ entries. entries.items ≡ generation mark checkpoint.items []) }
{
    let mut entries = Vec::new(alloc);
    entries.push(Entry::Generation(mark))?;
    'items: for item in checkpoint {
        entries.push(Entry::Kept(item))?;
    }
    Ok(entries)
}

/// The entries of items behind a checkpoint.
pub fn behind_all<T: Drop>(alloc: Global, items: Vec<T>) -> Result<Vec<Entry<T>>, AllocError>
    ensures { IfOk result (λ entries. entries.items ≡ map BehindOf items.items) }
{
    let mut entries = Vec::new(alloc);
    'items: for item in items {
        entries.push(Entry::Behind(item))?;
    }
    Ok(entries)
}

/// The generation of entries; None where they are none.
pub fn take_apart<T: Drop>(
    alloc: Global,
    entries: Vec<Entry<T>>,
) -> Result<Option<Taken<T>>, AllocError>
    ensures some { IfOk result (λ found. IfSome found (λ g. entries.items ≡ generation g.mark g.checkpoint.items g.behind.items)) }
    ensures none { IfOk result (λ found. IsNone found → (mark : MarkOf) (checkpoint behind : List T) → entries.items ≡ generation mark checkpoint behind → ⊥) }
{
    let mut rest = entries.into_iter();
    let Some(Entry::Generation(mark)) = rest.next() else {
        return Ok(None);
    };
    let mut checkpoint = Vec::new(alloc);
    let mut behind = Vec::new(alloc);
    'entries: for entry in rest {
        match entry {
            Entry::Generation(_) => return Ok(None),
            Entry::Kept(item) => {
                if !behind.is_empty() {
                    return Ok(None);
                }
                checkpoint.push(item)?;
            }
            Entry::Behind(item) => behind.push(item)?,
        }
    }
    Ok(Some(Taken {
        mark,
        checkpoint,
        behind,
    }))
}

/// How long a file is that has this checkpoint and no items behind it, in bytes.
pub fn checkpoint_size<T: Item>(
    alloc: Global,
    mark: Mark,
    checkpoint: &[T],
) -> Result<u64, AllocError>
    ensures { IfOk result (λ size. size ≡ size_of T.spelled (generation mark checkpoint.now []) + 1) }
{
    let mut out = Vec::new(alloc);
    for item in checkpoint {
        out.push(1)?;
        out.push(1)?;
        item.spell(&mut out)?;
    }
    Ok(out.len() as u64 + 11)
}
