// What stands in a file.
ghost use Rattle.std.specs.Prelude.{◌≡◌, ◌++◌, ◌∷◌, ℕ, List, length, drop, Some, IfOk, IfSome, OnOk};
ghost use Rattle.journal_pair.specs.Numbers.{IsFront};
ghost use Rattle.journal_pair.specs.Entries.{entry_bytes};

use crate::Mark;
use journal_file::Item;
use std::alloc::{AllocError, Global};

/// An entry of a file: the number of its generation, an item of its checkpoint, or an item behind that.
#[derive(Drop)]
pub enum Entry<T> {
    Generation(Mark),
    Kept(T),
    Behind(T),
}

// The entry with this tag and with whose bytes these begin behind it, and how many it has.
fn read_tagged<T: Item>(
    alloc: Global,
    tag: u8,
    bytes: &[u8],
) -> Result<Option<(Entry<T>, usize)>, AllocError>
    ensures { IfOk result (IsFront (entry_bytes T.spelled) (tag ∷ bytes.now)) }
{
    match tag {
        0 => match Mark::read(bytes) {
            Some((mark, count)) => Ok(Some((Entry::Generation(mark), 1 + count))),
            None => Ok(None),
        },
        1 => match T::read(alloc, bytes)? {
            Some((item, count)) => Ok(Some((Entry::Kept(item), 1 + count))),
            None => Ok(None),
        },
        2 => match T::read(alloc, bytes)? {
            Some((item, count)) => Ok(Some((Entry::Behind(item), 1 + count))),
            None => Ok(None),
        },
        _ => Ok(None),
    }
}

impl<T: Item> Item for Entry<T> {
    ghost use Rattle.journal_pair.specs.Entries.{entry_bytes};

    ghost spelled = { entry_bytes T.spelled };

    fn spell(&self, out: &mut Vec<u8>) -> Result<(), AllocError> {
        match self {
            Entry::Generation(mark) => {
                out.push(0)?;
                out.extend_from_slice(&mark.bytes())
            }
            Entry::Kept(item) => {
                out.push(1)?;
                item.spell(out)
            }
            Entry::Behind(item) => {
                out.push(2)?;
                item.spell(out)
            }
        }
    }

    fn read(alloc: Global, bytes: &[u8]) -> Result<Option<(Self, usize)>, AllocError> {
        if bytes.is_empty() {
            return Ok(None);
        }
        read_tagged(alloc, bytes[0], &bytes[1..])
    }
}
