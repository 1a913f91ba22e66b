// Lists of what has bytes.
ghost use Rattle.std.specs.Prelude.{◌≡◌, ◌↔◌, ◌++◌, All, OnOk, Err, IsTrue};
ghost use Rattle.std.specs.List.{flat_map};
ghost use Rattle.state_codec.specs.declared.writing.NotPut.TheVariants.{Unfit};
ghost use Rattle.state_codec.specs.Spelling.{list_bytes};
ghost use Rattle.state_codec.specs.Reading.{Gives, times_at};
ghost use Rattle.parts_codec.specs.Spelling.{IsSpelledList};
ghost use Rattle.parts_codec.specs.Reading.{list_at};

use crate::spell::Spell;
use list_core::List;
use state_codec::{NotPut, Stop};
use std::alloc::Global;

impl<T: Spell> Spell for List<T> {
    ghost has_bytes = { IsSpelledList T.has_bytes };

    ghost spelled = { list_bytes T.spelled };

    ghost reading = { list_at T.reading };

    fn fits(&self) -> bool {
        let items = self.as_slice();
        let _count = items.len();
        each_fits(items)
    }

    fn put(&self, out: &mut Vec<u8>) -> Result<(), NotPut> {
        let items = self.as_slice();
        (items.len() as u64).put(out)?;
        put_each(out, items)
    }

    #[tactic(auto, unfolding(crate::specs::Reading::list_at))]
    fn at(alloc: Global, bytes: &[u8]) -> Result<(Self, &[u8]), Stop> {
        let (count, rest) = u64::at(alloc, bytes)?;
        let (items, rest) = found!(some_at::<T>(alloc, count, rest));
        Ok((List::from_vec(items), rest))
    }
}

/// Whether each has bytes.
pub fn each_fits<T: Spell>(items: &[T]) -> bool
    ensures { IsTrue result ↔ All T.has_bytes items.now }
{
    items.iter().all(|item| item.fits())
}

/// Puts the bytes of each behind others, as `Spell::put` does.
pub fn put_each<T: Spell>(out: &mut Vec<u8>, items: &[T]) -> Result<(), NotPut>
    ensures ok { OnOk result (out.new.items ≡ out.old.items ++ flat_map T.spelled items.now) }
    ensures fits { OnOk result (All T.has_bytes items.now) }
    ensures unfit { result ≡ Err Unfit → All T.has_bytes items.now → ⊥ }
{
    for item in items {
        item.put(out)?;
    }
    Ok(())
}

// So many one behind the other.
fn some_at<T: Spell>(alloc: Global, count: u64, bytes: &[u8]) -> Result<(Vec<T>, &[u8]), Stop>
    ensures { Gives (λ x. (x.0.items, x.1.now)) result (times_at T.reading count bytes.now) }
{
    let mut list = Vec::new(alloc);
    let mut rest = bytes;
    for _ in 0..count {
        let (item, behind) = found!(T::at(alloc, rest));
        list.push(item)?;
        rest = behind;
    }
    Ok((list, rest))
}
