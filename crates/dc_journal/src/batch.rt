// Asks that were answered and are not in a journal yet.
ghost use Rattle.std.specs.Prelude.{◌≡◌, ◌+◌, ◌<◌, ◌++◌, [], ◌∷◌, length, vec_len, vec_capacity, IfOk, OnOk};
ghost use Rattle.journal_file.specs.Journal.{opened};

use dc_talk::Say;
use journal_file::Item;
use std::alloc::{AllocError, Global};

/// The replies to some asks, the items that stand for those asks that are kept, and the bytes of these behind open gates,
/// with room for one gate more.
#[derive(Drop)]
pub struct Batch<T: Item> {
    pub says: Vec<Say>,
    pub kept: Vec<T>,
    pub out: Vec<u8>,
    ghost bytes: { out.items ≡ opened T.spelled kept.items },
    ghost room: { vec_len out < vec_capacity out },
}

impl<T: Item> Batch<T> {
    /// Nothing was asked yet.
    pub fn new(alloc: Global) -> Result<Batch<T>, AllocError>
        ensures says { IfOk result (λ b. b.says.items ≡ []) }
        ensures kept { IfOk result (λ b. b.kept.items ≡ []) }
    {
        Ok(Batch {
            says: Vec::new(alloc),
            kept: Vec::new(alloc),
            out: Vec::with_capacity(alloc, 1)?,
        })
    }

    /// Takes room for a reply, and for an item with these bytes.
    pub fn reserve(&mut self, bytes: &[u8]) -> Result<(), AllocError>
        ensures says { self.new.says.items ≡ self.old.says.items }
        ensures kept { self.new.kept.items ≡ self.old.kept.items }
        ensures room { OnOk result ((vec_len self.new.says < vec_capacity self.new.says) × (vec_len self.new.kept < vec_capacity self.new.kept) × (vec_len self.new.out + length bytes.now < vec_capacity self.new.out)) }
    {
        self.says.reserve(1)?;
        self.kept.reserve(1)?;
        self.out.reserve(bytes.len() + 1)
    }

    /// Puts the reply to an ask that is not kept behind the others.
    pub fn push(&mut self, say: Say)
        requires { vec_len self.old.says < vec_capacity self.old.says }
        ensures says { self.new.says.items ≡ self.old.says.items ++ say ∷ [] }
        ensures kept { self.new.kept.items ≡ self.old.kept.items }
    {
        self.says.push_reserved(say);
    }

    /// Puts the reply to one that is kept behind the others, and its item with its bytes.
    pub fn push_kept(&mut self, say: Say, item: T, bytes: &[u8])
        requires room { (vec_len self.old.says < vec_capacity self.old.says) × (vec_len self.old.kept < vec_capacity self.old.kept) × (vec_len self.old.out + length bytes.now < vec_capacity self.old.out) }
        requires bytes { bytes.now ≡ 1 ∷ T.spelled item }
        ensures says { self.new.says.items ≡ self.old.says.items ++ say ∷ [] }
        ensures kept { self.new.kept.items ≡ self.old.kept.items ++ item ∷ [] }
    {
        self.says.push_reserved(say);
        self.kept.push_reserved(item);
        let _done = self.out.extend_from_slice(bytes);
    }
}

/// The bytes of an item behind an open gate.
pub fn entry_of<T: Item>(alloc: Global, item: &T) -> Result<Vec<u8>, AllocError>
    ensures { IfOk result (λ bytes. bytes.items ≡ 1 ∷ T.spelled item.now) }
{
    let mut bytes = Vec::new(alloc);
    bytes.push(1)?;
    item.spell(&mut bytes)?;
    Ok(bytes)
}
