// The updates of a transaction, as a list that copies can share.
ghost use Rattle.std.specs.Prelude.{◌≡◌, ◌==◌, [], ◌∷◌, ◌++◌, length, IfOk, IfErr, OnOk, OnErr};
ghost use Rattle.tx_core.specs.Updates.{listed};

use crate::tx::Update;
use std::alloc::{AllocError, Global};
use std::marker::Model;
use std::sync::Arc;

/// Where updates stand: in a list of one owner, or in one that copies share.
#[derive(Drop)]
pub enum Items {
    Own(Vec<Update>),
    Shared(Arc<Vec<Update>>),
}

/// The updates of a transaction in their order, seen as their list. Once they are shared, copies are one list in memory.
#[derive(Drop)]
pub struct Updates {
    items: Items,
}

impl Model for Updates {
    ghost use Rattle.std.specs.Prelude.{List};
    ghost use Rattle.tx_core.specs.declared.tx.Update.{Update};
    ghost use Rattle.tx_core.specs.Updates.{listed};

    ghost Value = { List Update };

    ghost view = { λ u. listed u.items };
}

impl Updates {
    /// No updates. It takes no memory.
    pub fn new(alloc: Global) -> Self
        ensures { result ≡ [] }
    {
        Updates {
            items: Items::Own(Vec::new(alloc)),
        }
    }

    /// The updates of a list. It takes no memory.
    pub fn from_vec(list: Vec<Update>) -> Self
        ensures { result ≡ list.items }
    {
        Updates {
            items: Items::Own(list),
        }
    }

    /// Puts an update behind the others; those that are shared are copied before. Nothing changes where memory is refused.
    pub fn push(&mut self, update: Update) -> Result<(), AllocError>
        ensures ok { OnOk result (self.new ≡ self.old ++ update ∷ []) }
        ensures err { OnErr result (self.new ≡ self.old) }
    {
        match &mut self.items {
            Items::Own(items) => items.push(update)?,
            Items::Shared(shared) => {
                let alloc = *shared.allocator();
                let mut items = shared.as_slice().to_vec(alloc)?;
                items.push(update)?;
                self.items = Items::Own(items);
            }
        }
        Ok(())
    }

    /// Has copies share the updates. An `Err` gives them back as they were.
    pub fn share(self) -> Result<Updates, Updates>
        ensures ok { IfOk result (λ shared. shared ≡ self) }
        ensures err { IfErr result (λ same. same ≡ self) }
    {
        match self.items {
            Items::Own(items) => {
                let alloc = *items.allocator();
                match Arc::new(alloc, items) {
                    Ok(items) => Ok(Updates {
                        items: Items::Shared(items),
                    }),
                    Err(failed) => Err(Updates {
                        items: Items::Own(failed.value),
                    }),
                }
            }
            Items::Shared(items) => Ok(Updates {
                items: Items::Shared(items),
            }),
        }
    }

    /// The updates in their order.
    pub fn as_slice(&self) -> &[Update]
        ensures { result.now ≡ self.now }
    {
        match &self.items {
            Items::Own(items) => items.as_slice(),
            Items::Shared(items) => items.as_slice(),
        }
    }

    /// How many there are.
    pub fn len(&self) -> usize
        ensures { result ≡ length self.now }
    {
        self.as_slice().len()
    }

    /// Whether there is none.
    pub fn is_empty(&self) -> bool
        ensures { result ≡ (length self.now == 0) }
    {
        self.as_slice().is_empty()
    }

    /// The same updates again. Where they are shared it takes no memory.
    pub fn copy(&self) -> Result<Self, AllocError>
        ensures { IfOk result (λ copy. copy ≡ self.now) }
    {
        match &self.items {
            Items::Own(items) => Ok(Updates {
                items: Items::Own(items.clone()?),
            }),
            Items::Shared(items) => Ok(Updates {
                items: Items::Shared(Arc::try_clone(items)?),
            }),
        }
    }
}

impl Clone for Updates {
    ghost is_clone = { λ old new. new ≡ old };

    fn clone(&self) -> Result<Updates, AllocError> {
        self.copy()
    }
}
