// Identifiers in their order, as a list that copies can share.
ghost use Rattle.std.specs.Prelude.{◌≡◌, ◌↔◌, IfOk, IfErr, IsOk};
ghost use Rattle.ids_core.specs.Ascending.{IsAscending, ascends, ascends_from};

use crate::ids::OpId;
use crate::memory::NoMemory;
use std::alloc::AllocError;
use std::marker::Model;
use std::sync::Arc;

/// Where identifiers stand: in a list of one owner, or in one that copies share.
#[derive(Drop)]
pub enum TagItems {
    Own(Vec<OpId>),
    Shared(Arc<Vec<OpId>>),
}

/// Identifiers of operations, seen as their strictly ascending list. Once they are shared, copies are one list in memory.
#[derive(Drop)]
pub struct Tags {
    items: TagItems,
}

impl Model for Tags {
    ghost use Rattle.std.specs.Prelude.{List};
    ghost use Rattle.ids_core.specs.declared.ids.OpId.{OpId};
    ghost use Rattle.ids_core.specs.Ascending.{IsAscending};
    ghost use Rattle.ids_core.specs.Tags.{listed};

    ghost Value = { List OpId };

    ghost view = { λ t. listed t.items };

    ghost invariant = { λ t. IsAscending (listed t.items) };
}

impl Tags {
    /// Takes a list that strictly ascends. An `Err` says exactly that it does not, and hands it back.
    pub fn of(list: Vec<OpId>) -> Result<Tags, Vec<OpId>>
        ensures taken { IfOk result (λ tags. tags ≡ list.items) }
        ensures back { IfErr result (λ same. same ≡ list) }
        ensures exact { IsOk result ↔ IsAscending list.items }
    {
        if ascends(&list) {
            Ok(Tags {
                items: TagItems::Own(list),
            })
        } else {
            Err(list)
        }
    }

    /// Has copies share the identifiers.
    pub fn share(self) -> Result<Tags, NoMemory>
        ensures { IfOk result (λ shared. shared ≡ self) }
    {
        match self.items {
            TagItems::Own(list) => {
                let alloc = *list.allocator();
                Ok(Tags {
                    items: TagItems::Shared(Arc::new(alloc, list)?),
                })
            }
            TagItems::Shared(list) => Ok(Tags {
                items: TagItems::Shared(list),
            }),
        }
    }

    /// The identifiers in their order.
    pub fn as_slice(&self) -> &[OpId]
        ensures value { result.now ≡ self.now }
        ensures ascending { IsAscending result.now }
    {
        match &self.items {
            TagItems::Own(list) => list.as_slice(),
            TagItems::Shared(list) => list.as_slice(),
        }
    }

    /// The same identifiers again. Where they are shared it takes no memory.
    pub fn copy(&self) -> Result<Tags, NoMemory>
        ensures { IfOk result (λ copy. copy ≡ self.now) }
    {
        Ok(self.clone()?)
    }
}

impl Clone for Tags {
    ghost is_clone = { λ old new. new ≡ old };

    fn clone(&self) -> Result<Tags, AllocError> {
        match &self.items {
            TagItems::Own(list) => Ok(Tags {
                items: TagItems::Own(list.clone()?),
            }),
            TagItems::Shared(list) => Ok(Tags {
                items: TagItems::Shared(Arc::try_clone(list)?),
            }),
        }
    }
}

fn ascends(list: &[OpId]) -> bool
    ensures { result ≡ ascends list.now }
{
    match list {
        [] => true,
        [first, rest @ ..] => ascends_from(first, rest),
    }
}

// Whether the list ascends, from above an identifier.
fn ascends_from(low: &OpId, list: &[OpId]) -> bool
    ensures { result ≡ ascends_from low.now list.now }
{
    let mut last = *low;
    for id in list {
        if last >= *id {
            return false;
        }
        last = *id;
    }
    true
}
