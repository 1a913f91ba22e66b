// What clients and centres send, as values that copies share.
ghost use Rattle.std.specs.Prelude.{◌≡◌, IfOk};

use ids_core::NoMemory;
use std::alloc::{AllocError, Global};
use std::marker::Model;
use std::sync::Arc;
use tx_core::{Record, State, Tx};

/// A record that copies share, seen as the record. Nothing changes it.
#[derive(Drop)]
pub struct SharedRecord {
    item: Arc<Record>,
}

impl Model for SharedRecord {
    ghost use Rattle.std.specs.Arc.{arc_value};
    ghost use Rattle.tx_core.specs.declared.tx.Record.{Record};

    ghost Value = { Record };

    ghost view = { λ r. arc_value r.item };
}

impl SharedRecord {
    /// Has copies share a record.
    pub fn new(alloc: Global, item: Record) -> Result<SharedRecord, NoMemory>
        ensures { IfOk result (λ shared. shared ≡ item) }
    {
        Ok(SharedRecord {
            item: Arc::new(alloc, item)?,
        })
    }

    /// The record.
    pub fn as_record(&self) -> &Record
        ensures { result.now ≡ self.now }
    {
        &self.item
    }

    /// The same record again. It takes no memory.
    pub fn copy(&self) -> Result<SharedRecord, AllocError>
        ensures { IfOk result (λ copy. copy ≡ self.now) }
    {
        Ok(SharedRecord {
            item: Arc::try_clone(&self.item)?,
        })
    }
}

impl Clone for SharedRecord {
    ghost is_clone = { λ old new. new ≡ old };

    fn clone(&self) -> Result<SharedRecord, AllocError> {
        self.copy()
    }
}

/// A transaction that copies share, seen as the transaction. Nothing changes it.
#[derive(Drop)]
pub struct SharedTx {
    tx: Arc<Tx>,
}

impl Model for SharedTx {
    ghost use Rattle.std.specs.Arc.{arc_value};
    ghost use Rattle.tx_core.specs.declared.tx.Tx.{Tx};

    ghost Value = { Tx };

    ghost view = { λ t. arc_value t.tx };
}

impl SharedTx {
    /// Has copies share a transaction.
    pub fn new(alloc: Global, tx: Tx) -> Result<SharedTx, NoMemory>
        ensures { IfOk result (λ shared. shared ≡ tx) }
    {
        Ok(SharedTx {
            tx: Arc::new(alloc, tx)?,
        })
    }

    /// The transaction.
    pub fn as_tx(&self) -> &Tx
        ensures { result.now ≡ self.now }
    {
        &self.tx
    }

    /// The same transaction again. It takes no memory.
    pub fn copy(&self) -> Result<SharedTx, AllocError>
        ensures { IfOk result (λ copy. copy ≡ self.now) }
    {
        Ok(SharedTx {
            tx: Arc::try_clone(&self.tx)?,
        })
    }
}

impl Clone for SharedTx {
    ghost is_clone = { λ old new. new ≡ old };

    fn clone(&self) -> Result<SharedTx, AllocError> {
        self.copy()
    }
}

/// A state that copies share, seen as the state. Nothing changes it.
#[derive(Drop)]
pub struct SharedState {
    state: Arc<State>,
}

impl Model for SharedState {
    ghost use Rattle.std.specs.Arc.{arc_value};
    ghost use Rattle.tx_core.specs.States.{state_codes};
    ghost use Rattle.tx_core.specs.declared.state.State.{State};

    ghost Value = { State };

    ghost coded = { Prim.hlevel state_codes };

    ghost view = { λ s. arc_value s.state };
}

impl SharedState {
    /// Has copies share a state.
    pub fn new(alloc: Global, state: State) -> Result<SharedState, NoMemory>
        ensures { IfOk result (λ shared. shared ≡ state) }
    {
        Ok(SharedState {
            state: Arc::new(alloc, state)?,
        })
    }

    /// The state.
    pub fn as_state(&self) -> &State
        ensures { result.now ≡ self.now }
    {
        &self.state
    }

    /// The same state again. It takes no memory.
    pub fn copy(&self) -> Result<SharedState, AllocError>
        ensures { IfOk result (λ copy. copy ≡ self.now) }
    {
        Ok(SharedState {
            state: Arc::try_clone(&self.state)?,
        })
    }
}

impl Clone for SharedState {
    ghost is_clone = { λ old new. new ≡ old };

    fn clone(&self) -> Result<SharedState, AllocError> {
        self.copy()
    }
}

/// A record with its hops, the number of deliveries that brought it to the centre that hands it on.
#[derive(Clone, Drop)]
pub struct Sent {
    pub item: SharedRecord,
    pub hops: u8,
}

impl Sent {
    /// An equal record with equal hops. Nothing changes where memory is refused.
    pub fn copy(&self) -> Result<Sent, NoMemory>
        ensures { IfOk result (λ copy. copy ≡ self.now) }
    {
        Ok(self.clone()?)
    }
}
