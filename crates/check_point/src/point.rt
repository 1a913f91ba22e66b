// What was folded up to a vector.
ghost use Rattle.std.specs.Prelude.{◌≡◌, ◌≤◌, ◌+◌, ◌++◌, [], List, All, length, IfOk, OnOk, OnErr};
ghost use Rattle.ids_core.specs.declared.limits.TheConstants.{MOST_CENTRES};
ghost use Rattle.vv_core.specs.Vectors.{zeros, Covers};
ghost use Rattle.tx_core.specs.declared.tx.Tx.{Tx as TxOf};
ghost use Rattle.check_point.specs.Points.{state_of, number_of, IsPointOf, HasFewUpdates};
ghost use Rattle.check_point.specs.declared.part.PointParts.{PointParts as PartsOf};
ghost use Rattle.check_point.specs.PointParts.{AreParts, ArePartsOf};

use crate::numbers::{NumberTable, number_at, raised_numbers};
use crate::part::PointParts;
use crate::parts::{number_parts, numbers_of, state_parts, states_of};
use crate::states::{States, changed_states, copy_of};
use crate::tables::put_over;
use ids_core::{NoMemory, ObjectId};
use indexmap::IndexMap;
use std::alloc::Global;
use std::marker::Model;
use tx_core::{State, Tx};
use vv_core::Vector;

/// The states of all objects after the transactions within a vector, with the greatest number of each
/// client's transactions among them, and how many they are. The transactions themselves are not kept.
/// (Zawirski and others, Middleware 2015: checkpoints.)
#[derive(Drop)]
pub struct Point {
    vector: Vector,
    states: States,
    numbers: NumberTable,
    folded: u64,
}

impl Model for Point {
    ghost use Rattle.tx_core.specs.States.{state_codes};
    ghost use Rattle.check_point.specs.Points.{PointView};

    ghost Value = { PointView };

    ghost coded = { Prim.hlevel state_codes };

    ghost view = { λ p. record { vector = p.vector; states = p.states.entries; numbers = p.numbers.entries; folded = p.folded } };
}

impl Point {
    /// The point among `n` centres at which nothing is folded.
    pub fn new(alloc: Global, n: u8) -> Result<Point, NoMemory>
        requires { (1 ≤ n) × (n ≤ MOST_CENTRES) }
        ensures vector { IfOk result (λ point. point.vector ≡ zeros n) }
        ensures empty { IfOk result (λ point. IsPointOf point []) }
    {
        Ok(Point {
            vector: Vector::zero(n),
            states: IndexMap::new(alloc),
            numbers: IndexMap::new(alloc),
            folded: 0,
        })
    }

    /// The vector within which all was folded.
    pub fn vector(&self) -> Vector
        ensures { result ≡ self.now.vector }
    {
        self.vector
    }

    /// The state of an object: the empty one of its kind where no operation on it was folded. Time: a
    /// look-up, and a copy of the state.
    pub fn state(&self, alloc: Global, object: &ObjectId) -> Result<State, NoMemory>
        ensures { IfOk result (λ state. state ≡ state_of self.now object.now) }
    {
        copy_of(&self.states, alloc, object)
    }

    /// The greatest number of a client's transactions that were folded, 0 where none was.
    pub fn number(&self, client: u32) -> u64
        ensures { result ≡ number_of self.now client }
    {
        number_at(&self.numbers, client)
    }

    /// How many transactions were folded.
    pub fn folded(&self) -> u64
        ensures { result ≡ self.now.folded }
    {
        self.folded
    }

    /// Folds transactions of at most `MOST_UPDATES` updates each, and goes on to a vector that covers the
    /// one before. An operation of another kind than its object changes nothing. An `Err` leaves all as
    /// it was. Time: linear in the operations and in the states that they change.
    pub fn advance(&mut self, alloc: Global, to: &Vector, txs: &[Tx]) -> Result<(), NoMemory>
        requires width { length to.now ≡ length self.old.vector }
        requires covers { Covers to.now self.old.vector }
        requires updates { All HasFewUpdates txs.now }
        ensures vector { OnOk result (self.new.vector ≡ to.now) }
        ensures count { OnOk result (self.new.folded ≡ self.old.folded + length txs.now) }
        ensures more { OnOk result ((given : List TxOf) → IsPointOf self.old given → IsPointOf self.new (given ++ txs.now)) }
        ensures err { OnErr result (self.new ≡ self.old) }
    {
        let Some(folded) = self.folded.checked_add(txs.len() as u64) else {
            return Err(NoMemory);
        };
        let changed = changed_states(&self.states, alloc, txs)?;
        let raised = raised_numbers(&self.numbers, alloc, txs)?;
        self.states.reserve(changed.len())?;
        self.numbers.reserve(raised.len())?;
        put_over(&mut self.states, changed);
        put_over(&mut self.numbers, raised);
        self.vector = *to;
        self.folded = folded;
        Ok(())
    }
    /// What the point keeps, ascending by client and by object. No other parts are that. Time: a copy of all
    /// states, and a sort of the objects and of the clients.
    pub fn parts(&self, alloc: Global) -> Result<PointParts, NoMemory>
        ensures parts { IfOk result AreParts }
        ensures told { IfOk result (ArePartsOf self.now) }
        ensures only { IfOk result (λ parts. (others : PartsOf) → AreParts others → ArePartsOf self.now others → others ≡ parts) }
    {
        Ok(PointParts {
            vector: self.vector,
            folded: self.folded,
            numbers: number_parts(&self.numbers, alloc)?,
            states: state_parts(&self.states, alloc)?,
        })
    }

    /// The point of which these are the parts. Time: linear in them.
    pub fn of_parts(alloc: Global, parts: PointParts) -> Result<Point, NoMemory>
        requires { AreParts parts }
        ensures { IfOk result (λ point. ArePartsOf point parts) }
    {
        Ok(Point {
            vector: parts.vector,
            states: states_of(alloc, parts.states)?,
            numbers: numbers_of(alloc, parts.numbers)?,
            folded: parts.folded,
        })
    }
}
