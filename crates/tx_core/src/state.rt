// The states of objects, by kind.
ghost use Rattle.std.specs.Prelude.{◌≡◌, [], IfOk, OnOk, OnErr};
ghost use Rattle.tx_core.specs.States.{empty_of, step, value_of, tags_of, sort_of};

use crate::names::{NamePairs, Names};
use crate::op::Op;
use ids_core::{Kind, Mark, Name, NoMemory, Sort, Tags};
use obj_counter::{CounterOp, CounterState};
use obj_map::MapState;
use obj_register::{RegisterOp, RegisterState};
use obj_set::SetState;
use std::alloc::{AllocError, Global};

/// The state of an object.
#[derive(Drop)]
pub enum State {
    /// The state of a counter.
    Counter(CounterState),
    /// The state of a register.
    Register(RegisterState),
    /// The state of a set.
    Set(SetState),
    /// The state of a map.
    Map(MapState),
}

/// What a read of an object gives.
#[derive(Drop)]
pub enum Value {
    /// The sum of a counter.
    Number(i128),
    /// The word of a register, or none where nothing was written.
    Word(Option<Name>),
    /// The words of a set, ascending.
    Words(Names),
    /// The keys of a map, each with its word, by ascending key.
    Pairs(NamePairs),
}

impl State {
    /// The state of an object of that kind before any operation.
    pub fn empty(alloc: Global, sort: Sort) -> Result<State, NoMemory>
        ensures { IfOk result (λ state. state ≡ empty_of sort) }
    {
        match sort {
            Sort::Counter => Ok(State::Counter(CounterState::empty(alloc)?)),
            Sort::Register => Ok(State::Register(RegisterState::empty(alloc)?)),
            Sort::Set => Ok(State::Set(SetState::empty(alloc)?)),
            Sort::Map => Ok(State::Map(MapState::empty(alloc)?)),
        }
    }

    /// Takes in one operation under its mark; one of another kind changes nothing. An `Err` leaves the
    /// state as it was.
    pub fn fold(&mut self, mark: &Mark, op: &Op) -> Result<(), NoMemory>
        ensures ok { OnOk result (self.new ≡ step self.old (mark.now, op.now)) }
        ensures err { OnErr result (self.new ≡ self.old) }
    {
        match self {
            State::Counter(sum) => match op {
                Op::Inc { delta } => CounterState::fold(sum, mark, &CounterOp { delta: *delta }),
                _ => Ok(()),
            },
            State::Register(last) => match op {
                Op::Write { word } => RegisterState::fold(last, mark, &RegisterOp { word: *word }),
                _ => Ok(()),
            },
            State::Set(set) => match op {
                Op::Add { word, over } => set.change(mark, true, word, over),
                Op::Remove { word, over } => set.change(mark, false, word, over),
                _ => Ok(()),
            },
            State::Map(map) => match op {
                Op::Put { key, word, over } => map.change(mark, key, Some(*word), over),
                Op::Erase { key, over } => map.change(mark, key, None, over),
                _ => Ok(()),
            },
        }
    }

    /// What a read gives.
    pub fn value(&self, alloc: Global) -> Result<Value, NoMemory>
        ensures { IfOk result (λ value. value ≡ value_of self.now) }
    {
        match self {
            State::Counter(sum) => Ok(Value::Number(sum.value())),
            State::Register(last) => Ok(Value::Word(last.value())),
            State::Set(set) => Ok(Value::Words(Names::from_vec(alloc, set.value(alloc)?)?)),
            State::Map(map) => Ok(Value::Pairs(NamePairs::from_vec(alloc, map.value(alloc)?)?)),
        }
    }

    /// The live identifiers of a word or key: none for counters and registers.
    pub fn tags_of(&self, alloc: Global, word: &Name) -> Result<Tags, NoMemory>
        ensures { IfOk result (λ tags. tags ≡ tags_of self.now word.now) }
    {
        match self {
            State::Counter(_) => Ok(no_tags(alloc)),
            State::Register(_) => Ok(no_tags(alloc)),
            State::Set(set) => set.tags_of(alloc, word),
            State::Map(map) => map.tags_of(alloc, word),
        }
    }

    /// The kind of the object.
    pub fn sort(&self) -> Sort
        ensures { result ≡ sort_of self.now }
    {
        match self {
            State::Counter(_) => Sort::Counter,
            State::Register(_) => Sort::Register,
            State::Set(_) => Sort::Set,
            State::Map(_) => Sort::Map,
        }
    }

    /// The same state again.
    pub fn copy(&self) -> Result<State, NoMemory>
        ensures { IfOk result (λ copy. copy ≡ self.now) }
    {
        match self {
            State::Counter(sum) => Ok(State::Counter(*sum)),
            State::Register(last) => Ok(State::Register(*last)),
            State::Set(set) => Ok(State::Set(SetState::copy(set)?)),
            State::Map(map) => Ok(State::Map(MapState::copy(map)?)),
        }
    }
}

fn no_tags(alloc: Global) -> Tags
    ensures { result ≡ [] }
{
    match Tags::of(Vec::new(alloc)) {
        Ok(tags) => tags,
        Err(_) => unreachable!(),
    }
}

impl Clone for State {
    ghost is_clone = { λ old new. new ≡ old };

    fn clone(&self) -> Result<State, AllocError> {
        match self.copy() {
            Ok(state) => Ok(state),
            Err(NoMemory) => Err(AllocError),
        }
    }
}

impl Clone for Value {
    ghost is_clone = { λ old new. new ≡ old };

    fn clone(&self) -> Result<Value, AllocError> {
        match self {
            Value::Number(number) => Ok(Value::Number(*number)),
            Value::Word(word) => Ok(Value::Word(*word)),
            Value::Words(words) => Ok(Value::Words(words.clone()?)),
            Value::Pairs(pairs) => Ok(Value::Pairs(pairs.clone()?)),
        }
    }
}
