// The register.
ghost use Rattle.std.specs.Prelude.{◌≡◌, List, Option, None, IsOk};
ghost use Rattle.ids_core.specs.declared.ids.Mark.{Mark};
ghost use Rattle.ids_core.specs.Kinds.{Distinct};
ghost use Rattle.obj_register.specs.declared.register.RegisterOp.{RegisterOp};
ghost use Rattle.obj_register.specs.Registers.{step, IsStateOf, word_of};

use ids_core::{Kind, Mark, Name, NoMemory};
use std::alloc::Global;
use std::marker::Model;

/// An operation on a register: it writes a word.
#[derive(Clone, Copy)]
pub struct RegisterOp {
    pub word: Name,
}

/// The state of a register, seen as the write with the greatest mark, or none (Shapiro and others,
/// INRIA RR-7506: the last-writer-wins register). No call on it takes memory.
#[derive(Clone, Copy)]
pub struct RegisterState {
    last: Option<(Mark, RegisterOp)>,
}

impl Model for RegisterState {
    ghost use Rattle.std.specs.Prelude.{Option};
    ghost use Rattle.ids_core.specs.declared.ids.Mark.{Mark};
    ghost use Rattle.obj_register.specs.declared.register.RegisterOp.{RegisterOp};

    ghost Value = { Option (Mark × RegisterOp) };

    ghost view = { λ s. s.last };

    ghost inverse = { λ last. record { last = last } };
}

impl RegisterState {
    /// The state of a register of which that is the write with the greatest mark, or none.
    pub fn of_last(last: Option<(Mark, RegisterOp)>) -> RegisterState
        ensures { result ≡ last }
    {
        RegisterState { last }
    }

    /// The write with the greatest mark; none where nothing was written.
    pub fn last(&self) -> Option<(Mark, RegisterOp)>
        ensures { result ≡ self.now }
    {
        self.last
    }

    /// The word of the write with the greatest mark; none where nothing was written.
    pub fn value(&self) -> Option<Name>
        ensures { result ≡ word_of self.now }
    {
        match &self.last {
            Some((_, op)) => Some(op.word),
            None => None,
        }
    }
}

impl Kind for RegisterState {
    ghost use Rattle.std.specs.Prelude.{None};
    ghost use Rattle.obj_register.specs.Registers.{step, IsStateOf};
    ghost use Rattle.obj_register.specs.Laws.{step_commutes, fold-step_defined};

    type Op = RegisterOp;

    type State = RegisterState;

    ghost start = { None };

    ghost step = { step };

    ghost is_state_of = { IsStateOf };

    fn empty(_: Global) -> Result<RegisterState, NoMemory>
        ensures { result ≡ Ok None }
    {
        Ok(RegisterState { last: None })
    }

    fn fold(state: &mut RegisterState, mark: &Mark, op: &RegisterOp) -> Result<(), NoMemory>
        ensures ok { IsOk result }
        ensures state { state.new ≡ step state.old (mark.now, op.now) }
    {
        let is_greater = match &state.last {
            Some((last, _)) => *last < *mark,
            None => true,
        };
        if is_greater {
            state.last = Some((*mark, *op));
        }
        Ok(())
    }

    fn copy(state: &RegisterState) -> Result<RegisterState, NoMemory>
        ensures { result ≡ Ok state.now }
    {
        Ok(*state)
    }

    ghost commutes = { step_commutes };

    ghost defined = { fold-step_defined };
}

/// Operations with different identifiers have one state: the greatest write is one.
pub fn law_register()
    ensures { (ops : List (Mark × RegisterOp)) (a b : Option (Mark × RegisterOp)) → Distinct ops → IsStateOf ops a → IsStateOf ops b → a ≡ b }
{}
