// The steps of a section.
ghost use Rattle.std.specs.Prelude.{◌≡◌, ◌==◌, [], ◌∷◌, length, IfOk, IfSome};
ghost use Rattle.script_core.specs.StepLists.{call_short, step_short, steps_seen};

use crate::steps::{AskFault, ClientStep, OperatorStep, Step};
use list_core::List;
use std::alloc::{AllocError, Global};
use std::marker::Model;

/// Steps in their order, seen as their list. A step alone that names no object takes no memory beside them, so that
/// the sections of a long script are small.
#[derive(Drop)]
pub struct Steps {
    kept: Kept,
}

// One short step, or a list.
#[derive(Drop)]
enum Kept {
    One(ShortStep),
    Many(Vec<Step>),
}

// A step that names no object.
#[derive(Clone, Copy)]
enum ShortStep {
    Client { client: u32, call: ShortCall },
    Operator { step: OperatorStep },
}

// What a client does in such a step.
#[derive(Clone, Copy)]
enum ShortCall {
    Connect { centre: u8 },
    Begin,
    Commit,
    Abort,
    Push,
    Flush,
    Refresh,
    Again { centre: u8, number: u64 },
    Arm { fault: AskFault },
}

/// The steps of a section, as they are read from it.
#[derive(Clone, Copy)]
pub enum StepsSeen<'a> {
    /// One step.
    One(Step),
    /// Steps in their order, of which there may be one.
    Many(&'a [Step]),
}

impl Model for Steps {
    ghost use Rattle.std.specs.Prelude.{List};
    ghost use Rattle.script_core.specs.declared.steps.Step.{Step};

    ghost Value = { List Step };

    ghost use Rattle.script_core.specs.StepLists.{steps_kept};

    ghost view = { λ s. steps_kept s.kept };
}

impl Steps {
    /// One step. It takes memory for a step that names an object alone.
    pub fn one(alloc: Global, step: &Step) -> Result<Steps, AllocError>
        ensures { IfOk result (λ steps. steps ≡ step.now ∷ []) }
    {
        let kept = match short_step(step) {
            Some(short) => Kept::One(short),
            None => Kept::Many(vec![in alloc; *step]?),
        };
        Ok(Steps { kept })
    }

    /// The steps of a list. It takes no memory.
    pub fn from_list(steps: List<Step>) -> Steps
        ensures { result ≡ steps }
    {
        Steps {
            kept: Kept::Many(steps.into_vec()),
        }
    }

    /// The steps in their order.
    pub fn seen(&self) -> StepsSeen<'_>
        ensures { steps_seen result ≡ self.now }
    {
        match &self.kept {
            Kept::One(short) => StepsSeen::One(full_step(short)),
            Kept::Many(steps) => StepsSeen::Many(steps.as_slice()),
        }
    }

    /// How many there are.
    pub fn len(&self) -> usize
        ensures { result ≡ length self.now }
    {
        match &self.kept {
            Kept::One(_) => 1,
            Kept::Many(steps) => steps.len(),
        }
    }

    /// Whether there is none.
    pub fn is_empty(&self) -> bool
        ensures { result ≡ (length self.now == 0) }
    {
        self.len() == 0
    }
}

// The step as one that names no object, where it names none.
fn short_step(step: &Step) -> Option<ShortStep>
    ensures { IfSome result (λ short. step_short short ≡ step.now) }
{
    match step {
        Step::Client { client, step } => match short_call(step) {
            Some(call) => Some(ShortStep::Client {
                client: *client,
                call,
            }),
            None => None,
        },
        Step::Operator { step } => Some(ShortStep::Operator { step: *step }),
    }
}

// What a client does in a step, where it names no object.
fn short_call(step: &ClientStep) -> Option<ShortCall>
    ensures { IfSome result (λ call. call_short call ≡ step.now) }
{
    match step {
        ClientStep::Connect { centre } => Some(ShortCall::Connect { centre: *centre }),
        ClientStep::Begin => Some(ShortCall::Begin),
        ClientStep::Commit => Some(ShortCall::Commit),
        ClientStep::Abort => Some(ShortCall::Abort),
        ClientStep::Push => Some(ShortCall::Push),
        ClientStep::Flush => Some(ShortCall::Flush),
        ClientStep::Refresh => Some(ShortCall::Refresh),
        ClientStep::Again { centre, number } => Some(ShortCall::Again {
            centre: *centre,
            number: *number,
        }),
        ClientStep::Arm { fault } => Some(ShortCall::Arm { fault: *fault }),
        _ => None,
    }
}

// The step that is kept short.
fn full_step(short: &ShortStep) -> Step
    ensures { result ≡ step_short short.now }
{
    match short {
        ShortStep::Client { client, call } => Step::Client {
            client: *client,
            step: full_call(call),
        },
        ShortStep::Operator { step } => Step::Operator { step: *step },
    }
}

// What a client does in it.
fn full_call(call: &ShortCall) -> ClientStep
    ensures { result ≡ call_short call.now }
{
    match call {
        ShortCall::Connect { centre } => ClientStep::Connect { centre: *centre },
        ShortCall::Begin => ClientStep::Begin,
        ShortCall::Commit => ClientStep::Commit,
        ShortCall::Abort => ClientStep::Abort,
        ShortCall::Push => ClientStep::Push,
        ShortCall::Flush => ClientStep::Flush,
        ShortCall::Refresh => ClientStep::Refresh,
        ShortCall::Again { centre, number } => ClientStep::Again {
            centre: *centre,
            number: *number,
        },
        ShortCall::Arm { fault } => ClientStep::Arm { fault: *fault },
    }
}
