// The steps of a phase, dealt to its actors.
ghost use Rattle.std.specs.Prelude.{◌≡◌, ◌≤◌, ◌<◌, ℕ, List, ◌+◌, ◌-◌, ◌∷◌, ◌++◌, [], All, length, OnOk, IfOk, slice_get};
ghost use Rattle.ids_core.specs.declared.limits.TheConstants.{MOST_CLIENTS};
ghost use Rattle.script_core.specs.declared.steps.Step.{Step as StepOf};
ghost use Rattle.script_core.specs.declared.steps.Section.{Section as SectionOf};
ghost use Rattle.run_book.specs.Moves.{most_steps, client_steps, operator_steps};
ghost use Rattle.run_table.specs.Dealing.{IsDealt, IsOf, line_of};

use dc_talk::Change;
use ids_core::NoMemory;
use script_core::{ClientStep, OperatorStep, Section, Step, StepsSeen};
use std::alloc::Global;

/// The steps of each client, in order, and those of the operator.
#[derive(Drop)]
pub struct Dealt {
    clients: Vec<Vec<ClientStep>>,
    operator: Vec<OperatorStep>,
}

impl Dealt {
    // No steps, for so many clients.
    fn new(alloc: Global, clients: u32) -> Result<Dealt, NoMemory>
        requires { clients ≤ MOST_CLIENTS }
        ensures { IfOk result (IsDealt clients []) }
    {
        let mut lines = Vec::new(alloc);
        'clients: for _client in 0..clients {
            lines.push(Vec::new(alloc))?;
        }
        Ok(Dealt {
            clients: lines,
            operator: Vec::new(alloc),
        })
    }

    // One step more.
    fn add(&mut self, step: &Step) -> Result<(), NoMemory>
        requires { (length self.old.clients.items ≤ MOST_CLIENTS) × IsOf (length self.old.clients.items) step.now }
        ensures { OnOk result ((clients : ℕ) (steps : List StepOf) → IsDealt clients steps self.old → IsDealt clients (steps ++ step.now ∷ []) self.new) }
    {
        // It names a type that the proof of the push has to know.
        let _held: Option<Change> = None;
        match step {
            Step::Client { client, step } => {
                let line = &mut self.clients[(client - 1) as usize];
                line.push(*step)?;
            }
            Step::Operator { step } => self.operator.push(*step)?,
        }
        Ok(())
    }

    /// The step of a client with a number, counted from 1, where it has so many.
    pub fn client_step(&self, client: u32, number: u32) -> Option<ClientStep>
        requires client { (1 ≤ client) × (client ≤ length self.now.clients.items) }
        requires number { 1 ≤ number }
        ensures { result ≡ slice_get (line_of self.now client) (number - 1) }
    {
        let line = &self.clients[(client - 1) as usize];
        line.as_slice().get((number - 1) as usize).copied()
    }

    /// How many steps a client has: none where there is no such client.
    pub fn step_count(&self, client: u32) -> usize
        ensures { result ≡ length (line_of self.now client) }
    {
        match self.clients.get(client.saturating_sub(1) as usize) {
            Some(line) => line.len(),
            None => 0,
        }
    }

    /// The step of the operator with a number, counted from 1, where it has so many.
    pub fn operator_step(&self, number: u32) -> Option<OperatorStep>
        requires { 1 ≤ number }
        ensures { result ≡ slice_get self.now.operator.items (number - 1) }
    {
        self.operator.as_slice().get((number - 1) as usize).copied()
    }

    /// The steps of the operator, in order.
    pub fn operator_line(&self) -> &[OperatorStep]
        ensures { result.now ≡ self.now.operator.items }
    {
        self.operator.as_slice()
    }

    /// The most steps of one of the clients or of the operator.
    pub fn longest(&self) -> usize
        ensures { (clients : ℕ) (section : SectionOf) → IsDealt clients section.steps self.now → result ≡ most_steps clients section }
    {
        let mut most = self.operator.len();
        'clients: for line in &self.clients {
            most = most.max(line.len());
        }
        most
    }
}

/// The steps of a section, dealt to so many clients and the operator. An `Err` is want of memory.
pub fn deal(alloc: Global, clients: u32, section: &Section) -> Result<Dealt, NoMemory>
    requires few { clients ≤ MOST_CLIENTS }
    requires steps { All (IsOf clients) section.now.steps }
    ensures { IfOk result (IsDealt clients section.now.steps) }
{
    match section.steps.seen() {
        StepsSeen::One(step) => deal_all(alloc, clients, &[step]),
        StepsSeen::Many(steps) => deal_all(alloc, clients, steps),
    }
}

// These steps, dealt.
fn deal_all(alloc: Global, clients: u32, steps: &[Step]) -> Result<Dealt, NoMemory>
    requires few { clients ≤ MOST_CLIENTS }
    requires steps { All (IsOf clients) steps.now }
    ensures { IfOk result (IsDealt clients steps.now) }
{
    let mut dealt = Dealt::new(alloc, clients)?;
    'steps: for step in steps {
        dealt.add(step)?;
    }
    Ok(dealt)
}
