// How far the lines of a script came.
ghost use Rattle.std.specs.Prelude.{◌≡◌, ◌≤◌, ◌++◌, ◌∷◌, [], length, true, Ok, Err, IfOk, OnOk};
ghost use Rattle.std.specs.Option.{option_map};
ghost use Rattle.script_reader.specs.declared.fault.Cause.{Cause as CauseOf};
ghost use Rattle.script_reader.specs.declared.reading.LineFault.TheVariants.{NoMemory as no_memory};
ghost use Rattle.script_reader.specs.Lines.{line_taken, taken};
ghost use Rattle.script_reader.specs.Readings.{header_in, is_tapped, may_do, may_set, may_stand, may_tap, nothing_read, phase_read, read_more, step_read};
ghost use Rattle.script_reader.specs.Rows.{row_behind};
ghost use Rattle.script_reader.specs.Words.{is_plain_text, texts_of, words_of};
ghost use Rattle.script_core.specs.Rows.{may_do_in_phase, may_order_in_phase, section_of};

use crate::fault::Cause;
use crate::row::{Row, row_in, row_in_cut};
use crate::taps::{is_on_tap, shows};
use crate::words::MOST_WORDS;
use dc_talk::Change;
use list_core::List;
use script_core::{
    ClientStep, Header, MOST_TAPPED, OperatorStep, Section, Sections, Step, Steps, Tapped, Taps,
};
use std::alloc::{AllocError, Global};

/// How many centres there are, and how many of them make an update stable.
#[derive(Clone, Copy)]
pub struct Group {
    /// How many centres there are, from 1 to 8.
    pub n: u8,
    /// How many of them have to know an update before it is stable, from 1 to `n`.
    pub k: u8,
}

/// What lines set, the objects that taps show, the sections of their steps, and the steps of the phase in which they end, where they end in one.
#[derive(Drop)]
pub struct Reading {
    pub centres: Option<Group>,
    pub clients: Option<u32>,
    pub cache: Option<u32>,
    pub limit: Option<u32>,
    pub threads: Option<u32>,
    pub rounds: Option<u32>,
    pub taps: Taps,
    pub sections: Sections,
    pub phase: Option<List<Step>>,
}

/// Why a line was not taken.
#[derive(Clone, Copy)]
pub enum LineFault {
    /// It is refused.
    Refused(Cause),
    /// There is no memory for its step.
    NoMemory,
}

impl From<AllocError> for LineFault {
    ghost from_gives = { λ _ e. e ≡ no_memory };

    fn from(_: AllocError) -> Self {
        LineFault::NoMemory
    }
}

impl Reading {
    /// No line was read.
    pub fn nothing(alloc: Global) -> Self
        ensures { result ≡ nothing_read }
    {
        Reading {
            centres: None,
            clients: None,
            cache: None,
            limit: None,
            threads: None,
            rounds: None,
            taps: List::new(alloc),
            sections: Sections::new(alloc),
            phase: None,
        }
    }

    /// The header, where both its lines were taken.
    pub fn header(&self) -> Option<Header>
        ensures { result ≡ header_in self.now }
    {
        match self.centres {
            Some(group) => match self.clients {
                Some(clients) => Some(Header {
                    n: group.n,
                    k: group.k,
                    clients,
                }),
                None => None,
            },
            None => None,
        }
    }

    // Whether a setting may stand here, of which this was read.
    fn may_set(&self, set: Option<u32>) -> bool
        ensures { result ≡ may_set self.now set }
    {
        self.header().is_some()
            && (self.sections.is_empty() && (self.phase.is_none() && set.is_none()))
    }

    // Whether a tap may show one more object.
    fn may_tap(&self, tapped: &Tapped) -> bool
        ensures { result ≡ may_tap self.now tapped.now }
    {
        self.may_set(None)
            && (self.taps.len() < MOST_TAPPED as usize
                && !shows(self.taps.as_slice(), tapped.centre, &tapped.object))
    }

    // Whether the tap is there that a line feeds or looks through, where it does.
    fn is_tapped(&self, row: &Row) -> bool
        ensures { result ≡ is_tapped self.now row.now }
    {
        match row {
            Row::Does(step) => is_on_tap(self.taps.as_slice(), step) || self.header().is_none(),
            _ => true,
        }
    }

    // Whether a line may stand here.
    #[tactic(auto, unfolding(crate::specs::Readings::may_stand))]
    fn may_stand(&self, row: &Row) -> bool
        ensures { result ≡ may_stand self.now row.now }
    {
        match row {
            Row::Centres { .. } => self.centres.is_none(),
            Row::Clients(_) => self.centres.is_some() && self.clients.is_none(),
            Row::Cache(_) => self.may_set(self.cache),
            Row::Limit(_) => self.may_set(self.limit),
            Row::Threads(_) => self.may_set(self.threads),
            Row::Rounds(_) => self.may_set(self.rounds),
            Row::Tap(tapped) => self.may_tap(tapped),
            Row::Does(step) => self.header().is_some() && self.may_do(step),
            Row::Phase => self.header().is_some() && self.phase.is_none(),
            Row::End => self.phase.is_some(),
        }
    }

    // Whether a step may stand in the phase that is open, or outside of all phases.
    fn may_do(&self, step: &Step) -> bool
        ensures { result ≡ may_do self.now.phase step.now }
    {
        self.phase.is_none() || may_do_in_phase(step)
    }

    // Takes what a line says.
    #[tactic(auto, unfolding(crate::specs::Readings::read_more))]
    fn take(&mut self, alloc: Global, row: &Row) -> Result<(), AllocError>
        ensures { OnOk result (self.new ≡ read_more self.old row.now) }
    {
        match row {
            Row::Centres { n, k } => self.centres = Some(Group { n: *n, k: *k }),
            Row::Clients(clients) => self.clients = Some(*clients),
            Row::Cache(objects) => self.cache = Some(*objects),
            Row::Limit(most) => self.limit = Some(*most),
            Row::Threads(most) => self.threads = Some(*most),
            Row::Rounds(rounds) => self.rounds = Some(*rounds),
            Row::Tap(tapped) => self.taps.push(*tapped)?,
            Row::Does(step) => self.take_step(alloc, step)?,
            Row::Phase => self.phase = Some(List::new(alloc)),
            Row::End => self.end_phase()?,
        }
        Ok(())
    }

    // Takes a step.
    fn take_step(&mut self, alloc: Global, step: &Step) -> Result<(), AllocError>
        ensures { OnOk result (self.new ≡ step_read self.old self.old.phase step.now) }
    {
        if self.phase.is_none() {
            self.sections.push(section(alloc, step)?)?;
            return Ok(());
        }
        // A function that lends a list of steps has to name the types that a step holds, for its proof.
        let _held: Option<(ClientStep, Change)> = None;
        push_in(&mut self.phase, *step)
    }

    // Takes the end of a phase.
    fn end_phase(&mut self) -> Result<(), AllocError>
        ensures { OnOk result (self.new ≡ phase_read self.old self.old.phase) }
    {
        if let Some(steps) = self.phase.take() {
            self.sections.push(Section {
                phase: true,
                steps: Steps::from_list(steps),
            })?;
        }
        Ok(())
    }

    /// Takes the line of this number, where it is skipped or may stand behind those that were taken.
    pub fn read(&mut self, alloc: Global, number: u32, line: &[u8]) -> Result<(), LineFault>
        ensures taken { OnOk result (line_taken self.old number line.now ≡ Ok self.new) }
        ensures refused { (why : CauseOf) → result ≡ Err (LineFault.Refused why) → line_taken self.old number line.now ≡ Err why }
    {
        let mut row = Row::Phase;
        let found = row_in(self.header(), number, line, &mut row);
        self.keep(alloc, found, &row)
    }

    /// The same of a line that has such bytes alone as one has that is not skipped, and that was cut into these words.
    pub(crate) fn read_cut(
        &mut self,
        alloc: Global,
        number: u32,
        line: &[u8],
        words: &[&[u8]],
    ) -> Result<(), LineFault>
        requires plain { is_plain_text line.now ≡ true }
        requires few { length words.now ≤ MOST_WORDS }
        requires words { texts_of words.now ≡ words_of line.now }
        ensures taken { OnOk result (line_taken self.old number line.now ≡ Ok self.new) }
        ensures refused { (why : CauseOf) → result ≡ Err (LineFault.Refused why) → line_taken self.old number line.now ≡ Err why }
    {
        let mut row = Row::Phase;
        let found = row_in_cut(self.header(), number, line, words, &mut row);
        self.keep(alloc, found, &row)
    }

    // Takes what was found in a line with this row in its place, where it is skipped or may stand here.
    fn keep(
        &mut self,
        alloc: Global,
        found: Result<bool, Cause>,
        row: &Row,
    ) -> Result<(), LineFault>
        ensures taken { OnOk result (taken self.old (row_behind found row.now) ≡ Ok self.new) }
        ensures refused { (why : CauseOf) → result ≡ Err (LineFault.Refused why) → taken self.old (row_behind found row.now) ≡ Err why }
    {
        match found {
            Ok(true) => {
                if !self.is_tapped(row) {
                    return Err(LineFault::Refused(Cause::Range));
                }
                if !self.may_stand(row) {
                    return Err(LineFault::Refused(Cause::Place));
                }
                self.take(alloc, row)?;
                Ok(())
            }
            Ok(false) => Ok(()),
            Err(why) => Err(LineFault::Refused(why)),
        }
    }
}

// Whether a step of the operator may stand in a phase.
fn may_order_in_phase(step: &OperatorStep) -> bool
    ensures { result ≡ may_order_in_phase step.now }
{
    !matches!(step, OperatorStep::Link { .. } | OperatorStep::Settle)
}

// Whether a step may stand in a phase.
fn may_do_in_phase(step: &Step) -> bool
    ensures { result ≡ may_do_in_phase step.now }
{
    match step {
        Step::Client { .. } => true,
        Step::Operator { step } => may_order_in_phase(step),
    }
}

// Puts an item behind a list, where there is one.
fn push_in<T: Drop>(list: &mut Option<List<T>>, item: T) -> Result<(), AllocError>
    ensures { OnOk result (list.new ≡ option_map (λ items. items ++ item ∷ []) list.old) }
{
    if let Some(items) = list {
        items.push(item)?;
    }
    Ok(())
}

// A step as a section of its own.
fn section(alloc: Global, step: &Step) -> Result<Section, AllocError>
    ensures { IfOk result (λ section. section ≡ section_of step.now) }
{
    let steps = Steps::one(alloc, step)?;
    Ok(Section {
        phase: false,
        steps,
    })
}
