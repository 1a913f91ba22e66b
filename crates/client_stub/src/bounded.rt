// The steps of bounded counters (Balegas and others, SRDS 2015).
ghost use Rattle.std.specs.Prelude.{◌≡◌, ℤ, pos, int_lt, List, map, IfOk, OnOk, OnErr};
ghost use Rattle.std.specs.Option.{option_map};
ghost use Rattle.obj_bounded.specs.CellNames.{IsCell, counter_of};
ghost use Rattle.dc_talk.specs.declared.line.StepWord.TheVariants as step;
ghost use Rattle.dc_talk.specs.declared.line.Line.TheVariants.{RightsValue, Short};
ghost use Rattle.dc_talk.specs.Acting.{IsCutShort, acting};
ghost use Rattle.dc_talk.specs.Doors.{DoorView};
ghost use Rattle.script_core.specs.Deeds.{AddsOwned, RightsDeeds, TakingDeeds, calls_on, cell_call, cell_inc, cell_read, cell_to, counter_of_share, last_number, number_got, rights_got};
ghost use Rattle.script_core.specs.Steps.{IsAmount, IsOtherHolder, IsShare};
ghost use Rattle.client_stub.specs.Playing.{IsLinkBehind, beside, progress};
ghost use Rattle.client_stub.specs.Errands.{GrowsBy};
ghost use Rattle.client_stub.specs.BoundedSteps.{GetsNumber, HasRead, HasReadCells, IsAdding};

use crate::calls::{change_call, read_call};
use crate::notes::tell;
use crate::stub::Stub;
use dc_talk::{Call, Change, Deed, Door, Ended, Line, Log, Note, StepWord};
use ids_core::{Name, NoMemory, ObjectId, Sort};
use obj_bounded::{cell, cells, rights};
use script_core::{ObjectCall, Share};
use std::alloc::Global;
use tx_core::Value;

/// An amount that a step adds to a cell of a share: from its holder to another one, to itself or to 0.
#[derive(Clone, Copy)]
pub struct Adding {
    pub word: StepWord,
    pub share: Share,
    pub to: u8,
    pub amount: u64,
}

impl Stub {
    // The step `grant`.
    pub(crate) fn grant<D: Door>(
        &mut self,
        alloc: Global,
        door: &mut D,
        share: &Share,
        amount: u64,
        log: &mut Log,
    ) -> Result<(), NoMemory>
        requires share { IsShare share.now }
        requires amount { IsAmount amount }
        requires behind { IsLinkBehind (D.shown door.old) self.old.client }
        ensures place { D.place door.new ≡ D.place door.old }
        ensures grows { OnOk result (GrowsBy (λ deeds. deeds ≡ calls_on self.old.client (cell_inc step.Grant share.now (cell_to share.now share.now.holder) amount)) (beside self.old (D.shown door.old) log.old) (beside self.new (D.shown door.new) log.new)) }
        ensures linked { IsLinkBehind (D.shown door.new) self.new.client }
        ensures short { OnErr result (IsCutShort (acting (D.shown door.old) log.old) (acting (D.shown door.new) log.new)) }
    {
        let granted = Adding {
            word: StepWord::Grant,
            share: *share,
            to: share.holder,
            amount,
        };
        self.add(alloc, &granted, log)?;
        Ok(())
    }

    // The step `give`.
    pub(crate) fn give<D: Door>(
        &mut self,
        alloc: Global,
        door: &mut D,
        share: &Share,
        to: u8,
        amount: u64,
        log: &mut Log,
    ) -> Result<(), NoMemory>
        requires share { IsShare share.now }
        requires to { IsOtherHolder share.now to }
        requires amount { IsAmount amount }
        requires behind { IsLinkBehind (D.shown door.old) self.old.client }
        ensures place { D.place door.new ≡ D.place door.old }
        ensures grows { OnOk result (GrowsBy (TakingDeeds (progress (beside self.old (D.shown door.old) log.old)) step.Give share.now to amount) (beside self.old (D.shown door.old) log.old) (beside self.new (D.shown door.new) log.new)) }
        ensures linked { IsLinkBehind (D.shown door.new) self.new.client }
        ensures short { OnErr result (IsCutShort (acting (D.shown door.old) log.old) (acting (D.shown door.new) log.new)) }
    {
        let given = Adding {
            word: StepWord::Give,
            share: *share,
            to,
            amount,
        };
        self.add_owned(alloc, door, &given, log)
    }

    // The step `take`.
    pub(crate) fn take<D: Door>(
        &mut self,
        alloc: Global,
        door: &mut D,
        share: &Share,
        amount: u64,
        log: &mut Log,
    ) -> Result<(), NoMemory>
        requires share { IsShare share.now }
        requires amount { IsAmount amount }
        requires behind { IsLinkBehind (D.shown door.old) self.old.client }
        ensures place { D.place door.new ≡ D.place door.old }
        ensures grows { OnOk result (GrowsBy (TakingDeeds (progress (beside self.old (D.shown door.old) log.old)) step.Take share.now 0 amount) (beside self.old (D.shown door.old) log.old) (beside self.new (D.shown door.new) log.new)) }
        ensures linked { IsLinkBehind (D.shown door.new) self.new.client }
        ensures short { OnErr result (IsCutShort (acting (D.shown door.old) log.old) (acting (D.shown door.new) log.new)) }
    {
        let taken = Adding {
            word: StepWord::Take,
            share: *share,
            to: 0,
            amount,
        };
        self.add_owned(alloc, door, &taken, log)
    }

    // The step `rights`.
    pub(crate) fn tell_rights<D: Door>(
        &mut self,
        alloc: Global,
        door: &mut D,
        share: &Share,
        log: &mut Log,
    ) -> Result<(), NoMemory>
        requires share { IsShare share.now }
        requires behind { IsLinkBehind (D.shown door.old) self.old.client }
        ensures place { D.place door.new ≡ D.place door.old }
        ensures grows { OnOk result (GrowsBy (RightsDeeds (progress (beside self.old (D.shown door.old) log.old)) share.now) (beside self.old (D.shown door.old) log.old) (beside self.new (D.shown door.new) log.new)) }
        ensures linked { IsLinkBehind (D.shown door.new) self.new.client }
        ensures short { OnErr result (IsCutShort (acting (D.shown door.old) log.old) (acting (D.shown door.new) log.new)) }
    {
        let Some(rights) = self.read_rights(alloc, door, StepWord::Rights, share, log)? else {
            return Ok(());
        };
        let client = self.session.client();
        tell(log, Some(rights_line(client, share, rights)))?;
        Ok(())
    }

    // Adds an amount to a cell of a share, where the rights by the share's cells are as much.
    fn add_owned<D: Door>(
        &mut self,
        alloc: Global,
        door: &mut D,
        adding: &Adding,
        log: &mut Log,
    ) -> Result<(), NoMemory>
        requires fits { IsAdding adding.now }
        requires behind { IsLinkBehind (D.shown door.old) self.old.client }
        ensures place { D.place door.new ≡ D.place door.old }
        ensures grows { OnOk result (GrowsBy (TakingDeeds (progress (beside self.old (D.shown door.old) log.old)) adding.now.word adding.now.share adding.now.to adding.now.amount) (beside self.old (D.shown door.old) log.old) (beside self.new (D.shown door.new) log.new)) }
        ensures linked { IsLinkBehind (D.shown door.new) self.new.client }
        ensures short { OnErr result (IsCutShort (acting (D.shown door.old) log.old) (acting (D.shown door.new) log.new)) }
    {
        match self.read_rights(alloc, door, adding.word, &adding.share, log)? {
            Some(rights) => {
                self.add_within(alloc, adding, rights, log)?;
                Ok(())
            }
            None => Ok(()),
        }
    }

    // Adds an amount to a cell of a share with these rights; where they are less than the amount, tells so.
    fn add_within(
        &mut self,
        alloc: Global,
        adding: &Adding,
        rights: i128,
        log: &mut Log,
    ) -> Result<(), NoMemory>
        requires fits { IsAdding adding.now }
        ensures adds { OnOk result ((numbers : List ℤ) → rights ≡ rights_got adding.now.share numbers → (door : DoorView) → GrowsBy (AddsOwned adding.now.word adding.now.share adding.now.to adding.now.amount numbers (progress (beside self.old door log.old))) (beside self.old door log.old) (beside self.new door log.new)) }
        ensures linked { self.new.client.link ≡ self.old.client.link }
        ensures short { (door : DoorView) → OnErr result (IsCutShort (acting door log.old) (acting door log.new)) }
    {
        if is_less(rights, adding.amount) {
            let client = self.session.client();
            tell(log, Some(short_line(client, adding, rights)))?;
            Ok(())
        } else {
            self.add(alloc, adding, log)?;
            Ok(())
        }
    }

    // Adds an amount to a cell of a share.
    fn add(&mut self, alloc: Global, adding: &Adding, log: &mut Log) -> Result<(), NoMemory>
        requires fits { IsAdding adding.now }
        ensures adds { OnOk result ((door : DoorView) → GrowsBy (λ deeds. deeds ≡ calls_on self.old.client (cell_inc adding.now.word adding.now.share (cell_to adding.now.share adding.now.to) adding.now.amount)) (beside self.old door log.old) (beside self.new door log.new)) }
        ensures linked { self.new.client.link ≡ self.old.client.link }
        ensures short { (door : DoorView) → OnErr result (IsCutShort (acting door log.old) (acting door log.new)) }
    {
        self.call(alloc, &inc_of(adding), log)?;
        Ok(())
    }

    // Reads the cells of a share. Answers its rights by them, and none where a read got no number, which ends
    // the step.
    fn read_rights<D: Door>(
        &mut self,
        alloc: Global,
        door: &mut D,
        word: StepWord,
        share: &Share,
        log: &mut Log,
    ) -> Result<Option<i128>, NoMemory>
        requires share { IsShare share.now }
        requires behind { IsLinkBehind (D.shown door.old) self.old.client }
        ensures place { D.place door.new ≡ D.place door.old }
        ensures reads { IfOk result (λ rights. HasRead word share.now rights (beside self.old (D.shown door.old) log.old) (beside self.new (D.shown door.new) log.new)) }
        ensures linked { IsLinkBehind (D.shown door.new) self.new.client }
        ensures short { OnErr result (IsCutShort (acting (D.shown door.old) log.old) (acting (D.shown door.new) log.new)) }
    {
        match self.read_cells(alloc, door, word, share, log)? {
            Some(numbers) => Ok(Some(rights(numbers.as_slice(), share.holders))),
            None => Ok(None),
        }
    }

    // Reads the cells of a share one after another. Answers the numbers that the reads got, and none where one
    // got none, which is the last.
    fn read_cells<D: Door>(
        &mut self,
        alloc: Global,
        door: &mut D,
        word: StepWord,
        share: &Share,
        log: &mut Log,
    ) -> Result<Option<Vec<i128>>, NoMemory>
        requires share { IsShare share.now }
        requires behind { IsLinkBehind (D.shown door.old) self.old.client }
        ensures place { D.place door.new ≡ D.place door.old }
        ensures reads { IfOk result (λ numbers. HasReadCells word share.now (option_map (λ numbers. numbers.items) numbers) (beside self.old (D.shown door.old) log.old) (beside self.new (D.shown door.new) log.new)) }
        ensures linked { IsLinkBehind (D.shown door.new) self.new.client }
        ensures short { OnErr result (IsCutShort (acting (D.shown door.old) log.old) (acting (D.shown door.new) log.new)) }
    {
        let names = cells(alloc, &share.name, share.holder, share.holders)?;
        let mut numbers = Vec::with_capacity(alloc, names.len())?;
        'cells: for name in &names {
            let on = cell_read(word, share, name);
            match self.read_cell(alloc, door, &on, log)? {
                Some(number) => numbers.push(number)?,
                None => return Ok(None),
            }
        }
        Ok(Some(numbers))
    }

    // Reads a cell, which is fetched where that is needed. Answers the number that it got, where it did.
    fn read_cell<D: Door>(
        &mut self,
        alloc: Global,
        door: &mut D,
        on: &ObjectCall,
        log: &mut Log,
    ) -> Result<Option<i128>, NoMemory>
        requires { IsLinkBehind (D.shown door.old) self.old.client }
        ensures place { D.place door.new ≡ D.place door.old }
        ensures gets { IfOk result (λ number. GrowsBy (GetsNumber (progress (beside self.old (D.shown door.old) log.old)) on.now number) (beside self.old (D.shown door.old) log.old) (beside self.new (D.shown door.new) log.new)) }
        ensures linked { IsLinkBehind (D.shown door.new) self.new.client }
        ensures short { OnErr result (IsCutShort (acting (D.shown door.old) log.old) (acting (D.shown door.new) log.new)) }
    {
        self.call_on(alloc, door, on, log)?;
        Ok(last_number(log.as_slice()))
    }
}

// Whether rights are less than an amount.
fn is_less(rights: i128, amount: u64) -> bool
    ensures { result ≡ int_lt rights (pos amount) }
{
    rights < i128::from(amount)
}

// The line of a holder whose rights are less than what it wants to add.
fn short_line(client: u32, adding: &Adding, rights: i128) -> Line
    ensures { result ≡ Short client adding.now.word (counter_of_share adding.now.share) rights }
{
    Line::Short {
        client,
        word: adding.word,
        object: counter_of(&adding.share.name),
        rights,
    }
}

// The line of a holder that has these rights.
fn rights_line(client: u32, share: &Share, rights: i128) -> Line
    ensures { result ≡ RightsValue client (counter_of_share share.now) rights }
{
    Line::RightsValue {
        client,
        object: counter_of(&share.name),
        rights,
    }
}

// The call that adds an amount to a cell.
fn inc_of(adding: &Adding) -> ObjectCall
    requires { IsAdding adding.now }
    ensures { result ≡ cell_inc adding.now.word adding.now.share (cell_to adding.now.share adding.now.to) adding.now.amount }
{
    let delta = adding.amount as i64;
    let cell = cell_to(&adding.share, adding.to);
    let inc = change_call(&cell, &Change::Inc { delta });
    of_share(adding.word, &adding.share, &inc)
}

// The call that reads the cell of this name.
fn cell_read(word: StepWord, share: &Share, name: &Name) -> ObjectCall
    ensures { result ≡ cell_read word share.now (counter_of name.now) }
{
    of_share(word, share, &read_call(&counter_of(name)))
}

// A call on a cell, as one of a step of the bounded counter that the cell is of.
fn of_share(word: StepWord, share: &Share, on: &ObjectCall) -> ObjectCall
    ensures { result ≡ cell_call word share.now on.now.object on.now.call }
{
    ObjectCall {
        word,
        shown: counter_of(&share.name),
        ..*on
    }
}

// The cell of what the holder gave to another one; to itself, what it was granted; and to 0, what it took.
fn cell_to(share: &Share, to: u8) -> ObjectId
    requires { IsCell share.now.name share.now.holder to }
    ensures { result ≡ cell_to share.now to }
{
    let name = cell(&share.name, share.holder, to).unwrap();
    counter_of(&name)
}

// The counter of a name.
fn counter_of(name: &Name) -> ObjectId
    ensures { result ≡ counter_of name.now }
{
    ObjectId {
        sort: Sort::Counter,
        name: *name,
    }
}

// The number that the last of the notes read, where it did.
fn last_number(notes: &[Note]) -> Option<i128>
    ensures { result ≡ last_number (map (λ note. note.deed) notes.now) }
{
    match notes.last() {
        Some(note) => number_got(&note.deed),
        None => None,
    }
}

// The number that a deed read, where it did.
fn number_got(deed: &Deed) -> Option<i128>
    ensures { result ≡ number_got deed.now }
{
    match deed {
        Deed::Did {
            call: Call::Read { .. },
            outcome,
        } => match outcome.ended() {
            Ended::Got(Value::Number(number)) => Some(*number),
            _ => None,
        },
        _ => None,
    }
}
