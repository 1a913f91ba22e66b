// Shows that stand in a table which only grows.
ghost use Rattle.std.specs.Prelude.{◌≡◌, ◌≤◌, ◌<◌, [], ◌∷◌, ◌++◌, length, map, take, nat_le, IsTrue, IfOk, OnOk, OnErr, Some};
ghost use Rattle.std.specs.Arc.{arc_value};
ghost use Rattle.boxcar.specs.Table.{Shows as IsIn, first};
ghost use Rattle.read_tap.specs.Shows.{IsFront, IsRead, IsLast, ArePlaced, shows_in, show_of, width, last_of};

use crate::show::Fits;
use boxcar::table::{Placed, Table};
use boxcar::tag::Tag;
use ids_core::NoMemory;
use script_core::Show;
use std::alloc::Global;
use std::marker::Model;
use std::sync::{Arc, Wait};
use tx_core::Value;
use vv_core::Vector;

pub(crate) type ShowTable = Table<Show, Fits, Global>;

pub(crate) type Token = Placed<Show, Fits, Global>;

/// The first shows of a tap, in order, of which there is at least one. Copies share them. They are seen as their
/// list, beside the table in which they stand.
#[derive(Drop)]
pub struct Shows {
    table: Arc<ShowTable>,
    tokens: Vec<Token>,
}

impl Model for Shows {
    ghost use Rattle.std.specs.Prelude.{◌<◌, map, length};
    ghost use Rattle.std.specs.Arc.{arc_value};
    ghost use Rattle.read_tap.specs.Shows.{ShowsView, ArePlaced, show_of};
    ghost use Rattle.tx_core.specs.States.{state_codes};

    ghost Value = { ShowsView };

    ghost coded = { Prim.hlevel state_codes };

    ghost view = { λ s. record { table = arc_value s.table; shows = map show_of s.tokens.items } };

    ghost invariant = { λ s. ArePlaced (arc_value s.table) s.tokens.items × (0 < length s.tokens.items) };
}

// The show of a token of the first place, alone.
fn one(alloc: Global, table: &Arc<ShowTable>, token: &Token) -> Result<Shows, NoMemory>
    requires { (token.now.index ≡ 0) × IsIn (arc_value table.now) token.now }
    ensures { IfOk result (λ shows. shows ≡ shows_in (arc_value table.now) (token.now.value ∷ [])) }
{
    let mut tokens = Vec::new(alloc);
    tokens.push(token.again())?;
    Ok(Shows {
        table: Arc::try_clone(table)?,
        tokens,
    })
}

// One token more, of the next place.
fn add(table: &ShowTable, tokens: &mut Vec<Token>, token: Token) -> Result<(), NoMemory>
    requires next { (token.index ≡ length tokens.old.items) × IsIn table.now token }
    requires placed { ArePlaced table.now tokens.old.items }
    ensures placed { ArePlaced table.now tokens.new.items }
    ensures ok { OnOk result (tokens.new.items ≡ tokens.old.items ++ token ∷ []) }
    ensures err { OnErr result (tokens.new.items ≡ tokens.old.items) }
{
    let _ = table;
    tokens.push(token)?;
    Ok(())
}

// The tokens of the shows up to a place, as far as they stand in the table.
fn grow(table: &ShowTable, tokens: &mut Vec<Token>, last: usize) -> Result<(), NoMemory>
    requires { ArePlaced table.now tokens.old.items }
    ensures placed { ArePlaced table.now tokens.new.items }
    ensures front { IsFront tokens.old.items tokens.new.items }
{
    'turns: for _turn in 0..u64::MAX {
        if tokens.len() > last {
            return Ok(());
        }
        match table.witness(tokens.len()) {
            Some(token) => add(table, tokens, token)?,
            None => return Ok(()),
        }
    }
    Ok(())
}

// The tokens that another list of the same table has behind these. Then the other's shows are a front of these.
fn catch_up(table: &ShowTable, tokens: &mut Vec<Token>, others: &[Token]) -> Result<(), NoMemory>
    requires placed { ArePlaced table.now tokens.old.items }
    requires others { ArePlaced table.now others.now }
    ensures placed { ArePlaced table.now tokens.new.items }
    ensures front { IsFront tokens.old.items tokens.new.items }
    ensures all { OnOk result (IsFront (map show_of others.now) (map show_of tokens.new.items)) }
{
    'places: for place in tokens.len()..others.len() {
        add(table, tokens, others[place].again())?;
    }
    agree(table, others, tokens.as_slice());
    Ok(())
}

// It tells the proof that the shows of these tokens are a front of those of others of the same table, which are no
// fewer.
fn agree(table: &ShowTable, tokens: &[Token], all: &[Token])
    requires tokens { ArePlaced table.now tokens.now }
    requires all { ArePlaced table.now all.now }
    requires fewer { length tokens.now ≤ length all.now }
    ensures { IsFront (map show_of tokens.now) (map show_of all.now) }
{
    'places: for place in 0..tokens.len() {
        table.agrees(&tokens[place], &all[place]);
    }
}

// Whether a list of tokens is no longer than another one of the same table. Then its shows are a front of the other's.
fn is_front(table: &ShowTable, tokens: &[Token], all: &[Token]) -> bool
    requires tokens { ArePlaced table.now tokens.now }
    requires all { ArePlaced table.now all.now }
    ensures front { IsTrue result → IsFront (map show_of tokens.now) (map show_of all.now) }
    ensures longer { result ≡ nat_le (length tokens.now) (length all.now) }
{
    if tokens.len() > all.len() {
        return false;
    }
    agree(table, tokens, all);
    true
}

// The vector and the value of an object in a show.
fn read(alloc: Global, show: &Show, object: usize) -> Result<(Vector, Value), NoMemory>
    requires { object < length show.now.states }
    ensures { IfOk result (λ answer. IsRead show.now object answer.0 answer.1) }
{
    let value = show.states.as_slice()[object].as_state().value(alloc)?;
    Ok((show.vector, value))
}

// The show at the last of these tokens.
fn last_show<'a>(table: &'a ShowTable, tokens: &[Token]) -> &'a Show
    requires placed { ArePlaced table.now tokens.now }
    requires some { 0 < length tokens.now }
    ensures last { last_of (map show_of tokens.now) ≡ Some result.now }
    ensures width { length result.now.states ≡ width table.now }
{
    table.value(&tokens[tokens.len() - 1])
}

impl Shows {
    // Shows of which there is one so far. Their table is as wide as the tag says. It may wait.
    pub(crate) fn open<R: Wait>(
        alloc: Global,
        rt: &R,
        tag: Tag,
        show: Show,
    ) -> Result<Shows, NoMemory>
        requires { length show.states ≡ first tag.numbers }
        ensures width { IfOk result (λ shows. width shows.table ≡ first tag.numbers) }
        ensures shows { IfOk result (λ shows. shows.shows ≡ show ∷ []) }
    {
        let table = Arc::new(alloc, Table::new(alloc, tag)?)?;
        match table.set_placed(rt, 0, show) {
            Ok(token) => one(alloc, &table, &token),
            Err(_show) => Err(NoMemory),
        }
    }

    // The first of these shows alone.
    pub(crate) fn start(&self, alloc: Global) -> Result<Shows, NoMemory>
        ensures { IfOk result (λ shows. shows ≡ shows_in self.now.table (take 1 self.now.shows)) }
    {
        one(alloc, &self.table, &self.tokens[0])
    }

    /// How many shows there are.
    pub fn len(&self) -> usize
        ensures { result ≡ length self.now.shows }
    {
        self.tokens.len()
    }

    // Puts a show behind the others, for which there is no copy yet. Nothing changes where memory is refused. It may
    // wait.
    pub(crate) fn put<R: Wait>(&mut self, rt: &R, show: Show) -> Result<(), NoMemory>
        requires { length show.states ≡ width self.old.table }
        ensures table { self.new.table ≡ self.old.table }
        ensures ok { OnOk result (self.new.shows ≡ self.old.shows ++ show ∷ []) }
        ensures err { OnErr result (self.new.shows ≡ self.old.shows) }
    {
        self.tokens.try_reserve(1)?;
        match self.table.set_placed(rt, self.tokens.len(), show) {
            Ok(token) => {
                self.tokens.push_reserved(token);
                Ok(())
            }
            Err(_show) => Err(NoMemory),
        }
    }

    // The shows up to a place are there from now on, as far as they stand in the table.
    pub(crate) fn grow(&mut self, last: usize) -> Result<(), NoMemory>
        ensures table { self.new.table ≡ self.old.table }
        ensures front { IsFront self.old.shows self.new.shows }
    {
        grow(&self.table, &mut self.tokens, last)
    }

    // The shows that others of the same table have behind these are there from now on.
    pub(crate) fn catch_up(&mut self, others: &Shows) -> Result<(), NoMemory>
        requires { others.now.table ≡ self.old.table }
        ensures table { self.new.table ≡ self.old.table }
        ensures front { IsFront self.old.shows self.new.shows }
        ensures all { OnOk result (IsFront others.now.shows self.new.shows) }
    {
        catch_up(&self.table, &mut self.tokens, others.tokens.as_slice())
    }

    // Whether these are a front of others of the same table: they are unless they are more.
    pub(crate) fn is_front_of(&self, others: &Shows) -> bool
        requires { others.now.table ≡ self.now.table }
        ensures front { IsTrue result → IsFront self.now.shows others.now.shows }
        ensures longer { result ≡ nat_le (length self.now.shows) (length others.now.shows) }
    {
        is_front(
            &self.table,
            self.tokens.as_slice(),
            others.tokens.as_slice(),
        )
    }

    /// The last show.
    pub fn last_show(&self) -> &Show
        ensures last { last_of self.now.shows ≡ Some result.now }
        ensures width { length result.now.states ≡ width self.now.table }
    {
        last_show(&self.table, self.tokens.as_slice())
    }

    /// The vector and the value of an object, by its place among those of the tap, in the last show.
    pub fn last(&self, alloc: Global, object: usize) -> Result<(Vector, Value), NoMemory>
        requires { object < width self.now.table }
        ensures { IfOk result (λ answer. IsLast self.now.shows object answer.0 answer.1) }
    {
        let show = last_show(&self.table, self.tokens.as_slice());
        read(alloc, show, object)
    }
}
