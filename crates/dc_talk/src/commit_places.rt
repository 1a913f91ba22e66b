// Where the first commit ask of each number stands among the notes of a log.
ghost use Rattle.std.specs.Prelude.{◌≡◌, ◌++◌, ◌∷◌, [], ℕ, Some, OnOk};
ghost use Rattle.std.specs.Option.{option_copied};
ghost use Rattle.dc_talk.specs.declared.log.Deed.{Deed as DeedOf};
ghost use Rattle.dc_talk.specs.Logs.{marked, commit_of, commit_asked, commit_sent};
ghost use Rattle.dc_talk.specs.CommitPlaces.{LeadToFirsts};

use crate::ask::Ask;
use crate::log::{Deed, Note};
use crate::sent::SharedTx;
use ids_core::NoMemory;
use std::collections::BTreeMap;
use tx_core::Tx;

/// The places by the numbers.
pub(crate) type CommitPlaces = BTreeMap<u64, usize>;

// The transaction of the first commit ask of a number.
pub(crate) fn commit_sent<'a>(
    places: &CommitPlaces,
    notes: &'a [Note],
    number: u64,
) -> Option<&'a SharedTx>
    requires { LeadToFirsts places.now.entries notes.now }
    ensures { option_copied result ≡ commit_sent number notes.now }
{
    match places.get(&number) {
        Some(place) => match notes.get(*place) {
            Some(note) => commit_asked(&note.deed, number),
            None => None,
        },
        None => None,
    }
}

// The transaction of a deed, where it is a commit ask of this number.
fn commit_asked(deed: &Deed, number: u64) -> Option<&SharedTx>
    ensures { option_copied result ≡ commit_asked number deed.now }
{
    match commit_of(deed) {
        Some(tx) => {
            if tx.as_tx().dot.number == number {
                Some(tx)
            } else {
                None
            }
        }
        None => None,
    }
}

// The transaction of a deed, where it is a commit ask.
fn commit_of(deed: &Deed) -> Option<&SharedTx>
    ensures { option_copied result ≡ commit_of deed.now }
{
    match deed {
        Deed::Asked {
            centre: _,
            ask: Ask::Commit { tx },
            fate: _,
        } => Some(tx),
        _ => None,
    }
}

// Keeps the place behind the notes for a deed that is to stand there, where it is the first commit ask of
// its number. Until it stands there the place leads to none. An `Err` leaves the places as they were.
// Of most deeds this is one look at their form, which stands where they are noted.
#[inline(always)]
pub(crate) fn keep_place(
    places: &mut CommitPlaces,
    notes: &[Note],
    deed: &Deed,
) -> Result<(), NoMemory>
    requires { LeadToFirsts places.old.entries notes.now }
    ensures so_far { LeadToFirsts places.new.entries notes.now }
    ensures behind { OnOk result ((section step : ℕ) → LeadToFirsts places.new.entries (notes.now ++ marked section step deed.now ∷ [])) }
{
    match commit_of(deed) {
        Some(shared) => keep_first(places, notes, shared.as_tx()),
        None => Ok(()),
    }
}

// The same for a commit ask of this transaction. It is no part of the other, so that the deeds of other kinds, which
// are most, pass without the room that an index takes.
#[inline(never)]
fn keep_first(places: &mut CommitPlaces, notes: &[Note], tx: &Tx) -> Result<(), NoMemory>
    requires { LeadToFirsts places.old.entries notes.now }
    ensures so_far { LeadToFirsts places.new.entries notes.now }
    ensures behind { OnOk result ((deed : DeedOf) → commit_of deed ≡ Some tx.now → (section step : ℕ) → LeadToFirsts places.new.entries (notes.now ++ marked section step deed ∷ [])) }
{
    match commit_sent(places, notes, tx.dot.number) {
        Some(_) => Ok(()),
        None => {
            places.insert(tx.dot.number, notes.len())?;
            Ok(())
        }
    }
}
