// The cells of a bounded counter, by their names.
ghost use Rattle.std.specs.Prelude.{◌≡◌, ◌≢◌, ◌↔◌, ◌+◌, ◌≤◌, ℕ, List, [], ◌∷◌, ◌++◌, length, take, map, IsTrue, IsNone, IfSome, IfOk, OnOk};
ghost use Rattle.list_core.specs.Apart.{Apart};
ghost use Rattle.ids_core.specs.Name.{IsName};
ghost use Rattle.obj_bounded.specs.declared.cell_names.TheConstants.{MOST_BOUNDED_NAME, MOST_HOLDERS};
ghost use Rattle.obj_bounded.specs.CellNames.{cell_name, IsCell, IsHolder, gain_names, other_holders, cell_names};

use ids_core::{Name, NoMemory};
use std::alloc::Global;

/// The most holders of a bounded counter.
pub const MOST_HOLDERS: u8 = 8;

/// The most bytes of a bounded counter's name: the names of its cells have seven more.
pub const MOST_BOUNDED_NAME: usize = 25;

/// The name of a cell of a bounded counter. From a holder to another one, both counted from 1, it counts what the one
/// gave to the other; from a holder to itself what it was granted, and to 0 what it took. `None` says exactly that there
/// is no such cell: the name is too long, or a number is out of range.
pub fn cell(name: &Name, from: u8, to: u8) -> Option<Name>
    ensures some { IfSome result (λ cell. cell ≡ cell_name name.now from to) }
    ensures none { IsNone result ↔ (IsCell name.now from to → ⊥) }
{
    if is_cell(name.as_slice(), from, to) {
        spelled(name, from, to)
    } else {
        None
    }
}

fn is_cell(name: &[u8], from: u8, to: u8) -> bool
    ensures { IsTrue result ↔ IsCell name.now from to }
{
    name.len() <= MOST_BOUNDED_NAME && 1 <= from && from <= MOST_HOLDERS && to <= MOST_HOLDERS
}

// The name of a cell that there is.
fn spelled(name: &Name, from: u8, to: u8) -> Option<Name>
    requires { IsCell name.now from to }
    ensures there { IsNone result → ⊥ }
    ensures value { IfSome result (λ cell. cell ≡ cell_name name.now from to) }
{
    let mut bytes = [0; 32];
    let end = spell(name.as_slice(), from, to, &mut bytes);
    Name::read(&bytes[..end]).ok()
}

// Writes the name of a cell to the front, and tells where it ends.
fn spell(name: &[u8], from: u8, to: u8, bytes: &mut [u8]) -> usize
    requires cell { IsCell name.now from to }
    requires room { length bytes.old ≡ 32 }
    ensures end { result ≤ length bytes.new }
    ensures written { take result bytes.new ≡ cell_name name.now from to }
{
    let front = put(b"bc_", 0, bytes);
    let middle = put(name, front, bytes);
    put(&[b'_', b'0' + from, b'_', b'0' + to], middle, bytes)
}

// Writes a piece at a place, and tells where it ends.
fn put(piece: &[u8], at: usize, bytes: &mut [u8]) -> usize
    requires { at + length piece.now ≤ length bytes.old }
    ensures end { result ≡ at + length piece.now }
    ensures long { length bytes.new ≡ length bytes.old }
    ensures written { take result bytes.new ≡ take at bytes.old ++ piece.now }
{
    let end = at + piece.len();
    bytes[at..end].copy_from_slice(piece);
    end
}

/// The names of a holder's cells, where there are so many holders: first those that count for it, from each holder to it,
/// and then those that count against it, to each other holder and last to 0.
pub fn cells(alloc: Global, name: &Name, holder: u8, holders: u8) -> Result<Vec<Name>, NoMemory>
    requires name { length name.now ≤ MOST_BOUNDED_NAME }
    requires range { IsHolder holders holder }
    ensures { IfOk result (λ names. names.items ≡ cell_names name.now holder holders) }
{
    let mut names = Vec::new(alloc);
    push_gains(name, holder, holders, &mut names)?;
    push_gifts(name, holder, holders, &mut names)?;
    push_cell(name, holder, 0, &mut names)?;
    Ok(names)
}

// Puts the cells that count for a holder at the end.
fn push_gains(name: &Name, holder: u8, holders: u8, names: &mut Vec<Name>) -> Result<(), NoMemory>
    requires name { length name.now ≤ MOST_BOUNDED_NAME }
    requires range { IsHolder holders holder }
    ensures { OnOk result (names.new.items ≡ names.old.items ++ gain_names name.now holder holders) }
{
    for from in 1..holders + 1 {
        push_cell(name, from, holder, names)?;
    }
    Ok(())
}

// Puts the cells of what a holder gave to others at the end.
fn push_gifts(name: &Name, holder: u8, holders: u8, names: &mut Vec<Name>) -> Result<(), NoMemory>
    requires name { length name.now ≤ MOST_BOUNDED_NAME }
    requires range { IsHolder holders holder }
    ensures { OnOk result (names.new.items ≡ names.old.items ++ map (cell_name name.now holder) (other_holders holder holders)) }
{
    for to in 1..holders + 1 {
        push_gift(name, holder, to, names)?;
    }
    Ok(())
}

// Puts the cell of what a holder gave to another one at the end, and none to itself.
fn push_gift(name: &Name, holder: u8, to: u8, names: &mut Vec<Name>) -> Result<(), NoMemory>
    requires { IsCell name.now holder to }
    ensures other { OnOk result (to ≢ holder → names.new.items ≡ names.old.items ++ cell_name name.now holder to ∷ []) }
    ensures itself { OnOk result (to ≡ holder → names.new.items ≡ names.old.items) }
{
    if to != holder {
        push_cell(name, holder, to, names)?;
    }
    Ok(())
}

// Puts a cell at the end.
fn push_cell(name: &Name, from: u8, to: u8, names: &mut Vec<Name>) -> Result<(), NoMemory>
    requires { IsCell name.now from to }
    ensures { OnOk result (names.new.items ≡ names.old.items ++ cell_name name.now from to ∷ []) }
{
    if let Some(cell) = cell(name, from, to) {
        names.push(cell)?;
    }
    Ok(())
}

/// Each cell has a name, of which the last four bytes say which cell it is. So cells with one name are one, of one
/// bounded counter, and a holder's cells are all different.
pub fn law_cells()
    ensures names { (name : List ℕ) (from to : ℕ) → IsName name → IsCell name from to → IsName (cell_name name from to) }
    ensures one { (name other : List ℕ) (from to giver taker : ℕ) → cell_name name from to ≡ cell_name other giver taker →
        (name ≡ other) × (from ≡ giver) × (to ≡ taker) }
    ensures apart { (name : List ℕ) (holder holders : ℕ) → Apart (λ cell. cell) (cell_names name holder holders) }
{}
