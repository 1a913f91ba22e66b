// Names, kept inline.
ghost use Rattle.std.specs.Prelude.{◌≡◌, ◌↔◌, IfOk, IsErr, IsTrue};
ghost use Rattle.std.specs.Cmp.{IsTotalOrder};
ghost use Rattle.std.specs.FinMap.{IsAntisymmetric};
ghost use Rattle.ids_core.specs.Name.{IsName, IsNameByte};
ghost use Rattle.ids_core.specs.Orders.{name_cmp};

use std::cmp::Ordering;
use std::hash::{Hash, Hasher};
use std::marker::Model;
use thiserror::Error;

/// The bytes are no name.
#[derive(Clone, Copy, Debug, Error)]
#[error("no name: 1 to 32 bytes out of a to z, 0 to 9 and _")]
pub struct BadName;

/// A name, seen as the list of its bytes: 1 to 32 out of `a` to `z`, `0` to `9` and `_`. Names are
/// ordered by their bytes.
#[derive(Clone, Copy, Debug)]
pub struct Name {
    // The name, with 0 in all places behind it.
    bytes: [u8; 32],
    len: u8,
}

impl Model for Name {
    ghost use Rattle.std.specs.Prelude.{ℕ, List, ◌++◌, ◌-◌, take, length, replicate};
    ghost use Rattle.list_core.specs.Padded.{repadded};
    ghost use Rattle.ids_core.specs.Padded.{IsPaddedName};

    ghost Value = { List ℕ };

    ghost view = { λ n. take n.len n.bytes };

    ghost invariant = { λ n. IsPaddedName n.bytes n.len };

    ghost inverse = { λ l. record { bytes = l ++ replicate (32 - length l) 0; len = length l } };

    ghost inverse_ok = { λ n h. repadded (λ bytes len. record { bytes = bytes; len = len }) 32 n.bytes n.len h.padded };
}

impl Name {
    /// Reads a name. An `Err` says exactly that the bytes are none.
    pub fn read(bytes: &[u8]) -> Result<Name, BadName>
        ensures taken { IfOk result (λ name. name ≡ bytes.now) }
        ensures refused { IsErr result ↔ (IsName bytes.now → ⊥) }
    {
        if !is_name(bytes) {
            return Err(BadName);
        }
        let mut kept = [0; 32];
        let len = bytes.len();
        kept[..len].copy_from_slice(bytes);
        Ok(Name {
            bytes: kept,
            len: len as u8,
        })
    }

    /// The bytes of the name.
    pub fn as_slice(&self) -> &[u8]
        ensures value { result.now ≡ self.now }
        ensures name { IsName result.now }
    {
        &self.bytes[..usize::from(self.len)]
    }
}

impl PartialEq for Name {
    ghost use Rattle.std.specs.Prelude.{◌==◌};
    ghost use Rattle.std.proofs.Common.{rules};
    ghost use Rattle.std.specs.Cmp.Rules.{comparing};
    ghost use lib.Pointwise.{pointwise};

    ghost eq = { pointwise ◌==◌ };

    ghost laws = { Prim.search (comparing, rules) };

    fn eq(&self, other: &Name) -> bool {
        self.as_slice() == other.as_slice()
    }
}

impl Eq for Name {
    ghost use Rattle.std.proofs.Common.{rules};
    ghost use Rattle.std.specs.Cmp.Rules.{comparing};

    ghost laws = { Prim.search (comparing, rules) };
}

impl Ord for Name {
    ghost use Rattle.std.proofs.Common.{rules};
    ghost use Rattle.std.specs.Cmp.Rules.{comparing};
    ghost use Rattle.ids_core.specs.Orders.{name_cmp};

    ghost cmp = { name_cmp };

    ghost total = { Prim.search (comparing, rules) };

    ghost matches_partial_cmp = { Prim.search (comparing, rules) };

    ghost matches_eq = { Prim.search (comparing, rules) };

    fn cmp(&self, other: &Name) -> Ordering {
        order(self.as_slice(), other.as_slice())
    }
}

impl PartialOrd for Name {
    ghost use Rattle.std.proofs.Common.{rules};
    ghost use Rattle.std.specs.Cmp.{partial_order_from_own_ties};
    ghost use Rattle.std.specs.Cmp.Rules.{comparing};
    ghost use Rattle.std.specs.Ordering.{as_partial_cmp};
    ghost use Rattle.ids_core.specs.Orders.{name_cmp};

    ghost partial_cmp = { as_partial_cmp name_cmp };

    ghost laws = { partial_order_from_own_ties (Prim.search (comparing, rules)) (Prim.search (comparing, rules)) };

    fn partial_cmp(&self, other: &Name) -> Option<Ordering> {
        Some(self.cmp(other))
    }
}

impl Hash for Name {
    ghost use Rattle.std.proofs.Common.{rules};
    ghost use Rattle.std.specs.Cmp.Rules.{comparing, hashing};
    ghost use Rattle.std.specs.Hash as fed;

    ghost hash_input = { fed.slice fed.u8 };

    ghost respects_eq = { Prim.search (hashing, rules) };

    fn hash<H: Hasher>(&self, state: &mut H) {
        self.as_slice().hash(state);
    }
}

// The order of two names by their bytes. Most names differ in one of their first few bytes, to which this comes in
// fewer steps than the order of slices, which is made for long ones.
fn order(a: &[u8], b: &[u8]) -> Ordering
    ensures { result ≡ name_cmp a.now b.now }
{
    for i in 0..a.len().min(b.len()) {
        if a[i] != b[i] {
            return a[i].cmp(&b[i]);
        }
    }
    a.len().cmp(&b.len())
}

fn is_name(bytes: &[u8]) -> bool
    ensures { IsTrue result ↔ IsName bytes.now }
{
    !bytes.is_empty() && bytes.len() <= 32 && bytes.iter().all(|byte| is_name_byte(*byte))
}

fn is_name_byte(byte: u8) -> bool
    ensures { IsTrue result ↔ IsNameByte byte }
{
    byte.is_ascii_lowercase() || byte.is_ascii_digit() || byte == b'_'
}

/// The order of names is total, and what is equal in it is the same.
pub fn law_name_order()
    ensures total { IsTotalOrder name_cmp }
    ensures same { IsAntisymmetric name_cmp }
{}
