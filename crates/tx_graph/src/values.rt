// The value of an object, by which act sees which.
ghost use Rattle.std.specs.Prelude.{◌≡◌, ◌↔◌, ℕ, ◌<◌, ◌^◌, ◌+ℤ◌, List, IfOk, map};
ghost use Rattle.std.specs.Int.{w128, int_wrap};
ghost use Rattle.std.specs.List.{filter_map};
ghost use Rattle.std.specs.List.Sorted.{IsStrictlySortedBy};
ghost use Rattle.list_core.specs.Members.{In};
ghost use Rattle.ids_core.specs.Orders.{name_cmp};
ghost use Rattle.obj_counter.specs.Counter.{sizes};
ghost use Rattle.tx_graph.specs.Values.{Act, deltas_in, IsRegisterOver, IsSetOver, IsMapOver, IsValueBy};
ghost use Rattle.tx_graph.specs.Acts.{bare_of, act_of, sum_of, HasUniqueMarks};
ghost use Rattle.tx_graph.specs.Unseen.{marked_write, word_under, ArePairsOf};

use crate::acts::BareAct;
use crate::last::last_of;
use crate::unseen::{UnseenPut, unseen_adds, unseen_puts};
use dc_talk::Change;
use ids_core::{Mark, Name, NoMemory, Sort};
use std::alloc::Global;
use tx_core::{NamePairs, Names, Value};

/// The value of an object of that kind which has these acts, by which act sees which (Shapiro and
/// others, INRIA RR-7506), whatever identifiers their operations are over. It is computed as it is
/// defined, in a time that grows with the square of their number and more. The sum of a counter wraps
/// at the ends of an `i128`; it is exact where the sizes of the deltas together stay below 2^127. The
/// value of a map is defined only where acts with one mark are one.
pub fn value_by_sees(alloc: Global, sort: Sort, acts: &[BareAct]) -> Result<Value, NoMemory>
    ensures wraps { (whole : List Act) → acts.now ≡ map bare_of whole → sort ≡ Sort.Counter →
        IfOk result (λ value. value ≡ Value.Number (int_wrap w128 (sum_of whole))) }
    ensures exact { (whole : List Act) → acts.now ≡ map bare_of whole → (sort ≡ Sort.Map → HasUniqueMarks whole) →
        (sort ≡ Sort.Counter → sizes (deltas_in whole) < 2 ^ 127) → IfOk result (IsValueBy sort whole) }
{
    match sort {
        Sort::Counter => Ok(Value::Number(sum_of(acts))),
        Sort::Register => Ok(Value::Word(last_write(alloc, acts)?)),
        Sort::Set => Ok(Value::Words(Names::from_vec(alloc, words(alloc, acts)?)?)),
        Sort::Map => Ok(Value::Pairs(NamePairs::from_vec(alloc, pairs(alloc, acts)?)?)),
    }
}

// The sum of the deltas.
fn sum_of(acts: &[BareAct]) -> i128
    ensures { result ≡ int_wrap w128 (sum_of (map act_of acts.now)) }
{
    let mut sum = 0;
    for act in acts {
        if let Change::Inc { delta } = &act.change {
            sum = add_wrapped(sum, *delta);
        }
    }
    sum
}

fn add_wrapped(sum: i128, delta: i64) -> i128
    ensures { result ≡ int_wrap w128 (sum +ℤ delta) }
{
    sum.wrapping_add(i128::from(delta))
}

// The word of the write with the greatest mark.
fn last_write(alloc: Global, acts: &[BareAct]) -> Result<Option<Name>, NoMemory>
    ensures { IfOk result (IsRegisterOver (map act_of acts.now)) }
{
    let writes = marked_writes(alloc, acts)?;
    match last_of(&writes) {
        Some((_, word)) => Ok(Some(word)),
        None => Ok(None),
    }
}

// The words that are written, with their marks.
fn marked_writes(alloc: Global, acts: &[BareAct]) -> Result<Vec<(Mark, Name)>, NoMemory>
    ensures { IfOk result (λ list. list.items ≡ filter_map marked_write (map act_of acts.now)) }
{
    let mut list = Vec::new(alloc);
    for act in acts {
        if let Change::Write { word } = &act.change {
            list.push((act.mark, *word))?;
        }
    }
    Ok(list)
}

// The words with an add that no remove of the word sees, ascending.
fn words(alloc: Global, acts: &[BareAct]) -> Result<Vec<Name>, NoMemory>
    ensures { IfOk result (λ list. IsSetOver (map act_of acts.now) list.items) }
{
    Ok(ascending(unseen_adds(alloc, acts)?))
}

// The keys with a put that no erase of the key sees, ascending, each with the word of the greatest.
fn pairs(alloc: Global, acts: &[BareAct]) -> Result<Vec<(Name, Name)>, NoMemory>
    ensures { HasUniqueMarks (map act_of acts.now) → IfOk result (λ list. IsMapOver (map act_of acts.now) list.items) }
{
    let puts = unseen_puts(alloc, acts)?;
    let keys = ascending(keys_of(alloc, &puts)?);
    pairs_of(alloc, &puts, &keys)
}

// The keys of puts.
fn keys_of(alloc: Global, puts: &[UnseenPut]) -> Result<Vec<Name>, NoMemory>
    ensures { IfOk result (λ list. list.items ≡ map (λ put. put.key) puts.now) }
{
    let mut list = Vec::new(alloc);
    for put in puts {
        list.push(put.key)?;
    }
    Ok(list)
}

// Keys of puts, each with the word of the greatest put under it.
fn pairs_of(alloc: Global, puts: &[UnseenPut], keys: &[Name]) -> Result<Vec<(Name, Name)>, NoMemory>
    requires { (key : List ℕ) → In key keys.now → In key (map (λ put. put.key) puts.now) }
    ensures { IfOk result (λ list. ArePairsOf puts.now keys.now list.items) }
{
    let mut list = Vec::new(alloc);
    for key in keys {
        let words = words_under(alloc, puts, key)?;
        if let Some((_, word)) = last_of(&words) {
            list.push((*key, word))?;
        }
    }
    Ok(list)
}

// The words of the puts of a key, with their marks.
fn words_under(alloc: Global, puts: &[UnseenPut], key: &Name) -> Result<Vec<(Mark, Name)>, NoMemory>
    ensures { IfOk result (λ list. list.items ≡ filter_map (word_under key.now) puts.now) }
{
    let mut list = Vec::new(alloc);
    for put in puts {
        if put.key == *key {
            list.push((put.mark, put.word))?;
        }
    }
    Ok(list)
}

// The names in ascending order, each once.
fn ascending(mut names: Vec<Name>) -> Vec<Name>
    ensures ascending { IsStrictlySortedBy name_cmp result.items }
    ensures exact { (name : List ℕ) → In name result.items ↔ In name names.items }
{
    names.sort_unstable();
    names.dedup();
    names
}
