//! Numbers under keys, where the number of a key that is not there is 0.
ghost use Rattle.std.specs.Prelude.{◌≡◌, ◌+◌, ◌<◌, ◌^◌, ℕ, List, None, OnOk};
ghost use Rattle.std.specs.BTreeMap as tree;
ghost use Rattle.std.specs.BTreeSet as set;
ghost use Rattle.std.specs.Ordering.{eq_by_cmp, nat_cmp};
ghost use Rattle.office_records.specs.Tree.{code_cmp};
ghost use Rattle.office_holds.specs.Numbers.{AreOneLess, AreOneMore, number_at};

use office_base::Memory;
use office_records::Code;
use std::alloc::Global;
use std::collections::{BTreeMap, BTreeSet};

/// The number under the key.
pub(crate) fn number_of<K: Ord>(numbers: &BTreeMap<K, u32>, key: &K) -> u32
    ensures { result ≡ number_at K.cmp numbers.now key.now }
{
    match numbers.get(key) {
        Some(number) => *number,
        None => 0,
    }
}

/// Puts 0 in under a key that is not there.
pub(crate) fn add_key<K: Ord + Drop>(numbers: &mut BTreeMap<K, u32>, key: K) -> Result<(), Memory>
    requires { tree.get K.cmp numbers.old key ≡ None }
    ensures room { OnOk result (tree.ContainsKey K.cmp numbers.new key) }
    ensures same { (other : K)
        → number_at K.cmp numbers.new other ≡ number_at K.cmp numbers.old other }
{
    numbers.insert(key, 0)?;
    Ok(())
}

/// Puts 0 in under the code, if that is not there.
pub(crate) fn make_room_for_code(
    numbers: &mut BTreeMap<Code, u32>,
    alloc: Global,
    code: &Code,
) -> Result<(), Memory>
    ensures room { OnOk result (tree.ContainsKey code_cmp numbers.new code.now) }
    ensures same { (other : List ℕ)
        → number_at code_cmp numbers.new other ≡ number_at code_cmp numbers.old other }
{
    if numbers.contains_key(code) {
        return Ok(());
    }
    add_key(numbers, code.copy(alloc)?)
}

/// Puts 0 in under the number, if that is not there.
pub(crate) fn make_room_for_number(
    numbers: &mut BTreeMap<u32, u32>,
    number: u32,
) -> Result<(), Memory>
    ensures room { OnOk result (tree.ContainsKey nat_cmp numbers.new number) }
    ensures same { (other : ℕ)
        → number_at nat_cmp numbers.new other ≡ number_at nat_cmp numbers.old other }
{
    if numbers.contains_key(&number) {
        return Ok(());
    }
    add_key(numbers, number)
}

/// Counts the number under the key up by one.
pub(crate) fn count_up<K: Ord>(numbers: &mut BTreeMap<K, u32>, key: &K)
    requires room { tree.ContainsKey K.cmp numbers.old key.now }
    requires fits { number_at K.cmp numbers.old key.now + 1 < 2 ^ 32 }
    ensures { AreOneMore K.cmp numbers.old numbers.new (eq_by_cmp K.cmp key.now) }
{
    if let Some(number) = numbers.get_mut(key) {
        *number += 1;
    }
}

/// Counts the number under the key down by one, if it is not 0.
pub(crate) fn count_down<K: Ord>(numbers: &mut BTreeMap<K, u32>, key: &K)
    ensures { AreOneLess K.cmp numbers.old numbers.new (eq_by_cmp K.cmp key.now) }
{
    if let Some(number) = numbers.get_mut(key) {
        *number = number.saturating_sub(1);
    }
}

/// Counts the number under each of the keys down by one, if it is not 0.
pub(crate) fn count_each_down<K: Ord>(numbers: &mut BTreeMap<K, u32>, keys: &BTreeSet<K>)
    ensures { AreOneLess K.cmp numbers.old numbers.new (set.contains K.cmp keys.now) }
{
    for key in keys.iter() {
        count_down(numbers, key);
    }
}
