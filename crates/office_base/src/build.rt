//! One row more of a map by key or of a list by number, and when rows are damaged.
ghost use Rattle.std.specs.Prelude.{◌≡◌, ◌≢◌, IsTrue, false, suc, [], ◌∷◌, ◌++◌, length, vec_len, vec_capacity, ◌<◌, IsOk, OnOk, OnErr};
ghost use Rattle.std.specs.Ordering.{is_lt};
ghost use Rattle.std.specs.List.{All};
ghost use Rattle.std.specs.BTreeMap.{keys, IsOrdered};
ghost use Rattle.std.specs.declared.cmp.Ordering.TheVariants.{Less};
ghost use Rattle.office_base.specs.Rows.{numbered_rows, OnDamaged};

use std::collections::BTreeMap;

/// Why nothing is built of rows.
#[derive(Clone, Copy, Debug, PartialEq, Eq)]
pub enum Rebuild {
    /// There is no memory for it.
    Memory,
    /// The rows represent nothing.
    Damaged,
}

/// Whether the key is above the map's keys.
pub fn follows<K: Ord, V>(map: &BTreeMap<K, V>, key: &K) -> bool
    ensures below { IsTrue result → All (λ q. K.cmp q key.now ≡ Less) (keys map.now) }
    ensures not_below { result ≡ false → All (λ q. K.cmp q key.now ≡ Less) (keys map.now) → ⊥ }
{
    match map.last_key_value() {
        Some((last, _)) => last.cmp(key).is_lt(),
        None => true,
    }
}

/// Puts a row after those of the map; Damaged where its key is not above theirs, Memory where there
/// is none for it. At an error the map is as it was.
pub fn push_keyed<K: Ord + Drop, V: Drop>(
    map: &mut BTreeMap<K, V>,
    key: K,
    value: V,
) -> Result<(), Rebuild>
    ensures ok { OnOk result (map.new.entries ≡ map.old.entries ++ (key, value) ∷ []) }
    ensures ordered { OnOk result (IsOrdered K.cmp map.new) }
    ensures err { OnErr result (map.new.entries ≡ map.old.entries) }
    ensures damaged { OnDamaged result (All (λ q. K.cmp q key ≡ Less) (keys map.old) → ⊥) }
{
    if !follows(map, &key) {
        return Err(Rebuild::Damaged);
    }
    match map.insert(key, value) {
        Ok(_) => Ok(()),
        Err(_) => Err(Rebuild::Memory),
    }
}

// Puts one more at the end.
fn push<T: Drop>(things: &mut Vec<T>, thing: T) -> Result<(), Rebuild>
    ensures ok { OnOk result (things.new.items ≡ things.old.items ++ thing ∷ []) }
    ensures room { vec_len things.old < vec_capacity things.old → IsOk result }
    ensures err { OnErr result (things.new.items ≡ things.old.items) }
    ensures memory { OnDamaged result ⊥ }
{
    match things.push(thing) {
        Ok(()) => Ok(()),
        Err(_) => Err(Rebuild::Memory),
    }
}

/// Puts a row after those of the list; Damaged where its number is not the next, Memory where there
/// is none for it. At an error the list is as it was.
pub fn push_numbered<T: Drop>(things: &mut Vec<T>, number: u32, thing: T) -> Result<(), Rebuild>
    ensures ok { OnOk result (things.new.items ≡ things.old.items ++ thing ∷ []) }
    ensures rows { OnOk result
        (numbered_rows things.new.items ≡ numbered_rows things.old.items ++ (number, thing) ∷ []) }
    ensures err { OnErr result (things.new.items ≡ things.old.items) }
    ensures number { OnOk result (number ≡ suc (length things.old.items)) }
    ensures damaged { OnDamaged result (number ≢ suc (length things.old.items)) }
{
    if number == 0 || number as usize - 1 != things.len() {
        return Err(Rebuild::Damaged);
    }
    push(things, thing)
}

/// Makes known to proofs that the keys of the map ascend: a call does nothing.
pub fn ordered<K: Ord, V>(map: &BTreeMap<K, V>)
    ensures { IsOrdered K.cmp map.now }
{
    let _ = map.len();
}
