//! Sets of codes and of numbers, of which a hold has one for each kind of target.
ghost use Rattle.std.specs.Prelude.{◌≡◌, ◌↔◌, ◌<◌, ◌^◌, IsTrue, OnOk, OnErr, true};
ghost use Rattle.std.specs.FinMap.{contains_key};
ghost use Rattle.std.specs.FinSet as set;
ghost use Rattle.std.specs.List.{All, list_any};
ghost use Rattle.std.specs.Ordering.{nat_cmp};
ghost use Rattle.office_records.specs.Forms.{IsCode};
ghost use Rattle.office_records.specs.Tree.{code_cmp, has_aggregation, has_record};

use office_base::Memory;
use office_records::Code;
use office_tree::Tree;
use std::collections::BTreeSet;

/// Whether the set has the code.
pub(crate) fn has_code(codes: &BTreeSet<Code>, code: &Code) -> bool
    ensures { result ≡ set.contains (set.from_list {R = code_cmp} codes.now.keys) code.now }
{
    codes.contains(code)
}

/// Whether the set has the number.
pub(crate) fn has_number(numbers: &BTreeSet<u32>, number: u32) -> bool
    ensures { result ≡ set.contains (set.from_list {R = nat_cmp} numbers.now.keys) number }
{
    numbers.contains(&number)
}

/// How many codes the set has.
pub(crate) fn count_codes(codes: &BTreeSet<Code>) -> usize
    ensures { result ≡ set.len (set.from_list {R = code_cmp} codes.now.keys) }
{
    codes.len()
}

/// How many numbers the set has.
pub(crate) fn count_numbers(numbers: &BTreeSet<u32>) -> usize
    ensures { result ≡ set.len (set.from_list {R = nat_cmp} numbers.now.keys) }
{
    numbers.len()
}

/// Puts a code into the set.
pub(crate) fn put_code(codes: &mut BTreeSet<Code>, code: Code) -> Result<(), Memory>
    ensures ok { OnOk result
        (set.from_list {R = code_cmp} codes.new.keys
        ≡ set.insert (set.from_list codes.old.keys) code) }
    ensures err { OnErr result (codes.new.keys ≡ codes.old.keys) }
{
    codes.insert(code)?;
    Ok(())
}

/// Puts a number into the set.
pub(crate) fn put_number(numbers: &mut BTreeSet<u32>, number: u32) -> Result<(), Memory>
    ensures ok { OnOk result
        (set.from_list {R = nat_cmp} numbers.new.keys
        ≡ set.insert (set.from_list numbers.old.keys) number) }
    ensures err { OnErr result (numbers.new.keys ≡ numbers.old.keys) }
{
    numbers.insert(number)?;
    Ok(())
}

/// Takes a code out of the set.
pub(crate) fn take_code(codes: &mut BTreeSet<Code>, code: &Code)
    ensures { set.from_list {R = code_cmp} codes.new.keys
        ≡ set.remove (set.from_list codes.old.keys) code.now }
{
    codes.remove(code);
}

/// Takes a number out of the set.
pub(crate) fn take_number(numbers: &mut BTreeSet<u32>, number: u32)
    ensures { set.from_list {R = nat_cmp} numbers.new.keys
        ≡ set.remove (set.from_list numbers.old.keys) number }
{
    numbers.remove(&number);
}

/// Whether the set has one of the numbers.
pub(crate) fn has_any(numbers: &BTreeSet<u32>, these: &[u32]) -> bool
    ensures { result
        ≡ list_any (set.contains (set.from_list {R = nat_cmp} numbers.now.keys)) these.now }
{
    these.iter().any(|&number| has_number(numbers, number))
}

/// Whether each code of the set is that of a class.
pub(crate) fn are_classes(codes: &BTreeSet<Code>, tree: &Tree) -> bool
    ensures { IsTrue result
        ↔ All (λ code. contains_key tree.now.classes code ≡ true) codes.now.keys }
{
    codes.iter().all(|code| tree.class(code).is_some())
}

/// Whether each number of the set is that of an aggregation.
pub(crate) fn are_aggregations(numbers: &BTreeSet<u32>, tree: &Tree) -> bool
    ensures { IsTrue result
        ↔ All (λ number. has_aggregation tree.now number ≡ true) numbers.now.keys }
{
    numbers.iter().all(|&number| tree.has_aggregation(number))
}

/// Whether each number of the set is that of a record.
pub(crate) fn are_records(numbers: &BTreeSet<u32>, tree: &Tree) -> bool
    ensures { IsTrue result ↔ All (λ number. has_record tree.now number ≡ true) numbers.now.keys }
{
    numbers.iter().all(|&number| tree.has_record(number))
}

/// Makes known to proofs that each code of the set is of its form: a call changes nothing.
pub(crate) fn well_formed_codes(codes: &BTreeSet<Code>)
    ensures { All IsCode codes.now.keys }
{
    for code in codes.iter() {
        let _ = code.text();
    }
}
