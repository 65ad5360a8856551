//! All cases.
use crate::act_tests::{ACTS, CONTENTS, LISTS};
use crate::hold_tests::{COVERED, LEAVING, LIFTED, STAYING, TREE};
use crate::office_tests::{BASE, EVENTS, FEW_OF_MANY, HELD, HERE, NOTHING_TO_DO, RUN, SPENDING};
use crate::request_tests::{BODIES, HEADS};
use crate::rows::{Subject, must_hold};
use crate::{
    answer_tests, calls, due_tests, machine_calls, plan_tests, proof_tests, reply_tests, word_tests,
};
use std::alloc::Global;
use std::test::Fail;

/// Acts, lists of acts, and answers.
fn acts(alloc: Global) -> Result<(), Fail> {
    must_hold(alloc, Subject::Acts, "", ACTS)?;
    must_hold(alloc, Subject::Acts, CONTENTS, LISTS)?;
    must_hold(alloc, Subject::Answers, "", answer_tests::ROWS)
}

/// Due days, plans, digests and the words of the command line.
fn words(alloc: Global) -> Result<(), Fail> {
    must_hold(alloc, Subject::Days, "", due_tests::ROWS)?;
    must_hold(alloc, Subject::Plans, "", plan_tests::ROWS)?;
    must_hold(alloc, Subject::Digests, "", proof_tests::ROWS)?;
    must_hold(alloc, Subject::Words, "", word_tests::ROWS)
}

/// Stories of holds.
fn holds(alloc: Global) -> Result<(), Fail> {
    must_hold(alloc, Subject::Holds, TREE, LIFTED)?;
    must_hold(alloc, Subject::Holds, TREE, COVERED)?;
    must_hold(alloc, Subject::Holds, TREE, STAYING)?;
    must_hold(alloc, Subject::Holds, TREE, LEAVING)
}

/// Stories of an office.
fn offices(alloc: Global) -> Result<(), Fail> {
    must_hold(alloc, Subject::Offices, "", SPENDING)?;
    must_hold(alloc, Subject::Offices, "", NOTHING_TO_DO)?;
    must_hold(alloc, Subject::Offices, BASE, RUN)?;
    must_hold(alloc, Subject::Offices, "", FEW_OF_MANY)?;
    must_hold(alloc, Subject::Offices, BASE, HERE)?;
    must_hold(alloc, Subject::Offices, BASE, EVENTS)?;
    must_hold(alloc, Subject::Offices, "", HELD)
}

/// Requests and replies, in pieces of several sizes.
fn requests(alloc: Global) -> Result<(), Fail> {
    for most in [1, 2, 7, 4_096] {
        must_hold(alloc, Subject::Requests(most), HEADS, BODIES)?;
        must_hold(alloc, Subject::Replies(most), "", reply_tests::ROWS)?;
    }
    Ok(())
}

/// The public calls.
fn calls(alloc: Global) -> Result<(), Fail> {
    calls::parts(alloc).ok_or("a call of the tree, of holds or of certificates")?;
    Ok(machine_calls::machine(alloc).ok_or("a call of the office in memory")?)
}

#[test]
fn cases(rt: HostRuntime) -> Result<(), Fail> {
    let alloc = rt.alloc();
    calls(alloc)?;
    acts(alloc)?;
    words(alloc)?;
    holds(alloc)?;
    offices(alloc)?;
    requests(alloc)
}
