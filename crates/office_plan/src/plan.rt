//! The command `plan`: a plan file done line by line, and the due days of its records written.
ghost use Rattle.std.specs.Prelude.{◌≡◌, ◌++◌, length, Err, IfErr, IfOk, IfSome, IsSome, IsTrue, None, OnErr, OnOk};
ghost use Rattle.std.specs.Io.KnownBytes.{Appends};
ghost use Rattle.std.specs.Str.Lines.{lines};
ghost use Rattle.office_base.specs.Output.{AppendsSome};
ghost use Rattle.office_records.specs.Tree.{empty_tree, has_record};
ghost use Rattle.office_plan.specs.PlanFile.{due_line, due_lines, due_word, plan_asked, plan_from, plan_refusal, plan_written, plan_result};

use crate::lines::next_line;
use crate::plan_step::take_line;
use office_base::{Io, Memory, Refusal, Stop, read_whole, write_out};
use office_days::DueDay;
use office_records::RecordNo;
use office_tree::Tree;
use std::alloc::{AllocError, Global};
use std::io::{Read, Write};

/// Takes line after line, from the first, until one is refused: its number, from 1, and why.
fn take_lines(
    alloc: Global,
    tree: &mut Tree,
    bytes: &[u8],
) -> Result<Option<(u64, Refusal)>, Memory>
    ensures { IfOk result
        (λ refused. plan_from 1 (lines bytes.now) tree.old ≡ plan_result refused tree.new) }
{
    let mut rest = bytes;
    let mut number: u64 = 0;
    while let Some((line, after)) = next_line(rest) {
        number += 1;
        if let Some(refusal) = take_line(alloc, tree, line)? {
            return Ok(Some((number, refusal)));
        }
        rest = after;
    }
    Ok(None)
}

/// Appends the due day, or `-` where there is none.
fn push_due(out: &mut Vec<u8>, due: Option<DueDay>) -> Result<(), AllocError>
    ensures { OnOk result (out.new.items ≡ out.old.items ++ due_word due) }
{
    match due {
        Some(day) => out.extend_from_slice(day.text().as_slice()),
        None => out.extend_from_slice(b"-"),
    }
}

/// Appends the line of a record: its number and its due day.
#[tactic(auto, unfolding(crate::specs::PlanFile::due_line))]
fn push_line(
    alloc: Global,
    out: &mut Vec<u8>,
    tree: &Tree,
    record_no: RecordNo,
) -> Result<(), AllocError>
    requires { IsTrue (has_record tree.now record_no) }
    ensures { OnOk result (out.new.items ≡ out.old.items ++ due_line tree.now record_no) }
{
    let number = format!(in alloc; "{record_no} ")?;
    out.extend_from_slice(number.as_bytes())?;
    push_due(out, tree.due_of(record_no))?;
    out.extend_from_slice(b"\n")
}

/// The lines of all records, by number.
fn lines_of(alloc: Global, tree: &Tree) -> Result<Vec<u8>, AllocError>
    ensures { IfOk result (λ out. out.items ≡ due_lines tree.now (length tree.now.records)) }
{
    let mut out = Vec::new(alloc);
    for before in 0..tree.record_count() {
        push_line(alloc, &mut out, tree, before + 1)?;
    }
    Ok(out)
}

/// The lines of all records of a plan file, which an empty tree takes, or the first line that is
/// refused, and why.
fn lines_in(
    alloc: Global,
    tree: &mut Tree,
    bytes: &[u8],
) -> Result<Result<Vec<u8>, (u64, Refusal)>, Memory>
    requires { tree.old ≡ empty_tree }
    ensures lines { IfOk result
        (λ reported. IfOk reported
        (λ lines. (plan_refusal (plan_asked bytes.now) ≡ None)
        × (lines.items ≡ plan_written (plan_asked bytes.now)))) }
    ensures refused { IfOk result
        (λ reported. IfErr reported (λ refused. plan_asked bytes.now ≡ Err refused)) }
{
    match take_lines(alloc, tree, bytes) {
        Ok(None) => match lines_of(alloc, tree) {
            Ok(lines) => Ok(Ok(lines)),
            Err(_) => Err(Memory),
        },
        Ok(Some(refused)) => Ok(Err(refused)),
        Err(Memory) => Err(Memory),
    }
}

/// The lines of all records of a plan file, or the first line that is refused, and why.
fn lines_asked(alloc: Global, bytes: &[u8]) -> Result<Result<Vec<u8>, (u64, Refusal)>, Memory>
    ensures lines { IfOk result
        (λ reported. IfOk reported
        (λ lines. (plan_refusal (plan_asked bytes.now) ≡ None)
        × (lines.items ≡ plan_written (plan_asked bytes.now)))) }
    ensures refused { IfOk result
        (λ reported. IfErr reported (λ refused. plan_asked bytes.now ≡ Err refused)) }
{
    let mut tree = Tree::new(alloc);
    lines_in(alloc, &mut tree, bytes)
}

/// `office plan FILE`: reads a plan file to its end and then writes, for each of its records, the
/// number and the due day, or `-` where there is none. `None` after that was written; else the
/// first line that is refused, counted from 1 with empty lines, and why, with nothing written.
/// `Io` comes where the reader or the writer answered an error, `Memory` where an allocation was
/// refused; at `Io` the first bytes of the lines, or none, went out.
#[tactic(auto, using(crate::proofs::Unwritten::none_some))]
pub fn plan_to<R: Read, W: Write>(
    alloc: Global,
    reader: &mut R,
    out: &mut W,
) -> Result<Option<(u64, Refusal)>, Stop>
    ensures refusal { IfOk result
        (λ refused. IfSome (R.remaining reader.old)
        (λ bytes. refused ≡ plan_refusal (plan_asked bytes))) }
    ensures written { OnOk result
        (IfSome (R.remaining reader.old)
        (λ bytes. Appends (W.contents out.old) (W.contents out.new)
        (plan_written (plan_asked bytes)))) }

    // Where a line is refused, or memory, the writer is not touched.
    ensures untouched { IfOk result (λ refused. IsSome refused → out.new ≡ out.old) }
    ensures unwritten { IfErr result (λ stop. stop ≡ Stop.Memory → out.new ≡ out.old) }

    // Where the reader or the writer fails, nothing but the first of these lines went out.
    ensures some { OnErr result
        (IfSome (R.remaining reader.old)
        (λ bytes. AppendsSome (W.contents out.old) (W.contents out.new)
        (plan_written (plan_asked bytes)))) }
{
    let bytes = read_whole(alloc, reader)?;
    match lines_asked(alloc, bytes.as_slice()) {
        Ok(Ok(lines)) => match write_out(lines.as_slice(), out) {
            Ok(()) => Ok(None),
            Err(Io) => Err(Stop::Io),
        },
        Ok(Err(refused)) => Ok(Some(refused)),
        Err(Memory) => Err(Stop::Memory),
    }
}
