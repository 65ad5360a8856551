//! The command `due`: its operands read, and the due day written.
ghost use Rattle.std.specs.Prelude.{◌≡◌, IsOk, IfOk, IfErr, OnOk, OnErr};
ghost use Rattle.std.specs.Io.KnownBytes.{Appends};
ghost use Rattle.office_base.specs.Output.{AppendsSome};
ghost use Rattle.office_plan.specs.DueCommand.{due_asked, due_line, due_made, move_asked, refusal_asked, written_line};

use crate::parts::{both, read_day, read_period};
use office_base::{Io, Refusal, write_out};
use office_days::{Day, DueDay, Offset, Period, due_day};
use std::io::Write;

/// The offset and the start day.
#[tactic(auto, unfolding(crate::specs::DueCommand::move_asked))]
fn read_move(offset: &str, day: &str) -> Result<(Offset, Day), Refusal>
    ensures { result ≡ move_asked offset.now day.now }
{
    both(Offset::read(offset).ok_or(Refusal::BadText), read_day(day))
}

/// The due day of a period, an offset and a start day.
fn due_made(operands: (Period, (Offset, Day))) -> DueDay
    ensures { result ≡ due_made operands }
{
    let (period, (offset, day)) = operands;
    due_day(day, period, offset)
}

/// The due day that the operands ask for. Of several faults that of a text comes first.
fn due_of(unit: &str, count: &str, offset: &str, day: &str) -> Result<DueDay, Refusal>
    ensures { result ≡ due_asked unit.now count.now offset.now day.now }
{
    match both(read_period(unit, count), read_move(offset, day)) {
        Ok(operands) => Ok(due_made(operands)),
        Err(refusal) => Err(refusal),
    }
}

/// The line of a due day: its ten bytes and a line feed.
fn line_of(day: DueDay) -> [u8; 11]
    ensures { result ≡ due_line day }
{
    let [a, b, c, d, e, f, g, h, i, j] = day.text();
    [a, b, c, d, e, f, g, h, i, j, b'\n']
}

/// `office due UNIT COUNT OFFSET DAY`: writes the due day's line, or gives why there is none,
/// with nothing written: `BadText` where an operand is not of its form, else `BadNumber` where
/// the count is over the unit's limit. COUNT is one or more ASCII digits, leading zeros allowed.
/// `Io` comes where the writer answered an error; the first bytes of the line, or none, went out
/// then.
pub fn due_to<W: Write>(
    unit: &str,
    count: &str,
    offset: &str,
    day: &str,
    out: &mut W,
) -> Result<Option<Refusal>, Io>
    ensures refusal { IfOk result
        (λ refusal. refusal ≡ refusal_asked (due_asked unit.now count.now offset.now day.now)) }
    ensures written { OnOk result
        (Appends (W.contents out.old) (W.contents out.new)
        (written_line (due_asked unit.now count.now offset.now day.now))) }

    // Where the words are refused, the writer is not touched, and so cannot fail.
    ensures untouched { IfErr (due_asked unit.now count.now offset.now day.now)
        (λ _. out.new ≡ out.old) }
    ensures failed { OnErr result (IsOk (due_asked unit.now count.now offset.now day.now)) }

    // Where the writer fails, no line but that of the due day has begun to go out.
    ensures some { OnErr result
        (AppendsSome (W.contents out.old) (W.contents out.new)
        (written_line (due_asked unit.now count.now offset.now day.now))) }
{
    match due_of(unit, count, offset, day) {
        Ok(due) => {
            write_out(&line_of(due), out)?;
            Ok(None)
        }
        Err(refusal) => Ok(Some(refusal)),
    }
}
