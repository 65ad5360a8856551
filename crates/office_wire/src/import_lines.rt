//! The lines that an import writes, so that what went out is known where the writer failed.
ghost use Rattle.std.specs.Prelude.{◌++◌, OnErr, OnOk, codes};
ghost use Rattle.std.specs.Fmt.{decimal};
ghost use Rattle.std.specs.Io.KnownBytes.{Appends};
ghost use Rattle.office_base.specs.Output.{AppendsSome};
ghost use Rattle.office_wire.specs.Importing.{line_of, line_with};

use itoa::Buffer;
use office_base::{Io, put_bytes};
use office_rules::Answer;
use std::io::Write;

/// Writes a number in decimal digits.
fn put_number<W: Write>(number: u64, out: &mut W) -> Result<(), Io>
    ensures ok { OnOk result (Appends (W.contents out.old) (W.contents out.new) (decimal number)) }
    ensures err { OnErr result
        (AppendsSome (W.contents out.old) (W.contents out.new) (decimal number)) }
{
    let mut digits = Buffer::new();
    put_bytes(digits.format(number).as_bytes(), out)
}

/// Writes a number, and the end of its line.
#[tactic(auto, using(office_base::proofs::Written::all_then, office_base::proofs::Written::some_then, office_base::proofs::Written::some_before))]
fn put_last<W: Write>(number: u64, out: &mut W) -> Result<(), Io>
    ensures ok { OnOk result
        (Appends (W.contents out.old) (W.contents out.new) (decimal number ++ codes "\n")) }
    ensures err { OnErr result
        (AppendsSome (W.contents out.old) (W.contents out.new) (decimal number ++ codes "\n")) }
{
    put_number(number, out)?;
    put_bytes(b"\n", out)
}

/// Writes a word, and the number at the end of its line.
#[tactic(auto, using(office_base::proofs::Written::all_then, office_base::proofs::Written::some_then, office_base::proofs::Written::some_before))]
fn put_word<W: Write>(word: &[u8], n: u64, out: &mut W) -> Result<(), Io>
    ensures ok { OnOk result (Appends (W.contents out.old) (W.contents out.new)
        (word.now ++ (decimal n ++ codes "\n"))) }
    ensures err { OnErr result (AppendsSome (W.contents out.old) (W.contents out.new)
        (word.now ++ (decimal n ++ codes "\n"))) }
{
    put_bytes(word, out)?;
    put_last(n, out)
}

/// Writes a line of a number, a word and another number.
#[tactic(auto, using(office_base::proofs::Written::all_then, office_base::proofs::Written::some_then, office_base::proofs::Written::some_before))]
fn put_line<W: Write>(number: u64, word: &[u8], n: u64, out: &mut W) -> Result<(), Io>
    ensures ok { OnOk result
        (Appends (W.contents out.old) (W.contents out.new) (line_with number word.now n)) }
    ensures err { OnErr result
        (AppendsSome (W.contents out.old) (W.contents out.new) (line_with number word.now n)) }
{
    put_number(number, out)?;
    put_word(word, n, out)
}

/// Writes the line of a row: its number, and what was answered to it. `Io` comes where the writer
/// answered an error, and then some of the line, or nothing of it, went out.
#[tactic(auto, unfolding(crate::specs::Importing::line_of))]
pub(crate) fn write_line<W: Write>(number: u64, answer: Answer, out: &mut W) -> Result<(), Io>
    ensures ok { OnOk result
        (Appends (W.contents out.old) (W.contents out.new) (line_of number answer)) }
    ensures err { OnErr result
        (AppendsSome (W.contents out.old) (W.contents out.new) (line_of number answer)) }
{
    match answer {
        Answer::Number(n) => put_line(number, b" number ", u64::from(n), out),
        Answer::Same(n) => put_line(number, b" same ", u64::from(n), out),
        Answer::Refused(why) => put_line(number, b" refused ", u64::from(why.number()), out),
        Answer::Done | Answer::Step(_, _) | Answer::RunClosed(_) => put_last(number, out),
    }
}
