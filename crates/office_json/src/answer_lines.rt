//! Answers to acts written as JSON, one a line.
ghost use Rattle.std.specs.Prelude.{◌≡◌, ℕ, ◌++◌, codes, OnErr, OnOk};
ghost use Rattle.std.specs.Fmt.{decimal};
ghost use Rattle.std.specs.Io.KnownBytes.{Appends};
ghost use Rattle.office_base.specs.Output.{AppendsSome};
ghost use Rattle.office_base.specs.Refusals.{refusal_number};
ghost use Rattle.office_base.specs.declared.refusal.Refusal.{Refusal as AnyRefusal};
ghost use Rattle.office_rules.specs.Outcomes.{outcome_word};
ghost use Rattle.office_rules.specs.declared.outcome.Outcome.{Outcome as AnyOutcome};
ghost use Rattle.office_json.specs.Answers.{answer_line, answer_lines, answer_text};

use itoa::Buffer;
use office_base::{Io, Refusal, put_bytes, put_parts};
use office_rules::{Answer, Outcome};
use std::io::Write;

/// The text of each kind of answer, letter by letter.
#[tactic(auto, unfolding(crate::specs::Answers::answer_text, serde_json::proofs::OnLiterals::serde_json_on_literals))]
pub fn law_of_answer_texts()
    ensures done { answer_text Answer.Done ≡ codes "{\"done\":true}" }
    ensures number { (n : ℕ)
        → answer_text (Answer.Number n) ≡ codes "{\"number\":" ++ decimal n ++ codes "}" }
    ensures same { (n : ℕ)
        → answer_text (Answer.Same n)
        ≡ codes "{\"number\":" ++ decimal n ++ codes ",\"same\":true}" }
    ensures step { (n : ℕ) (outcome : AnyOutcome)
        → answer_text (Answer.Step n outcome)
        ≡ codes "{\"outcome\":\"" ++ outcome_word outcome ++ codes "\",\"record\":" ++ decimal n
        ++ codes "}" }
    ensures run_closed { (n : ℕ)
        → answer_text (Answer.RunClosed n) ≡ codes "{\"certificate\":" ++ decimal n ++ codes "}" }
    ensures refused { (refusal : AnyRefusal)
        → answer_text (Answer.Refused refusal)
        ≡ codes "{\"refused\":" ++ decimal (refusal_number refusal) ++ codes "}" }
{}

/// Writes a number between two texts.
fn put_numbered<W: Write>(before: &[u8], number: u32, after: &[u8], out: &mut W) -> Result<(), Io>
    ensures ok { OnOk result (Appends (W.contents out.old) (W.contents out.new)
        (before.now ++ (decimal number ++ after.now))) }
    ensures err { OnErr result (AppendsSome (W.contents out.old) (W.contents out.new)
        (before.now ++ (decimal number ++ after.now))) }
{
    let mut digits = Buffer::new();
    put_parts(&[before, digits.format(number).as_bytes(), after], out)
}

/// Writes what came of a record.
fn put_step<W: Write>(record_no: u32, outcome: Outcome, out: &mut W) -> Result<(), Io>
    ensures ok { OnOk result (Appends (W.contents out.old) (W.contents out.new)
        (codes "{\"outcome\":\"" ++ (outcome_word outcome ++ (codes "\",\"record\":"
        ++ (decimal record_no ++ codes "}\n"))))) }
    ensures err { OnErr result (AppendsSome (W.contents out.old) (W.contents out.new)
        (codes "{\"outcome\":\"" ++ (outcome_word outcome ++ (codes "\",\"record\":"
        ++ (decimal record_no ++ codes "}\n"))))) }
{
    let mut digits = Buffer::new();
    put_parts(
        &[
            b"{\"outcome\":\"",
            outcome.text().as_bytes(),
            b"\",\"record\":",
            digits.format(record_no).as_bytes(),
            b"}\n",
        ],
        out,
    )
}

/// Writes that an act is refused, and why.
fn put_refused<W: Write>(refusal: Refusal, out: &mut W) -> Result<(), Io>
    ensures ok { OnOk result (Appends (W.contents out.old) (W.contents out.new)
        (codes "{\"refused\":" ++ (decimal (refusal_number refusal) ++ codes "}\n"))) }
    ensures err { OnErr result (AppendsSome (W.contents out.old) (W.contents out.new)
        (codes "{\"refused\":" ++ (decimal (refusal_number refusal) ++ codes "}\n"))) }
{
    let mut digits = Buffer::new();
    put_parts(
        &[
            b"{\"refused\":",
            digits.format(refusal.number()).as_bytes(),
            b"}\n",
        ],
        out,
    )
}

/// Writes the line of an answer.
fn write_answer<W: Write>(answer: &Answer, out: &mut W) -> Result<(), Io>
    ensures ok { OnOk result
        (Appends (W.contents out.old) (W.contents out.new) (answer_line answer.now)) }
    ensures err { OnErr result
        (AppendsSome (W.contents out.old) (W.contents out.new) (answer_line answer.now)) }
{
    match *answer {
        Answer::Done => put_bytes(b"{\"done\":true}\n", out),
        Answer::Number(number) => put_numbered(b"{\"number\":", number, b"}\n", out),
        Answer::Same(record_no) => put_numbered(
            b"{\"number\":",
            record_no,
            b",\"same\":true}\n",
            out,
        ),
        Answer::Step(record_no, outcome) => put_step(record_no, outcome, out),
        Answer::RunClosed(run_no) => { put_numbered(b"{\"certificate\":", run_no, b"}\n", out) }
        Answer::Refused(refusal) => put_refused(refusal, out),
    }
}

/// Writes a line of JSON for each answer, in their order, and flushes. It takes no memory. `Io`
/// comes where the writer answered an error; the first bytes of the lines, or none, went out then.
#[tactic(auto, using(crate::proofs::Appending::appends_both, crate::proofs::Appending::appends_none))]
pub fn write_answers<W: Write>(answers: &[Answer], out: &mut W) -> Result<(), Io>
    ensures ok { OnOk result
        (Appends (W.contents out.old) (W.contents out.new) (answer_lines answers.now)) }
    ensures err { OnErr result
        (AppendsSome (W.contents out.old) (W.contents out.new) (answer_lines answers.now)) }
{
    for answer in answers {
        write_answer(answer, out)?;
    }
    out.flush().or(Err(Io))
}
