//! A journal that is opened for more lines.
ghost use Rattle.std.specs.Prelude.{◌≡◌, ◌+◌, IfErr, IfOk, Err, Ok, length, take};
ghost use Rattle.office_journal.specs.Journals.{checked};
ghost use Rattle.office_journal.specs.Noting.{GoOn};

use crate::{Checked, Head, WrongLine, check_journal};

/// The end of a journal: the head of its whole lines, how many bytes these are, and how many bytes
/// of a torn line come after them. Cut the file to `whole` bytes before the next line is written.
#[derive(Clone, Copy, PartialEq, Eq, Debug)]
pub struct Opened {
    pub head: Head,
    pub whole: usize,
    pub torn: usize,
}

/// Returns the end of a journal that goes on from a head. A torn last line does not count: it is
/// what a stop left. A torn line in the middle is an error, as any other line that is wrong.
pub fn open_journal(start: &Head, text: &[u8]) -> Result<Opened, WrongLine>
    // The whole lines lead from one head to the other.
    ensures whole { IfOk result (λ o. GoOn start.now (take o.whole text.now) o.head) }
    ensures torn { IfOk result (λ o. o.whole + o.torn ≡ length text.now) }
    // A torn line has no line feed: the lines are all that count.
    ensures last { IfOk result (λ o. checked start.now text.now
        ≡ Ok (record { head = o.head; torn = o.torn })) }
    ensures wrong { IfErr result (λ e. checked start.now text.now ≡ Err e) }
{
    let Checked { head, torn } = check_journal(start, text)?;
    Ok(Opened {
        head,
        whole: text.len() - torn,
        torn,
    })
}
