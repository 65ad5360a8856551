//! The check of a whole journal.
ghost use Rattle.std.specs.Prelude.{◌≡◌, ◌==◌, IfOk, position};
ghost use Rattle.office_journal.specs.Journals.{IsJournal, checked};

use crate::{Head, WrongLine, follow};

/// What a check found: the head of the journal, and how many bytes of a torn line come after its
/// last line feed.
#[derive(Clone, Copy, PartialEq, Eq, Debug)]
pub struct Checked {
    pub head: Head,
    pub torn: usize,
}

/// Returns where the first line feed is.
fn line_end(text: &[u8]) -> Option<usize>
    ensures { result ≡ position (λ b. b == 10) text.now }
{
    text.iter().position(|byte| *byte == b'\n')
}

/// Checks a journal, given as bytes, which goes on from a head: from [`Head::start`], if the
/// journal begins here. Each line ends with a line feed, and comes right after the one before. What
/// follows the last line feed is a torn line, which a stop in the middle of a writing left. The
/// error names the first line that is wrong. It takes no memory.
#[tactic(auto, unfolding(crate::specs::Journals::checked))]
pub fn check_journal(start: &Head, text: &[u8]) -> Result<Checked, WrongLine>
    // The text is lines that lead from one head to the other, and a torn line.
    ensures journal { IfOk result (IsJournal start.now text.now) }
    // The first wrong line is named.
    ensures exact { result ≡ checked start.now text.now }
{
    let mut head = *start;
    let mut rest = text;
    'lines: for before in 0..text.len() {
        let end = match line_end(rest) {
            Some(end) => end,
            None => {
                return Ok(Checked {
                    head,
                    torn: rest.len(),
                });
            }
        };
        head = match follow(&head, &rest[..end]) {
            Ok(head) => head,
            Err(wrong) => {
                return Err(WrongLine {
                    place: before + 1,
                    wrong,
                });
            }
        };
        let (_, after) = rest.split_at(end + 1);
        rest = after;
    }
    Ok(Checked { head, torn: 0 })
}
