//! What the head of a journal fixes, as a law that is proved: the call does nothing.
ghost use Rattle.std.specs.Prelude.{◌≡◌, ◌⊎◌, ◌<◌, ◌+◌, ◌-◌, ◌^◌, ◌++◌, ◌∷◌, ℕ, List, Ok, Some, length, map, take};
ghost use Rattle.json.specs.Json.{document};
ghost use Rattle.office_journal.specs.Chain.{Collision, IsDigest, LeadTo};
ghost use Rattle.office_journal.specs.declared.head.Head.{Head};
ghost use Rattle.office_journal.specs.declared.check.Checked.{Checked};
ghost use Rattle.office_journal.specs.declared.line.Line.{Line};
ghost use Rattle.office_journal.specs.Journals.{checked};
ghost use Rattle.office_journal.specs.Lines.{head_of, line_bytes, start};
ghost use Rattle.office_journal.specs.Members.{AreShallow, AreWritable, Field};
ghost use Rattle.office_journal.specs.Noting.{AllWritable, GoOn, last_of, left_by_stop, line_of};
ghost use Rattle.office_journal.specs.ReadBack.{line_object};
ghost use Rattle.office_journal.specs.Order.{Event, IsJournaled};

/// Two journals that lead from one head to one other have the same lines, byte by byte, or two
/// texts are at hand that have one SHA-256. So no line is changed, cut out, added or moved under a
/// head that somebody wrote down.
pub fn law_of_a_kept_head()
    ensures { (start last : Head) (lines others : List (List ℕ)) → IsDigest start.digest
        → LeadTo start lines last → LeadTo start others last
        → ((lines ≡ others) ⊎ Collision) }
{}

/// The lines of which a head is known are, as bytes, lines that lead to it.
pub fn law_of_written_lines()
    ensures { (lines : List Line) (head : Head) → head_of lines ≡ Some head
        → LeadTo start (map line_bytes lines) head }
{}

/// A journal that a head ends and the bytes that go on from this head are one journal. So what a
/// writer has written since a journal was opened is checked together with what was there.
pub fn law_of_more_lines()
    ensures { (start head : Head) (text more : List ℕ) (read : Checked) → GoOn start text head
        → checked head more ≡ Ok read → checked start (text ++ more) ≡ Ok read }
{}

/// Whatever a stop leaves of lines that were written after a head is a journal: its head is that of
/// the whole lines, and the bytes of the line that was torn are reported.
pub fn law_of_a_stop()
    ensures { (head : Head) (lines : List (List Field)) (next : List Field) (count : ℕ)
        → IsDigest head.digest → AllWritable lines → AreWritable next
        → head.line + length lines < 2 ^ 64 - 1
        → checked head (left_by_stop head lines next count) ≡ Ok (record {
          head = last_of head lines;
          torn = length (take count (line_of (last_of head lines) next));
        }) }
{}

/// A line that was written is read as the object that was noted: the digest of the line before, the
/// number, and each member with its value, in order. So what is escaped for a terminal is no other
/// text. The reader of the crate `json` reads 128 levels, of which the line is one.
pub fn law_of_a_line_read_back()
    ensures { (head : Head) (field : Field) (fields : List Field) → IsDigest head.digest
        → head.line < 2 ^ 64 - 1 → AreWritable (field ∷ fields) → AreShallow (field ∷ fields)
        → document (line_of head (field ∷ fields)) ≡ Some (line_object head (field ∷ fields)) }
{}

/// If each of two requests is journaled, one after the other is.
pub fn law_of_joined_requests()
    ensures { (one other : List Event) → IsJournaled one → IsJournaled other
        → IsJournaled (one ++ other) }
{}
