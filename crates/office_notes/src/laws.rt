//! What the note of an act says of the act.
ghost use Rattle.std.specs.Prelude.{◌≡◌, ◌<◌, ℕ, List, Ok, Some};
ghost use Rattle.std.specs.List.{All, AllByRecursion};
ghost use Rattle.serde_json.specs.Data.{Data};
ghost use Rattle.serde_json.specs.Read.{read};
ghost use Rattle.office_json.specs.Acts.{parsed_act};
ghost use Rattle.office_notes.specs.Acts.{noted, notes, whole};
ghost use Rattle.office_notes.specs.Laws.{AreSameButContents, AreThingNumbers, HasBytes, IsReadable, IsSameButContent, numbers_of};
ghost use Rattle.office_records.specs.Forms.{IsDigest};
ghost use Rattle.office_rules.specs.declared.act.Act.{Act};

use office_rules::Act;

/// The JSON of an act, with its content in base64, is read as that act. The types of an act see to
/// all that it needs for that but to its numbers, and an act that was read has such numbers.
pub fn law_of_readings()
    ensures whole { (a : Act) → IsReadable a → parsed_act (whole a) ≡ Ok a }
    ensures numbers { (d : Data) (a : Act) → parsed_act d ≡ Ok a → AreThingNumbers (numbers_of a) }
{}

/// Two acts that can be read and have the same note are the same act, up to a content of the same
/// length and SHA-256. So are two lists, act by act, if one text is read as the notes of both.
pub fn law_of_notes()
    ensures act { (a b : Act) → IsReadable a → IsReadable b → noted a ≡ noted b
        → IsSameButContent a b }
    ensures text { (text : List ℕ) (acts others : List Act) → AllByRecursion IsReadable acts
        → AllByRecursion IsReadable others → read text ≡ Some (notes acts)
        → read text ≡ Some (notes others) → AreSameButContents acts others }
{}

/// Each byte is below 256.
fn well_formed_bytes(bytes: &[u8])
    ensures { All (λ b. b < 256) bytes.now }
{
    let _ = bytes.len();
}

/// A digest has 32 bytes.
fn well_formed_digest(digest: &[u8; 32])
    ensures { IsDigest digest.now }
{
    well_formed_bytes(digest);
}

/// The bytes of a content are bytes, and a digest has 32.
fn has_bytes(act: &Act)
    ensures { HasBytes act.now }
{
    match act {
        Act::AddRecord { content, .. } => well_formed_bytes(content.bytes()),
        Act::Receipt { digest, .. } => well_formed_digest(digest),
        _ => {}
    }
}

/// An act can be read if its numbers are those of aggregations and records: its types see to the
/// rest.
pub fn law_of_forms(act: &Act)
    ensures { AreThingNumbers (numbers_of act.now) → IsReadable act.now }
{
    act.formed();
    has_bytes(act);
}
