//! The bytes of a line as text in UTF-8.
ghost use Rattle.std.specs.Prelude.{◌≡◌, true, false};
ghost use Rattle.std.specs.Option.{MatchOption};
ghost use Rattle.std.specs.Str.{is_utf8};

/// The line as text; `None` where it is not UTF-8.
pub fn text_of(line: &[u8]) -> Option<&str>
    ensures { MatchOption result (is_utf8 line.now ≡ false)
        (λ text. (is_utf8 line.now ≡ true) × (text.now ≡ line.now)) }
{
    str::from_utf8(line).ok()
}
