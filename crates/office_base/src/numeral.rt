//! Whole numbers written in ASCII digits, of any length.
ghost use Rattle.std.specs.Prelude.{◌≡◌, min};
ghost use Rattle.std.specs.Option.{option_map};
ghost use Rattle.std.specs.Char.{is_ascii_digit};
ghost use Rattle.std.specs.List.{list_all};
ghost use Rattle.office_base.specs.Numerals.{number_named};

/// Whether each byte of the text is an ASCII digit.
fn are_digits(text: &str) -> bool
    ensures { result ≡ list_all is_ascii_digit text.now }
{
    text.bytes().all(|byte| byte.is_ascii_digit())
}

/// The number that one or more ASCII digits write, with leading zeros or without; a number above
/// `u64::MAX`, however long, counts as `u64::MAX`, which is above every limit of the office.
/// `None` where the text is anything else: empty, signed or spaced.
pub fn read_numeral(text: &str) -> Option<u64>
    ensures { result ≡ option_map (λ n. min n u64.MAX) (number_named text.now) }
{
    if text.is_empty() || !are_digits(text) {
        return None;
    }
    Some(text.parse::<u64>().unwrap_or(u64::MAX))
}
