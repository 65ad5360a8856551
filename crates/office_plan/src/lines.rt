//! Bytes taken apart into lines.
ghost use Rattle.std.specs.Prelude.{◌≡◌, ◌<◌, ◌==◌, ◌↔◌, [], ◌∷◌, length, IsNone, IfSome};
ghost use Rattle.std.specs.List.{position};
ghost use Rattle.std.specs.Str.Lines.{lines, strip_carriage_return};

/// Where the first line feed is.
fn first_feed(rest: &[u8]) -> Option<usize>
    ensures { result ≡ position (λ byte. byte == 10) rest.now }
{
    rest.iter().position(|byte| *byte == b'\n')
}

/// The bytes without the one carriage return at their end, if they have one.
fn without_return(line: &[u8]) -> &[u8]
    ensures { result.now ≡ strip_carriage_return line.now }
{
    line.strip_suffix(b"\r").unwrap_or(line)
}

/// Splits the first line off some bytes: the line, and what comes after it. A line ends by a line
/// feed, and one carriage return before that belongs to the end; the last line may lack its line
/// feed, and then keeps a carriage return. Where no byte is left there is no line.
pub fn next_line(rest: &[u8]) -> Option<(&[u8], &[u8])>
    ensures none { IsNone result ↔ (rest.now ≡ []) }
    ensures first { IfSome result (λ parts. lines rest.now ≡ parts.0.now ∷ lines parts.1.now) }
    ensures shorter { IfSome result (λ parts. length parts.1.now < length rest.now) }
{
    if rest.is_empty() {
        return None;
    }
    match first_feed(rest) {
        Some(end) => Some((without_return(&rest[..end]), &rest[end + 1..])),
        None => Some((rest, &[])),
    }
}
