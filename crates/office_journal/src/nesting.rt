//! Whether bytes are one object of JSON, as far as braces and quotes say so.
ghost use Rattle.std.specs.Prelude.{◌≡◌, ◌<◌, ◌≤◌, ◌+◌};
ghost use Rattle.office_journal.specs.Journals.{after_byte, closes, is_whole, open_once};

/// How many braces are open at a byte, whether it is in a text in quotes, and whether a backslash
/// takes its meaning.
#[derive(Clone, Copy)]
pub(crate) struct Nesting {
    depth: usize,
    quoted: bool,
    escaped: bool,
}

/// Returns how braces and quotes stand after a byte.
fn after_byte(nesting: Nesting, byte: u8) -> Nesting
    requires { nesting.depth < usize.MAX }
    ensures value { result ≡ after_byte nesting byte }
    ensures depth { result.depth ≤ nesting.depth + 1 }
{
    let mut after = nesting;
    if nesting.escaped {
        after.escaped = false;
    } else if nesting.quoted {
        after.quoted = byte != b'"';
        after.escaped = byte == b'\\';
    } else if byte == b'"' {
        after.quoted = true;
    } else if byte == b'{' {
        after.depth = nesting.depth + 1;
    } else if byte == b'}' {
        after.depth = nesting.depth.saturating_sub(1);
    }
    after
}

/// Whether the last of the bytes, and none before it, closes one open brace.
fn closes(bytes: &[u8]) -> bool
    ensures { result ≡ closes open_once bytes.now }
{
    let mut nesting = Nesting {
        depth: 1,
        quoted: false,
        escaped: false,
    };
    for i in 0..bytes.len() {
        nesting = after_byte(nesting, bytes[i]);
        if nesting.depth == 0 {
            return i + 1 == bytes.len();
        }
    }
    false
}

/// Whether the last byte closes the brace that the first one opens. It is so of each line of a
/// journal, and of no beginning of one.
pub(crate) fn is_whole(bytes: &[u8]) -> bool
    ensures { result ≡ is_whole bytes.now }
{
    if bytes.is_empty() {
        return false;
    }
    bytes[0] == b'{' && closes(&bytes[1..])
}
