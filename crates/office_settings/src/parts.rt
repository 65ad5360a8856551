//! Words before a mark, and words after it.
ghost use Rattle.std.specs.Prelude.{◌≡◌, map, position};
ghost use Rattle.std.specs.Str.{bytes_eq};
ghost use Rattle.office_settings.specs.Statements.{is_condition, parted};
ghost use Rattle.office_settings.specs.Views.{parts_read};

use crate::Wrong;
use crate::tokens::is;

/// The words before a mark and those after it.
#[derive(Clone, Copy)]
pub(crate) struct Parts<'a> {
    pub(crate) before: &'a [&'a [u8]],
    pub(crate) after: &'a [&'a [u8]],
}

/// Returns the place of the first word that is the mark.
fn mark_place(mark: &str, tokens: &[&[u8]]) -> Option<usize>
    ensures { result ≡ position (λ token. bytes_eq token.now mark.now) tokens.now }
{
    tokens.iter().position(|token| is(token, mark))
}

/// Parts words at a mark, behind which at least one word follows. Without the mark all words come
/// before it.
#[tactic(auto, unfolding(crate::specs::Statements::parted))]
pub(crate) fn parted<'a>(mark: &str, tokens: &'a [&'a [u8]]) -> Result<Parts<'a>, Wrong>
    ensures { parts_read result ≡ parted mark.now (map (λ w. w.now) tokens.now) }
{
    match mark_place(mark, tokens) {
        None => Ok(Parts {
            before: tokens,
            after: &[],
        }),
        Some(place) => {
            if place + 1 < tokens.len() {
                let (_, after) = tokens.split_at(place + 1);
                Ok(Parts {
                    before: &tokens[..place],
                    after,
                })
            } else {
                Err(Wrong::NothingFollows)
            }
        }
    }
}

/// Reports whether the words after `if` are `sent` alone, or there are none.
#[tactic(auto, unfolding(crate::specs::Statements::is_condition))]
pub(crate) fn is_condition(tokens: &[&[u8]]) -> bool
    ensures { result ≡ is_condition (map (λ w. w.now) tokens.now) }
{
    match tokens {
        [] => true,
        [token] => is(token, "sent"),
        [_, _, ..] => false,
    }
}
