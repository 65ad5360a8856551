//! Numbers of the settings.
ghost use Rattle.std.specs.Prelude.{◌≡◌, ◌<◌, ◌^◌, map};
ghost use Rattle.office_settings.specs.Numbers.{number_between, only_number};

/// Returns the number that the digits of a word write, if it lies between `least` and `most`.
#[tactic(auto, unfolding(crate::specs::Numbers::number_between))]
fn number_between(least: u64, most: u64, token: &[u8]) -> Option<u64>
    requires { most < 2 ^ 60 }
    ensures { result ≡ number_between least most token.now }
{
    if token.is_empty() {
        return None;
    }
    let mut number = 0u64;
    for i in 0..token.len() {
        let digit = token[i];
        if digit < b'0' || digit > b'9' {
            return None;
        }
        number = number * 10 + (digit - b'0') as u64;
        if number > most {
            return None;
        }
    }
    if number < least {
        return None;
    }
    Some(number)
}

/// Returns the number of the one word there is, if it lies between `least` and `most`.
#[tactic(auto, unfolding(crate::specs::Numbers::only_number))]
pub(crate) fn only_number(least: u64, most: u64, tokens: &[&[u8]]) -> Option<u64>
    requires { most < 2 ^ 60 }
    ensures { result ≡ only_number least most (map (λ w. w.now) tokens.now) }
{
    match tokens {
        [] => None,
        [token] => number_between(least, most, token),
        [_, _, ..] => None,
    }
}
