//! The classes to which a line limits rights.
ghost use Rattle.std.specs.Prelude.{◌≡◌, ◌++◌, IfOk, OnOk, map};
ghost use Rattle.std.specs.List.{flat_map};
ghost use Rattle.std.specs.Option.{option_to_list};
ghost use Rattle.office_policy.specs.Classes.{code_in, ends_with_star, limit_of, pattern_of, patterns_of};

use crate::powers::is;
use office_access::{ClassList, ClassPattern};
use office_base::Memory;
use office_records::Code;
use office_settings::text_in;
use std::alloc::Global;

/// Reads bytes as a code.
#[tactic(auto, unfolding(crate::specs::Classes::code_in))]
fn code_in(alloc: Global, bytes: &[u8]) -> Result<Option<Code>, Memory>
    ensures { IfOk result (λ code. code ≡ code_in bytes.now) }
{
    match text_in(bytes) {
        Some(text) => Code::read(alloc, text),
        None => Ok(None),
    }
}

/// Reports whether a word ends with a star.
fn ends_with_star(token: &[u8]) -> bool
    ensures { result ≡ ends_with_star token.now }
{
    !token.is_empty() && token[token.len() - 1] == b'*'
}

/// Reads the classes that a word names.
#[tactic(auto, unfolding(crate::specs::Classes::pattern_of))]
fn pattern_of(alloc: Global, token: &[u8]) -> Result<Option<ClassPattern>, Memory>
    ensures { IfOk result (λ pattern. pattern ≡ pattern_of token.now) }
{
    if is(token, "*") {
        return Ok(Some(ClassPattern::Every));
    }
    if ends_with_star(token) {
        return match code_in(alloc, &token[..token.len() - 1])? {
            Some(code) => Ok(Some(ClassPattern::Beginning(code))),
            None => Ok(None),
        };
    }
    match code_in(alloc, token)? {
        Some(code) => Ok(Some(ClassPattern::Exactly(code))),
        None => Ok(None),
    }
}

/// Appends a pattern, if there is one.
fn push_pattern(
    patterns: &mut Vec<ClassPattern>,
    pattern: Option<ClassPattern>,
) -> Result<(), Memory>
    ensures { OnOk result (patterns.new.items ≡ patterns.old.items ++ option_to_list pattern) }
{
    if let Some(pattern) = pattern {
        patterns.push(pattern)?;
    }
    Ok(())
}

/// Reads the classes that words name.
fn patterns_of(alloc: Global, classes: &[&[u8]]) -> Result<ClassList, Memory>
    ensures { IfOk result
        (λ limit. limit.patterns.items
        ≡ flat_map (λ token. option_to_list (pattern_of token.now)) classes.now) }
{
    let mut patterns = Vec::new(alloc);
    for class in classes {
        let pattern = pattern_of(alloc, class)?;
        push_pattern(&mut patterns, pattern)?;
    }
    Ok(ClassList { patterns })
}

/// Appends the limit that a line sets; without classes none.
pub(crate) fn push_limit(
    alloc: Global,
    limits: &mut Vec<ClassList>,
    classes: &[&[u8]],
) -> Result<(), Memory>
    ensures { OnOk result (map (λ limit. limit.patterns.items) limits.new.items
        ≡ map (λ limit. limit.patterns.items) limits.old.items
        ++ limit_of (map (λ w. w.now) classes.now)) }
{
    match classes {
        [] => Ok(()),
        [_, ..] => {
            let limit = patterns_of(alloc, classes)?;
            limits.push(limit)?;
            Ok(())
        }
    }
}
