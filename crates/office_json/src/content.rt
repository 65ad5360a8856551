//! The content of a record as a member of an act.
ghost use Rattle.std.specs.Prelude.{◌≡◌, IfOk, IsSome, OnErr, option_and_then};
ghost use Rattle.serde_json.specs.Find.{as_str, get};
ghost use Rattle.serde_json.specs.View.{view};
ghost use Rattle.office_json.specs.Contents.{TakesEncodings, content_part};

use crate::members::text_at;
use office_base::{Memory, Refusal};
use office_rules::{Content, read_content};
use serde_json::Value;
use std::alloc::Global;

/// A content. A text is decoded before it is known to be one, so memory may run out for one that
/// is refused.
#[tactic(auto, unfolding(crate::specs::Contents::content_part))]
pub(crate) fn content_at(
    alloc: Global,
    value: &Value,
    name: &str,
) -> Result<Result<Content, Refusal>, Memory>
    ensures part { IfOk result (λ part. part ≡ content_part (get name.now (view value.now))) }
    ensures text { OnErr result (IsSome (option_and_then as_str (get name.now (view value.now)))) }
{
    let Some(text) = text_at(value, name) else {
        return Ok(Err(Refusal::BadText));
    };
    read_content(alloc, text)
}

/// Makes known to proofs that a text is taken as a content's bytes exactly where it is what
/// encoding them writes: a call does nothing.
pub fn law_of_contents()
    ensures { TakesEncodings }
{}
