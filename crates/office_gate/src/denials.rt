//! The replies to what a name may not do.
ghost use Rattle.std.specs.Prelude.{◌≡◌, IfOk};
ghost use Rattle.std.specs.Option.{option_copied, option_map};
ghost use Rattle.office_access.specs.Words.{denial_rule, denial_word, rule_word};
ghost use Rattle.office_gate.specs.Replies.{denial_response, denied_response, token_response};
ghost use Rattle.office_http.specs.Replies.{response};

use office_access::Denial;
use office_base::Memory;
use office_http::{Allow, Body, MediaType, Reply, Status};
use office_json::{DenialText, denial_value, denied_value};
use office_rules::Answer;
use office_wire::json_reply;
use std::alloc::Global;

/// The words of a denial.
fn text_of(denial: Denial) -> DenialText<'static>
    ensures reason { result.reason.now ≡ denial_word denial }
    ensures rule { option_copied result.rule ≡ option_map rule_word (denial_rule denial) }
{
    let rule = match denial.rule() {
        Some(rule) => Some(rule.text()),
        None => None,
    };
    DenialText {
        reason: denial.text(),
        rule,
    }
}

/// Reports why nothing is done or read: status 403 with `{"error":REASON,"rule":RULE}`.
#[tactic(auto, unfolding(crate::specs::Replies::denial_response))]
pub fn denial_reply(alloc: Global, denial: Denial) -> Result<Reply, Memory>
    ensures { IfOk result (λ reply. response reply ≡ denial_response denial) }
{
    let value = denial_value(alloc, &text_of(denial))?;
    json_reply(alloc, Status::Forbidden, &value)
}

/// Reports why the act at a place, from 0, is not done, and the answers to the acts before it: status
/// 403 with `{"answers":[..],"error":REASON,"place":P,"rule":RULE}`.
#[tactic(auto, unfolding(crate::specs::Replies::denied_response))]
pub fn denied_reply(
    alloc: Global,
    denial: Denial,
    place: usize,
    answers: &[Answer],
) -> Result<Reply, Memory>
    ensures { IfOk result (λ reply. response reply ≡ denied_response denial place answers.now) }
{
    let value = denied_value(alloc, answers, place as u64, &text_of(denial))?;
    json_reply(alloc, Status::Forbidden, &value)
}

/// Reports that no proxy states who signed in: status 403 with `{"error":"token"}`.
#[tactic(auto, unfolding(crate::specs::Replies::token_response))]
pub fn token_reply() -> Reply
    ensures { response result ≡ token_response }
{
    Reply {
        status: Status::Forbidden,
        media_type: MediaType::Json,
        allow: Allow::Absent,
        body: Body::Fixed(b"{\"error\":\"token\"}"),
    }
}
