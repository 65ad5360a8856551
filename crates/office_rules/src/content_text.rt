//! The content of a record as a text in base64.
ghost use Rattle.std.specs.Prelude.{◌≡◌, IfOk, Some, option_map};
ghost use Rattle.office_rules.specs.ContentTexts.{content_named, content_of};
ghost use Rattle.office_rules.specs.Parts.{IsReadAs};

use crate::{Content, ReadFault};
use base64::DecodeAllocError;
use base64::engine::general_purpose::STANDARD;
use office_base::{Memory, Refusal};
use std::alloc::Global;

/// These bytes as a content; `BadNumber` where there are too many.
fn bounded(bytes: Vec<u8>) -> Result<Content, Refusal>
    ensures { result ≡ content_of (Some bytes.items) }
{
    match Content::new(bytes) {
        Some(content) => Ok(content),
        None => Err(Refusal::BadNumber),
    }
}

/// What [`read_content`] gives once there was memory for it, as the other parts of an act are
/// given.
pub fn as_part(content: Result<Content, Refusal>) -> Result<Content, ReadFault>
    ensures { IsReadAs content result }
{
    match content {
        Ok(content) => Ok(content),
        Err(refusal) => Err(ReadFault::Refused(refusal)),
    }
}

/// The bytes that a text encodes; `None` where it is not what encoding writes.
#[tactic(auto, unfolding(base64::specs::GeneralPurpose::decoded_of))]
fn decoded(alloc: Global, text: &str) -> Result<Option<Vec<u8>>, Memory>
    ensures { IfOk result (λ o. option_map (λ v. v.items) o ≡ content_named text.now) }
{
    match STANDARD.decode(alloc, text.as_bytes()) {
        Ok(bytes) => Ok(Some(bytes)),
        Err(DecodeAllocError::OutOfMemory) => Err(Memory),
        Err(_) => Ok(None),
    }
}

/// The content that a text encodes in base64; `BadText` where it is not what encoding writes,
/// `BadNumber` where it encodes more than 262,144 bytes. `Memory` comes where it could not be
/// decoded.
pub fn read_content(alloc: Global, text: &str) -> Result<Result<Content, Refusal>, Memory>
    ensures { IfOk result (λ content. content ≡ content_of (content_named text.now)) }
{
    match decoded(alloc, text)? {
        Some(bytes) => Ok(bounded(bytes)),
        None => Ok(Err(Refusal::BadText)),
    }
}
