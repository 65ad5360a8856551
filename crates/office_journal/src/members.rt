//! The members of a line, written one after another.
ghost use Rattle.std.specs.Prelude.{◌≡◌, ◌↔◌, ◌++◌, ◌∷◌, [], Err, OnOk, IfOk, IsTrue};
ghost use Rattle.std.specs.Str.{IsUtf8};
ghost use Rattle.json.specs.Json.{document};
ghost use Rattle.json.specs.Print.{print};
ghost use Rattle.json.specs.Token.{end_object};
ghost use Rattle.office_journal.specs.Members.{AreRead, HasRoom, IsRead, Puts, digest_field, digest_fields, flag_field, flag_fields, json_fields, json_fields_if_any, number_field, number_fields, sum_field, sum_fields, text_field, text_fields, who_fields};
ghost use Rattle.office_journal.specs.Shown.{shown};

use crate::Body;
use crate::show::show;
use crate::text_error::TextError;
use json::{MAX_DEPTH, Reader, Scratch, Value, Writer};
use std::alloc::{AllocError, Global};
use std::str;

/// Begins the members behind the number of a line.
pub(crate) fn new_members(alloc: Global) -> Writer
    ensures before { result.before ≡ [] }
    ensures tokens { result.tokens ≡ [] }
{
    Writer::new(Vec::new(alloc))
}

/// Writes a member that is a text.
pub(crate) fn put_text(members: &mut Writer, name: &str, text: &str) -> Result<(), AllocError>
    ensures { OnOk result (Puts members.old members.new (text_field name.now text.now ∷ [])) }
{
    members.key(name)?;
    members.string(text)?;
    Ok(())
}

/// Writes a member that is a text, if there is one.
pub(crate) fn put_text_if_any(
    members: &mut Writer,
    name: &str,
    text: Option<&str>,
) -> Result<(), AllocError>
    ensures { OnOk result (Puts members.old members.new (text_fields name.now text.entry)) }
{
    match text {
        Some(text) => put_text(members, name, text),
        None => Ok(()),
    }
}

/// Writes the members that each line of a request begins with.
pub(crate) fn put_who(
    members: &mut Writer,
    at: &str,
    what: &str,
    who: (&str, &str),
    request: &str,
) -> Result<(), AllocError>
    ensures { OnOk result (Puts members.old members.new
        (who_fields at.now what.now who.entry.0.now who.entry.1.now request.now)) }
{
    put_text(members, "at", at)?;
    put_text(members, "what", what)?;
    put_text(members, "name", who.0)?;
    put_text(members, "from", who.1)?;
    put_text(members, "request", request)?;
    Ok(())
}

/// Writes a member that is a number.
pub(crate) fn put_number(members: &mut Writer, name: &str, number: u64) -> Result<(), AllocError>
    ensures { OnOk result (Puts members.old members.new (number_field name.now number ∷ [])) }
{
    members.key(name)?;
    members.u64(number)?;
    Ok(())
}

/// Writes a member that is a number, if there is one.
pub(crate) fn put_number_if_any(
    members: &mut Writer,
    name: &str,
    number: Option<u64>,
) -> Result<(), AllocError>
    ensures { OnOk result (Puts members.old members.new (number_fields name.now number)) }
{
    match number {
        Some(number) => put_number(members, name, number),
        None => Ok(()),
    }
}

/// Writes a member that is a SHA-256.
pub(crate) fn put_digest(
    alloc: Global,
    members: &mut Writer,
    name: &str,
    digest: [u8; 32],
) -> Result<(), AllocError>
    ensures { OnOk result (Puts members.old members.new (digest_field name.now digest ∷ [])) }
{
    let digits = hex::encode(alloc, digest)?;
    put_text(members, name, digits.as_str())
}

/// Writes a member that is a SHA-256, if there is one.
pub(crate) fn put_digest_if_any(
    alloc: Global,
    members: &mut Writer,
    name: &str,
    digest: Option<[u8; 32]>,
) -> Result<(), AllocError>
    ensures { OnOk result (Puts members.old members.new (digest_fields name.now digest)) }
{
    match digest {
        Some(digest) => put_digest(alloc, members, name, digest),
        None => Ok(()),
    }
}

/// Writes a member with the length of some bytes and their SHA-256.
pub(crate) fn put_sum(
    alloc: Global,
    members: &mut Writer,
    name: &str,
    sum: Body,
) -> Result<(), AllocError>
    ensures { OnOk result (Puts members.old members.new (sum_field name.now sum ∷ [])) }
{
    members.key(name)?;
    members.begin_object()?;
    put_number(members, "bytes", sum.bytes)?;
    put_digest(alloc, members, "sha256", sum.sha256)?;
    members.end_object()?;
    Ok(())
}

/// Writes a member with the length of some bytes and their SHA-256, if there are such bytes.
pub(crate) fn put_sum_if_any(
    alloc: Global,
    members: &mut Writer,
    name: &str,
    sum: Option<Body>,
) -> Result<(), AllocError>
    ensures { OnOk result (Puts members.old members.new (sum_fields name.now sum)) }
{
    match sum {
        Some(sum) => put_sum(alloc, members, name, sum),
        None => Ok(()),
    }
}

/// Writes a member that is true or false.
pub(crate) fn put_flag(members: &mut Writer, name: &str, flag: bool) -> Result<(), AllocError>
    ensures { OnOk result (Puts members.old members.new (flag_field name.now flag ∷ [])) }
{
    members.key(name)?;
    members.boolean(flag)?;
    Ok(())
}

/// Reports whether a text can be read with one level more around it.
fn has_room(alloc: Global, text: &str) -> Result<bool, AllocError>
    ensures { IfOk result (λ room. IsTrue room ↔ HasRoom text.now) }
{
    let mut scratch = Scratch::new(alloc);
    let mut reader = Reader::new(text, &mut scratch)?;
    Ok(reader.skip_value(MAX_DEPTH - 1).is_ok())
}

/// Writes a member that is JSON, without white space. Fails with `NoJson` if the text is no JSON, has
/// a member twice, or nests 128 deep.
pub(crate) fn put_json(
    alloc: Global,
    members: &mut Writer,
    name: &str,
    text: &str,
) -> Result<(), TextError>
    ensures put { OnOk result (Puts members.old members.new
        (json_fields name.now (document text.now))) }
    ensures read { OnOk result (IsRead text.now) }
    ensures unread { result ≡ Err TextError.NoJson → ¬ IsRead text.now }
{
    if !has_room(alloc, text)? {
        return Err(TextError::NoJson);
    }
    let mut scratch = Scratch::new(alloc);
    let value = Value::parse_strict(alloc, text, &mut scratch)?;
    members.key(name)?;
    members.value(&value)?;
    Ok(())
}

/// Writes a member that is JSON, if there is one.
pub(crate) fn put_json_if_any(
    alloc: Global,
    members: &mut Writer,
    name: &str,
    text: Option<&str>,
) -> Result<(), TextError>
    ensures put { OnOk result (Puts members.old members.new (json_fields_if_any name.now text.entry)) }
    ensures read { OnOk result (AreRead text.entry) }
    ensures unread { result ≡ Err TextError.NoJson → ¬ AreRead text.entry }
{
    match text {
        Some(text) => put_json(alloc, members, name, text),
        None => Ok(()),
    }
}

/// Writes a member only if it has this value.
pub(crate) fn put_flag_if(
    members: &mut Writer,
    name: &str,
    flag: bool,
    value: bool,
) -> Result<(), AllocError>
    ensures { OnOk result (Puts members.old members.new (flag_fields name.now flag value)) }
{
    if flag == value {
        return put_flag(members, name, flag);
    }
    Ok(())
}

/// Ends the object, and returns its members as a terminal may show them.
pub(crate) fn text_of(alloc: Global, members: Writer) -> Result<Vec<u8>, AllocError>
    requires { members.before ≡ [] }
    ensures text { IfOk result
        (λ text. text.items ≡ shown (print (members.tokens ++ end_object ∷ []))) }
    ensures utf8 { OnOk result (IsUtf8 (print (members.tokens ++ end_object ∷ []))) }
{
    let mut members = members;
    members.end_object()?;
    let bytes = members.into_inner();
    let Ok(text) = str::from_utf8(&bytes) else {
        unreachable!();
    };
    show(alloc, text)
}
