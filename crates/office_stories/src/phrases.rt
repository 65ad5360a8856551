//! The words of acts and of answers, and the JSON that they mean.
use crate::failures::failure;
use base64::engine::general_purpose::STANDARD;
use office_proof::digest_of;
use std::alloc::{AllocError, Global};
use std::test::Fail;

/// A line for each kind of act and then of answer. A word in angle brackets represents any word,
/// `<content>` for the content of that text in base64, and `<received>` for its digest.
const PHRASES: &str = r#"
<day> add-schedule <code> <trigger> <unit> <count> <action> | {"act":"add-schedule","day":"<day>","code":"<code>","trigger":"<trigger>","unit":"<unit>","count":<count>,"offset":"none","action":"<action>"}
<day> add-class <code> <schedule> | {"act":"add-class","day":"<day>","code":"<code>","title":"<code>","schedule":"<schedule>"}
<day> set-class-schedule <class> <schedule> | {"act":"set-class-schedule","day":"<day>","class":"<class>","schedule":"<schedule>"}
<day> add-root <ref> <class> | {"act":"add-aggregation","day":"<day>","ref":"<ref>","title":"<ref>","class":"<class>"}
<day> add-child <ref> <parent> <class> | {"act":"add-aggregation","day":"<day>","ref":"<ref>","title":"<ref>","parent":<parent>,"class":"<class>"}
<day> close-aggregation <aggregation> | {"act":"close-aggregation","day":"<day>","aggregation":<aggregation>}
<day> add-record <ref> <aggregation> <content> | {"act":"add-record","day":"<day>","ref":"<ref>","title":"<ref>","originated":"2024-01-02","aggregation":<aggregation>,"content":"<content>"}
<day> set-record-schedule <record> <schedule> | {"act":"set-record-schedule","day":"<day>","record":<record>,"schedule":"<schedule>"}
<day> reclassify <kind> <number> <class> | {"act":"reclassify","day":"<day>","target":"<kind>:<number>","class":"<class>"}
<day> place-hold <hold> | {"act":"place-hold","day":"<day>","code":"<hold>","reason":"court","by":"registrar"}
<day> hold-on <hold> <kind> <name> | {"act":"hold-on","day":"<day>","hold":"<hold>","target":"<kind>:<name>"}
<day> hold-off <hold> <kind> <name> | {"act":"hold-off","day":"<day>","hold":"<hold>","target":"<kind>:<name>"}
<day> lift-hold <hold> | {"act":"lift-hold","day":"<day>","hold":"<hold>"}
<day> confirm <record> <action> | {"act":"confirm","day":"<day>","record":<record>,"action":"<action>","by":"registrar"}
<day> review <record> <schedule> | {"act":"review","day":"<day>","record":<record>,"schedule":"<schedule>","by":"registrar"}
<day> receipt <record> <received> | {"act":"receipt","day":"<day>","record":<record>,"digest":"<received>","by":"registrar"}
<day> event <record> <occurred> | {"act":"event","day":"<day>","record":<record>,"occurred":"<occurred>","by":"registrar"}
<day> open-run | {"act":"open-run","day":"<day>","by":"registrar"}
<day> run-step | {"act":"run-step"}
done | {"done":true}
number <number> | {"number":<number>}
same <number> | {"number":<number>,"same":true}
step <record> <outcome> | {"outcome":"<outcome>","record":<record>}
closed <run> | {"certificate":<run>}
refused <refusal> | {"refused":<refusal>}
fault <fault> | {"fault":<fault>}
"#;

/// Whether the words of a phrase represent those of a row.
fn fits(phrase: &str, words: &str) -> bool {
    phrase.split(' ').count() == words.split(' ').count()
        && phrase
            .split(' ')
            .zip(words.split(' '))
            .all(|(name, word)| name == word || name.starts_with('<'))
}

/// The phrase of those words, with its JSON.
fn phrase_of(words: &str) -> Option<(&'static str, &'static str)> {
    for line in PHRASES.lines() {
        if let Some((phrase, json)) = line.split_once(" | ")
            && fits(phrase, words)
        {
            return Some((phrase, json));
        }
    }
    None
}

/// The bytes of a content, none where it is a hyphen.
fn bytes_of(word: &str) -> &[u8] {
    if word == "-" {
        return "".as_bytes();
    }
    word.as_bytes()
}

/// What represents a word in JSON.
fn value_of(alloc: Global, name: &str, word: &str) -> Result<String, AllocError> {
    match name {
        "<content>" => STANDARD.encode(alloc, bytes_of(word)),
        "<received>" => hex::encode(alloc, digest_of(bytes_of(word))),
        _ => String::from_str(alloc, word),
    }
}

/// JSON in which the words are in place of their names.
fn filled(alloc: Global, phrase: &str, words: &str, json: &str) -> Result<String, AllocError> {
    let mut text = String::from_str(alloc, json)?;
    for (name, word) in phrase.split(' ').zip(words.split(' ')) {
        let value = value_of(alloc, name, word)?;
        text = text.as_str().replace(alloc, name, value.as_str())?;
    }
    text.as_str().replace(alloc, "\"-\"", "null")
}

/// The JSON that words represent; JSON represents itself.
pub(crate) fn json_of(alloc: Global, words: &str) -> Result<String, Fail> {
    if words.starts_with('{') {
        return Ok(String::from_str(alloc, words)?);
    }
    match phrase_of(words) {
        Some((phrase, json)) => Ok(filled(alloc, phrase, words, json)?),
        None => Err(failure("no such words", words)),
    }
}
