//! Values as texts that people and other programs read: X.680's notation of values, and JSON (X.697).
//!
//! | Item | What it is | In `specs/` |
//! |---|---|---|
//! | [`value_text`] | a value in X.680's notation, a line for each component and element | `Texts`, `Refusals` |
//! | [`json_text`] | a value as JSON, in one line | `Texts`, `Refusals` |
//!
//! A text is written by an encoder, so every type that implements `Encode` has both. Names of components, alternatives and items are
//! those of the tables; components that are absent or have their DEFAULT are left out.
//!
//! | Type | Notation of values (X.680) | JSON (X.697) |
//! |---|---|---|
//! | BOOLEAN, NULL | `TRUE`, `NULL` | `true`, `null` |
//! | INTEGER of any size | decimal digits | decimal digits |
//! | ENUMERATED | the name of the item, or the number of one that the table has not | `"name"`, or the number |
//! | BIT STRING | `'101'B` | `{"value":"A0","length":3}`; `"A0"` if all strings of the type have one length |
//! | OCTET STRING | `'636E'H -- "cn" --`, without the comment if they are no text that can be shown, or one with `--` | `"636E"` |
//! | OBJECT IDENTIFIER | `{1 2 840}` | `"1.2.840"` |
//! | strings of characters, times | `"a""b"`; with characters that cannot be shown `{"a", {0, 0, 0, 10}}` | a string of the characters |
//! | SEQUENCE, SET | `{ a 1, b TRUE }` | an object |
//! | SEQUENCE OF, SET OF | `{ 1, 2 }` | an array |
//! | CHOICE | `name : value` | an object of one member |
//! | open type | `'0500'H`, its octets | `"0500"`, its octets, where X.697 has the value inside |
//! | a type under a tag | its value | its value |
//!
//! The digits of an INTEGER beyond 128 bits take time in line with the square of its octets.
//! The octets of a TeletexString, a GraphicString and a GeneralString are taken for the characters of these numbers. A value that has no
//! JSON is refused: half of a surrogate pair in a BMPString, two components of one name in an object, and more than 128 nested brackets.
//!
//! The contracts promise:
//!
//! - A text in X.680's notation is made unless memory runs out or the value is nested deeper than the depth (`text_format` of
//!   `specs/Texts.antt`). JSON may be refused besides; no clause says when.
//! - A text of JSON is one document, no object of which has a name twice (`one_document` of [`json_text`]): each is read by the parser
//!   of the kit before it is answered. It is one line (`one_line`).
//!
//! No contract says which value a text has: the relations of the encoder hold of how the scopes are nested and of nothing else. The
//! program test_texts is the test, beside Erlang's compiler (bench/texts.py).
#![tactic(auto)]

ghost use Rattle.asn1_model.specs.Meaning.{own_records};
ghost use Rattle.asn1_rules.specs.Rules.{WritesWhole};
ghost use Rattle.asn1_value_text.specs.Texts.{IsOneLine, text_format};
ghost use Rattle.json.specs.Json.{document};
ghost use Rattle.json.specs.Strict.{HasUniqueKeys};
ghost use Rattle.std.specs.Prelude.{⊤, IfOk, IsSomeAnd};
ghost use Rattle.std.specs.String.{string_bytes};

mod characters;
mod digits;
mod document;
mod encoder;
mod jer;
mod layout;
mod notation;
mod scope;
mod sizes;
mod text_form;

use crate::document::check_document;
use crate::encoder::TextEncoder;
use crate::jer::JsonText;
use crate::notation::ValueNotation;
use crate::text_form::TextForm;
use asn1_enc::{Encode, EncodeError};
use std::alloc::Global;

/// The text of a value in X.680's notation of values with at most this many nested scopes.
/// It has no line feed at its end.
///
/// # Errors
/// [`EncodeError::Depth`] only if the value is nested deeper than the depth, and otherwise [`EncodeError::Memory`].
pub fn value_text<T: Encode>(alloc: Global, value: &T, depth: usize) -> Result<String, EncodeError>
    ensures { WritesWhole (text_format ⊥) (own_records T.meaning value.now)
        (T.meaning.IsOfType value.now) depth result }
{
    write_text::<ValueNotation, T>(alloc, value, depth)
}

/// The JSON of a value, by the JSON encoding rules (X.697), in one line without a line feed, with at most this many nested scopes.
///
/// # Errors
/// [`EncodeError::Depth`] only if the value is nested deeper than the depth, [`EncodeError::Custom`] if it has no JSON, and otherwise
/// [`EncodeError::Memory`].
pub fn json_text<T: Encode>(alloc: Global, value: &T, depth: usize) -> Result<String, EncodeError>
    ensures written { WritesWhole (text_format ⊤) (own_records T.meaning value.now)
        (T.meaning.IsOfType value.now) depth result }
    ensures one_document { IfOk result (λ text.
        IsSomeAnd (document (string_bytes text)) HasUniqueKeys) }
    ensures one_line { IfOk result (λ text. IsOneLine (string_bytes text)) }
{
    let text = write_text::<JsonText, T>(alloc, value, depth)?;
    check_document(alloc, text.as_str())?;
    Ok(text)
}

/// Writes a value in a notation.
fn write_text<F: TextForm, T: Encode>(
    alloc: Global,
    value: &T,
    depth: usize,
) -> Result<String, EncodeError>
    ensures { WritesWhole (text_format F.MayRefuse) (own_records T.meaning value.now)
        (T.meaning.IsOfType value.now) depth result }
{
    let mut encoder = TextEncoder::<F>::new(alloc, depth);
    value.encode(&mut encoder)?;
    encoder.finish()
}
