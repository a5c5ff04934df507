//! The texts of a value.
use crate::others::Others;
use crate::request::Request;
use asn1_dec::Decode;
use asn1_der::DerRules;
use asn1_enc::Encode;
use asn1_rules::Rules;
use asn1_value_text::{json_text, value_text};
use std::alloc::{AllocError, Global};
use test_calls::type_kinds::{Items, Samples, Sequences, Strings};
use test_calls::{TypeCase, TypeNames};

/// How many nested scopes may be open.
const DEPTH: usize = 16;

/// The types of the lines.
const TYPES: (Items, (Strings, (Sequences, (Samples, Others)))) = (
    Items,
    (Strings, (Sequences, (Samples, Others))),
);

/// The texts of the value of a request, or why there are none.
pub(crate) fn texts_of(alloc: Global, request: &Request<'_>) -> Result<String, AllocError> {
    let case = Texts { alloc, request };
    match TYPES.try_named(&case, request.type_name) {
        Some(texts) => texts,
        None => String::from_str(alloc, "no type has this name"),
    }
}

/// The texts of a value, for any type.
#[derive(Drop)]
struct Texts<'a> {
    alloc: Global,
    request: &'a Request<'a>,
}

impl TypeCase for Texts<'_> {
    type Answer = Result<String, AllocError>;

    fn try_type<T: Encode + Decode>(&self) -> Result<String, AllocError> {
        let alloc = self.alloc;
        let read: Result<T, _> = DerRules::new(alloc).read_value(&self.request.octets, DEPTH);
        let value = match read {
            Ok(value) => value,
            Err(error) => return format!(in alloc; "refused: {error}"),
        };
        let notation = match value_text(alloc, &value, DEPTH) {
            Ok(text) => text,
            Err(error) => format!(in alloc; "refused: {error}")?,
        };
        let json = match json_text(alloc, &value, DEPTH) {
            Ok(text) => text,
            Err(error) => format!(in alloc; "refused: {error}")?,
        };
        format!(in alloc; "{notation}\n{json}")
    }
}
