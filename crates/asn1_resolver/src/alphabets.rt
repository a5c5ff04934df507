//! Permitted alphabets.
use crate::fault::Fault;
use crate::governed::{Governed, Scope, Written};
use crate::resolver::Resolver;
use asn1_names::Place;
use asn1_notation::{Constraint, EndPoint, EndValue, StringKind, TypeKind, Value};
use asn1_resolved::{CharacterRange, ConstraintKind};

impl<'r, 'a> Resolver<'r, 'a> {
    /// The constraint of the characters of a string.
    pub(crate) fn alphabet(
        &mut self,
        base: Governed<'r, 'a>,
        scope: Scope<'a>,
        constraint: &'r Constraint,
    ) -> Result<ConstraintKind, Fault> {
        let mut ranges = Vec::new(self.alloc);
        let is_known = self.add_characters(&mut ranges, base, scope, constraint)?;
        Ok(if is_known {
            ConstraintKind::Alphabet(ranges)
        } else {
            ConstraintKind::Other
        })
    }

    // Adds the characters that a constraint allows, and answers whether it is made of characters and ranges alone.
    fn add_characters(
        &mut self,
        ranges: &mut Vec<CharacterRange>,
        base: Governed<'r, 'a>,
        scope: Scope<'a>,
        constraint: &'r Constraint,
    ) -> Result<bool, Fault> {
        match &constraint.kind {
            asn1_notation::ConstraintKind::Value(value) => {
                self.add_each_character(ranges, base, scope, value)
            }
            asn1_notation::ConstraintKind::Range(lower, upper) => {
                self.add_range(ranges, base, scope, lower, upper)
            }
            asn1_notation::ConstraintKind::Union(parts) => {
                let mut are_known = true;
                for part in parts {
                    let is_known = self.add_characters(ranges, base, scope, part)?;
                    are_known = are_known && is_known;
                }
                Ok(are_known)
            }
            _ => Ok(false),
        }
    }

    // Adds each character of a string.
    fn add_each_character(
        &mut self,
        ranges: &mut Vec<CharacterRange>,
        base: Governed<'r, 'a>,
        scope: Scope<'a>,
        value: &'r Value,
    ) -> Result<bool, Fault> {
        let place = scope.place_at(value.start);
        let value = self.value(base, Written { scope, value })?;
        let asn1_resolved::Value::Text(text) = value else {
            return Ok(false);
        };
        for character in &text {
            self.require_character(base, place, *character)?;
            let code = *character as u32;
            ranges.push(CharacterRange {
                first: code,
                last: code,
            })?;
        }
        Ok(text.is_ascii())
    }

    // Adds a range of characters.
    fn add_range(
        &mut self,
        ranges: &mut Vec<CharacterRange>,
        base: Governed<'r, 'a>,
        scope: Scope<'a>,
        lower: &'r EndPoint,
        upper: &'r EndPoint,
    ) -> Result<bool, Fault> {
        let first = self.character(base, scope, lower)?;
        let last = self.character(base, scope, upper)?;
        match (first, last) {
            (Some(first), Some(last)) => {
                ranges.push(CharacterRange { first, last })?;
                Ok(first <= last)
            }
            _ => Ok(false),
        }
    }

    // The character at an end of a range, if it is one of ASCII.
    fn character(
        &mut self,
        base: Governed<'r, 'a>,
        scope: Scope<'a>,
        end: &'r EndPoint,
    ) -> Result<Option<u32>, Fault> {
        match &end.value {
            EndValue::Value(value) if !end.is_open => {
                let place = scope.place_at(value.start);
                let value = self.value(base, Written { scope, value })?;
                let Some(character) = single_character(&value) else {
                    return Ok(None);
                };
                self.require_character(base, place, character)?;
                Ok(Some(character as u32))
            }
            _ => Ok(None),
        }
    }

    /// Refuses a character that the type of the string does not have.
    pub(crate) fn require_character(
        &mut self,
        base: Governed<'r, 'a>,
        place: Place,
        character: u8,
    ) -> Result<(), Fault> {
        match &base.definition.kind {
            TypeKind::String(kind) if !has_character(*kind, character) => Err(self.refuse(
                place,
                &[b"this is no character of ", string_name(*kind)],
            )),
            _ => Ok(()),
        }
    }
}

// Whether a string of this kind can have a character, as far as the kind has few (X.680, 41.2 and 41.4).
fn has_character(kind: StringKind, character: u8) -> bool {
    match kind {
        StringKind::Numeric => matches!(character, b'0'..=b'9' | b' '),
        StringKind::Printable => {
            character.is_ascii_alphanumeric()
                || matches!(
                    character,
                    b' ' | b'\''
                        | b'('
                        | b')'
                        | b'+'
                        | b','
                        | b'-'
                        | b'.'
                        | b'/'
                        | b':'
                        | b'='
                        | b'?'
                )
        }
        StringKind::Visible => matches!(character, b' '..=b'~'),
        _ => true,
    }
}

// The name of a kind whose characters are few.
fn string_name(kind: StringKind) -> &'static [u8] {
    match kind {
        StringKind::Numeric => b"NumericString",
        StringKind::Printable => b"PrintableString",
        _ => b"VisibleString",
    }
}

// The one character of a string, if it is one of ASCII.
fn single_character(value: &asn1_resolved::Value<'_>) -> Option<u8> {
    match value {
        asn1_resolved::Value::Text(text) => match text.as_slice() {
            [character] if character.is_ascii() => Some(*character),
            _ => None,
        },
        _ => None,
    }
}
