//! The dotted texts of object identifiers, as `1.2.840`.
ghost use Rattle.std.specs.Prelude.{◌≡◌, ◌<◌, ◌⊎◌, ◌∷◌, true, length, Some, Ok, Err, IfOk, IfErr};
ghost use Rattle.std.specs.Fmt.{decimal, WritesOnOk};
ghost use Rattle.std.specs.List.{flat_map};
ghost use Rattle.std.specs.Str.{all_ascii_digits};
ghost use Rattle.asn1_strings.specs.Dotted.{arc_of, arc_of_digits, arcs_of, dotted, has_leading_zero};

use crate::error::{ArcError, ObjectIdentifierError};
use crate::kind::Arcs;
use crate::strings::unit_string::UnitString;
use std::alloc::Global;
use std::fmt;

impl UnitString<u32, Arcs> {
    /// The object identifier of a dotted text such as `1.2.840`: decimal numbers of at most 32 bits without leading zeros,
    /// with a dot between each two. An empty text has no arc, so it is refused.
    ///
    /// The error names the first arc that is none, by its index, or is [`ObjectIdentifierError::Memory`] where the allocator
    /// refuses room for the arcs before it.
    pub fn try_from_str(alloc: Global, text: &str) -> Result<Self, ObjectIdentifierError>
        ensures arcs { IfOk result (λ name. arcs_of text.now ≡ Ok name) }
        ensures written { IfOk result (λ name. dotted name ≡ text.now) }
        ensures refused { IfErr result (λ e.
            (e ≡ ObjectIdentifierError.Memory) ⊎ (arcs_of text.now ≡ Err e)) }
    {
        let mut arcs = Vec::new(alloc);
        for part in text.split('.') {
            match arc(part) {
                Ok(arc) => arcs
                    .push(arc)
                    .map_err(|_failed| ObjectIdentifierError::Memory)?,
                Err(why) => return Err(ObjectIdentifierError::Arc(arcs.len(), why)),
            }
        }
        Ok(Self::new(arcs))
    }
}

/// The arc that the text is.
fn arc(text: &str) -> Result<u32, ArcError>
    ensures { result ≡ arc_of text.now }
{
    if text.is_empty() {
        return Err(ArcError::Empty);
    }
    if !are_digits(text.as_bytes()) {
        return Err(ArcError::NotADigit);
    }
    if has_leading_zero(text.as_bytes()) {
        return Err(ArcError::LeadingZero);
    }
    arc_of_digits(text)
}

fn arc_of_digits(digits: &str) -> Result<u32, ArcError>
    requires some { 0 < length digits.now }
    requires all_digits { all_ascii_digits digits.now ≡ true }
    ensures { result ≡ arc_of_digits digits.now }
{
    match digits.parse() {
        Ok(arc) => Ok(arc),
        Err(_error) => Err(ArcError::TooGreat),
    }
}

fn are_digits(text: &[u8]) -> bool
    ensures { result ≡ all_ascii_digits text.now }
{
    text.iter().all(|byte| byte.is_ascii_digit())
}

fn has_leading_zero(digits: &[u8]) -> bool
    ensures { result ≡ has_leading_zero digits.now }
{
    match digits {
        [b'0', _, ..] => true,
        _ => false,
    }
}

/// The arcs in decimal, with a dot between each two.
impl fmt::Display for UnitString<u32, Arcs> {
    ghost output = { λ arcs. Some (dotted arcs) };

    fn fmt<W: fmt::Write>(&self, f: &mut fmt::Formatter<W>) -> fmt::Result {
        match self.as_slice() {
            [] => Ok(()),
            [first, rest @ ..] => {
                write!(f, "{first}")?;
                write_arcs(rest, f)
            }
        }
    }
}

/// Writes a dot and a number for each arc.
fn write_arcs<W: fmt::Write>(arcs: &[u32], f: &mut fmt::Formatter<W>) -> fmt::Result
    ensures { WritesOnOk W.write_str_gives f.old result
        (flat_map (λ arc. 46 ∷ decimal arc) arcs.now) f.new }
{
    for arc in arcs {
        write!(f, ".{arc}")?;
    }
    Ok(())
}
