//! Whether octets are the DER of a type.
ghost use Rattle.asn1_certificate_rules.specs.Departures.{KeepsRules};
ghost use Rattle.asn1_certificate_rules.specs.declared.notation.Part.TheVariants as part;
ghost use Rattle.asn1_certificate_rules.specs.declared.rule.RuleSet.TheVariants as rules;
ghost use Rattle.asn1_convert.specs.Checks.{AreRefusedFor, IsCheckError, IsFaultPosition};
ghost use Rattle.asn1_der.specs.Format.{der_format};
ghost use Rattle.asn1_model.specs.Meaning.{IsWellTagged, own_records};
ghost use Rattle.asn1_rules.specs.CanonicalReading.{HasOneSpelling, IsWrittenAs, MayAnswer};
ghost use Rattle.std.specs.Prelude.{◌≡◌, true, IfErr, IfOk, MatchResult, Ok, OnOk};

use crate::differences::differing_element;
use crate::failing_place::place_at;
use crate::form::CodecForm;
use crate::places::read_failure;
use crate::report::push_position;
use asn1_certificate_rules::{Finding, Part, RuleSet, find_broken_rule};
use asn1_dec::{Decode, DecodeError};
use asn1_der::DerRules;
use asn1_der_items::find_element;
use asn1_enc::Encode;
use asn1_items::ItemError;
use asn1_rules::{CanonicalError, read_canonical, recode};
use std::alloc::{AllocError, Global};

/// Why octets are not the DER of a value of a type.
#[derive(Clone, Copy, Debug, Drop, PartialEq, Eq)]
pub enum CheckError {
    /// They break a rule of X.690, or nest too deep.
    Broken(Finding),
    /// They are not read as a value, or the DER of that value is other octets.
    NotCanonical(CanonicalError),
}

/// The value of which octets are the DER, with at most this many nested scopes: they break none of the rules of X.690 that reading
/// asks for (`keeps`), and are what writing the value makes (`canonical`), as which they may be read (`answered`).
///
/// Octets that are the only DER of a valid value of a well-tagged type, and break none of these rules, are read as an equal value, unless
/// memory runs out, elements lie inside more others than the depth, or its records are nested deeper (`read`).
///
/// # Errors
/// [`CheckError::Broken`] with a rule that they break and the position, or the position of elements that lie too deep;
/// [`CheckError::NotCanonical`] with the error of [`read_canonical`].
#[tactic(auto, using(crate::proofs::Checking::deeper_alone))]
pub fn check_der<T: Encode + Decode>(
    alloc: Global,
    octets: &Vec<u8>,
    depth: usize,
) -> Result<T, CheckError>
    ensures answered { IfOk result (λ w.
        MayAnswer der_format T.meaning T.eq T.refusals depth octets.now (Ok w)) }
    ensures canonical { IfOk result (λ w.
        IsWrittenAs der_format T.meaning depth w octets.now.items) }
    ensures keeps { OnOk result (KeepsRules rules.OfReading part.Other octets.now.items) }
    ensures departs { IfErr result
        (IsCheckError T.meaning T.eq T.refusals depth octets.now) }
    ensures read { (v : T) → IsWellTagged T.meaning → T.meaning.IsOfType v →
        T.meaning.IsValid der_format.accepts v →
        der_format.carries octets.now (own_records T.meaning v) →
        HasOneSpelling der_format T.meaning T.eq v octets.now.items →
        KeepsRules rules.OfReading part.Other octets.now.items →
        MatchResult result (λ w. T.eq w v ≡ true)
        (AreRefusedFor T.meaning depth v octets.now.items) }
{
    if let Some(finding) = find_broken_rule(octets, Part::Other, RuleSet::OfReading, depth) {
        return Err(CheckError::Broken(finding));
    }
    match read_canonical(&DerRules::new(alloc), octets, depth) {
        Ok(value) => Ok(value),
        Err(error) => Err(CheckError::NotCanonical(error)),
    }
}

/// The octet at which octets are not the DER of a type, and the reason.
#[derive(Debug, Drop)]
pub struct CheckFault {
    /// A rule that they break, or the path to the place and the cause, in words without a line feed.
    pub cause: String,
    /// The position of the octet, from 0, if it is known.
    pub position: Option<usize>,
}

/// The octet at which octets are not the DER of a type, and the reason, for this error of [`check_der`]. No contract covers the words, nor
/// the position in octets that break no rule.
///
/// # Errors
/// [`AllocError`] if memory runs out.
pub fn check_fault<T: Encode + Decode>(
    alloc: Global,
    octets: &Vec<u8>,
    error: CheckError,
    depth: usize,
) -> Result<CheckFault, AllocError>
    ensures position { IfOk result (λ fault. IsFaultPosition error fault.position) }
{
    match error {
        CheckError::Broken(Finding::Broken(broken)) => Ok(CheckFault {
            cause: cause_at::<T>(
                alloc,
                octets,
                broken.position,
                depth,
                format!(in alloc; "{}", broken.rule)?,
            )?,
            position: Some(broken.position),
        }),
        CheckError::Broken(Finding::Deeper(position)) => Ok(CheckFault {
            cause: cause_at::<T>(
                alloc,
                octets,
                position,
                depth,
                format!(in alloc; "elements lie more than {depth} deep")?,
            )?,
            position: Some(position),
        }),
        CheckError::NotCanonical(error) => canonical_fault::<T>(alloc, octets, error, depth),
    }
}

/// The same of octets that break no rule.
fn canonical_fault<T: Encode + Decode>(
    alloc: Global,
    octets: &Vec<u8>,
    error: CanonicalError,
    depth: usize,
) -> Result<CheckFault, AllocError> {
    match error {
        CanonicalError::Read(error) => reading_fault::<T>(alloc, octets, error, depth),
        CanonicalError::Write(error) => Ok(CheckFault {
            cause: format!(in alloc; "not written: {error}")?,
            position: None,
        }),
        CanonicalError::NotCanonical { at } => {
            let position = differing_position::<T>(alloc, octets, at, depth);
            let cause = String::from_str(alloc, "writing the value makes other octets")?;
            Ok(CheckFault {
                cause: cause_at::<T>(alloc, octets, position, depth, cause)?,
                position: Some(position),
            })
        }
    }
}

/// The same of octets that are not read.
fn reading_fault<T: Decode>(
    alloc: Global,
    octets: &[u8],
    error: DecodeError,
    depth: usize,
) -> Result<CheckFault, AllocError> {
    if let Some(position) = octets_behind(octets) {
        return Ok(CheckFault {
            cause: String::from_str(alloc, "octets follow the value")?,
            position: Some(position),
        });
    }
    if let Err(ItemError::Missing(_)) = find_element(octets) {
        return Ok(CheckFault {
            cause: String::from_str(alloc, "the octets end inside the value")?,
            position: Some(octets.len()),
        });
    }
    let failure = read_failure::<T>(alloc, CodecForm::Der, octets, error, depth)?;
    Ok(CheckFault {
        cause: failure.words,
        position: failure.position,
    })
}

/// The line for octets that are not the DER of a type: where, and why.
pub(crate) fn check_line<T: Encode + Decode>(
    alloc: Global,
    octets: &Vec<u8>,
    error: CheckError,
    depth: usize,
) -> Result<String, AllocError> {
    let fault = check_fault::<T>(alloc, octets, error, depth)?;
    let mut text = fault.cause;
    push_position(&mut text, 0, fault.position)?;
    text.push('\n')?;
    Ok(text)
}

/// A cause behind the path to the element at a position, if there is one.
fn cause_at<T: Decode>(
    alloc: Global,
    octets: &[u8],
    position: usize,
    depth: usize,
    cause: String,
) -> Result<String, AllocError> {
    match place_at::<T>(alloc, octets, position, depth) {
        Some(place) if !place.path.is_empty() => format!(in alloc; "{}: {cause}", place.path),
        _ => Ok(cause),
    }
}

/// The position of octets behind the first element, if there are some.
fn octets_behind(octets: &[u8]) -> Option<usize> {
    let element = find_element(octets).ok()?;
    if element.rest.is_empty() {
        None
    } else {
        Some(octets.len().saturating_sub(element.rest.len()))
    }
}

/// The position of the innermost element that writing the value makes otherwise; if that cannot be made again, of the first octet.
fn differing_position<T: Encode + Decode>(
    alloc: Global,
    octets: &Vec<u8>,
    at: usize,
    depth: usize,
) -> usize {
    let der = DerRules::new(alloc);
    match recode::<T, _, _>(&der, octets, &der, depth) {
        Ok(written) => differing_element(octets, written.as_slice()),
        Err(_) => at,
    }
}
