//! The rule of X.690 that an element breaks by its type, whatever its tag is.

use crate::contents::{ContentsFault, contents_fault};
use crate::elements::header_length;
use crate::form::CodecForm;
use asn1_ber_items::front_element;
use asn1_certificate_rules::{BrokenRule, Finding, Part, Rule, RuleSet, find_broken_rule};
use asn1_der_items::{Element, find_element, read_identifier};
use asn1_paths::ElementTags;
use asn1_tags::Tag;
use std::alloc::{AllocError, Global};
use std::fmt;

/// The first number of a tag that has octets of its own (X.690, 8.1.2.4).
const FIRST_LONG_NUMBER: u32 = 31;

/// The bit of the first identifier octet of a constructed element (X.690, 8.1.2.5).
const CONSTRUCTED: u8 = 32;

/// The facts that its type gives of an element.
#[derive(Clone, Copy)]
pub(crate) enum TypeCheck {
    /// It has another tag, or cannot be found.
    Unknown,
    /// It breaks no rule that is looked at.
    Sound,
    /// It breaks a rule.
    Broken(TypeFault),
}

/// A rule of X.690 that an element breaks by its type, and where.
#[derive(Clone, Copy)]
pub(crate) struct TypeFault {
    pub(crate) rule: TypeRule,
    /// The position of the octet, from 0.
    pub(crate) position: usize,
}

/// A rule of X.690 that the type of an element asks for.
#[derive(Clone, Copy)]
pub(crate) enum TypeRule {
    /// One of those for which DER is looked through.
    Listed(Rule),
    /// One on the elements of the type.
    OfContents(ContentsFault),
}

impl fmt::Display for TypeRule {
    fn fmt<W: fmt::Write>(&self, f: &mut fmt::Formatter<W>) -> fmt::Result {
        match self {
            TypeRule::Listed(rule) => write!(f, "{rule}"),
            TypeRule::OfContents(fault) => f.write_str(fault.words),
        }
    }
}

impl TypeFault {
    /// The same behind this many octets.
    fn behind(self, count: usize) -> TypeFault {
        TypeFault {
            rule: self.rule,
            position: count.saturating_add(self.position),
        }
    }
}

/// The facts of the element that begins at a position of octets in this form, and is to have these tags.
pub(crate) fn check_type(
    alloc: Global,
    form: CodecForm,
    tags: ElementTags,
    octets: &[u8],
    position: usize,
) -> Result<TypeCheck, AllocError> {
    let own = octets.get(position..).unwrap_or(&[]);
    let check = match form {
        CodecForm::Der => check_der_type(alloc, tags, own)?,
        CodecForm::Ber => check_ber_type(alloc, tags, own)?,
        CodecForm::Packed => TypeCheck::Unknown,
    };
    match check {
        TypeCheck::Broken(fault) => Ok(TypeCheck::Broken(fault.behind(position))),
        _ => Ok(check),
    }
}

/// The same of the element with which octets of DER begin.
fn check_der_type(
    alloc: Global,
    tags: ElementTags,
    octets: &[u8],
) -> Result<TypeCheck, AllocError> {
    let Ok(element) = find_element(octets) else {
        return Ok(TypeCheck::Unknown);
    };
    let check = check_contents(tags, octets, element);
    if !matches!(check, TypeCheck::Sound) {
        return Ok(check);
    }
    match broken_rule_under(alloc, tags.universal, octets, element)? {
        Some(broken) => Ok(TypeCheck::Broken(TypeFault {
            rule: TypeRule::Listed(broken.rule),
            position: broken.position,
        })),
        None => Ok(TypeCheck::Sound),
    }
}

/// The same of the element with which octets of BER begin.
fn check_ber_type(
    alloc: Global,
    tags: ElementTags,
    octets: &[u8],
) -> Result<TypeCheck, AllocError> {
    let Ok(front) = front_element(alloc, octets) else {
        return Ok(TypeCheck::Unknown);
    };
    let normal = front.normal.as_slice();
    let Ok(element) = find_element(normal) else {
        return Ok(TypeCheck::Unknown);
    };
    let check = check_contents(tags, octets, element);
    if !matches!(check, TypeCheck::Sound) {
        return Ok(check);
    }
    match broken_rule_under(alloc, tags.universal, normal, element)? {
        Some(broken) if binds_ber(broken.rule) => {
            let behind = broken.position.saturating_sub(header_length(normal));
            Ok(TypeCheck::Broken(TypeFault {
                rule: TypeRule::Listed(broken.rule),
                position: header_length(octets).saturating_add(behind),
            }))
        }
        _ => Ok(TypeCheck::Sound),
    }
}

/// Whether a rule binds the contents octets of BER too: those of numbers are the fewest (X.690, 8.3.2 and 8.19.2).
fn binds_ber(rule: Rule) -> bool {
    matches!(rule, Rule::PaddedInteger | Rule::PaddedArc)
}

/// The facts that the tag, the form and the contents octets give of an element, whose own spelling begins the octets.
fn check_contents(tags: ElementTags, octets: &[u8], element: Element<'_>) -> TypeCheck {
    if element.tag != tags.own {
        return TypeCheck::Unknown;
    }
    match contents_fault(tags, element) {
        Some(fault) => TypeCheck::Broken(TypeFault {
            rule: TypeRule::OfContents(fault),
            position: position_of(fault, octets, element),
        }),
        None => TypeCheck::Sound,
    }
}

/// The position at which the element with which octets begin breaks a rule: that of its contents octets, unless it has none.
fn position_of(fault: ContentsFault, octets: &[u8], element: Element<'_>) -> usize {
    if fault.is_of_identifier || element.contents.is_empty() {
        0
    } else {
        header_length(octets)
    }
}

/// The rule of DER that the element breaks with which octets begin, if it has this tag of the universal class in place of its own, and the
/// position in these octets. An implicit tag changes the identifier octets alone (X.690, 8.14.4).
fn broken_rule_under(
    alloc: Global,
    universal: Tag,
    octets: &[u8],
    element: Element<'_>,
) -> Result<Option<BrokenRule>, AllocError> {
    let (Ok(identified), Some(first)) = (
        read_identifier(octets),
        identifier_octet(universal, element.constructed),
    ) else {
        return Ok(None);
    };
    let behind = identified.rest;
    let mut retagged = Vec::new(alloc);
    retagged.push(first)?;
    retagged.extend_from_slice(without(behind, element.rest))?;
    let identifier = octets.len().saturating_sub(behind.len());
    // The elements inside were looked at under their own tags.
    match find_broken_rule(retagged.as_slice(), Part::Other, RuleSet::OfReading, 0) {
        Some(Finding::Broken(broken)) => Ok(Some(BrokenRule {
            rule: broken.rule,
            position: position_behind(identifier, broken.position),
        })),
        Some(Finding::Deeper(_)) | None => Ok(None),
    }
}

/// The octets before a rest of them.
fn without<'a>(octets: &'a [u8], rest: &[u8]) -> &'a [u8] {
    octets
        .get(..octets.len().saturating_sub(rest.len()))
        .unwrap_or(octets)
}

/// A position in an element with one identifier octet, as one in the same element with this many.
fn position_behind(identifier: usize, position: usize) -> usize {
    match position.checked_sub(1) {
        Some(behind) => identifier.saturating_add(behind),
        None => 0,
    }
}

/// The identifier octet of an element with a tag of the universal class, if it has one alone.
fn identifier_octet(universal: Tag, constructed: bool) -> Option<u8> {
    if universal.value >= FIRST_LONG_NUMBER {
        return None;
    }
    let number = u8::try_from(universal.value).ok()?;
    number.checked_add(if constructed { CONSTRUCTED } else { 0 })
}
