//! Laws of normal forms.
ghost use Rattle.asn1_ber_items.specs.Spellings.{DerIsNormal, NormalFormsAreUnique, NormalFormsFollow, NormalFormsStay, TrailingBytesStay};

/// A law of normal forms: an element has one, and ends at one byte.
pub fn normal_forms_are_unique()
    ensures { NormalFormsAreUnique }
{}

/// A law of trailing bytes: they change nothing of the elements with which bytes begin.
pub fn trailing_bytes_stay()
    ensures { TrailingBytesStay }
{}

/// A law of elements that follow others: they follow them in the normal form too.
pub fn normal_forms_follow()
    ensures { NormalFormsFollow }
{}

/// A law of normal forms: each is its own.
pub fn normal_forms_stay()
    ensures { NormalFormsStay }
{}

/// A law of DER: an element of DER is its own normal form.
pub fn der_is_normal()
    ensures { DerIsNormal }
{}
