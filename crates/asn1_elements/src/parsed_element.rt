//! An element that was parsed.
ghost use Rattle.asn1_der_items.specs.Elements.{Element};
ghost use Rattle.asn1_elements.specs.ElementForms.{IsInsideElement, IsParsed};
ghost use Rattle.std.specs.Prelude.{◌≡◌, IfSome, IsSomeAnd, List, ℕ, true};

use crate::element_form::ElementForm;
use asn1_der_items::ContentOrder;
use asn1_tags::Tag;

/// An element that was parsed, and all of its bytes.
#[derive(Clone, Copy)]
pub struct ParsedElement<'a> {
    /// The tag.
    pub tag: Tag,
    /// Whether it is constructed of other elements (8.1.2.5), or primitive.
    pub constructed: bool,
    /// The contents octets.
    pub contents: &'a [u8],
    /// All of its bytes: identifier, length and contents octets.
    pub bytes: &'a [u8],
}

impl<'a> ParsedElement<'a> {
    /// The bytes inside, if and only if the element holds records in this order, as the form has it.
    pub(crate) fn inside<F: ElementForm>(self, order: ContentOrder) -> Option<&'a [u8]>
        ensures found { (e : Element) (own inside : List ℕ) → IsParsed self.entry e own →
            IsInsideElement order e own inside → F.AreInOrder order inside →
            IsSomeAnd result (λ bytes. bytes.now ≡ inside) }
        ensures only { (e : Element) (own : List ℕ) → IsParsed self.entry e own →
            IfSome result (λ bytes. IsInsideElement order e own bytes.now) }
        ensures in_order { IfSome result (λ bytes. F.AreInOrder order bytes.now) }
    {
        let inside = self.records(order)?;
        if F::are_in_order(order, inside) {
            Some(inside)
        } else {
            None
        }
    }

    /// The bytes inside, if and only if the element can hold records: those of the chosen alternative of a CHOICE are the
    /// element's own, and else they are the contents octets of a constructed element.
    fn records(self, order: ContentOrder) -> Option<&'a [u8]>
        ensures found { (e : Element) (own inside : List ℕ) → IsParsed self.entry e own →
            IsInsideElement order e own inside → IsSomeAnd result (λ bytes. bytes.now ≡ inside) }
        ensures only { (e : Element) (own : List ℕ) → IsParsed self.entry e own →
            IfSome result (λ bytes. IsInsideElement order e own bytes.now) }
    {
        match order {
            ContentOrder::AsDefined => self.held(),
            ContentOrder::ByTag => self.held(),
            ContentOrder::ByEncoding => self.held(),
            ContentOrder::Chosen => Some(self.bytes),
        }
    }

    /// The contents octets, if and only if the element holds others.
    fn held(self) -> Option<&'a [u8]>
        ensures found { self.entry.constructed ≡ true →
            IsSomeAnd result (λ bytes. bytes.now ≡ self.entry.contents.now) }
        ensures only { IfSome result (λ bytes. (self.entry.constructed ≡ true) ×
            (bytes.now ≡ self.entry.contents.now)) }
    {
        if self.constructed {
            Some(self.contents)
        } else {
            None
        }
    }
}
