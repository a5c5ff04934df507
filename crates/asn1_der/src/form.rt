//! The form of elements in DER.
use crate::ascending::is_ascending;
use asn1_bounds::Codec;
use asn1_der_items::ContentOrder;
use asn1_elements::{Contents, ElementForm, ParsedElement};
use asn1_items::{ContentKind, ItemError};
use std::alloc::Global;

/// The form of elements in DER (X.690, 10 and 11): every content is in a primitive element, and what is inside a set is sorted.
pub enum DerForm {}

impl ElementForm for DerForm {
    ghost use Rattle.asn1_bounds.specs.declared.codec.Codec.TheVariants.{Der};
    ghost use Rattle.asn1_der.specs.Decoder.{AreInOrder as IsDerOrder, der_form, der_is_lawful_form};
    ghost use Rattle.std.specs.Prelude.{◌≡◌, false};

    ghost form = { der_form };

    ghost IsFormOf = { λ kind constructed. constructed ≡ false };

    ghost AreInOrder = { IsDerOrder };

    ghost own_codec = { Der };

    fn codec() -> Codec {
        Codec::Der
    }

    #[inline(always)]
    fn contents<'a>(
        _alloc: Global,
        _kind: ContentKind,
        element: ParsedElement<'a>,
    ) -> Result<Contents<'a>, ItemError> {
        if element.constructed {
            return Err(ItemError::Malformed);
        }
        Ok(Contents::AsParsed(element.contents))
    }

    fn are_in_order(order: ContentOrder, inside: &[u8]) -> bool {
        match order {
            ContentOrder::ByTag => is_ascending(inside, order),
            ContentOrder::ByEncoding => is_ascending(inside, order),
            ContentOrder::AsDefined => true,
            ContentOrder::Chosen => true,
        }
    }

    ghost lawful = { der_is_lawful_form };
}
