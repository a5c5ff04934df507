//! What a codec over elements defines.
ghost use Rattle.asn1_bounds.specs.declared.codec.Codec.{Codec};
ghost use Rattle.asn1_der_items.specs.Contents.{HasContents};
ghost use Rattle.asn1_der_items.specs.Elements.{Element};
ghost use Rattle.asn1_der_items.specs.Series.{IsAlone};
ghost use Rattle.asn1_der_items.specs.declared.content_order.ContentOrder.{ContentOrder};
ghost use Rattle.asn1_elements.specs.ElementForms.{Carries, IsElementForm, IsParsed, octets_of};
ghost use Rattle.asn1_items.specs.DecodeStates.{ReadForm};
ghost use Rattle.asn1_items.specs.Kinds.{content_kind};
ghost use Rattle.asn1_items.specs.declared.error.ItemError.TheVariants.{Memory};
ghost use Rattle.asn1_items.specs.declared.kinds.ContentKind.{ContentKind};
ghost use Rattle.asn1_model.specs.ConstraintSets.{ConstraintSet};
ghost use Rattle.asn1_model.specs.Records as model;
ghost use Rattle.asn1_model.specs.Records.{Name, scalar};
ghost use Rattle.asn1_tags.specs.declared.tags.Tag.{Tag};
ghost use Rattle.std.specs.Prelude.{◌≡◌, Bool, Decides, IfOk, List, MatchResult, OnOk, ℕ};

use crate::contents::Contents;
use crate::parsed_element::ParsedElement;
use asn1_bounds::Codec;
use asn1_der_items::ContentOrder;
use asn1_items::{ContentKind, ItemError};
use std::alloc::Global;

/// The form of elements of a codec: how it has contents, and in which orders it has what is inside sets.
pub trait ElementForm: Sized {
    // The bytes of records, and the byte strings that are one value of an open type.
    ghost form: { ReadForm };

    // Whether a content of a kind may be in a constructed element, and in a primitive one.
    ghost IsFormOf: { ContentKind → Bool → Type 0 };

    // The orders in which bytes may be inside a record.
    ghost AreInOrder: { ContentOrder → List ℕ → Type 0 };

    // The name of the codec.
    ghost own_codec: { Codec };

    /// The name of the codec.
    fn codec() -> Codec
        ensures { result ≡ own_codec };

    /// The contents octets, as DER has them, of a content of this kind that is in an element.
    ///
    /// # Errors
    /// [`ItemError::Memory`], and [`ItemError::Malformed`] where the element is no such content. Octets that no content of the
    /// kind has may be answered too.
    fn contents<'a>(
        alloc: Global,
        kind: ContentKind,
        element: ParsedElement<'a>,
    ) -> Result<Contents<'a>, ItemError>
        ensures found { (t : Tag) (c : ConstraintSet) (n : Name) (x : model.Content) (e : Element)
            (own : List ℕ) → content_kind x ≡ kind → IsAlone e own →
            IsParsed element.entry e own → form.Has (scalar t c n x) own →
            MatchResult result (λ contents. HasContents x (octets_of contents)) (λ e. e ≡ Memory) }
        ensures only { OnOk result (IsFormOf kind element.entry.constructed) }
        ensures carried { IfOk result (λ contents.
            Carries form kind element.entry (octets_of contents)) };

    /// Whether these bytes are in an order that what is inside a record may have.
    fn are_in_order(order: ContentOrder, inside: &[u8]) -> bool
        ensures { Decides result (AreInOrder order inside.now) };

    // The law of a form.
    ghost lawful: { IsElementForm form AreInOrder };
}
