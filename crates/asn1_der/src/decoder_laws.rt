//! Laws of what no other contract names: what the decoder is as types see it.
ghost use Rattle.asn1_bounds.specs.declared.codec.Codec.TheVariants.{Der};
ghost use Rattle.asn1_laws.specs.Reading.{Remaining};
ghost use Rattle.asn1_der.specs.Decoder.{AreInOrder, Remains};
ghost use Rattle.asn1_der_items.specs.Bytes.{HasDer, HaveDer};
ghost use Rattle.asn1_der_items.specs.Series.{is_one_element};
ghost use Rattle.asn1_der_items.specs.declared.content_order.ContentOrder.{ContentOrder};
ghost use Rattle.asn1_items.specs.declared.kinds.ContentKind.{ContentKind};
ghost use Rattle.asn1_model.specs.Records.{Record, held, is_presence_mark};
ghost use Rattle.std.specs.Prelude.{◌≡◌, ◌↔◌, ◌∷◌, [], Bool, List, ℕ, false};

use crate::DerDecoder;
use crate::form::DerForm;
use asn1_bounds::Codec;
use asn1_dec::Decoder;
use asn1_elements::{ElementDecoder, ElementForm};

/// A law of the form: bytes are those of records if and only if they are their DER (`has`, `have`), a content is in a primitive element
/// (`form`), and what is inside a set has the order of DER (`order`).
pub fn the_form_is_der()
    ensures has { (r : Record) (bytes : List ℕ) →
        ⟦<DerForm as ElementForm>⟧.form.Has r bytes ↔ HasDer r bytes }
    ensures have { (rs : List Record) (bytes : List ℕ) →
        ⟦<DerForm as ElementForm>⟧.form.Have rs bytes ↔ HaveDer (held rs) bytes }
    ensures form { (kind : ContentKind) (constructed : Bool) →
        ⟦<DerForm as ElementForm>⟧.IsFormOf kind constructed ↔ (constructed ≡ false) }
    ensures order { (order : ContentOrder) (bytes : List ℕ) →
        ⟦<DerForm as ElementForm>⟧.AreInOrder order bytes ↔ AreInOrder order bytes }
{}

/// A law of the decoder: what types see that remains (`remains`), and that it takes one element as one value of an open type
/// (`accepts`).
pub fn the_decoder_takes_one_element(decoder: &DerDecoder<'_>)
    ensures remains { (remaining : Remaining) →
        ⟦<ElementDecoder<'static, DerForm> as Decoder>⟧.reader.remains decoder.now remaining ↔
        Remains decoder.now remaining }
    ensures accepts { (bytes : List ℕ) →
        ⟦<ElementDecoder<'static, DerForm> as Decoder>⟧.reader.accepts bytes ≡
        is_one_element bytes }
{}

/// A law: the name of a decoder of DER.
pub fn name_of_the_decoder(decoder: &DerDecoder<'_>) -> Codec
    ensures { result ≡ Der }
{
    decoder.codec()
}

/// A law of the end: where a record is left that is no presence mark, not all has been read.
pub fn a_record_is_not_the_end(decoder: &DerDecoder<'_>)
    ensures { (r : Record) (rest : List Record) → is_presence_mark r ≡ false →
        Remains decoder.now (r ∷ rest, []) → ¬ Remains decoder.now ([], []) }
{}
