//! Laws of what no other contract names: what the tag form is, and what derives give.
ghost use Rattle.asn1_bounds.specs.declared.codec.Codec.TheVariants.{Other};
ghost use Rattle.asn1_items.specs.Headers.{is_one_item};
ghost use Rattle.asn1_model.specs.Records.{PresenceMark, Record};
ghost use Rattle.asn1_bench.specs.Carried.{CarriesWith};
ghost use Rattle.asn1_bench.specs.Outputs.{AreTooLong};
ghost use Rattle.asn1_tagform.specs.Next.{no_marks};
ghost use Rattle.asn1_tags.specs.Derives.{ClonesAll};
ghost use Rattle.std.specs.Prelude.{◌≡◌, ◌↔◌, [], List, ℕ};

use crate::next_item::NextItem;
use crate::rules::TagRules;
use asn1_bench::{ItemDecoder, ItemEncoder, Presence};
use asn1_bounds::Codec;
use asn1_dec::Decoder;
use asn1_enc::Encoder;
use asn1_rules::Rules;

/// A law of the tag form: presence marks have no bytes (`marks`), and its name is `Other(1)` (`codec`).
pub fn the_tag_form_has_no_presence_marks()
    ensures marks { (m : PresenceMark) → ⟦<NextItem as Presence>⟧.mark_bytes m ≡ [] }
    ensures codec { ⟦<NextItem as Presence>⟧.own_codec ≡ Other 1 }
{}

/// A law of the codec: an output carries the records whose items it is, without presence marks and up to the order inside sets
/// (`carries`); one value of an open type is one item (`accepts`); and the records that are too long are rejected, and no others
/// (`rejects`).
pub fn the_tag_form_has_its_bytes(output: &Vec<u8>)
    ensures carries { (rs : List Record) →
        ⟦<TagRules as Rules>⟧.format.carries output.now rs ↔
        CarriesWith no_marks output.now.items rs }
    ensures accepts { (bytes : List ℕ) →
        ⟦<TagRules as Rules>⟧.format.accepts bytes ≡ is_one_item bytes }
    ensures rejects { (rs : List Record) → ⟦<TagRules as Rules>⟧.format.rejects rs ↔
        AreTooLong no_marks rs }
{}

/// A law: the encoder and the decoder of the tag form both have the name `Other(1)`.
pub fn codecs_of_the_tag_form_have_one_name(
    encoder: &ItemEncoder<NextItem>,
    decoder: &ItemDecoder<'_, NextItem>,
) -> (Codec, Codec)
    ensures { result ≡ (Other 1, Other 1) }
{
    (encoder.codec(), decoder.codec())
}

/// A law of the derives: clones are their sources.
pub fn clones_are_their_sources()
    ensures rules { ClonesAll ⟦<TagRules as Clone>⟧.is_clone ⟦<TagRules as Clone>⟧.is_infallible }
{}
