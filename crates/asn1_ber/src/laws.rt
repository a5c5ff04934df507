//! Laws of what no other contract names: what the codec, its reader and its decoder come to, and what derives give.
ghost use Rattle.asn1_ber.specs.Bytes.{AreBerOf, AreNormalInDer, HasBer, HaveBer};
ghost use Rattle.asn1_ber.specs.Cuts.{IsCut};
ghost use Rattle.asn1_ber.specs.Defaults.{ReadsWhatIsThere};
ghost use Rattle.asn1_ber.specs.Form.{IsFormOf, ber_form};
ghost use Rattle.asn1_ber.specs.Format.{AreRejected, Carries};
ghost use Rattle.asn1_ber_items.specs.Spellings.{SpellsOne};
ghost use Rattle.asn1_bounds.specs.declared.codec.Codec.TheVariants.{Ber};
ghost use Rattle.asn1_der_items.specs.Bytes.{HaveDer};
ghost use Rattle.asn1_der_items.specs.Series.{is_one_element};
ghost use Rattle.asn1_elements.specs.Decoder.{element_reader};
ghost use Rattle.asn1_items.specs.declared.kinds.ContentKind.{ContentKind};
ghost use Rattle.asn1_model.specs.Meaning.{IsWellTagged, own_records};
ghost use Rattle.asn1_model.specs.Records.{Record, held, highest};
ghost use Rattle.asn1_rules.specs.Fronts.{BelongsTo, IsSteady};
ghost use Rattle.asn1_slots.specs.Taggings.{under};
ghost use Rattle.asn1_tags.specs.Derives.{ClonesAll};
ghost use Rattle.std.specs.Prelude.{◌≡◌, ◌↔◌, ◌+◌, Bool, List, ℕ, length};

use crate::BerDecoder;
use crate::buffer::BerEncoder;
use crate::form::BerForm;
use crate::reader::BerReader;
use crate::rules::BerRules;
use asn1_bounds::Codec;
use asn1_dec::{Decode, DecodeError, Decoder};
use asn1_elements::ElementForm;
use asn1_enc::Encoder;
use asn1_rules::{FrontReader, Rules};
use asn1_slots::{Tagging, optional, or_default};

/// A law of the codec: octets carry the records whose BER they are, up to the order inside sets; one value of an open type is one
/// element; and records are rejected if and only if, in some order inside sets, they have no DER, or none that is its own normal form.
pub fn the_codec_reads_every_spelling(output: &Vec<u8>)
    ensures carries { (rs : List Record) →
        ⟦<BerRules as Rules>⟧.format.carries output.now rs ↔ Carries output.now.items rs }
    ensures accepts { (bytes : List ℕ) →
        ⟦<BerRules as Rules>⟧.format.accepts bytes ≡ is_one_element bytes }
    ensures rejects { (rs : List Record) →
        ⟦<BerRules as Rules>⟧.format.rejects rs ↔ AreRejected rs }
{}

/// A law of DER: that of records of which none has tag universal 0, and whose open types are in normal form, is BER of them.
pub fn der_is_ber()
    ensures { (rs : List Record) (octets : List ℕ) → AreNormalInDer (held rs) → HaveDer (held rs) octets →
        AreBerOf rs octets }
{}

/// A law of the form: bytes are those of records if and only if they are their BER in normal form (`has`, `have`), and strings alone
/// may be in a constructed element (`form`).
pub fn the_form_is_ber()
    ensures has { (r : Record) (bytes : List ℕ) →
        ⟦<BerForm as ElementForm>⟧.form.Has r bytes ↔ HasBer r bytes }
    ensures have { (rs : List Record) (bytes : List ℕ) →
        ⟦<BerForm as ElementForm>⟧.form.Have rs bytes ↔ HaveBer (held rs) bytes }
    ensures form { (kind : ContentKind) (constructed : Bool) →
        ⟦<BerForm as ElementForm>⟧.IsFormOf kind constructed ↔ IsFormOf kind constructed }
{}

/// A law: the name of a decoder of BER.
pub fn name_of_the_decoder(decoder: &BerDecoder<'_>) -> Codec
    ensures { result ≡ Ber }
{
    decoder.codec()
}

/// A law: the name of an encoder of BER.
pub fn name_of_the_encoder(encoder: &BerEncoder) -> Codec
    ensures { result ≡ Ber }
{
    encoder.codec()
}

/// A law of DEFAULT (X.690, 8.9.3): a component of the root that is there is read as its value, also if that is the default. By these
/// calls a SEQUENCE reads it by index: into its slot, of which the value is made.
pub fn a_default_that_is_written_is_read<T: Decode>(
    decoder: &mut BerDecoder<'_>,
    tagging: Tagging,
    default_value: T,
) -> Result<T, DecodeError>
    ensures { ReadsWhatIsThere (element_reader ber_form) (under tagging T.meaning) T.eq decoder.old
        decoder.new result }
{
    let mut slot = None;
    optional(&mut slot, decoder, tagging)?;
    Ok(or_default(slot, default_value))
}

/// A law of the reader: trailing bytes change nothing, and an input has one front at most (`steady`); and for each well-tagged type,
/// what the rules write is a front of the value that was written (`belongs`).
#[tactic(auto, using(crate::proofs::Cuts::ber_steady, crate::proofs::Cuts::ber_belongs))]
pub fn the_reader_belongs_to_the_rules<T: Decode>(reader: &BerReader)
    ensures steady { IsSteady ⟦<BerReader as FrontReader<T>>⟧.fronts reader.now }
    ensures belongs { IsWellTagged T.meaning →
        BelongsTo ⟦<BerReader as FrontReader<T>>⟧.fronts reader.now
        ⟦<BerRules as Rules>⟧.format T.meaning T.eq }
{}

/// A law of the reader: it takes the first octets of an input for those of one value if and only if they are one element of BER
/// (`cut`), which ends where its one normal form says (`spelled`), and never none (`not_empty`). It opens as many nested scopes as it
/// was made with (`depth`), and a value has the height of its own records (`height`).
pub fn the_reader_cuts_one_element<T: Decode>(reader: &BerReader)
    ensures cut { (octets : List ℕ) (n : ℕ) →
        ⟦<BerReader as FrontReader<T>>⟧.fronts.cut reader.now octets n ↔ IsCut octets n }
    ensures spelled { (octets normal rest : List ℕ) (n : ℕ) → SpellsOne octets normal rest →
        (⟦<BerReader as FrontReader<T>>⟧.fronts.cut reader.now octets n ↔
        (n + length rest ≡ length octets)) }
    ensures not_empty { (octets : List ℕ) →
        ¬ ⟦<BerReader as FrontReader<T>>⟧.fronts.cut reader.now octets 0 }
    ensures depth { ⟦<BerReader as FrontReader<T>>⟧.fronts.depth reader.now ≡ reader.now.depth }
    ensures height { (v : T) → ⟦<BerReader as FrontReader<T>>⟧.fronts.height v ≡
        highest (own_records T.meaning v) }
{}

/// A law of the derives: clones of the rules and of a reader are their sources.
pub fn clones_are_their_sources()
    ensures rules { ClonesAll ⟦<BerRules as Clone>⟧.is_clone
        ⟦<BerRules as Clone>⟧.is_infallible }
    ensures readers { ClonesAll ⟦<BerReader as Clone>⟧.is_clone
        ⟦<BerReader as Clone>⟧.is_infallible }
{}
