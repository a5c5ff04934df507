//! A value inside itself, which is in a box.
ghost use Rattle.asn1_laws.specs.Reading.{ReadsValue};
ghost use Rattle.asn1_laws.specs.ReadingExactly.{HasReadValue};
ghost use Rattle.asn1_model.specs.TaggedTypes.{tagged};
ghost use Rattle.asn1_nesting.specs.InsideItself.{eq_in_box, in_box};
ghost use Rattle.asn1_slots.specs.Cases.{ReadsValueOf};
ghost use Rattle.asn1_tags.specs.declared.tags.Tag.{Tag};
ghost use Rattle.std.specs.Prelude.{◌≡◌, IfOk, OnOk};

use crate::holds_itself::HoldsItself;
use asn1_dec::Decoder;
use asn1_laws::DecodeError;

/// Moves a value that was read into a box. The error is [`DecodeError::Memory`] if memory runs out for it.
pub fn boxed<T: HoldsItself, D: Decoder>(
    read: Result<T, DecodeError>,
    decoder: &D,
) -> Result<Box<T>, DecodeError>
    ensures read { (old : D) (tag : Tag) → T.meaning.HasDistinctTags tag → ReadsValue D.reader
        T.meaning T.eq tag T.meaning.constraints old decoder.now read → IfOk read (HasReadValue
        D.reader old decoder.now T.meaning tag T.meaning.constraints) → ReadsValueOf D.reader
        (tagged tag (in_box T.inside)) (eq_in_box T.eq) old decoder.now result }
    ensures same_depth { (old : D) → OnOk read (D.reader.depth_left decoder.now ≡
        D.reader.depth_left old) → OnOk result (D.reader.depth_left decoder.now ≡
        D.reader.depth_left old) }
{
    let value = read?;
    match Box::new(decoder.global(), value) {
        Ok(boxed) => Ok(boxed),
        Err(_) => Err(DecodeError::Memory),
    }
}
