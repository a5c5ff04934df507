//! The octets of a value by one codec, of those by another.
ghost use Rattle.asn1_convert.specs.Conversions.{Converts};
ghost use Rattle.asn1_convert.specs.Forms.{format_of};
ghost use Rattle.asn1_convert.specs.declared.form.OutputForm.TheVariants.{Codec};
ghost use Rattle.asn1_model.specs.Meaning.{own_records};
ghost use Rattle.asn1_rules.specs.CanonicalReading.{MayAnswer};
ghost use Rattle.asn1_rules.specs.Recoding.{Recodes};
ghost use Rattle.asn1_rules.specs.Rules.{WritesWhole};
ghost use Rattle.asn1_laws.specs.declared.encode_error.EncodeError.TheVariants.{Memory};
ghost use Rattle.std.specs.Prelude.{◌≡◌, ◌++◌, ◌∷◌, [], MatchResult};
ghost use Rattle.std.specs.String.{string_bytes};

use crate::form::{CodecForm, OutputForm};
use asn1_bench::BenchRules;
use asn1_ber::BerRules;
use asn1_dec::{Decode, DecodeError};
use asn1_der::DerRules;
use asn1_enc::{Encode, EncodeError};
use asn1_rules::{RecodeError, Rules};
use asn1_value_text::{json_text, value_text};
use std::alloc::Global;

/// The octets of a value by one codec, of those by another, as [`recode`] answers them.
///
/// [`recode`]: asn1_rules::recode
pub fn recode_between<T: Encode + Decode>(
    alloc: Global,
    from: CodecForm,
    octets: &Vec<u8>,
    to: CodecForm,
    depth: usize,
) -> Result<Vec<u8>, RecodeError>
    ensures recoded { Recodes (format_of to) T.meaning (format_of from) octets.now T.eq depth
        result }
    ensures converted { Converts T.meaning T.eq T.refusals depth from octets.now.items (Codec to)
        result }
{
    let value: T = match read_by(alloc, from, octets, depth) {
        Ok(value) => value,
        Err(error) => return Err(RecodeError::Read(error)),
    };
    match write_by(alloc, to, &value, depth) {
        Ok(output) => Ok(output),
        Err(error) => Err(RecodeError::Write(error)),
    }
}

/// The value whose octets these are by a codec.
fn read_by<T: Decode>(
    alloc: Global,
    form: CodecForm,
    octets: &Vec<u8>,
    depth: usize,
) -> Result<T, DecodeError>
    ensures { MayAnswer (format_of form) T.meaning T.eq T.refusals depth octets.now result }
{
    match form {
        CodecForm::Der => DerRules::new(alloc).read_value(octets, depth),
        CodecForm::Ber => BerRules::new(alloc).read_value(octets, depth),
        CodecForm::Packed => BenchRules::new(alloc).read_value(octets, depth),
    }
}

/// The octets of a value by a codec.
fn write_by<T: Encode>(
    alloc: Global,
    form: CodecForm,
    value: &T,
    depth: usize,
) -> Result<Vec<u8>, EncodeError>
    ensures { WritesWhole (format_of form) (own_records T.meaning value.now)
        (T.meaning.IsOfType value.now) depth result }
{
    match form {
        CodecForm::Der => DerRules::new(alloc).write_value(value, depth),
        CodecForm::Ber => BerRules::new(alloc).write_value(value, depth),
        CodecForm::Packed => BenchRules::new(alloc).write_value(value, depth),
    }
}

/// The conversion of the value whose octets these are. No contract covers which value octets are read as that carry none.
pub fn convert_value<T: Encode + Decode>(
    alloc: Global,
    from: CodecForm,
    octets: &Vec<u8>,
    to: OutputForm,
    depth: usize,
) -> Result<Vec<u8>, RecodeError>
    ensures { Converts T.meaning T.eq T.refusals depth from octets.now.items to result }
{
    match to {
        OutputForm::Codec(to) => recode_between::<T>(alloc, from, octets, to, depth),
        OutputForm::Notation => {
            let value: T = read_by(alloc, from, octets, depth).map_err(RecodeError::Read)?;
            let text = value_text(alloc, &value, depth).map_err(RecodeError::Write)?;
            line_of(text).map_err(RecodeError::Write)
        }
        OutputForm::Json => {
            let value: T = read_by(alloc, from, octets, depth).map_err(RecodeError::Read)?;
            let text = json_text(alloc, &value, depth).map_err(RecodeError::Write)?;
            line_of(text).map_err(RecodeError::Write)
        }
    }
}

/// A text and the end of its line.
fn line_of(mut text: String) -> Result<Vec<u8>, EncodeError>
    ensures { MatchResult result (λ line. line.items ≡ string_bytes text ++ 10 ∷ [])
        (λ e. e ≡ Memory) }
{
    text.push('\n')?;
    Ok(text.into_bytes())
}
