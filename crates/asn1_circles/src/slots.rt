//! The calls that read a component into its slot, or the value of an alternative, by the reader of a type in it.
ghost use Rattle.asn1_circles.specs.Readers.{IsReaderOf, MayReadTo};
ghost use Rattle.asn1_model.specs.Records.{in_additions, in_root};
ghost use Rattle.asn1_slots.specs.Cases.{ReadsValueOf};
ghost use Rattle.asn1_slots.specs.Filling.{Fills, FillsOptional};
ghost use Rattle.asn1_slots.specs.Taggings.{under};
ghost use Rattle.std.specs.Prelude.{◌≡◌, OnOk};

use crate::errors::ReadError;
use crate::optionals::read_optional_with;
use crate::readings::Reading;
use crate::tagged::read_component_with;
use asn1_dec::Decoder;
use asn1_laws::{DecodeError, Side};
use asn1_model::AsnType;
use asn1_slots::{Decoded, Tagging};
use asn1_tags::Tag;

/// Reads a component that is always there.
#[inline(always)]
pub fn required_with<
    T: AsnType + Eq + Drop,
    W: AsnType + Eq + Drop,
    M: Reading<T, W>,
    E: ReadError,
    D: Decoder,
    F: Fn(&mut D, Tag) -> Result<T, E>,
>(slot: &mut Option<W>, decoder: &mut D, tagging: Tagging, read: &F) -> Decoded
    requires callable { MayReadTo D.reader (D.reader.depth_left decoder.old) (F.pre read.now) }
    requires reads { IsReaderOf D.reader T.meaning T.eq E.says (F.post read.now) }
    ensures read { Fills D.reader (under tagging W.meaning) W.eq decoder.old decoder.new slot.new
        result }
    ensures same_depth { OnOk result (D.reader.depth_left decoder.new ≡
        D.reader.depth_left decoder.old) }
{
    *slot = Some(read_component_with::<T, W, M, E, D, F>(decoder, tagging, read)?);
    Ok(())
}

/// Reads a component that may be absent, or has a default.
#[inline(always)]
pub fn optional_with<
    T: AsnType + Eq + Drop,
    W: AsnType + Eq + Drop,
    M: Reading<T, W>,
    E: ReadError,
    D: Decoder,
    F: Fn(&mut D, Tag) -> Result<T, E>,
>(slot: &mut Option<W>, decoder: &mut D, tagging: Tagging, read: &F) -> Decoded
    requires callable { MayReadTo D.reader (D.reader.depth_left decoder.old) (F.pre read.now) }
    requires reads { IsReaderOf D.reader T.meaning T.eq E.says (F.post read.now) }
    ensures read { FillsOptional D.reader in_root (under tagging W.meaning) W.eq decoder.old
        decoder.new slot.new result }
    ensures same_depth { OnOk result (D.reader.depth_left decoder.new ≡
        D.reader.depth_left decoder.old) }
{
    *slot = read_optional_with::<T, W, M, E, D, F>(decoder, Side::Root, tagging, read)?;
    Ok(())
}

/// Reads an addition, which may be absent, or has a default.
#[inline(always)]
pub fn addition_with<
    T: AsnType + Eq + Drop,
    W: AsnType + Eq + Drop,
    M: Reading<T, W>,
    E: ReadError,
    D: Decoder,
    F: Fn(&mut D, Tag) -> Result<T, E>,
>(slot: &mut Option<W>, decoder: &mut D, tagging: Tagging, read: &F) -> Decoded
    requires callable { MayReadTo D.reader (D.reader.depth_left decoder.old) (F.pre read.now) }
    requires reads { IsReaderOf D.reader T.meaning T.eq E.says (F.post read.now) }
    ensures read { FillsOptional D.reader in_additions (under tagging W.meaning) W.eq decoder.old
        decoder.new slot.new result }
    ensures same_depth { OnOk result (D.reader.depth_left decoder.new ≡
        D.reader.depth_left decoder.old) }
{
    *slot = read_optional_with::<T, W, M, E, D, F>(decoder, Side::Additions, tagging, read)?;
    Ok(())
}

/// Reads the value of an alternative.
#[inline(always)]
pub fn alternative_with<
    T: AsnType + Eq + Drop,
    W: AsnType + Eq + Drop,
    M: Reading<T, W>,
    E: ReadError,
    D: Decoder,
    F: Fn(&mut D, Tag) -> Result<T, E>,
>(decoder: &mut D, tagging: Tagging, read: &F) -> Result<W, DecodeError>
    requires callable { MayReadTo D.reader (D.reader.depth_left decoder.old) (F.pre read.now) }
    requires reads { IsReaderOf D.reader T.meaning T.eq E.says (F.post read.now) }
    ensures read { ReadsValueOf D.reader (under tagging W.meaning) W.eq decoder.old decoder.new
        result }
    ensures same_depth { OnOk result (D.reader.depth_left decoder.new ≡
        D.reader.depth_left decoder.old) }
{
    read_component_with::<T, W, M, E, D, F>(decoder, tagging, read)
}
