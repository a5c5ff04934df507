//! The place in a value at which reading fails, and that of a position.

use crate::elements::element_numbers;
use crate::form::CodecForm;
use asn1_ber::BerDecoder;
use asn1_ber_items::normal_form;
use asn1_dec::{Decode, DecodeError, Decoder};
use asn1_der::DerDecoder;
use asn1_paths::{PathDecoder, Place};
use std::alloc::Global;

/// The place at which reading these octets fails, if that is known: by reading them again with a decoder that notes where it is.
pub(crate) fn failing_place<T: Decode>(
    alloc: Global,
    form: CodecForm,
    octets: &[u8],
    depth: usize,
) -> Option<Place> {
    match form {
        CodecForm::Der => place_in::<T, _>(DerDecoder::new(alloc, octets, depth)),
        CodecForm::Ber => {
            let normal = normal_form(alloc, octets).ok()?;
            place_in::<T, _>(BerDecoder::new(alloc, normal.as_slice(), depth))
        }
        CodecForm::Packed => None,
    }
}

/// The place of a decoder after it has read a value or failed: of a SET with a component that comes twice, that of the second one.
fn place_in<T: Decode, D: Decoder + Drop>(decoder: D) -> Option<Place> {
    let mut noting = PathDecoder::new(decoder);
    let read = T::decode(&mut noting);
    let (_decoder, place) = match read {
        Err(DecodeError::DuplicateField(_)) => noting.into_repeated(),
        _ => noting.into_parts(),
    };
    place.ok()
}

/// The place of the innermost element at a position that reading meets, if these octets of BER are read so far.
pub(crate) fn place_at<T: Decode>(
    alloc: Global,
    octets: &[u8],
    position: usize,
    depth: usize,
) -> Option<Place> {
    let numbers = element_numbers(alloc, octets, position).ok()?;
    let normal = normal_form(alloc, octets).ok()?;
    let decoder = BerDecoder::new(alloc, normal.as_slice(), depth);
    let mut looking = PathDecoder::looking_for(decoder, numbers);
    let _ = T::decode(&mut looking);
    let (_decoder, place) = looking.into_found();
    place
}
