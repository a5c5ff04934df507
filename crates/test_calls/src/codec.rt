//! The codecs over bytes, by their names.
use asn1_bench::{BenchReader, BenchRules};
use asn1_ber::{BerReader, BerRules};
use asn1_dec::{Decode, DecodeError};
use asn1_der::{DerReader, DerRules};
use asn1_enc::{Encode, EncodeError};
use asn1_rules::{
    CanonicalError, CanonicalReader, FrontReader, Pieces, Rules, read_canonical, read_pieces,
};
use asn1_tagform::TagRules;
use std::alloc::Global;

/// A codec, by its name.
#[derive(Clone, Copy, Drop)]
pub enum Codec {
    /// The packed codec.
    Packed,
    /// The tag form.
    TagForm,
    /// DER.
    Der,
    /// BER.
    Ber,
}

impl Codec {
    /// The codec of this name.
    pub fn of_name(name: &str) -> Option<Codec> {
        match name {
            "packed" => Some(Codec::Packed),
            "tag" => Some(Codec::TagForm),
            "der" => Some(Codec::Der),
            "ber" => Some(Codec::Ber),
            _ => None,
        }
    }

    /// Reads a value of all of the bytes.
    ///
    /// # Errors
    /// As `Rules::read_value` of the codec.
    pub fn read<T: Decode>(
        self,
        alloc: Global,
        bytes: &Vec<u8>,
        depth: usize,
    ) -> Result<T, DecodeError> {
        match self {
            Codec::Packed => BenchRules::new(alloc).read_value(bytes, depth),
            Codec::TagForm => TagRules::new(alloc).read_value(bytes, depth),
            Codec::Der => DerRules::new(alloc).read_value(bytes, depth),
            Codec::Ber => BerRules::new(alloc).read_value(bytes, depth),
        }
    }

    /// Reads a value of the front of the bytes. The tag form has no reader of streams, and takes them all.
    ///
    /// # Errors
    /// As `FrontReader::read_front` of the codec's reader.
    pub fn read_front<T: Decode>(
        self,
        alloc: Global,
        bytes: &Vec<u8>,
        depth: usize,
    ) -> Result<(T, usize), DecodeError> {
        match self {
            Codec::Packed => BenchReader::new(alloc, depth).read_front(bytes),
            Codec::TagForm => Ok((self.read(alloc, bytes, depth)?, bytes.len())),
            Codec::Der => DerReader::new(alloc, depth).read_front(bytes),
            Codec::Ber => BerReader::new(alloc, depth).read_front(bytes),
        }
    }

    /// Reads a value of all of the bytes, if writing it makes the same bytes.
    ///
    /// # Errors
    /// As [`read_canonical`].
    pub fn read_canonical<T: Encode + Decode>(
        self,
        alloc: Global,
        bytes: &Vec<u8>,
        depth: usize,
    ) -> Result<T, CanonicalError> {
        match self {
            Codec::Packed => read_canonical(&BenchRules::new(alloc), bytes, depth),
            Codec::TagForm => read_canonical(&TagRules::new(alloc), bytes, depth),
            Codec::Der => read_canonical(&DerRules::new(alloc), bytes, depth),
            Codec::Ber => read_canonical(&BerRules::new(alloc), bytes, depth),
        }
    }

    /// Reads values one after another, as long as writing each makes the same bytes. The tag form has no reader of streams.
    ///
    /// # Errors
    /// As [`read_pieces`]; and [`DecodeError::Custom`] of the tag form.
    pub fn read_canonical_stream<T: Encode + Decode + Drop>(
        self,
        alloc: Global,
        bytes: &[u8],
        depth: usize,
    ) -> Result<Pieces<T>, DecodeError> {
        match self {
            Codec::Packed => {
                let inner = BenchReader::new(alloc, depth);
                let reader = CanonicalReader::new(inner, BenchRules::new(alloc), depth);
                read_pieces(alloc, reader, &[bytes], usize::MAX)
            }
            Codec::TagForm => Err(DecodeError::Custom("no reader of streams")),
            Codec::Der => {
                let inner = DerReader::new(alloc, depth);
                let reader = CanonicalReader::new(inner, DerRules::new(alloc), depth);
                read_pieces(alloc, reader, &[bytes], usize::MAX)
            }
            Codec::Ber => {
                let inner = BerReader::new(alloc, depth);
                let reader = CanonicalReader::new(inner, BerRules::new(alloc), depth);
                read_pieces(alloc, reader, &[bytes], usize::MAX)
            }
        }
    }

    /// Writes a value.
    ///
    /// # Errors
    /// As `Rules::write_value` of the codec.
    pub fn write<T: Encode>(
        self,
        alloc: Global,
        value: &T,
        depth: usize,
    ) -> Result<Vec<u8>, EncodeError> {
        match self {
            Codec::Packed => BenchRules::new(alloc).write_value(value, depth),
            Codec::TagForm => TagRules::new(alloc).write_value(value, depth),
            Codec::Der => DerRules::new(alloc).write_value(value, depth),
            Codec::Ber => BerRules::new(alloc).write_value(value, depth),
        }
    }
}
