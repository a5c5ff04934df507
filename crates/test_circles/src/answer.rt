//! Answers to requests.
use crate::request::{Codec, Request};
use asn1_ber::BerRules;
use asn1_der::DerRules;
use asn1_schema::{Decode, DecodeError, Encode, EncodeError, Rules};
use expressions::{Category, Chain, ChainOf, Expr, Rule};
use folders::{Archive, File, Folder, Label};
use std::alloc::Global;
use std::fmt;

/// The answer to a request.
#[derive(Drop)]
pub(crate) enum Answer {
    /// The octets of the value in DER.
    Written(Vec<u8>),
    /// The number of links of the value.
    Links(usize),
    /// No value is read.
    NotRead(DecodeError),
    /// DER does not write the value.
    NotWritten(EncodeError),
    /// The words are no request.
    NotUnderstood,
}

/// The answer to a request.
pub(crate) fn answer_to(alloc: Global, request: &Request<'_>) -> Answer {
    if request.counts_links {
        return links(alloc, request);
    }
    match request.type_name {
        "Archive" => again::<Archive>(alloc, request),
        "Category" => again::<Category>(alloc, request),
        "Chain" => again::<Chain>(alloc, request),
        "Expr" => again::<Expr>(alloc, request),
        "File" => again::<File>(alloc, request),
        "Folder" => again::<Folder>(alloc, request),
        "Label" => again::<Label>(alloc, request),
        "Rule" => again::<Rule>(alloc, request),
        _ => Answer::NotUnderstood,
    }
}

// A value is read, and written again.
fn again<T: Encode + Decode + Drop>(alloc: Global, request: &Request<'_>) -> Answer {
    match value_of::<T>(alloc, request) {
        Ok(value) => match DerRules::new(alloc).write_value(&value, request.depth) {
            Ok(octets) => Answer::Written(octets),
            Err(error) => Answer::NotWritten(error),
        },
        Err(error) => Answer::NotRead(error),
    }
}

// A chain is read, and its links are counted.
fn links(alloc: Global, request: &Request<'_>) -> Answer {
    match value_of::<Chain>(alloc, request) {
        Ok(chain) => Answer::Links(links_of(&chain)),
        Err(error) => Answer::NotRead(error),
    }
}

// The value that a request has.
fn value_of<T: Decode>(alloc: Global, request: &Request<'_>) -> Result<T, DecodeError> {
    match request.codec {
        Codec::Der => DerRules::new(alloc).read_value(&request.octets, request.depth),
        Codec::Ber => BerRules::new(alloc).read_value(&request.octets, request.depth),
    }
}

// The number of links of a chain.
fn links_of(chain: &Chain) -> usize {
    let mut rest = chain;
    for count in 0..usize::MAX {
        match rest.get() {
            ChainOf::Link(inner) => rest = inner,
            ChainOf::End(_) => return count,
        }
    }
    usize::MAX
}

impl fmt::Display for Answer {
    fn fmt<W: fmt::Write>(&self, f: &mut fmt::Formatter<W>) -> fmt::Result {
        match self {
            Answer::Written(octets) => {
                for octet in octets {
                    write!(f, "{octet:02x}")?;
                }
                Ok(())
            }
            Answer::Links(count) => write!(f, "{count} links"),
            Answer::NotRead(error) => write!(f, "refused: {error}"),
            Answer::NotWritten(error) => write!(f, "not written: {error}"),
            Answer::NotUnderstood => write!(f, "not understood"),
        }
    }
}
