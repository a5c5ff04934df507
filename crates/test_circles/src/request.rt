//! Requests, each of which is a line of words.
use std::alloc::{AllocError, Global};

/// A request.
#[derive(Drop)]
pub(crate) struct Request<'a> {
    /// The codec that reads.
    pub(crate) codec: Codec,
    /// The name of the type.
    pub(crate) type_name: &'a str,
    /// The greatest number of nested scopes.
    pub(crate) depth: usize,
    /// The octets.
    pub(crate) octets: Vec<u8>,
    /// Whether the answer is the number of links, and not the octets.
    pub(crate) counts_links: bool,
}

/// A codec.
#[derive(Clone, Copy, Drop)]
pub(crate) enum Codec {
    /// DER.
    Der,
    /// BER.
    Ber,
}

impl<'a> Request<'a> {
    /// The request of these words. There is none if a word is none of those of a request, or memory runs out.
    pub(crate) fn of_words(alloc: Global, words: &'a str) -> Option<Request<'a>> {
        let (first, words) = words.split_once(' ')?;
        let (second, words) = words.split_once(' ')?;
        if first == "levels" {
            return Request::of_links(alloc, second.parse::<usize>().ok()?, words);
        }
        let codec = match first {
            "der" => Codec::Der,
            "ber" => Codec::Ber,
            _ => return None,
        };
        let (depth, digits) = words.split_once(' ')?;
        Some(Request {
            codec,
            type_name: second,
            depth: depth.parse::<usize>().ok()?,
            octets: hex::decode(alloc, digits).ok()?,
            counts_links: false,
        })
    }

    // The request to read that many links.
    fn of_links(alloc: Global, links: usize, depth: &str) -> Option<Request<'static>> {
        Some(Request {
            codec: Codec::Ber,
            type_name: "Chain",
            depth: depth.parse::<usize>().ok()?,
            octets: chain_octets(alloc, links).ok()?,
            counts_links: true,
        })
    }
}

// The BER of a chain of that many links: each is an element under tag 1 of indefinite length, and the end is a NULL under tag 0.
fn chain_octets(alloc: Global, links: usize) -> Result<Vec<u8>, AllocError> {
    let mut octets = Vec::new(alloc);
    for _ in 0..links {
        octets.extend_from_slice(&[0xa1, 0x80])?;
    }
    octets.extend_from_slice(&[0x80, 0x00])?;
    for _ in 0..links {
        octets.extend_from_slice(&[0x00, 0x00])?;
    }
    Ok(octets)
}
