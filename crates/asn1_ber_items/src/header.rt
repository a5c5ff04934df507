//! Identifier octets and length octets.
ghost use Rattle.asn1_ber_items.specs.Headers.{Header as HeaderView, header_at, header_of};
ghost use Rattle.asn1_der_items.specs.Cuts.{EndEarly, IsMissing};
ghost use Rattle.std.specs.Prelude.{◌≡◌, ◌↔◌, IfErr, IfOk, IsOk, Some};

use crate::size::read_size;
use asn1_der_items::read_identifier;
use asn1_items::ItemError;
use asn1_tags::Tag;

/// The identifier octets and length octets that were read.
#[derive(Clone, Copy)]
pub(crate) struct Header<'a> {
    /// The tag.
    pub(crate) tag: Tag,
    /// Whether the element holds others, and no primitive contents.
    pub(crate) constructed: bool,
    /// How many contents octets there are, if the length is definite.
    pub(crate) size: Option<u64>,
    /// The bytes after the length octets.
    pub(crate) rest: &'a [u8],
}

/// Reads a header.
///
/// # Errors
/// [`ItemError::Missing`] where the bytes end in the header and others complete it, and else [`ItemError::Malformed`].
#[inline(always)]
pub(crate) fn read_header(bytes: &[u8]) -> Result<Header<'_>, ItemError>
    ensures only { IfOk result (λ h. header_at bytes.now ≡ Some (header_of h)) }
    ensures found { (h : HeaderView) → header_at bytes.now ≡ Some h → IsOk result }
    ensures missing { IfErr result (λ e. IsMissing e ↔ EndEarly header_at bytes.now) }
{
    let identifier = read_identifier(bytes)?;
    let length = read_size(identifier.rest)?;
    Ok(Header {
        tag: identifier.tag,
        constructed: identifier.constructed,
        size: length.size,
        rest: length.rest,
    })
}
