//! The beginning of a message (RFC 4511, 4.1.1), which tells a message that is not understood from other elements.
ghost use Rattle.std.specs.Prelude.{MatchOption};
ghost use Rattle.asn1_ldap_stream.specs.Beginnings.{IsBeginning, IsNoBeginning};

use asn1_der_items::find_element;
use asn1_tags::Tag;

/// The beginning of an element that begins as a message does: a SEQUENCE with an INTEGER first.
#[derive(Clone, Copy)]
pub(crate) struct Beginning<'a> {
    /// The contents octets of the INTEGER, the number of the message.
    pub(crate) message_id: &'a [u8],
    /// The octets after the INTEGER, which begin with the operation.
    pub(crate) operation: &'a [u8],
}

/// The beginning of the element in normal form with these octets, if it begins as a message does.
pub(crate) fn beginning_of(octets: &[u8]) -> Option<Beginning<'_>>
    ensures { MatchOption result (IsNoBeginning octets.now) (λ beginning.
        IsBeginning octets.now beginning.message_id.now beginning.operation.now) }
{
    let Ok(message) = find_element(octets) else {
        return None;
    };
    if message.tag != Tag::SEQUENCE || !message.constructed {
        return None;
    }
    let Ok(first) = find_element(message.contents) else {
        return None;
    };
    if first.tag != Tag::INTEGER || first.constructed {
        return None;
    }
    Some(Beginning {
        message_id: first.contents,
        operation: first.rest,
    })
}
