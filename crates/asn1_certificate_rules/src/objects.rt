//! Object identifiers with a number that is padded.
ghost use Rattle.std.specs.Prelude.{MatchOption};
ghost use Rattle.asn1_certificate_rules.specs.Contents.{HasNoPaddedArc, IsPaddedArc};

/// The index of an octet of zero, but for bit 8, with which a number begins.
pub(crate) fn padded_arc(octets: &[u8]) -> Option<usize>
    ensures { MatchOption result (HasNoPaddedArc octets.now) (IsPaddedArc octets.now) }
{
    for index in 0..octets.len() {
        if octets[index] == 128 && (index == 0 || octets[index - 1] < 128) {
            return Some(index);
        }
    }
    None
}
