//! Names and numbers that are to be distinct.
use asn1_resolved::NamedNumber;

/// The first whose name an earlier one has.
pub(crate) fn find_same_name<'a>(named: &[NamedNumber<'a>]) -> Option<NamedNumber<'a>> {
    for (index, candidate) in named.iter().enumerate() {
        for other in named.iter().take(index) {
            if other.name == candidate.name {
                return Some(*candidate);
            }
        }
    }
    None
}

/// The first whose number an earlier one has, behind that one.
pub(crate) fn find_same_number<'a>(
    named: &[NamedNumber<'a>],
) -> Option<(NamedNumber<'a>, NamedNumber<'a>)> {
    for (index, candidate) in named.iter().enumerate() {
        for other in named.iter().take(index) {
            if other.number == candidate.number {
                return Some((*other, *candidate));
            }
        }
    }
    None
}
