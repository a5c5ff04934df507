//! The intersection of two bounds.
ghost use Rattle.std.specs.Prelude.{◌≡◌, IfSome, IfNone};
ghost use Rattle.std.specs.Option.{option_copied};
ghost use Rattle.asn1_ranges.specs.Ends.{is_single};
ghost use Rattle.asn1_ranges.specs.Intersection.{greater_start, lesser_end, bound_between, common, intersection};
ghost use Rattle.asn1_ranges.specs.Members.{Holds, HasMember, HasCommonMembers, AreDisjoint, IsOrdered};

use crate::bounded::Bounded;
use crate::number::WholeNumber;

impl<T: WholeNumber> Bounded<T> {
    /// The bound whose members are those of both, or `None` if they have none in common.
    ///
    /// No bound keeps the other side unchanged, also if that is inverted. An inverted range with anything else is
    /// `None`.
    pub fn intersect(&self, other: Self) -> Option<Self>
        ensures shape { result ≡ intersection T.number self.now other }
        ensures members { IfSome result (HasCommonMembers T.number self.now other) }
        ensures disjoint { IfNone result (AreDisjoint T.number self.now other) }

        // If neither side is inverted, `None` comes only if nothing is in common.
        ensures inhabited { IsOrdered T.number self.now → IsOrdered T.number other →
            IfSome result (HasMember T.number) }

        // A single with anything that holds it is that single.
        ensures single { (v : _) → self.now ≡ Bounded.Single v → Holds T.number other v →
            result ≡ Some self.now }
    {
        match (self, other) {
            (Bounded::None, other) => Some(other),
            (_, Bounded::None) => Some(*self),
            (_, other) => common(self, &other),
        }
    }
}

// The intersection of two bounds that both restrict.
fn common<T: WholeNumber>(a: &Bounded<T>, b: &Bounded<T>) -> Option<Bounded<T>>
    ensures { result ≡ common T.number a.now b.now }
{
    let start = greater_start(a.as_start(), b.as_start());
    let end = lesser_end(a.as_end(), b.as_end());
    bound_between(is_single(a) || is_single(b), start, end)
}

// The start that both starts leave.
fn greater_start<T: WholeNumber>(a: Option<&T>, b: Option<&T>) -> Option<T>
    ensures { result ≡ greater_start T.number (option_copied a.entry) (option_copied b.entry) }
{
    match (a, b) {
        (Some(a), Some(b)) => Some((*a).max(*b)),
        (a, b) => a.or(b).copied(),
    }
}

// The end that both ends leave.
fn lesser_end<T: WholeNumber>(a: Option<&T>, b: Option<&T>) -> Option<T>
    ensures { result ≡ lesser_end T.number (option_copied a.entry) (option_copied b.entry) }
{
    match (a, b) {
        (Some(a), Some(b)) => Some((*a).min(*b)),
        (a, b) => a.or(b).copied(),
    }
}

// The bound between two ends, a single or a range, or `None` if the start is above the end.
fn bound_between<T: WholeNumber>(
    single: bool,
    start: Option<T>,
    end: Option<T>,
) -> Option<Bounded<T>>
    ensures { result ≡ bound_between T.number single start end }
{
    if let (Some(start), Some(end)) = (start, end) {
        if end < start {
            return None;
        }
        if single {
            return Some(Bounded::Single(start));
        }
    }
    Some(Bounded::Range { start, end })
}

// Whether the bound is a single.
fn is_single<T>(bound: &Bounded<T>) -> bool
    ensures { result ≡ is_single bound.now }
{
    matches!(bound, Bounded::Single(_))
}
