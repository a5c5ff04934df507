//! A place in a value.

use asn1_bounds::Constraints;
use asn1_tags::Tag;

/// A place in a value at which reading came to an end.
#[derive(Debug, Drop)]
pub struct Place {
    /// The names of components and alternatives that lead to it, with points between them, and numbers of elements of lists in
    /// brackets, from 0. It is empty for the whole value.
    pub path: String,
    /// How many elements are before it in each element that it is inside of, from the outermost on.
    pub element_numbers: Vec<usize>,
    /// The tags of the element that is due there, if its type is known.
    pub tags: Option<ElementTags>,
    /// The limits of the value that is read there.
    pub limits: Limits,
}

/// The tags of an element that is due.
#[derive(Clone, Copy, Debug, PartialEq, Eq)]
pub struct ElementTags {
    /// The tag with which it begins.
    pub own: Tag,
    /// The tag of the universal class of its type (X.680, 8.4, table 1), in whose place an implicit tag stands.
    pub universal: Tag,
}

impl ElementTags {
    pub(crate) fn new(own: Tag, universal: Tag) -> ElementTags {
        ElementTags { own, universal }
    }
}

/// The ends of the numbers, or of the numbers of units, that a type has.
#[derive(Clone, Copy, Debug, PartialEq, Eq)]
pub struct Limits {
    /// The least, if there is one.
    pub least: Option<i128>,
    /// The greatest, if there is one.
    pub greatest: Option<i128>,
}

impl Limits {
    /// No limits.
    pub(crate) const NONE: Limits = Limits {
        least: None,
        greatest: None,
    };

    /// The limits of a number under constraints.
    pub(crate) fn of_number(constraints: &Constraints<'_>) -> Limits {
        match constraints.value() {
            Some(values) => {
                let (least, greatest) = values.constraint.bounded().start_and_end();
                Limits {
                    least: least.copied(),
                    greatest: greatest.copied(),
                }
            }
            None => Limits::NONE,
        }
    }

    /// The limits of the number of units of a string, or of elements of a list, under constraints.
    pub(crate) fn of_size(constraints: &Constraints<'_>) -> Limits {
        match constraints.size() {
            Some(sizes) => {
                let (least, greatest) = sizes.constraint.bounded().start_and_end();
                Limits {
                    least: least.map(|size| *size as i128),
                    greatest: greatest.map(|size| *size as i128),
                }
            }
            None => Limits::NONE,
        }
    }
}
