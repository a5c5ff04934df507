//! The classes of tags.
ghost use Rattle.std.specs.Prelude.{◌≡◌, ◌↔◌, ◌<◌, IsTrue, IsSome, IfSome, Some};
ghost use Rattle.asn1_tags.specs.Tags.{class_number, class_text};

use std::fmt;

/// The class of a tag (X.680, clause 8).
///
/// The numbers are those that encodings write, and their order is the canonical order of the classes.
#[derive(Clone, Copy, PartialEq, Eq, PartialOrd, Ord, Hash, Debug)]
pub enum Class {
    /// Tags that X.680 itself assigns.
    Universal = 0,
    /// Tags that one application, or one other standard, assigns.
    Application = 1,
    /// Tags that mean something only in their context.
    Context = 2,
    /// Tags that one enterprise assigns.
    Private = 3,
}

impl Class {
    /// The class of that number, and `None` above 3.
    pub fn from_u8(number: u8) -> Option<Class>
        ensures known { IsSome result ↔ (number < 4) }
        ensures number { IfSome result (λ class. class_number class ≡ number) }
    {
        match number {
            0 => Some(Class::Universal),
            1 => Some(Class::Application),
            2 => Some(Class::Context),
            3 => Some(Class::Private),
            _ => None,
        }
    }

    /// Whether this is the class of the tags that X.680 itself assigns.
    pub fn is_universal(self) -> bool
        ensures { IsTrue result ↔ (self ≡ Class.Universal) }
    {
        self == Class::Universal
    }
}

impl fmt::Display for Class {
    ghost output = { λ class. Some (class_text class) };

    fn fmt<W: fmt::Write>(&self, f: &mut fmt::Formatter<W>) -> fmt::Result {
        f.write_str(match self {
            Class::Universal => "universal",
            Class::Application => "application",
            Class::Context => "context",
            Class::Private => "private",
        })
    }
}
