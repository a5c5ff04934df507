//! Tags.
ghost use Rattle.std.specs.Prelude.{◌≡◌, ◌↔◌, IsTrue, Some};
ghost use Rattle.std.specs.declared.cmp.Ordering.TheVariants.{Less};
ghost use Rattle.asn1_tags.specs.Tags.{tag_cmp, tag_eq, tag_text};

use crate::classes::Class;
use std::cmp::Ordering;
use std::fmt;

/// The tag of an ASN.1 type: its class and its number within the class (X.680, clause 8).
///
/// Tags are ordered by class and then by number, which is the canonical order of X.680, 8.6.
#[derive(Clone, Copy, PartialEq, Eq, PartialOrd, Ord, Hash, Debug)]
pub struct Tag {
    /// The class.
    pub class: Class,
    /// The number within the class.
    pub value: u32,
}

impl Tag {
    /// The tag of that class and number.
    pub fn new(class: Class, value: u32) -> Self
        ensures class { result.class ≡ class }
        ensures value { result.value ≡ value }
    {
        Tag { class, value }
    }

    /// The tag of that number in the class `Application`.
    pub fn new_application(value: u32) -> Self
        ensures class { result.class ≡ Class.Application }
        ensures value { result.value ≡ value }
    {
        Tag::new(Class::Application, value)
    }

    /// The tag of that number in the class `Context`.
    pub fn new_context(value: u32) -> Self
        ensures class { result.class ≡ Class.Context }
        ensures value { result.value ≡ value }
    {
        Tag::new(Class::Context, value)
    }

    /// The tag of that number in the class `Private`.
    pub fn new_private(value: u32) -> Self
        ensures class { result.class ≡ Class.Private }
        ensures value { result.value ≡ value }
    {
        Tag::new(Class::Private, value)
    }

    /// This tag with another number.
    pub fn set_value(mut self, value: u32) -> Self
        ensures class { result.class ≡ self.class }
        ensures value { result.value ≡ value }
    {
        self.value = value;
        self
    }

    /// The canonical order of tags, which is also that of `Ord`.
    pub fn const_cmp(&self, other: &Self) -> Ordering
        ensures canonical { result ≡ tag_cmp self.now other.now }
        ensures as_ord { result ≡ ⟦<Tag as Ord>⟧.cmp self.now other.now }
    {
        (self.class as u8)
            .cmp(&(other.class as u8))
            .then(self.value.cmp(&other.value))
    }

    /// Whether the two are the same tag.
    pub fn const_eq(self, other: &Self) -> bool
        ensures same { IsTrue result ↔ (self ≡ other.now) }
        ensures as_eq { result ≡ ⟦<Tag as PartialEq>⟧.eq self other.now }
    {
        self.class as u8 == other.class as u8 && self.value == other.value
    }

    /// Whether this tag comes before the other in the canonical order.
    pub fn const_less_than(self, other: Self) -> bool
        ensures { IsTrue result ↔ (tag_cmp self other ≡ Less) }
    {
        self.const_cmp(&other).is_lt()
    }

    /// Whether this is the CHOICE marker tag.
    pub fn is_choice(&self) -> bool
        ensures same { IsTrue result ↔ (self.now ≡ Tag.CHOICE) }
        ensures parts { result ≡ tag_eq self.now Tag.CHOICE }
    {
        self.const_eq(&Tag::CHOICE)
    }
}

impl fmt::Display for Tag {
    ghost output = { λ tag. Some (tag_text tag) };

    fn fmt<W: fmt::Write>(&self, f: &mut fmt::Formatter<W>) -> fmt::Result {
        let class = match self.class {
            Class::Universal => "Universal",
            Class::Application => "Application",
            Class::Context => "Context",
            Class::Private => "Private",
        };
        let value = self.value;
        write!(f, "{class} {value}")
    }
}

/// A tag by its class and its number, as ASN.1 writes it and as an expression that a constant can have: `tag!(context 0)`.
#[macro_export]
macro_rules! tag {
    (universal $value:expr) => {
        $crate::Tag {
            class: $crate::Class::Universal,
            value: $value,
        }
    };
    (application $value:expr) => {
        $crate::Tag {
            class: $crate::Class::Application,
            value: $value,
        }
    };
    (context $value:expr) => {
        $crate::Tag {
            class: $crate::Class::Context,
            value: $value,
        }
    };
    (private $value:expr) => {
        $crate::Tag {
            class: $crate::Class::Private,
            value: $value,
        }
    };
}
