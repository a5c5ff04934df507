//! Types that are read from the content of an item.
ghost use Rattle.asn1_items.specs.Contents.{IsContent, IsReadFrom, IsStringFrom};
ghost use Rattle.asn1_items.specs.Kinds.{content_kind};
ghost use Rattle.asn1_items.specs.declared.error.ItemError.TheVariants.{Memory};
ghost use Rattle.asn1_items.specs.declared.kinds.ContentKind.{ContentKind as Kind};
ghost use Rattle.asn1_items.specs.declared.kinds.ContentKind.TheVariants as kind;
ghost use Rattle.asn1_model.specs.Records as model;
ghost use Rattle.asn1_model.specs.Records.{arcs, discriminant, null, number, boolean};
ghost use Rattle.asn1_model.specs.RecordTables.{no_table};
ghost use Rattle.asn1_types.specs.AnyStrings.{IsMadeAs, IsStringOf, content_of_string};
ghost use Rattle.std.specs.Prelude.{◌≡◌, ⊤, Bool, IfOk, List, MatchResult, ℕ, ℤ, refl};

use crate::bits::{read_bits, read_packed_bits};
use crate::error::ItemError;
use crate::kinds::ContentKind;
use crate::numbers::{read_fours, read_integer, read_twos};
use asn1_types::{AnyString, CodecString, StringKind};
use asn1_values::{Integer, IntegerType, ObjectIdentifier};
use std::alloc::Global;

/// A type that is read from the content of an item.
pub trait FromContent: Sized {
    // The values whose contents are read as the type, and the content of each.
    ghost Value: { Type 0 };

    ghost content: { Value → model.Content };

    // The values that are of the type.
    ghost IsOfType: { Value → Type 0 };

    // The value that was read.
    ghost Is: { Self → Value → Type 0 };

    // The kind of content.
    ghost own_kind: { Kind };

    /// The kind of content.
    fn kind() -> ContentKind
        ensures { result ≡ own_kind };

    /// Reads a value from the bytes of a content of the kind.
    ///
    /// # Errors
    /// [`ItemError::Memory`], and [`ItemError::Malformed`] where the bytes are no content of the kind, or not of the type.
    fn from_content(alloc: Global, bytes: &[u8]) -> Result<Self, ItemError>
        ensures read { (x : Value) → IsOfType x → IsContent (content x) bytes.now →
            MatchResult result (λ w. Is w x) (λ e. e ≡ Memory) }
        ensures only { IfOk result (IsReadFrom content Is bytes.now) };

    // The law of a kind: each content is of it.
    ghost has_kind: { (x : Value) → content_kind (content x) ≡ own_kind };
}

impl FromContent for bool {
    ghost Value = { Bool };

    ghost content = { boolean };

    ghost IsOfType = { λ _. ⊤ };

    ghost Is = { λ w v. w ≡ v };

    ghost own_kind = { kind.Boolean };

    fn kind() -> ContentKind {
        ContentKind::Boolean
    }

    fn from_content(_alloc: Global, bytes: &[u8]) -> Result<Self, ItemError> {
        match bytes {
            [0] => Ok(false),
            [1] => Ok(true),
            _ => Err(ItemError::Malformed),
        }
    }

    ghost has_kind = { λ _. refl };
}

impl FromContent for () {
    ghost Value = { Unit {0} };

    ghost content = { λ _. null };

    ghost IsOfType = { λ _. ⊤ };

    ghost Is = { λ w v. w ≡ v };

    ghost own_kind = { kind.Null };

    fn kind() -> ContentKind {
        ContentKind::Null
    }

    fn from_content(_alloc: Global, bytes: &[u8]) -> Result<Self, ItemError> {
        match bytes {
            [] => Ok(()),
            _ => Err(ItemError::Malformed),
        }
    }

    ghost has_kind = { λ _. refl };
}

impl FromContent for Integer {
    ghost Value = { ℤ };

    ghost content = { number };

    ghost IsOfType = { λ _. ⊤ };

    ghost Is = { λ w z. w ≡ z };

    ghost own_kind = { kind.Number };

    fn kind() -> ContentKind {
        ContentKind::Number
    }

    fn from_content(alloc: Global, bytes: &[u8]) -> Result<Self, ItemError> {
        read_integer(alloc, bytes)
    }

    ghost has_kind = { λ _. refl };
}

/// The number of an item of an ENUMERATED type.
impl FromContent for isize {
    ghost Value = { ℤ };

    ghost content = { discriminant no_table };

    ghost IsOfType = { λ _. ⊤ };

    ghost Is = { λ w z. w ≡ z };

    ghost own_kind = { kind.Discriminant };

    fn kind() -> ContentKind {
        ContentKind::Discriminant
    }

    fn from_content(alloc: Global, bytes: &[u8]) -> Result<Self, ItemError> {
        let number = read_integer(alloc, bytes)?;
        match isize::try_from_integer(number) {
            Some(number) => Ok(number),
            None => Err(ItemError::Malformed),
        }
    }

    ghost has_kind = { λ _. refl };
}

impl FromContent for ObjectIdentifier {
    ghost Value = { List ℕ };

    ghost content = { arcs };

    ghost IsOfType = { λ _. ⊤ };

    ghost Is = { λ w v. w ≡ v };

    ghost own_kind = { kind.Arcs };

    fn kind() -> ContentKind {
        ContentKind::Arcs
    }

    fn from_content(alloc: Global, bytes: &[u8]) -> Result<Self, ItemError> {
        Ok(ObjectIdentifier::new(read_fours(alloc, bytes)?))
    }

    ghost has_kind = { λ _. refl };
}

/// A string of the kind `K`.
pub struct StringOf<U, K: CodecString<U>> {
    /// The string.
    pub string: K::Owned,
}

impl<U, K: CodecString<U>> FromContent for StringOf<U, K> {
    ghost use Rattle.asn1_items.specs.Contents.{kind_of_string};
    ghost use Rattle.asn1_types.specs.AnyStrings.{content_kind_of};

    ghost Value = { List U };

    ghost content = { K.content };

    ghost IsOfType = { K.AreOfKind };

    ghost Is = { λ w v. (K.units_in w.string ≡ v) × (K.units_read v ≡ v) };

    ghost own_kind = { kind.String (content_kind_of K.own_kind) };

    fn kind() -> ContentKind {
        ContentKind::String(K::kind().of_content())
    }

    fn from_content(alloc: Global, bytes: &[u8]) -> Result<Self, ItemError> {
        match K::from_any(read_string(alloc, K::kind(), bytes)?) {
            Some(string) => Ok(StringOf { string }),
            None => Err(ItemError::Malformed),
        }
    }

    ghost has_kind = { λ list. kind_of_string K.own_kind (K.content list) (K.has_kind list) };
}

/// Reads the bytes of a string of this kind. Its units need not be those that strings of the kind can have.
fn read_string(alloc: Global, kind: StringKind, bytes: &[u8]) -> Result<AnyString, ItemError>
    ensures read { (x : model.Content) → IsStringOf kind x → IsContent x bytes.now →
        MatchResult result (λ string. IsMadeAs kind string × (content_of_string string ≡ x))
        (λ e. e ≡ Memory) }
    ensures only { IfOk result (IsStringFrom kind bytes.now) }
{
    match kind {
        StringKind::Bits => Ok(AnyString::Bits(read_bits(alloc, bytes)?)),
        StringKind::PackedBits | StringKind::NamedBits => {
            Ok(AnyString::PackedBits(read_packed_bits(alloc, bytes)?))
        }
        StringKind::Octets(kind) => Ok(AnyString::Octets(kind, Vec::from_slice(alloc, bytes)?)),
        StringKind::Teletex => Ok(AnyString::Teletex(read_fours(alloc, bytes)?)),
        StringKind::Bmp => Ok(AnyString::Bmp(read_twos(alloc, bytes)?)),
    }
}
