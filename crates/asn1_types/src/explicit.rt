//! Types under another tag, which comes before their own (X.680, 31).
ghost use Rattle.std.specs.Prelude.{◌≡◌};
ghost use Rattle.std.specs.Borrow.{Lends, sem};
ghost use Rattle.asn1_types.specs.Kinds.{explicit_type};

use asn1_model::{AsnType, TypeTable};
use asn1_tags::Identifier;
use std::fmt;
use std::marker::PhantomData;

/// A value of type `V` under the tag of `T`, which comes before the tag of `V`.
#[derive(Drop)]
#[derive_where(Clone, Copy, PartialEq, Eq, PartialOrd, Ord, Hash; V)]
pub struct Explicit<T, V> {
    /// The value.
    pub value: V,
    #[derive_where(skip)]
    tag: PhantomData<T>,
}

impl<T, V> Explicit<T, V> {
    ghost use Rattle.asn1_types.specs.contracts.explicit.Explicit.{the_row};

    /// The value under the tag.
    pub fn new(value: V) -> Self
        ensures { result.value ≡ value }
    {
        Explicit {
            value,
            tag: PhantomData,
        }
    }

    /// The value.
    pub fn get(&self) -> &V
        ensures { result.now ≡ self.now.value }
    {
        &self.value
    }

    /// The value, to be written.
    pub fn get_mut(&mut self) -> &mut V
        ensures* writes_back { sem 𝓛 (Lends (the_row T.row V.row) V.row self.entry result
            (λ value. record self.old { value = value })) }
        ensures value { result.now ≡ self.old.value }
    {
        &mut self.value
    }
}

/// As the value shows itself: the tag is that of the type.
impl<T, V: fmt::Debug> fmt::Debug for Explicit<T, V> {
    ghost debug_output = { λ explicit. V.debug_output explicit.value };

    fn fmt<W: fmt::Write>(&self, f: &mut fmt::Formatter<W>) -> fmt::Result {
        fmt::Debug::fmt(&self.value, f)
    }
}

/// As the value is written: the tag is that of the type.
impl<T, V: fmt::Display> fmt::Display for Explicit<T, V> {
    ghost output = { λ explicit. V.output explicit.value };

    ghost styled_output = { λ explicit. V.styled_output explicit.value };

    fn fmt<W: fmt::Write>(&self, f: &mut fmt::Formatter<W>) -> fmt::Result {
        fmt::Display::fmt(&self.value, f)
    }
}

impl<T, V> From<V> for Explicit<T, V> {
    ghost from_gives = { λ value explicit. explicit.value ≡ value };

    fn from(value: V) -> Self {
        Explicit::new(value)
    }
}

impl<T: AsnType, V: AsnType> AsnType for Explicit<T, V> {
    ghost meaning = { explicit_type T.meaning.tag (λ explicit. explicit.value) V.meaning };

    #[inline(always)]
    fn table() -> TypeTable {
        TypeTable::new(T::tag(), Identifier::EMPTY)
    }

    #[inline(always)]
    fn is_present(&self) -> bool {
        true
    }
}
