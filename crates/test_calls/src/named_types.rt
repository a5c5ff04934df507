//! Types by their names, in lists.
use asn1_dec::Decode;
use asn1_enc::Encode;

/// A case of many types.
pub trait TypeCase {
    /// The answer of a type.
    type Answer: Drop;

    /// Tries it with a type.
    fn try_type<T: Encode + Decode>(&self) -> Self::Answer;
}

/// A list of types. A case is compiled for each type of its list, so a list has no more types than are asked for.
pub trait TypeNames {
    /// The answer of the type of this name, if it is in the list.
    fn try_named<C: TypeCase>(&self, case: &C, name: &str) -> Option<C::Answer>;
}

/// The types of two lists.
impl<A: TypeNames, B: TypeNames> TypeNames for (A, B) {
    fn try_named<C: TypeCase>(&self, case: &C, name: &str) -> Option<C::Answer> {
        match self.0.try_named(case, name) {
            Some(answer) => Some(answer),
            None => self.1.try_named(case, name),
        }
    }
}
