//! Types whose meaning definitions cite by a name.
ghost use Rattle.asn1_model.specs.Meaning.{Meaning};
ghost use Rattle.std.specs.Prelude.{Bool};

/// A name for the meaning of a type: definitions in `specs/` cite it by the name of the type that implements this, since they cannot
/// cite that of a type by its name in Rust. It is implemented for a type without a value, for each type of a component that holds
/// no knot.
pub trait Meant {
    /// The type.
    type Value;

    // Its meaning, and when two of its values are equal.
    ghost meaning: { Meaning Self.Value };

    ghost equal: { Self.Value → Self.Value → Bool };
}
