//! The error of a component, by its name.
ghost use Rattle.asn1_laws.specs.DecodeErrors.{field_error, lacks_name, number, reason};
ghost use Rattle.asn1_components.specs.Components.{table};
ghost use Rattle.std.specs.Prelude.{◌≡◌, ◌<◌, false, IfSome, length, slice_get, true};

use asn1_components::FieldTable;
use asn1_laws::DecodeError;

/// The error as that of the component at this index of the table ([`DecodeError::in_field`]), so that it has a name
/// (`has_name`). An error that has one is unchanged (`same`).
#[cold]
#[inline(never)]
pub fn in_component<C: FieldTable>(index: usize, error: DecodeError) -> DecodeError
    requires { index < length (table C.components) }
    ensures named { lacks_name (reason error) ≡ true → IfSome (slice_get (table C.components) index)
        (λ entry. reason result ≡ field_error entry.name (number (reason error))) }
    ensures same { lacks_name (reason error) ≡ false → result ≡ error }
    ensures has_name { lacks_name (reason result) ≡ false }
{
    match C::field_at(index) {
        Some(field) => error.in_field(field.name),
        None => error,
    }
}
