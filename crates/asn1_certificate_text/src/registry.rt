//! Object identifiers by name.
ghost use Rattle.std.specs.Prelude.{◌≡◌, Contains, IfNone, IfSome, map};
ghost use Rattle.asn1_certificate_text.specs.Registry.{NamesCurve, NamesObject, curve_sizes, known_curves, known_objects, object_names};

mod table;

use table::{CURVES, OBJECTS};

/// A known object: an algorithm, a kind of attribute or of extension, or a purpose of a key.
#[derive(Clone, Copy, Debug)]
pub struct NamedObject {
    /// The arcs of its identifier.
    pub arcs: &'static [u32],
    /// Its name, as RFC 4514, RFC 5280 or its own definition has it.
    pub name: &'static str,
}

/// An elliptic curve, or an algorithm with only one curve.
#[derive(Clone, Copy, Debug)]
pub struct Curve {
    /// The arcs of its identifier.
    pub arcs: &'static [u32],
    /// Its name.
    pub name: &'static str,
    /// The size of a key, in bits.
    pub bits: u32,
}

/// The object of these arcs, if it is in the table.
pub fn object_named(arcs: &[u32]) -> Option<NamedObject>
    ensures found { IfSome result (λ object. object.arcs.now ≡ arcs.now) }
    ensures listed { IfSome result (λ object.
        NamesObject object_names arcs.now object.name.now) }
    ensures missing { IfNone result (¬ Contains known_objects arcs.now) }
{
    object_in(OBJECTS, arcs)
}

/// The curve of these arcs, if it is in the table.
pub fn curve_of(arcs: &[u32]) -> Option<Curve>
    ensures found { IfSome result (λ curve. curve.arcs.now ≡ arcs.now) }
    ensures listed { IfSome result (λ curve.
        NamesCurve curve_sizes arcs.now curve.name.now curve.bits) }
    ensures missing { IfNone result (¬ Contains known_curves arcs.now) }
{
    curve_in(CURVES, arcs)
}

/// The object of these arcs in a table.
fn object_in(table: &'static [(&'static [u32], &'static str)], arcs: &[u32]) -> Option<NamedObject>
    ensures found { IfSome result (λ object. object.arcs.now ≡ arcs.now) }
    ensures listed { IfSome result (λ object. NamesObject
        (map (λ row. (row.0.now, row.1.now)) table.now) arcs.now object.name.now) }
    ensures missing { IfNone result (¬ Contains (map (λ row. row.0.now) table.now) arcs.now) }
{
    for (known, name) in table {
        if *known == arcs {
            return Some(NamedObject { arcs: known, name });
        }
    }
    None
}

/// The curve of these arcs in a table.
fn curve_in(table: &'static [(&'static [u32], &'static str, u32)], arcs: &[u32]) -> Option<Curve>
    ensures found { IfSome result (λ curve. curve.arcs.now ≡ arcs.now) }
    ensures listed { IfSome result (λ curve. NamesCurve
        (map (λ row. (row.0.now, row.1.now, row.2)) table.now)
        arcs.now curve.name.now curve.bits) }
    ensures missing { IfNone result (¬ Contains (map (λ row. row.0.now) table.now) arcs.now) }
{
    for (known, name, bits) in table {
        if *known == arcs {
            return Some(Curve {
                arcs: known,
                name,
                bits: *bits,
            });
        }
    }
    None
}
