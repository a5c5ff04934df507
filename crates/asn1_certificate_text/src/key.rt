//! Public keys, and the algorithms of signatures.
ghost use Rattle.std.specs.Prelude.{◌≡◌, ◌++◌, OnOk};
ghost use Rattle.std.specs.String.{string_bytes};
ghost use Rattle.asn1_certificate_text.specs.Keys.{difference_text, inside_text, key_text, modulus_text, signature_text, size_text};

use crate::append_text::{AppendText, push_after};
use crate::object::Object;
use asn1_values::Integer;
use std::alloc::AllocError;
use std::fmt::Write;

/// A public key.
#[derive(Drop)]
pub struct ShownKey {
    /// Its algorithm.
    pub algorithm: Object,
    /// Its size.
    pub size: KeySize,
}

/// Its algorithm, and its size after a comma.
impl AppendText for ShownKey {
    ghost text_of = { key_text };

    fn append_to(&self, text: &mut String) -> Result<(), AllocError> {
        self.algorithm.append_to(text)?;
        text.push_str(", ")?;
        self.size.append_to(text)
    }
}

/// The size of a public key.
#[derive(Drop)]
pub enum KeySize {
    /// A key of RSA, by the number of bits of its modulus, and its exponent.
    Modulus(u128, Integer),
    /// A key on a curve, by the curve's name and the number of bits of a key on it.
    Curve(&'static str, u32),
    /// A key of an algorithm that has keys of this many bits alone.
    Fixed(u32),
    /// A key on a curve that has no name here.
    UnnamedCurve(Object),
    /// A key of any other algorithm, by its number of bits.
    Kept(usize),
}

impl AppendText for KeySize {
    ghost text_of = { size_text };

    fn append_to(&self, text: &mut String) -> Result<(), AllocError> {
        match self {
            KeySize::Modulus(bits, exponent) => push_modulus(text, *bits, exponent),
            KeySize::Curve(name, bits) => write!(text, "{name}, {bits} bits"),
            KeySize::Fixed(bits) => write!(text, "{bits} bits"),
            KeySize::UnnamedCurve(curve) => push_after(text, "curve ", curve),
            KeySize::Kept(bits) => write!(text, "kept in {bits} bits"),
        }
    }
}

/// Appends the number of bits of a modulus, and the exponent.
fn push_modulus(text: &mut String, bits: u128, exponent: &Integer) -> Result<(), AllocError>
    ensures { OnOk result (string_bytes text.new ≡
        string_bytes text.old ++ modulus_text bits exponent.now) }
{
    write!(text, "{bits} bits, exponent ")?;
    write!(text, "{exponent}")
}

/// The algorithm of a signature. A certificate has it twice, and both have to be the same (RFC 5280, 4.1.1.2).
#[derive(Drop)]
pub struct Signature {
    /// The algorithm beside the signature.
    pub algorithm: Object,
    /// How the algorithm in the signed part differs from it, if it does.
    pub inside: Option<AlgorithmDifference>,
}

/// How one algorithm differs from another.
#[derive(Drop)]
pub enum AlgorithmDifference {
    /// It has other parameters.
    Parameters,
    /// It is this one.
    Algorithm(Object),
}

impl AppendText for AlgorithmDifference {
    ghost text_of = { difference_text };

    fn append_to(&self, text: &mut String) -> Result<(), AllocError> {
        match self {
            AlgorithmDifference::Parameters => text.push_str("with other parameters"),
            AlgorithmDifference::Algorithm(other) => other.append_to(text),
        }
    }
}

impl AppendText for Signature {
    ghost text_of = { signature_text };

    fn append_to(&self, text: &mut String) -> Result<(), AllocError> {
        self.algorithm.append_to(text)?;
        push_inside(text, &self.inside)
    }
}

/// Appends how the algorithm in the signed part differs, if it does.
fn push_inside(text: &mut String, inside: &Option<AlgorithmDifference>) -> Result<(), AllocError>
    ensures { OnOk result
        (string_bytes text.new ≡ string_bytes text.old ++ inside_text inside.now) }
{
    match inside {
        Some(difference) => push_after(text, ", but inside ", difference),
        None => Ok(()),
    }
}
