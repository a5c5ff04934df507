//! Public keys and signatures.
ghost use Rattle.std.specs.Prelude.{◌≡◌, ◌≢◌, ◌<◌, ◌%◌, All, IfOk, IfSome, MatchOption, length};
ghost use Rattle.asn1_certificate_reader.specs.Algorithms.{IsDifferenceOf, IsSignatureOf};
ghost use Rattle.asn1_certificate_reader.specs.Keys.{AreBitsReadAs, IsCurveIn, IsKeyOf, IsModulusOf, IsSizeByAlgorithm, IsSizeByParameters, IsSizeOf, IsSizeOfRsa, IsSizeOnCurve};
ghost use Rattle.asn1_items.specs.Bits.{bits_of_octets};

use crate::inside::read_inside;
use crate::objects::object_of;
use crate::scalars::copy_of;
use asn1_certificate_text::{
    AlgorithmDifference, KeySize, ShownKey, Signature, bit_length, curve_of,
};
use asn1_rules::Rules;
use asn1_types::Any;
use asn1_values::{BitVec, ObjectIdentifier, StringUnit};
use asn1_x509::{
    AlgorithmIdentifier, RsaPublicKey, SubjectPublicKeyInfo, rsa_public_key_is_well_tagged,
};
use std::alloc::{AllocError, Global};

/// The arcs of `rsaEncryption` (RFC 3279, 2.3.1).
const RSA: &[u32] = &[1, 2, 840, 113549, 1, 1, 1];

/// The arcs of `id-ecPublicKey` (RFC 5480, 2.1.1).
const ELLIPTIC: &[u32] = &[1, 2, 840, 10045, 2, 1];

/// A public key with its algorithm and its size.
pub(crate) fn key_of<R: Rules<Output = Vec<u8>>>(
    rules: &R,
    alloc: Global,
    key: &SubjectPublicKeyInfo,
) -> Result<ShownKey, AllocError>
    ensures { IfOk result (IsKeyOf R.format key.now) }
{
    Ok(ShownKey {
        algorithm: object_of(alloc, &key.algorithm.algorithm)?,
        size: size_of(rules, alloc, key)?,
    })
}

/// The size of a public key.
fn size_of<R: Rules<Output = Vec<u8>>>(
    rules: &R,
    alloc: Global,
    key: &SubjectPublicKeyInfo,
) -> Result<KeySize, AllocError>
    ensures { IfOk result (IsSizeOf R.format key.now) }
{
    let arcs = key.algorithm.algorithm.as_slice();
    if arcs == RSA {
        return size_of_rsa(rules, alloc, &key.subject_public_key);
    }
    if arcs == ELLIPTIC {
        return size_by_parameters(rules, alloc, key);
    }
    Ok(size_by_algorithm(arcs, key.subject_public_key.len()))
}

/// The size of a key of the algorithm of these arcs, with this many bits.
fn size_by_algorithm(arcs: &[u32], count: usize) -> KeySize
    ensures { IsSizeByAlgorithm arcs.now count result }
{
    match curve_of(arcs) {
        Some(curve) => KeySize::Fixed(curve.bits),
        None => KeySize::Kept(count),
    }
}

/// The size of a key of RSA.
fn size_of_rsa<R: Rules<Output = Vec<u8>>>(
    rules: &R,
    alloc: Global,
    bits: &BitVec,
) -> Result<KeySize, AllocError>
    ensures { IfOk result (IsSizeOfRsa R.format bits.now) }
{
    match read_key(rules, alloc, bits)? {
        Some(key) => modulus_of(alloc, &key, bits.len()),
        None => Ok(KeySize::Kept(bits.len())),
    }
}

/// The key of RSA that bits are read as, if they are.
fn read_key<R: Rules<Output = Vec<u8>>>(
    rules: &R,
    alloc: Global,
    bits: &BitVec,
) -> Result<Option<RsaPublicKey>, AllocError>
    ensures { IfOk result (AreBitsReadAs R.format bits.now) }
{
    rsa_public_key_is_well_tagged();
    match whole_octets(bits) {
        Some(octets) => read_inside(rules, alloc, octets),
        None => Ok(None),
    }
}

/// The number of bits of the modulus of a key, and its exponent; or this number of bits of the key, if the modulus is negative.
fn modulus_of(alloc: Global, key: &RsaPublicKey, count: usize) -> Result<KeySize, AllocError>
    ensures { IfOk result (IsModulusOf count key.now) }
{
    let (is_negative, modulus) = key.modulus.sign_magnitude(alloc)?;
    if is_negative {
        return Ok(KeySize::Kept(count));
    }
    let exponent = copy_of(alloc, &key.public_exponent)?;
    Ok(KeySize::Modulus(bit_length(modulus.as_slice()), exponent))
}

/// The octets of bits, if these are whole octets.
#[tactic(auto, using(crate::proofs::WholeOctets::are_whole))]
fn whole_octets(bits: &BitVec) -> Option<&[u8]>
    ensures octets { IfSome result (λ octets. All (λ octet. octet < 256) octets.now) }
    ensures same { MatchOption result (length bits.now % 8 ≢ 0)
        (λ octets. bits_of_octets octets.now ≡ bits.now) }
{
    if bits.len() % 8 != 0 {
        return None;
    }
    let octets = bits.octets();
    u8::units_are_in_range(octets);
    Some(octets)
}

/// The size of a key on a curve, which its parameters name.
fn size_by_parameters<R: Rules<Output = Vec<u8>>>(
    rules: &R,
    alloc: Global,
    key: &SubjectPublicKeyInfo,
) -> Result<KeySize, AllocError>
    ensures { IfOk result (IsSizeByParameters R.format key.now) }
{
    match curve_in(rules, alloc, &key.algorithm.parameters)? {
        Some(curve) => size_on_curve(alloc, &curve),
        None => Ok(KeySize::Kept(key.subject_public_key.len())),
    }
}

/// The object that parameters are read as, if they are.
fn curve_in<R: Rules<Output = Vec<u8>>>(
    rules: &R,
    alloc: Global,
    parameters: &Option<Any>,
) -> Result<Option<ObjectIdentifier>, AllocError>
    ensures { IfOk result (IsCurveIn R.format parameters.now) }
{
    match parameters {
        Some(parameters) => read_inside(rules, alloc, parameters.as_bytes()),
        None => Ok(None),
    }
}

/// The name of a curve and the size of a key on it, or the object if it has no name here.
fn size_on_curve(alloc: Global, curve: &ObjectIdentifier) -> Result<KeySize, AllocError>
    ensures { IfOk result (IsSizeOnCurve curve.now) }
{
    match curve_of(curve.as_slice()) {
        Some(known) => Ok(KeySize::Curve(known.name, known.bits)),
        None => Ok(KeySize::UnnamedCurve(object_of(alloc, curve)?)),
    }
}

/// The algorithm of a signature, as the certificate has it beside the signature and inside the signed part.
pub(crate) fn signature_of(
    alloc: Global,
    beside: &AlgorithmIdentifier,
    inside: &AlgorithmIdentifier,
) -> Result<Signature, AllocError>
    ensures { IfOk result (IsSignatureOf beside.now inside.now) }
{
    let algorithm = object_of(alloc, &beside.algorithm)?;
    let inside = difference_of(alloc, beside, inside)?;
    Ok(Signature { algorithm, inside })
}

/// The difference between the algorithm beside the signature and that inside the signed part, if there is one.
fn difference_of(
    alloc: Global,
    beside: &AlgorithmIdentifier,
    inside: &AlgorithmIdentifier,
) -> Result<Option<AlgorithmDifference>, AllocError>
    ensures { IfOk result (IsDifferenceOf beside.now inside.now) }
{
    if beside == inside {
        return Ok(None);
    }
    if beside.algorithm.as_slice() == inside.algorithm.as_slice() {
        return Ok(Some(AlgorithmDifference::Parameters));
    }
    Ok(Some(AlgorithmDifference::Algorithm(object_of(alloc, &inside.algorithm)?)))
}
