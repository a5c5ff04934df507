//! A certificate as text: the report that a person reads, and the text in which a certificate is kept.
//!
//! | Item | What it is | In `specs/` |
//! |---|---|---|
//! | [`Report`], [`report_text`], [`AppendText`] | the parts of a certificate that are shown, and their lines | `Reports`, `Lines` |
//! | [`Version`], [`OctetNumber`], [`ShownTime`] | the version, the serial number and the validity | `Numbers`, `Times` |
//! | [`ShownName`], [`NamePart`], [`Attribute`], [`AttributeValue`] | the subject and the issuer | `Names` |
//! | [`ShownKey`], [`KeySize`], [`Signature`], [`AlgorithmDifference`] | the public key, and the algorithm of the signature | `Keys` |
//! | [`ShownExtension`], [`ExtensionValue`], [`ShownGeneralName`], [`Authority`], [`AuthorityKey`] | the extensions | `Extensions`, `GeneralNames` |
//! | [`Object`], [`object_named`], [`NamedObject`], [`curve_of`], [`Curve`] | object identifiers and curves, with their names | `Objects`, `Registry` |
//! | [`Moment`] | a moment, read from the two kinds of time (RFC 5280, 4.1.2.5) | `Moments`, `MomentTexts` |
//! | [`push_escaped`], [`push_visible`] | the value of an attribute of a name (RFC 4514), and other texts | `Escapes` |
//! | [`push_octets`], [`push_digits`], [`push_address`] | octets in hexadecimal, with colons and without; an IP address | `Octets`, `Addresses` |
//! | [`bit_length`], [`push_usages`] | the size of a number, and the usages of a key | `Bits` |
//! | [`is_pem`], [`certificates_in`], [`PemCertificate`], [`PemError`] | certificates between two lines, in base64 (RFC 7468) | `Pem`, `PemLines`, `PemRefusals` |
//!
//! The main promises (docs/PROMISES.md has more):
//!
//! - What is appended has a definition: `report_text`, and `text_of` of each part. Control characters are escaped, and so are
//!   characters that change the direction of others or end a line.
//! - A time is a moment if and only if it has RFC 5280's form and is in the calendar (`read`, `only` of [`Moment`]).
//! - An object is found if and only if a row of the table has its arcs (`found`, `missing`), with the name of such a row
//!   (`listed`). No clause compares the rows with the standards.
//! - The certificates of a text are found in their order (`AreCertificatesFrom`), and the text determines them
//!   (`texts_tell_their_certificates` of [`laws`]). An error names a byte of the text (`IsAboutBase64`).
//!
//! The functions that append fail only if memory runs out, and may then have appended a part.
#![tactic(auto)]

mod address;
mod append_text;
mod bits;
mod escapes;
mod extension;
mod general_name;
mod key;
pub mod laws;
mod moment;
mod name;
mod number;
mod object;
mod octets;
mod pem;
mod registry;
mod report;
mod time;

pub use address::push_address;
pub use append_text::AppendText;
pub use bits::{bit_length, push_usages};
pub use escapes::{push_escaped, push_visible};
pub use extension::{Authority, AuthorityKey, ExtensionValue, ShownExtension};
pub use general_name::ShownGeneralName;
pub use key::{AlgorithmDifference, KeySize, ShownKey, Signature};
pub use moment::Moment;
pub use name::{Attribute, AttributeValue, NamePart, ShownName};
pub use number::{OctetNumber, Version};
pub use object::Object;
pub use octets::{push_digits, push_octets};
pub use pem::{PemCertificate, PemError, certificates_in, is_pem};
pub use registry::{Curve, NamedObject, curve_of, object_named};
pub use report::{Report, report_text};
pub use time::ShownTime;
