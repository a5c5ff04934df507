//! The certificates that an input has, as a program writes them, or why it has none.
//!
//! | Item | What it is |
//! |---|---|
//! | [`run`], [`Outcome`] | writes the certificates that a reader gives, and the end of the run |
//! | [`output_of`], [`Output`], [`Message`], [`Notice`] | the output for an input, with its warnings and refusals |
//! | [`shown_of`], [`Shown`], [`Warnings`] | the output for one certificate, and the warnings about it |
//! | [`InputError`], [`Departure`] | why there is no output, and how octets depart from DER |
//! | [`OutsideAlphabet`], [`NameField`] | a PrintableString in a name with characters outside its alphabet |
//! | [`Options`], [`OutputFormat`] | what a user asks for |
//! | [`one_spelling`] | a law: the DER of a certificate is its only spelling |
//!
//! An input is the DER of a certificate, or a text with certificates in base64. As a report a certificate is for a person to read
//! (`report_of` of `asn1_certificate_reader` and `report_text` of `asn1_certificate_text`), and as DER it is the octets that were read.
//!
//! The contracts promise:
//!
//! - The output is that of the certificates of the input, in their order, but for those that are refused. The messages are the
//!   warnings about each certificate that is shown, and a refusal for each that is refused, with its number if there are several
//!   (`AnswersInput` of `specs/Answers.antt`). An input has the certificates between the lines of a text, or is one itself
//!   (`AreCertificatesOf` of `specs/Inputs.antt`).
//! - A certificate is shown as its lines or its DER (`IsShown` of `specs/Shown.antt`): its octets are read as the valid certificate
//!   whose DER they are, if there is one; and whatever octets they are, they carry records in DER that are read as the certificate that
//!   is shown (`IsReadOf` of `specs/Certificates.antt`).
//! - If no departure is answered of a certificate that is shown, its octets are the very octets that writing the certificate makes, and
//!   break no rule of DER at any depth (`keeps` of `IsShown`). A departure that is answered is one: the octets break this rule at this
//!   position, or differ there from what is written, or hold elements there that lie inside more than 64 others (`departs`, by
//!   `AnswersDeparture` of `specs/Departures.antt`). With `is_strict` none is answered (`strict`).
//! - A warning names the first PrintableString of the issuer with characters outside its alphabet, and one the first of the subject, by
//!   the attribute and the position. There is none if and only if the name has no such string, with `is_strict` too (`alphabets` of
//!   `IsShown`).
//! - An error is a true reason for which a certificate or an input is refused (`IsRefusalOf` and `IsRefusalOfInput` of
//!   `specs/Refused.antt`). An error for a rule of DER names the rule and the position. For a value in a name, and for parameters, the
//!   position is the one to which their path leads in the octets (`specs/Positions.antt`).
//! - The status is 0 if nothing is refused, 1 if something is, and else 2 (`converts` of [`run`]).
#![tactic(auto)]

mod alphabets;
mod certificate;
mod departure;
mod error;
mod inputs;
mod message;
pub mod one_spelling;
mod open_types;
mod options;
mod outcome;
mod output;
mod positions;
mod reading;

pub use alphabets::{NameField, OutsideAlphabet};
pub use certificate::{Shown, Warnings, shown_of};
pub use departure::Departure;
pub use error::InputError;
pub use message::{Message, Notice};
pub use options::{Options, OutputFormat};
pub use outcome::{Outcome, run};
pub use output::{Output, output_of};
