//! Names of Rust for names of ASN.1.
//!
//! A name of ASN.1 is a row of words, each of which begins at a hyphen or a capital: `cRLDistributionPoints` has the words `crl`,
//! `distribution` and `points`. A name of Rust has the same words in another form.
//!
//! | Item | Form | `LDAPMessage`, `messageID`, `type` |
//! |---|---|---|
//! | [`camel_case`] | types and variants | `LdapMessage`, `MessageId`, `Type` |
//! | [`snake_case`] | fields and modules | `ldap_message`, `message_id`, `type_` |
//! | [`upper_case`] | constants | `LDAP_MESSAGE`, `MESSAGE_ID`, `TYPE` |
//! | [`KnownWords`] | words of capitals, behind which a name is separated | |
//! | [`TakenNames`] | the names of a scope, told apart by a number | |
//! | [`is_keyword`] | whether a name is a word of the language | |
//!
//! A row of capitals before small letters leaves its last one to them, as in `LDAPMessage`, unless it is a word of [`KnownWords`]:
//! where modules have `GLONASS`, `GLONASSclock` has the words `glonass` and `clock`.
//!
//! Two names of ASN.1 can give one name of Rust, as `a-b` and `aB` do. [`TakenNames::take`] puts a number behind the second.
//! Names are compared without regard to case, since modules and types of one name, as `a_b` and `A_B`, are refused too.
//!
//! Calls fail only if memory runs out. The stored run of test_notation shows names in each form.
#![tactic(auto)]

mod cases;
mod keywords;
mod known_words;
mod taken;
mod words;

pub use cases::{camel_case, snake_case, upper_case};
pub use keywords::is_keyword;
pub use known_words::KnownWords;
pub use taken::TakenNames;
