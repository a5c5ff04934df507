//! Names of the nine kinds.
ghost use Rattle.std.specs.Prelude.{◌≡◌, ◌++◌, OnOk};
ghost use Rattle.std.specs.List.{flat_map};
ghost use Rattle.std.specs.String.{string_bytes};
ghost use Rattle.asn1_certificate_text.specs.Addresses.{address_text};
ghost use Rattle.asn1_certificate_text.specs.Escapes.{visible};
ghost use Rattle.asn1_certificate_text.specs.declared.general_name.ShownGeneralName.TheVariants.{Other, Party};
ghost use Rattle.asn1_certificate_text.specs.GeneralNames.{assigner_text, general_name_text};

use crate::address::push_address;
use crate::append_text::{AppendText, push_after};
use crate::escapes::push_visible;
use crate::name::ShownName;
use crate::object::Object;
use crate::octets::push_octets;
use std::alloc::AllocError;
use std::fmt::Write;

/// A name of one of nine kinds (RFC 5280, 4.2.1.6).
#[derive(Drop)]
pub enum ShownGeneralName {
    /// A name of a kind that has a name of its own, by that and its octets.
    Other(Object, Vec<u8>),
    /// A mail address.
    Mail(Vec<char>),
    /// A name of a host.
    Host(Vec<char>),
    /// An address of X.400, by how many components it has.
    X400(usize),
    /// A name of a directory.
    Directory(ShownName),
    /// A party of electronic data interchange, and the assigner of the name, if there is one.
    Party(Vec<char>, Option<Vec<char>>),
    /// A URI.
    Uri(Vec<char>),
    /// The octets of an IP address.
    Address(Vec<u8>),
    /// A registered object.
    Registered(Object),
}

/// The name of its kind, and then the name.
impl AppendText for ShownGeneralName {
    ghost text_of = { general_name_text };

    fn append_to(&self, text: &mut String) -> Result<(), AllocError> {
        match self {
            ShownGeneralName::Other(kind, octets) => push_another_name(text, kind, octets),
            ShownGeneralName::Mail(mailbox) => push_named(text, "mail address ", mailbox),
            ShownGeneralName::Host(host) => push_named(text, "DNS name ", host),
            ShownGeneralName::X400(count) => {
                write!(text, "X.400 address, its components: {count}")
            }
            ShownGeneralName::Directory(name) => push_after(text, "directory name ", name),
            ShownGeneralName::Party(party, assigner) => push_party(text, party, assigner),
            ShownGeneralName::Uri(uri) => push_named(text, "URI ", uri),
            ShownGeneralName::Address(octets) => push_ip_address(text, "IP address ", octets),
            ShownGeneralName::Registered(object) => {
                push_after(text, "registered identifier ", object)
            }
        }
    }
}

/// Appends the name of a kind, and characters.
fn push_named(text: &mut String, kind: &str, characters: &Vec<char>) -> Result<(), AllocError>
    ensures { OnOk result (string_bytes text.new ≡
        string_bytes text.old ++ (kind.now ++ flat_map visible characters.now.items)) }
{
    text.push_str(kind)?;
    push_visible(text, characters.as_slice())
}

/// Appends the name of a kind, and an IP address.
fn push_ip_address(text: &mut String, kind: &str, octets: &Vec<u8>) -> Result<(), AllocError>
    ensures { OnOk result (string_bytes text.new ≡
        string_bytes text.old ++ (kind.now ++ address_text octets.now.items)) }
{
    text.push_str(kind)?;
    push_address(text, octets.as_slice())
}

/// Appends a name of a kind that has a name of its own.
fn push_another_name(text: &mut String, kind: &Object, octets: &Vec<u8>) -> Result<(), AllocError>
    ensures { OnOk result (string_bytes text.new ≡
        string_bytes text.old ++ general_name_text (Other kind.now octets.now)) }
{
    text.push_str("other name ")?;
    kind.append_to(text)?;
    text.push_str(", ")?;
    push_octets(text, octets.as_slice())
}

/// Appends the name of a party, and its assigner.
fn push_party(
    text: &mut String,
    party: &Vec<char>,
    assigner: &Option<Vec<char>>,
) -> Result<(), AllocError>
    ensures { OnOk result (string_bytes text.new ≡
        string_bytes text.old ++ general_name_text (Party party.now assigner.now)) }
{
    push_named(text, "EDI party ", party)?;
    push_assigner(text, assigner)
}

/// Appends the assigner of a name, if there is one.
fn push_assigner(text: &mut String, assigner: &Option<Vec<char>>) -> Result<(), AllocError>
    ensures { OnOk result (string_bytes text.new ≡
        string_bytes text.old ++ assigner_text assigner.now) }
{
    match assigner {
        Some(assigner) => push_named(text, ", named by ", assigner),
        None => Ok(()),
    }
}
