//! Names of the nine kinds.
ghost use Rattle.std.specs.Prelude.{IfOk};
ghost use Rattle.asn1_certificate_reader.specs.GeneralNames.{AreCharactersOf, AreGeneralNamesOf, IsGeneralNameOf};
ghost use Rattle.asn1_certificate_reader.specs.Options.{AreBothOrNone};

use crate::attributes::name_of;
use crate::characters::{ascii_characters, directory_characters};
use crate::objects::object_of;
use asn1_certificate_text::ShownGeneralName;
use asn1_rules::Rules;
use asn1_x509::DirectoryString;
use asn1_x509_extensions::GeneralName;
use std::alloc::{AllocError, Global};

/// The report of names.
pub(crate) fn general_names_of<R: Rules<Output = Vec<u8>>>(
    rules: &R,
    alloc: Global,
    names: &[GeneralName],
) -> Result<Vec<ShownGeneralName>, AllocError>
    ensures { IfOk result (λ shown. AreGeneralNamesOf R.format names.now shown.items) }
{
    let mut shown = Vec::new(alloc);
    for name in names {
        shown.push(general_name_of(rules, alloc, name)?)?;
    }
    Ok(shown)
}

/// The report of a name.
fn general_name_of<R: Rules<Output = Vec<u8>>>(
    rules: &R,
    alloc: Global,
    name: &GeneralName,
) -> Result<ShownGeneralName, AllocError>
    ensures { IfOk result (IsGeneralNameOf R.format name.now) }
{
    match name {
        GeneralName::OtherName(other) => Ok(ShownGeneralName::Other(
            object_of(alloc, &other.type_id)?,
            Vec::from_slice(alloc, other.value.as_bytes())?,
        )),
        GeneralName::Rfc822Name(mailbox) => {
            Ok(ShownGeneralName::Mail(ascii_characters(alloc, mailbox)?))
        }
        GeneralName::DnsName(host) => Ok(ShownGeneralName::Host(ascii_characters(alloc, host)?)),
        GeneralName::X400Address(components) => Ok(ShownGeneralName::X400(components.len())),
        GeneralName::DirectoryName(directory) => {
            Ok(ShownGeneralName::Directory(name_of(rules, alloc, directory)?))
        }
        GeneralName::EdiPartyName(party) => Ok(ShownGeneralName::Party(
            directory_characters(alloc, &party.party_name)?,
            characters_of_assigner(alloc, &party.name_assigner)?,
        )),
        GeneralName::UniformResourceIdentifier(uri) => Ok(ShownGeneralName::Uri(ascii_characters(
            alloc, uri,
        )?)),
        GeneralName::IpAddress(octets) => {
            Ok(ShownGeneralName::Address(Vec::from_slice(alloc, octets.as_slice())?))
        }
        GeneralName::RegisteredId(object) => Ok(ShownGeneralName::Registered(object_of(
            alloc, object,
        )?)),
    }
}

/// The characters of the assigner of a name, if there is one.
fn characters_of_assigner(
    alloc: Global,
    assigner: &Option<DirectoryString>,
) -> Result<Option<Vec<char>>, AllocError>
    ensures { IfOk result (AreBothOrNone AreCharactersOf assigner.now) }
{
    match assigner {
        Some(assigner) => Ok(Some(directory_characters(alloc, assigner)?)),
        None => Ok(None),
    }
}
