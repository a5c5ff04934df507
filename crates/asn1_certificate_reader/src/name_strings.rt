//! The types of strings that a value in a name may be, and their characters.
ghost use Rattle.std.specs.Option.{option_map};
ghost use Rattle.std.specs.Prelude.{◌≡◌, IfOk, Some};
ghost use Rattle.std.specs.Str.{chars};
ghost use Rattle.asn1_certificate_reader.specs.Characters.{directory_characters, visible_characters};
ghost use Rattle.asn1_certificate_reader.specs.Names.{AreCharactersRead};

use crate::characters::{
    ascii_characters, directory_characters, text_characters, visible_characters,
};
use crate::inside::read_inside;
use asn1_dec::Decode;
use asn1_model::tag::PRINTABLE_STRING;
use asn1_rules::Rules;
use asn1_types::Implicit;
use asn1_values::{Ia5String, NumericString, OctetString};
use asn1_x509::{DirectoryString, directory_string_is_well_tagged};
use std::alloc::{AllocError, Global};

/// The octets under the tag of a PrintableString, whose alphabet certificates in use break.
pub(crate) type PrintableOctets = Implicit<PRINTABLE_STRING, OctetString>;

/// A type of strings, with their characters.
pub(crate) trait NameString: Decode {
    ghost use Rattle.std.specs.Prelude.{List, Option, ℕ};
    ghost use Rattle.asn1_model.specs.Meaning.{IsWellTagged};

    // The characters of a string, where its octets are characters.
    ghost text: { Self → Option (List ℕ) };

    /// The characters of a string, if its octets are characters.
    fn characters(&self, alloc: Global) -> Result<Option<Vec<char>>, AllocError>
        ensures { IfOk result (λ found. option_map (λ v. v.items) found ≡ text self.now) };

    /// The type can be read: it is well tagged.
    fn is_well_tagged()
        ensures { IsWellTagged Self.meaning };
}

/// The characters of the string that octets are read as by a type, if they are read as one, and it has characters.
pub(crate) fn characters_of<R: Rules<Output = Vec<u8>>, T: NameString>(
    rules: &R,
    alloc: Global,
    octets: &[u8],
) -> Result<Option<Vec<char>>, AllocError>
    ensures { IfOk result (λ found. AreCharactersRead R.format T.meaning T.eq T.text octets.now
        (option_map (λ v. v.items) found)) }
{
    T::is_well_tagged();
    match read_inside::<R, T>(rules, alloc, octets)? {
        Some(string) => string.characters(alloc),
        None => Ok(None),
    }
}

impl NameString for PrintableOctets {
    ghost text = { λ string. visible_characters string.value };

    fn characters(&self, alloc: Global) -> Result<Option<Vec<char>>, AllocError> {
        visible_characters(alloc, self.value.as_slice())
    }

    fn is_well_tagged() {}
}

impl NameString for DirectoryString {
    ghost text = { λ string. Some (directory_characters string) };

    fn characters(&self, alloc: Global) -> Result<Option<Vec<char>>, AllocError> {
        Ok(Some(directory_characters(alloc, self)?))
    }

    fn is_well_tagged() {
        directory_string_is_well_tagged();
    }
}

impl NameString for Ia5String {
    ghost text = { λ string. Some (chars string) };

    fn characters(&self, alloc: Global) -> Result<Option<Vec<char>>, AllocError> {
        Ok(Some(ascii_characters(alloc, self)?))
    }

    fn is_well_tagged() {}
}

impl NameString for NumericString {
    ghost text = { λ string. Some (chars string) };

    fn characters(&self, alloc: Global) -> Result<Option<Vec<char>>, AllocError> {
        Ok(Some(text_characters(alloc, self.as_str())?))
    }

    fn is_well_tagged() {}
}
