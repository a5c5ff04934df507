//! The names of operations, in words.
ghost use Rattle.std.specs.Prelude.{◌≡◌};
ghost use Rattle.std.specs.Option.{option_copied};
ghost use Rattle.asn1_ldap_text.specs.Names.{operation_name};

use asn1_tags::{Class, Tag};

/// The name of the operation of this tag (RFC 4511, 4.2 to 4.13), with which its text begins; `None` if there is none.
pub fn operation_name(tag: Tag) -> Option<&'static str>
    ensures { option_copied result ≡ operation_name tag }
{
    if tag.class != Class::Application {
        return None;
    }
    match tag.value {
        0 => Some("bind request"),
        1 => Some("bind response"),
        2 => Some("unbind request"),
        3 => Some("search request"),
        4 => Some("search entry"),
        5 => Some("search done"),
        6 => Some("modify request"),
        7 => Some("modify response"),
        8 => Some("add request"),
        9 => Some("add response"),
        10 => Some("delete request"),
        11 => Some("delete response"),
        12 => Some("modify DN request"),
        13 => Some("modify DN response"),
        14 => Some("compare request"),
        15 => Some("compare response"),
        16 => Some("abandon request"),
        19 => Some("search reference"),
        23 => Some("extended request"),
        24 => Some("extended response"),
        25 => Some("intermediate response"),
        _ => None,
    }
}
