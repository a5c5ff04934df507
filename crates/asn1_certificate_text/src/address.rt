//! IP addresses.
ghost use Rattle.std.specs.Prelude.{◌≡◌, ◌++◌, ◌∷◌, [], OnOk};
ghost use Rattle.std.specs.Net.Addr.{segments_of};
ghost use Rattle.std.specs.Net.Text.{ipv4_text, ipv6_text};
ghost use Rattle.std.specs.String.{string_bytes};
ghost use Rattle.asn1_certificate_text.specs.Addresses.{address_text};

use crate::octets::push_octets;
use std::alloc::AllocError;
use std::fmt::Write;
use std::net::{Ipv4Addr, Ipv6Addr};

/// Appends the IP address of these octets: four are one of IPv4, sixteen one of IPv6 (RFC 5280, 4.2.1.6). Any other number
/// of octets is no address, and is appended in hexadecimal.
pub fn push_address(text: &mut String, octets: &[u8]) -> Result<(), AllocError>
    ensures { OnOk result (string_bytes text.new ≡
        string_bytes text.old ++ address_text octets.now) }
{
    if let Ok(four) = <[u8; 4]>::try_from(octets) {
        let address = Ipv4Addr::from_octets(four);
        return write!(text, "{address}");
    }
    if let Ok(sixteen) = <[u8; 16]>::try_from(octets) {
        let address = Ipv6Addr::from_octets(sixteen);
        return write!(text, "{address}");
    }
    push_octets(text, octets)
}
