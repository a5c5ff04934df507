//! Elements of DER.
ghost use Rattle.std.specs.Prelude.{◌≡◌, ◌≢◌, ◌⊎◌, ◌↔◌, None, ℕ};
ghost use Rattle.asn1_der_items.specs.Elements.{element_at};
ghost use Rattle.asn1_der_items.specs.Faults.{AreElementsDownTo, IsFirstFault};
ghost use Rattle.fan_calls.specs.Depths.{NestsDeeper};
ghost use Rattle.fan_calls.specs.Statuses.{FAN_DEEP, FAN_FAULT, FAN_OK};
ghost use Rattle.fanughespu.specs.Parts.{AreElements, BeginsWith};

use asn1_der_items::fault_laws::bytes_with_a_fault_are_no_elements;
use asn1_der_items::find_element;
use fan_calls::{DEPTH, Finding, Status, walk_through};

/// `FAN_OK` if the octets are elements of DER, one after another, and so is what is inside those that are constructed. `FAN_FAULT`, and
/// the position of the first octet, from 0, at which an element is due and none begins. `FAN_DEEP` if they are elements as far as the
/// call looks, and octets lie inside more than 64 constructed elements.
#[unsafe(no_mangle)]
pub extern "C" fn fan_der_check(octets: &[u8], position: &mut usize) -> i32
    ensures statuses { (result ≡ FAN_OK) ⊎ ((result ≡ FAN_FAULT) ⊎ (result ≡ FAN_DEEP)) }
    ensures elements { (result ≡ FAN_OK) ↔ AreElements 64 octets.now }
    ensures fault { result ≡ FAN_FAULT → IsFirstFault 64 octets.now position.new }
    ensures found { (at : ℕ) → IsFirstFault 64 octets.now at → result ≡ FAN_FAULT }
    ensures deep { (result ≡ FAN_DEEP) ↔
        (AreElementsDownTo 64 octets.now × NestsDeeper 64 octets.now) }
    ensures no_position { result ≢ FAN_FAULT → position.new ≡ position.old }
{
    bytes_with_a_fault_are_no_elements();
    match walk_through(octets, DEPTH) {
        Finding::Elements => Status::Ok.number(),
        Finding::Deeper => Status::Deep.number(),
        Finding::Fault(first) => {
            *position = first;
            Status::Fault.number()
        }
    }
}

/// The parts of an element.
#[repr(C)]
#[derive(Clone, Copy)]
pub struct FanElement {
    /// The class of its tag: 0 universal, 1 application, 2 context-specific, 3 private.
    pub class: u32,
    /// The number of its tag.
    pub number: u32,
    /// Whether it is constructed.
    pub constructed: bool,
    /// How many octets are before its contents octets.
    pub header: usize,
    /// How many contents octets it has.
    pub size: usize,
}

/// `FAN_OK`, and the parts of the element with which the octets begin, whatever follows it; `FAN_FAULT` if none begins them.
#[unsafe(no_mangle)]
pub extern "C" fn fan_der_element(octets: &[u8], element: &mut FanElement) -> i32
    ensures statuses { (result ≡ FAN_OK) ⊎ (result ≡ FAN_FAULT) }
    ensures found { result ≡ FAN_OK → BeginsWith octets.now element.new }
    ensures none { (result ≡ FAN_FAULT) ↔ (element_at octets.now ≡ None) }
    ensures stays { result ≡ FAN_FAULT → element.new ≡ element.old }
{
    let Ok(found) = find_element(octets) else {
        return Status::Fault.number();
    };
    *element = FanElement {
        class: found.tag.class as u32,
        number: found.tag.value,
        constructed: found.constructed,
        header: octets.len() - found.rest.len() - found.contents.len(),
        size: found.contents.len(),
    };
    Status::Ok.number()
}
