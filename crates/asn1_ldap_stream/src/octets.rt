//! The messages with which octets begin.
ghost use Rattle.std.specs.Prelude.{◌≡◌, IfOk, false, true};
ghost use Rattle.asn1_ldap_stream.specs.Octets.{AreLinesOf, BeginsNoMessage, EndsInside, IsNext};

use crate::DEPTH;
use crate::messages::MessageRules;
use asn1_ber::BerRules;
use asn1_ber_items::front_element;
use asn1_dec::DecodeError;
use asn1_items::ItemError;
use std::alloc::{AllocError, Global};

/// The lines of the messages with which octets begin.
#[derive(Drop)]
pub struct OctetLines {
    /// The lines. A message that is not understood has a line that says so.
    pub text: Vec<u8>,
    /// How many octets the messages have.
    pub used: usize,
    /// Whether the octets behind them begin no message. Else there are none, or they end inside an element.
    pub is_damaged: bool,
}

/// The lines of the messages with which octets begin, up to the end, or to an element that the octets end inside or that is no message.
pub fn lines_of(alloc: Global, octets: &[u8]) -> Result<OctetLines, AllocError>
    ensures lines { IfOk result (λ lines.
        AreLinesOf octets.now lines.text.items lines.used) }
    ensures ends { IfOk result (λ lines.
        lines.is_damaged ≡ false → EndsInside octets.now lines.used) }
    ensures damaged { IfOk result (λ lines.
        lines.is_damaged ≡ true → BeginsNoMessage octets.now lines.used) }
{
    let messages = MessageRules {
        alloc,
        rules: BerRules::new(alloc),
        depth: DEPTH,
    };
    let mut text = Vec::new(alloc);
    let mut used = 0;
    for _ in 0..u64::MAX {
        match next_lines(&messages, &octets[used..])? {
            Next::Lines(count, lines) => {
                text.extend_from_slice(lines.as_bytes())?;
                used += count;
            }
            Next::End => {
                return Ok(OctetLines {
                    text,
                    used,
                    is_damaged: false,
                });
            }
            Next::NoMessage => {
                return Ok(OctetLines {
                    text,
                    used,
                    is_damaged: true,
                });
            }
        }
    }
    // No memory holds this many elements.
    Err(AllocError)
}

/// What octets begin with.
#[derive(Drop)]
enum Next {
    /// An element of this many octets, with these lines.
    Lines(usize, String),
    /// Nothing: there are no octets, or they end inside their first element.
    End,
    /// No element, or one that is no message.
    NoMessage,
}

/// What octets begin with.
fn next_lines(messages: &MessageRules<BerRules>, octets: &[u8]) -> Result<Next, AllocError>
    ensures { IfOk result (IsNext messages.now.depth octets.now) }
{
    if octets.is_empty() {
        return Ok(Next::End);
    }
    match front_element(messages.alloc, octets) {
        Ok(front) => {
            let count = octets.len() - front.rest.len();
            match messages.element_text(&front.normal) {
                Ok(shown) => Ok(Next::Lines(count, shown.text)),
                Err(error) => match error {
                    DecodeError::Memory => Err(AllocError),
                    _ => Ok(Next::NoMessage),
                },
            }
        }
        Err(ItemError::Missing(_)) => Ok(Next::End),
        Err(ItemError::Malformed) => Ok(Next::NoMessage),
        Err(ItemError::Memory) => Err(AllocError),
    }
}
