//! The text of an element of the stream.
ghost use Rattle.std.specs.Prelude.{◌≢◌, IfErr, IfOk};
ghost use Rattle.std.specs.String.{string_bytes};
ghost use Rattle.asn1_laws.specs.declared.decode_error.DecodeError.TheVariants.{Memory};
ghost use Rattle.asn1_ldap_stream.specs.Elements.{IsMessageText, IsNoMessage, IsTextOf, MayNotBeRead};

use crate::beginning::beginning_of;
use crate::unknown::unknown_line;
use asn1_dec::DecodeError;
use asn1_ldap::LdapMessage;
use asn1_ldap_text::message_text;
use asn1_rules::Rules;
use std::alloc::Global;

/// How elements are read as messages: by these rules, with at most this many nested scopes.
#[derive(Clone, Copy, Debug, Drop)]
pub struct MessageRules<M> {
    /// The allocator of messages and texts.
    pub alloc: Global,
    /// The rules.
    pub rules: M,
    /// How many scopes of a message may nest.
    pub depth: usize,
}

/// The text of an element.
#[derive(Drop)]
pub(crate) struct ElementText {
    /// The lines.
    pub(crate) text: String,
    /// Whether they are those of the message that the element is.
    pub(crate) understood: bool,
}

impl<M: Rules<Output = Vec<u8>>> MessageRules<M> {
    /// The text of the element with these octets: the lines of the message that it is; or, if it begins as a message does and
    /// is not read as one, a line that says so.
    ///
    /// # Errors
    /// [`DecodeError::Memory`]; and else the error of reading an element that does not begin as a message does.
    pub(crate) fn element_text(&self, octets: &Vec<u8>) -> Result<ElementText, DecodeError>
        ensures text { IfOk result (λ shown. IsTextOf M.format self.now.depth octets.now.items
            (string_bytes shown.text) shown.understood) }
        ensures no_message { IfErr result (λ error. error ≢ Memory →
            IsNoMessage M.format self.now.depth octets.now.items error) }
    {
        match self.message_lines(octets) {
            Ok(text) => Ok(ElementText {
                text,
                understood: true,
            }),
            Err(DecodeError::Memory) => Err(DecodeError::Memory),
            Err(error) => self.unknown_text(octets, error),
        }
    }

    /// The lines of the message with these octets.
    fn message_lines(&self, octets: &Vec<u8>) -> Result<String, DecodeError>
        ensures lines { IfOk result (λ text.
            IsMessageText M.format self.now.depth octets.now.items (string_bytes text)) }
        ensures not_read { IfErr result (MayNotBeRead M.format self.now.depth octets.now.items) }
    {
        let message: LdapMessage = self.rules.read_value(octets, self.depth)?;
        // No message begins otherwise, but no contract says so.
        let Some(_beginning) = beginning_of(octets.as_slice()) else {
            return Err(DecodeError::Memory);
        };
        let text = message_text(self.alloc, &message)?;
        Ok(text)
    }

    /// The text of an element that was not read as a message, for this error.
    fn unknown_text(&self, octets: &[u8], error: DecodeError) -> Result<ElementText, DecodeError>
        requires not_read { MayNotBeRead M.format self.now.depth octets.now error }
        requires not_memory { error ≢ Memory }
        ensures text { IfOk result (λ shown. IsTextOf M.format self.now.depth octets.now
            (string_bytes shown.text) shown.understood) }
        ensures no_message { IfErr result (λ error. error ≢ Memory →
            IsNoMessage M.format self.now.depth octets.now error) }
    {
        match beginning_of(octets) {
            Some(beginning) => Ok(ElementText {
                text: unknown_line(self.alloc, beginning, error)?,
                understood: false,
            }),
            None => Err(error),
        }
    }
}
