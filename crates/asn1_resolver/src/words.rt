//! The names of arguments.
use crate::governed::{Governed, Scope, Written};
use crate::instances::Instance;
use crate::resolver::Resolver;
use asn1_notation::{Argument, TypeKind, Value, ValueKind};
use asn1_notation_text::type_word;
use std::alloc::AllocError;

impl<'r, 'a> Resolver<'r, 'a> {
    /// The names of the types and values that complete a template, each with those of its own arguments.
    pub(crate) fn words_of(&self, instance: Instance<'r, 'a>) -> Result<Vec<Vec<u8>>, AllocError> {
        let mut words = Vec::new(self.alloc);
        self.push_argument_words(&mut words, instance.scope, instance.arguments, MAX_NESTING)?;
        Ok(words)
    }

    // Appends the names of arguments, to this depth.
    #[cycle(words)]
    fn push_argument_words(
        &self,
        words: &mut Vec<Vec<u8>>,
        scope: Scope<'a>,
        arguments: &'r [Argument],
        depth: usize,
    ) -> Result<(), AllocError> {
        for argument in arguments {
            self.push_words(words, scope, argument, depth)?;
        }
        Ok(())
    }

    // Appends the names of an argument.
    #[cycle(words)]
    fn push_words(
        &self,
        words: &mut Vec<Vec<u8>>,
        scope: Scope<'a>,
        argument: &'r Argument,
        depth: usize,
    ) -> Result<(), AllocError> {
        match argument {
            Argument::Type(definition) => {
                self.push_type_words(words, Governed { scope, definition }, depth)
            }
            Argument::Value(value) => self.push_value_word(words, scope, value),
            Argument::Braced(_) => Ok(()),
        }
    }

    // Appends the names of a type.
    #[cycle(words)]
    fn push_type_words(
        &self,
        words: &mut Vec<Vec<u8>>,
        governed: Governed<'r, 'a>,
        depth: usize,
    ) -> Result<(), AllocError> {
        let Some(depth) = depth.checked_sub(1) else {
            return Ok(());
        };
        let governed = self.behind_parameters(governed);
        let scope = governed.scope;
        match &governed.definition.kind {
            TypeKind::Reference(reference) if self.is_class(scope, *reference) => Ok(()),
            TypeKind::Reference(reference) => self.push_word(words, scope.octets(reference.name)),
            TypeKind::Instance(reference, arguments) => {
                self.push_word(words, scope.octets(reference.name))?;
                self.push_argument_words(words, scope, arguments.as_slice(), depth)
            }
            kind => self.push_word(words, type_word(kind)),
        }
    }

    // Appends the name of a value, or its number.
    fn push_value_word(
        &self,
        words: &mut Vec<Vec<u8>>,
        scope: Scope<'a>,
        value: &'r Value,
    ) -> Result<(), AllocError> {
        let written = self.behind_value_parameters(Written { scope, value });
        match &written.value.kind {
            ValueKind::Reference(reference) => {
                self.push_word(words, written.scope.octets(reference.name))
            }
            ValueKind::Number(number) => {
                self.push_word(words, written.scope.octets(number.digits))
            }
            _ => Ok(()),
        }
    }

    // Appends a name, with hyphens for the spaces of a word.
    fn push_word(&self, words: &mut Vec<Vec<u8>>, name: &[u8]) -> Result<(), AllocError> {
        let mut word = Vec::new(self.alloc);
        for octet in name {
            word.push(if *octet == b' ' { b'-' } else { *octet })?;
        }
        words.push(word)?;
        Ok(())
    }
}

// The greatest depth of arguments in a name.
const MAX_NESTING: usize = 100;
