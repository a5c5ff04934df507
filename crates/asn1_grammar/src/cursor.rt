//! The tokens that are left to be read.
use crate::associated::AssociatedType;
use crate::error::{Cause, Construct, Expected, Fault, Owner, SyntaxError};
use crate::slips::slip_at;
use asn1_notation::{Number, NumberName, Reference, Span};
use asn1_tokens::{Token, TokenKind};
use std::alloc::{AllocError, Global};

/// The tokens of a text, and how many were read.
#[derive(Drop)]
pub(crate) struct Cursor<'a> {
    tokens: Vec<Token<'a>>,
    index: usize,
    // The offset of the end of the text.
    end: usize,
    // The text, if lines are skipped.
    text: &'a [u8],
    alloc: Global,
    // The types of the language that were named and that others define.
    associated: Vec<AssociatedType>,
}

/// Where a token is.
pub(crate) fn span_of(token: Token<'_>) -> Span {
    Span {
        start: token.start,
        end: token.start.saturating_add(token.text.len()),
    }
}

impl<'a> Cursor<'a> {
    /// A cursor at the first token of a text of this size.
    pub(crate) fn new(alloc: Global, tokens: Vec<Token<'a>>, end: usize) -> Cursor<'a> {
        Cursor {
            tokens,
            index: 0,
            end,
            text: &[],
            alloc,
            associated: Vec::new(alloc),
        }
    }

    /// The same cursor, which can skip lines of this text.
    pub(crate) fn over(self, text: &'a [u8]) -> Cursor<'a> {
        Cursor { text, ..self }
    }

    /// The allocator of the tree.
    pub(crate) fn alloc(&self) -> Global {
        self.alloc
    }

    /// How many tokens there are.
    pub(crate) fn len(&self) -> usize {
        self.tokens.len()
    }

    /// How many tokens were read.
    pub(crate) fn index(&self) -> usize {
        self.index
    }

    /// The token so many behind the next.
    pub(crate) fn peek_after(&self, count: usize) -> Option<Token<'a>> {
        let index = self.index.checked_add(count)?;
        self.tokens.get(index).copied()
    }

    /// The next token.
    pub(crate) fn peek(&self) -> Option<Token<'a>> {
        self.tokens.get(self.index).copied()
    }

    /// The token that was read last.
    pub(crate) fn last(&self) -> Option<Token<'a>> {
        let index = self.index.checked_sub(1)?;
        self.tokens.get(index).copied()
    }

    /// Whether the token that was read last is this symbol.
    pub(crate) fn has_read_symbol(&self, text: &[u8]) -> bool {
        match self.last() {
            Some(token) => token.kind == TokenKind::Symbol && token.text == text,
            None => false,
        }
    }

    /// Whether no token is left.
    pub(crate) fn is_at_end(&self) -> bool {
        self.peek().is_none()
    }

    /// Reads the next token.
    pub(crate) fn skip(&mut self) {
        if self.index < self.tokens.len() {
            self.index += 1;
        }
    }

    /// Reads the tokens up to the end of the line of the next one.
    pub(crate) fn skip_line(&mut self) {
        let line = self.text.get(self.start()..).unwrap_or(&[]);
        let length = match line.iter().position(|octet| *octet == b'\n') {
            Some(length) => length,
            None => line.len(),
        };
        let end = self.start().saturating_add(length);
        for _ in 0..self.tokens.len() {
            if self.is_at_end() || end <= self.start() {
                return;
            }
            self.skip();
        }
    }

    /// Goes back to where this many tokens were read.
    pub(crate) fn go_back(&mut self, index: usize) {
        self.index = index;
    }

    /// The offset of the next token, or of the end of the text.
    pub(crate) fn start(&self) -> usize {
        match self.peek() {
            Some(token) => token.start,
            None => self.end,
        }
    }

    /// Where the next token is, or the end of the text.
    pub(crate) fn next_span(&self) -> Span {
        match self.peek() {
            Some(token) => span_of(token),
            None => Span {
                start: self.end,
                end: self.end,
            },
        }
    }

    /// Keeps that a type of the language is named.
    pub(crate) fn keep_associated(&mut self, kind: AssociatedType) -> Result<(), AllocError> {
        if !self.associated.contains(&kind) {
            self.associated.push(kind)?;
        }
        Ok(())
    }

    /// The types of the language that were named.
    pub(crate) fn into_associated(self) -> Vec<AssociatedType> {
        let Cursor {
            tokens: _,
            index: _,
            end: _,
            text: _,
            alloc: _,
            associated,
        } = self;
        associated
    }

    /// Whether the token so many behind the next is of this kind and has this text.
    pub(crate) fn sees_after(&self, count: usize, kind: TokenKind, text: &[u8]) -> bool {
        match self.peek_after(count) {
            Some(token) => token.kind == kind && token.text == text,
            None => false,
        }
    }

    /// Whether the token so many behind the next is of this kind.
    pub(crate) fn sees_kind_after(&self, count: usize, kind: TokenKind) -> bool {
        match self.peek_after(count) {
            Some(token) => token.kind == kind,
            None => false,
        }
    }

    /// Whether the next token is this symbol.
    pub(crate) fn sees_symbol(&self, text: &[u8]) -> bool {
        self.sees_after(0, TokenKind::Symbol, text)
    }

    /// Whether the next token is this reserved word.
    pub(crate) fn sees_word(&self, text: &[u8]) -> bool {
        self.sees_after(0, TokenKind::ReservedWord, text)
    }

    /// Reads this symbol, if it is next.
    pub(crate) fn accept_symbol(&mut self, text: &[u8]) -> bool {
        let seen = self.sees_symbol(text);
        if seen {
            self.skip();
        }
        seen
    }

    /// Reads this reserved word, if it is next.
    pub(crate) fn accept_word(&mut self, text: &[u8]) -> bool {
        let seen = self.sees_word(text);
        if seen {
            self.skip();
        }
        seen
    }

    /// Reads this symbol.
    pub(crate) fn expect_symbol(&mut self, text: &[u8], expected: Expected) -> Result<(), Fault> {
        if self.accept_symbol(text) {
            Ok(())
        } else {
            Err(self.expected(expected))
        }
    }

    /// Reads this reserved word.
    pub(crate) fn expect_word(&mut self, text: &[u8], expected: Expected) -> Result<(), Fault> {
        if self.accept_word(text) {
            Ok(())
        } else {
            Err(self.expected(expected))
        }
    }

    /// The fault that something is wrong with the next token.
    pub(crate) fn fault(&self, cause: Cause) -> Fault {
        Fault::Syntax(SyntaxError {
            found: self.next_span(),
            cause,
            definition: None,
        })
    }

    /// The fault that the next token is not what was expected, or that a frequent slip is here.
    pub(crate) fn expected(&self, expected: Expected) -> Fault {
        self.fault(match slip_at(self, expected) {
            Some(slip) => Cause::Slip(slip),
            None => Cause::Expected(expected),
        })
    }

    /// The fault that the next token is not what was expected behind what has this name, or that a frequent slip is here.
    pub(crate) fn expected_after(&self, expected: Expected, owner: Owner, name: Span) -> Fault {
        self.fault(match slip_at(self, expected) {
            Some(slip) => Cause::Slip(slip),
            None => Cause::ExpectedAfter(expected, owner, name),
        })
    }

    /// The fault that a construct is not taken.
    pub(crate) fn not_taken(&self, construct: Construct) -> Fault {
        self.fault(Cause::NotTaken(construct))
    }

    // Reads a token of this kind.
    fn name_of_kind(&mut self, kind: TokenKind, expected: Expected) -> Result<Span, Fault> {
        match self.peek() {
            Some(token) if token.kind == kind => {
                self.skip();
                Ok(span_of(token))
            }
            _ => Err(self.expected(expected)),
        }
    }

    /// Reads a name that begins with a lower-case letter.
    pub(crate) fn identifier(&mut self, expected: Expected) -> Result<Span, Fault> {
        self.name_of_kind(TokenKind::Identifier, expected)
    }

    /// Reads a name that begins with an upper-case letter.
    pub(crate) fn type_name(&mut self, expected: Expected) -> Result<Span, Fault> {
        self.name_of_kind(TokenKind::TypeReference, expected)
    }

    /// Reads a name.
    pub(crate) fn any_name(&mut self, expected: Expected) -> Result<Span, Fault> {
        if self.sees_kind_after(0, TokenKind::TypeReference) {
            self.type_name(expected)
        } else {
            self.identifier(expected)
        }
    }

    /// Reads a whole number, with a hyphen in front or without.
    pub(crate) fn number(&mut self, expected: Expected) -> Result<Number, Fault> {
        let is_negative = self.accept_symbol(b"-");
        let digits = self.name_of_kind(TokenKind::Number, expected)?;
        Ok(Number {
            is_negative,
            digits,
        })
    }

    /// Reads the name of a value, with its module or without.
    pub(crate) fn value_reference(&mut self, expected: Expected) -> Result<Reference, Fault> {
        if !self.sees_kind_after(0, TokenKind::TypeReference) {
            let name = self.identifier(expected)?;
            return Ok(Reference { module: None, name });
        }
        let module = self.type_name(expected)?;
        self.expect_symbol(b".", Expected::Dot)?;
        if self.sees_symbol(b"&") {
            return Err(self.not_taken(Construct::SetField));
        }
        let name = self.identifier(Expected::ValueName)?;
        Ok(Reference {
            module: Some(module),
            name,
        })
    }

    /// Reads a whole number, or the name of a value.
    pub(crate) fn number_name(&mut self, expected: Expected) -> Result<NumberName, Fault> {
        if self.sees_symbol(b"-") || self.sees_kind_after(0, TokenKind::Number) {
            let number = self.number(expected)?;
            return Ok(NumberName::Number(number));
        }
        let reference = self.value_reference(expected)?;
        Ok(NumberName::Reference(reference))
    }
}
