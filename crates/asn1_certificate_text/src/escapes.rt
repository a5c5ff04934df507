//! The values of attributes in the text of a name (RFC 4514, 2.4).
ghost use Rattle.std.specs.Prelude.{◌≡◌, ◌<◌, ◌++◌, OnOk};
ghost use Rattle.std.specs.List.{flat_map};
ghost use Rattle.std.specs.String.{string_bytes};
ghost use Rattle.asn1_certificate_text.specs.Escapes.{control_text, escaped, escaped_text, is_written_as_octets, is_end, is_special, octet_escaped, needs_backslash, visible};

use crate::octets::push_octet;
use asn1_values::shown::is_shown;
use std::alloc::AllocError;

/// Appends a value's characters, with a backslash before each that has a meaning in the text of a name, and control characters as
/// their octets. So no value runs into the text after it, and no control of ASCII or of Latin-1 reaches a terminal, nor a
/// character that changes the direction of others or ends a line.
pub fn push_escaped(text: &mut String, characters: &[char]) -> Result<(), AllocError>
    ensures { OnOk result (string_bytes text.new ≡
        string_bytes text.old ++ escaped_text characters.now) }
{
    for i in 0..characters.len() {
        push_character(text, is_end(i, characters.len()), characters[i])?;
    }
    Ok(())
}

/// Appends characters, with controls and characters that change the direction of others or end a line as their octets, and a
/// backslash twice.
pub fn push_visible(text: &mut String, characters: &[char]) -> Result<(), AllocError>
    ensures { OnOk result (string_bytes text.new ≡
        string_bytes text.old ++ flat_map visible characters.now) }
{
    for character in characters {
        push_visible_character(text, *character)?;
    }
    Ok(())
}

/// Appends a character outside names.
fn push_visible_character(text: &mut String, character: char) -> Result<(), AllocError>
    ensures { OnOk result (string_bytes text.new ≡ string_bytes text.old ++ visible character) }
{
    if is_written_as_octets(character) {
        return push_control(text, character);
    }
    if character == '\\' {
        return text.push_str("\\\\");
    }
    text.push(character)
}

/// Whether this is the index of the first or the last of this many characters.
fn is_end(index: usize, count: usize) -> bool
    requires { index < count }
    ensures { result ≡ is_end index count }
{
    index == 0 || index + 1 == count
}

/// Appends a character, which is the first or the last of its value or not.
fn push_character(text: &mut String, at_end: bool, character: char) -> Result<(), AllocError>
    ensures { OnOk result (string_bytes text.new ≡
        string_bytes text.old ++ escaped at_end character) }
{
    if is_written_as_octets(character) {
        return push_control(text, character);
    }
    if needs_backslash(at_end, character) {
        text.push_str("\\")?;
        return text.push(character);
    }
    text.push(character)
}

/// Whether a character is special, or a space at an end.
fn needs_backslash(at_end: bool, character: char) -> bool
    ensures { result ≡ needs_backslash at_end character }
{
    is_special(character) || (at_end && character == ' ')
}

/// Appends the octets of such a character in UTF-8, each as two digits after a backslash.
fn push_control(text: &mut String, character: char) -> Result<(), AllocError>
    ensures { OnOk result (string_bytes text.new ≡
        string_bytes text.old ++ control_text character) }
{
    let mut buffer = [0; 4];
    for octet in character.encode_utf8(&mut buffer).as_bytes() {
        push_escaped_octet(text, *octet)?;
    }
    Ok(())
}

/// Appends an octet as two digits after a backslash.
fn push_escaped_octet(text: &mut String, octet: u8) -> Result<(), AllocError>
    ensures { OnOk result (string_bytes text.new ≡ string_bytes text.old ++ octet_escaped octet) }
{
    text.push_str("\\")?;
    push_octet(text, octet)
}

/// Whether a character is written as its octets: a control, or one that changes the direction of others, or ends a line or a paragraph.
fn is_written_as_octets(character: char) -> bool
    ensures { result ≡ is_written_as_octets character }
{
    !is_shown(character)
}

/// Whether a character would end a value or change how it is read.
fn is_special(character: char) -> bool
    ensures { result ≡ is_special character }
{
    character == '"'
        || character == '#'
        || character == '+'
        || character == ','
        || character == ';'
        || character == '<'
        || character == '>'
        || character == '\\'
}
