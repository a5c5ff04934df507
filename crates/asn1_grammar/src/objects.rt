//! Information objects (X.681, 11).
ghost use Rattle.std.specs.Prelude.{◌≡◌, ◌<◌, ◌≢◌, ℕ, [], false, length, slice_index_or, IfOk};
ghost use Rattle.asn1_grammar.specs.Settings.{AreDistinct};
ghost use Rattle.asn1_grammar.specs.declared.objects.Setting.{Setting};

use crate::braced::braced;
use crate::cursor::Cursor;
use crate::error::{Expected, Fault, SyntaxError};
use crate::grammar::parse_type;
use crate::object_syntax::{SyntaxStep, is_word};
use crate::parsed::MAX_DEPTH;
use crate::spans::{cursor_over, of_fault};
use crate::values::parse_value;
use asn1_notation::{Span, Type, Value};
use std::alloc::{AllocError, AllocFailed, Global};

/// A field that an object has, with its setting.
#[derive(Drop)]
pub struct Setting {
    /// The index of the field in its class.
    pub field: usize,
    /// The offset of the first octet.
    pub start: usize,
    /// What is there.
    pub held: Held,
}

/// The setting of a field.
#[derive(Drop)]
pub enum Held {
    /// A type.
    Type(Type),
    /// A value.
    Value(Value),
    /// An object, a set of objects or a set of values, which is not read.
    Other(Span),
}

/// The contents of a field, as far as the notation needs them.
#[derive(Clone, Copy, Debug, PartialEq, Eq)]
pub enum FieldForm {
    /// A type.
    Type,
    /// A value.
    Value,
    /// An object, a set of objects or a set of values.
    Other,
}

/// A field as objects are written with it.
#[derive(Clone, Copy, Debug)]
pub struct FieldNotation<'a> {
    /// The name, without its ampersand.
    pub name: &'a [u8],
    /// What it holds.
    pub form: FieldForm,
}

/// The notation of the objects of a class.
#[derive(Clone, Copy)]
pub struct ObjectNotation<'c, 'a> {
    /// The fields.
    pub fields: &'c [FieldNotation<'a>],
    /// The parts behind WITH SYNTAX, if the class has it.
    pub syntax: Option<&'c [SyntaxStep<'a>]>,
}

/// Why braces are no object of a class.
#[derive(Clone, Copy, Debug, PartialEq, Eq)]
pub enum ObjectFault<'a> {
    /// A setting is not understood.
    Syntax(SyntaxError),
    /// This word is expected here.
    Word(Span, &'a [u8]),
    /// Here is more than the syntax has.
    More(Span),
    /// The class has no field of the name that is here.
    NoField(Span),
    /// The field of this index is set twice.
    Twice(Span, usize),
    /// Memory ran out.
    Memory,
}

impl From<Fault> for ObjectFault<'_> {
    fn from(fault: Fault) -> Self {
        match fault {
            Fault::Syntax(error) => ObjectFault::Syntax(error),
            Fault::Memory => ObjectFault::Memory,
        }
    }
}

impl From<AllocError> for ObjectFault<'_> {
    fn from(_refused: AllocError) -> Self {
        ObjectFault::Memory
    }
}

impl<T: Drop> From<AllocFailed<T>> for ObjectFault<'_> {
    fn from(_refused: AllocFailed<T>) -> Self {
        ObjectFault::Memory
    }
}

/// Reads what a class has as the DEFAULT of a field of this form.
pub fn parse_default(
    alloc: Global,
    text: &[u8],
    part: Span,
    form: FieldForm,
) -> Result<Result<Held, SyntaxError>, AllocError> {
    of_fault(read_default(alloc, text, part, form))
}

// Reads what is written for a field of this form, and nothing behind it.
fn read_default(alloc: Global, text: &[u8], part: Span, form: FieldForm) -> Result<Held, Fault> {
    let mut cursor = cursor_over(alloc, text, part)?;
    let held = read_held(&mut cursor, form)?;
    if cursor.is_at_end() {
        Ok(held)
    } else {
        Err(cursor.expected(Expected::CloseBraceOrComma))
    }
}

/// Reads the braces of an object by the notation of its class: the settings of its fields, in the order of the text.
pub fn parse_object<'a>(
    alloc: Global,
    text: &[u8],
    braces: Span,
    notation: ObjectNotation<'_, 'a>,
) -> Result<Vec<Setting>, ObjectFault<'a>>
    // No field is set twice.
    ensures distinct { IfOk result (λ settings. AreDistinct settings.items) }
{
    let mut cursor = cursor_over(alloc, text, braces)?;
    let mut settings = Vec::new(alloc);
    cursor.expect_symbol(b"{", Expected::OpenBrace)?;
    match notation.syntax {
        Some(steps) => by_syntax(&mut cursor, notation.fields, steps, &mut settings)?,
        None => by_names(&mut cursor, text, notation.fields, &mut settings)?,
    }
    if sees_end(&cursor) {
        Ok(settings)
    } else {
        Err(ObjectFault::More(cursor.next_span()))
    }
}

// Whether the last brace is next.
fn sees_end(cursor: &Cursor<'_>) -> bool {
    cursor.sees_symbol(b"}") && cursor.peek_after(1).is_none()
}

// Reads settings behind the names of their fields (X.681, 11.5).
fn by_names<'a>(
    cursor: &mut Cursor<'_>,
    text: &[u8],
    fields: &[FieldNotation<'a>],
    settings: &mut Vec<Setting>,
) -> Result<(), ObjectFault<'a>>
    ensures distinct { AreDistinct settings.old.items → AreDistinct settings.new.items }
{
    for _ in 0..cursor.len() {
        if sees_end(cursor) {
            return Ok(());
        }
        cursor.expect_symbol(b"&", Expected::FieldName)?;
        let name = cursor.any_name(Expected::FieldName)?;
        match find_field(fields, name.octets(text)) {
            Some(field) => add_setting(cursor, fields, field, name, settings)?,
            None => return Err(ObjectFault::NoField(name)),
        }
        if !cursor.accept_symbol(b",") {
            return Ok(());
        }
    }
    Ok(())
}

// Reads settings by the syntax of the class (X.681, 11.6).
fn by_syntax<'a>(
    cursor: &mut Cursor<'_>,
    fields: &[FieldNotation<'a>],
    steps: &[SyntaxStep<'a>],
    settings: &mut Vec<Setting>,
) -> Result<(), ObjectFault<'a>>
    ensures distinct { AreDistinct settings.old.items → AreDistinct settings.new.items }
{
    let mut at = 0usize;
    for _ in 0..steps.len() {
        let Some(step) = steps.get(at) else {
            return Ok(());
        };
        at = at.saturating_add(1);
        match *step {
            SyntaxStep::Close => {}
            SyntaxStep::Open(end) => {
                if !enters(cursor, steps, at, end) {
                    at = end;
                }
            }
            SyntaxStep::Word(word) => {
                if !sees_text(cursor, word) {
                    return Err(ObjectFault::Word(cursor.next_span(), word));
                }
                cursor.skip();
            }
            SyntaxStep::Field(name) => set_field(cursor, fields, name, settings)?,
        }
    }
    Ok(())
}

// Reads the setting of the field that a syntax names.
fn set_field<'a>(
    cursor: &mut Cursor<'_>,
    fields: &[FieldNotation<'a>],
    name: &[u8],
    settings: &mut Vec<Setting>,
) -> Result<(), ObjectFault<'a>>
    ensures distinct { AreDistinct settings.old.items → AreDistinct settings.new.items }
{
    let place = cursor.next_span();
    match find_field(fields, name) {
        Some(field) => add_setting(cursor, fields, field, place, settings),
        None => Err(ObjectFault::NoField(place)),
    }
}

// Whether the object has the part between two brackets: its first word is next; or it begins with a setting, and neither the word behind
// it nor the end is next.
fn enters(cursor: &Cursor<'_>, steps: &[SyntaxStep<'_>], first: usize, end: usize) -> bool {
    match first_part(steps, first, end) {
        Some(SyntaxStep::Word(word)) => sees_text(cursor, word),
        Some(SyntaxStep::Field(_)) => match first_part(steps, end, steps.len()) {
            Some(SyntaxStep::Word(word)) => !sees_text(cursor, word) && !sees_end(cursor),
            _ => !sees_end(cursor),
        },
        _ => false,
    }
}

// The first part from a step on, and before another, that is no bracket.
fn first_part<'a>(steps: &[SyntaxStep<'a>], first: usize, end: usize) -> Option<SyntaxStep<'a>> {
    for step in steps.get(first..end).unwrap_or(&[]) {
        match step {
            SyntaxStep::Word(_) => return Some(*step),
            SyntaxStep::Field(_) => return Some(*step),
            _ => {}
        }
    }
    None
}

// Whether this word or a comma is next. A reserved word may be a word of a syntax.
fn sees_text(cursor: &Cursor<'_>, word: &[u8]) -> bool {
    match cursor.peek() {
        Some(token) => is_word(token) && token.text == word,
        None => false,
    }
}

// Whether a field is set.
fn is_set(settings: &[Setting], field: usize) -> bool
    ensures unset { result ≡ false → (k : ℕ) (none : Setting) → k < length settings.now →
        (slice_index_or settings.now k none).field ≢ field }
{
    for setting in settings {
        if setting.field == field {
            return true;
        }
    }
    false
}

// The index of the field of this name.
fn find_field(fields: &[FieldNotation<'_>], name: &[u8]) -> Option<usize> {
    for (index, field) in fields.iter().enumerate() {
        if field.name == name {
            return Some(index);
        }
    }
    None
}

// Reads the setting of a field, unless it is set: an error is at the place of its name.
fn add_setting<'a>(
    cursor: &mut Cursor<'_>,
    fields: &[FieldNotation<'a>],
    field: usize,
    place: Span,
    settings: &mut Vec<Setting>,
) -> Result<(), ObjectFault<'a>>
    ensures distinct { AreDistinct settings.old.items → AreDistinct settings.new.items }
{
    if is_set(settings, field) {
        return Err(ObjectFault::Twice(place, field));
    }
    let start = cursor.start();
    let form = match fields.get(field) {
        Some(notation) => notation.form,
        None => FieldForm::Other,
    };
    let held = read_held(cursor, form)?;
    settings.push(Setting { field, start, held })?;
    Ok(())
}

// Reads what is written for a field of this form.
fn read_held(cursor: &mut Cursor<'_>, form: FieldForm) -> Result<Held, Fault> {
    Ok(match form {
        FieldForm::Type => Held::Type(parse_type(cursor, MAX_DEPTH)?),
        FieldForm::Value => Held::Value(parse_value(cursor, MAX_DEPTH)?),
        FieldForm::Other => Held::Other(other(cursor)?),
    })
}

// Reads an object or a set: braces; or a name, with what is behind its dots and with its arguments.
fn other(cursor: &mut Cursor<'_>) -> Result<Span, Fault> {
    if cursor.sees_symbol(b"{") {
        return braced(cursor);
    }
    let start = cursor.start();
    let mut end = cursor.any_name(Expected::AnyName)?.end;
    for _ in 0..cursor.len() {
        if !cursor.accept_symbol(b".") {
            break;
        }
        let _ = cursor.accept_symbol(b"&");
        end = cursor.any_name(Expected::AnyName)?.end;
    }
    if cursor.sees_symbol(b"{") {
        end = braced(cursor)?.end;
    }
    Ok(Span { start, end })
}
