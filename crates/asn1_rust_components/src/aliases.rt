//! Files that are no type: names for types and tags, and constants.
use asn1_rust_code::{Draft, ListStyle, TagNumber, TypeName, append_typed, class_word, joined};
use std::alloc::{AllocError, Global};

/// A name for a type.
#[derive(Drop)]
pub struct Alias {
    /// The name in Rust.
    pub name: String,
    /// The definition in ASN.1.
    pub notation: String,
    /// The type.
    pub definition: TypeName,
    /// Named numbers or bits of the type, as constants of a struct with this name.
    pub numbers: Option<NamedNumbers>,
}

/// The names of an INTEGER or a BIT STRING.
#[derive(Drop)]
pub struct NamedNumbers {
    /// The struct whose constants they are.
    pub name: String,
    /// The constants.
    pub constants: Vec<Constant>,
}

/// A constant.
#[derive(Drop)]
pub struct Constant {
    /// The name in Rust.
    pub name: String,
    /// The definition in ASN.1.
    pub notation: String,
    /// The type of the constant.
    pub definition: &'static str,
    /// The value in code.
    pub value: ConstantValue,
}

/// The value of a constant in code.
#[derive(Drop)]
pub enum ConstantValue {
    /// A literal.
    Literal(String),
    /// The elements of a slice.
    Elements(Vec<String>),
}

/// A type that names a tag.
#[derive(Drop)]
pub struct Marker {
    /// The name in Rust.
    pub name: String,
    /// The tag.
    pub tag: TagNumber,
}

// The module with the names of types.
const MODULE: &str = "crate::aliases";

// The number of columns that elements of a slice take at most in one line.
const ELEMENTS_WIDTH: usize = 60;

/// The file with the names of types.
pub fn alias_file(alloc: Global, page: &[String], aliases: &[Alias]) -> Result<String, AllocError> {
    let mut draft = Draft::new(alloc);
    for (index, alias) in aliases.iter().enumerate() {
        append_gap(&mut draft, index)?;
        append_alias(&mut draft, alias)?;
    }
    draft.into_file(page)
}

/// The file with constants.
pub fn constant_file(
    alloc: Global,
    page: &[String],
    constants: &[Constant],
) -> Result<String, AllocError> {
    let mut draft = Draft::new(alloc);
    for (index, constant) in constants.iter().enumerate() {
        append_gap(&mut draft, index)?;
        append_constant(&mut draft, 0, constant)?;
    }
    draft.into_file(page)
}

/// The file with the types that name tags.
pub fn marker_file(
    alloc: Global,
    page: &[String],
    markers: &[Marker],
) -> Result<String, AllocError> {
    let mut draft = Draft::new(alloc);
    draft.use_names(&["AsnType", "Identifier", "TypeTable"])?;
    draft.use_ghost("ghost use Rattle.asn1_schema.specs.model.Kinds.{marker_type};")?;
    for (index, marker) in markers.iter().enumerate() {
        append_gap(&mut draft, index)?;
        append_marker(&mut draft, marker)?;
    }
    draft.into_file(page)
}

// Appends an empty line, but before the first item.
fn append_gap(draft: &mut Draft, index: usize) -> Result<(), AllocError> {
    if index == 0 { Ok(()) } else { draft.blank() }
}

// Appends a name for a type.
fn append_alias(draft: &mut Draft, alias: &Alias) -> Result<(), AllocError> {
    let alloc = draft.alloc();
    for import in &alias.definition.imports {
        if import.path.as_str() != MODULE {
            draft.use_import(import)?;
        }
    }
    let notation = alias.notation.as_str();
    let name = alias.name.as_str();
    let text = alias.definition.text.as_str();
    draft.text(format!(in alloc; "/// {notation}\n")?)?;
    if text.contains('<') {
        let front = format!(in alloc; "pub type {name} = ")?;
        append_typed(draft, 0, front.as_str(), text, ";")?;
    } else {
        let front = format!(in alloc; "pub type {name} =")?;
        let back = format!(in alloc; "{text};")?;
        draft.definition(0, front.as_str(), back.as_str())?;
    }
    match &alias.numbers {
        Some(numbers) => append_numbers(draft, name, numbers),
        None => Ok(()),
    }
}

// Appends the names of an INTEGER or a BIT STRING.
fn append_numbers(
    draft: &mut Draft,
    alias: &str,
    numbers: &NamedNumbers,
) -> Result<(), AllocError> {
    let name = numbers.name.as_str();
    draft.text(format!(in draft.alloc();
        "
/// The names in `{alias}`.
pub struct {name};

impl {name} {{
"
    )?)?;
    for (index, constant) in numbers.constants.iter().enumerate() {
        append_gap(draft, index)?;
        append_constant(draft, 1, constant)?;
    }
    draft.line(0, "}")
}

// Appends a constant.
fn append_constant(draft: &mut Draft, depth: usize, constant: &Constant) -> Result<(), AllocError> {
    let alloc = draft.alloc();
    let notation = constant.notation.as_str();
    let comment = format!(in alloc; "/// {notation}")?;
    draft.line(depth, comment.as_str())?;
    let name = constant.name.as_str();
    let definition = constant.definition;
    let front = format!(in alloc; "pub const {name}: {definition} =")?;
    match &constant.value {
        ConstantValue::Literal(value) => {
            let value = value.as_str();
            let back = format!(in alloc; "{value};")?;
            draft.definition(depth, front.as_str(), back.as_str())
        }
        ConstantValue::Elements(elements) => {
            append_elements(draft, depth, front.as_str(), elements.as_slice())
        }
    }
}

// Appends a constant that is a slice. Elements that are too many for one line are side by side in several.
fn append_elements(
    draft: &mut Draft,
    depth: usize,
    front: &str,
    elements: &[String],
) -> Result<(), AllocError> {
    let alloc = draft.alloc();
    let mut texts = Vec::new(alloc);
    for element in elements {
        texts.push(element.as_str())?;
    }
    let line = joined(alloc, texts.as_slice(), ", ")?;
    let line = line.as_str();
    if line.len() <= ELEMENTS_WIDTH {
        let back = format!(in alloc; "&[{line}];")?;
        return draft.definition(depth, front, back.as_str());
    }
    let opening = format!(in alloc; "{front} &[")?;
    draft.list(depth, opening.as_str(), elements, "];", ListStyle::Elements)
}

// Appends a type that names a tag.
fn append_marker(draft: &mut Draft, marker: &Marker) -> Result<(), AllocError> {
    let class = class_word(marker.tag.class);
    draft.use_words(&[class])?;
    let number = marker.tag.number;
    let name = marker.name.as_str();
    let tag = draft.tag_code(marker.tag)?;
    draft.text(format!(in draft.alloc();
        "\
/// The tag {number} of the class {class}.
#[derive(Clone, Copy, Debug, PartialEq, Eq)]
pub struct "
    )?)?;
    draft.text(format!(in draft.alloc();
        "{name};

impl AsnType for {name} {{
"
    )?)?;
    draft.text(format!(in draft.alloc();
        "    ghost meaning = {{ marker_type ({class} {number}) }};

    fn table() -> TypeTable {{
        TypeTable::new({tag}, Identifier::EMPTY)
    }}

    fn is_present(&self) -> bool {{
        true
    }}
}}
"
    )?)
}
