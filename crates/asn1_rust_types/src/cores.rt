//! Types below their lists and their other names.
use crate::weights::is_of_other_crate;
use asn1_rust_code::{Import, TypeName};
use asn1_rust_components::{Alias, ListKind, TypeFile};
use std::alloc::{AllocError, Global};
use std::collections::HashMap;

/// The types of the language and of the libraries whose equal values are one value.
const SINGLE: &[&str] = &[
    "Any",
    "BmpString",
    "GeneralString",
    "GeneralizedTime",
    "GraphicString",
    "Ia5String",
    "Integer",
    "NumericString",
    "ObjectDescriptor",
    "ObjectIdentifier",
    "OctetString",
    "PrintableString",
    "TeletexString",
    "UtcTime",
    "VisibleString",
    "asn1_contents::Date",
    "asn1_contents::DateTime",
    "asn1_contents::Real",
    "asn1_contents::RelativeOid",
    "asn1_contents::TimeOfDay",
    "asn1_contents::UniversalString",
    "bool",
    "i16",
    "i32",
    "i64",
    "i8",
    "u16",
    "u32",
    "u64",
    "u8",
];

/// Those of bits.
const BITS: &[&str] = &["BitString", "BitVec", "NamedBitString"];

/// The greatest number of tags and other names around a type.
const DEEPEST: usize = 100;

/// A type without parts, by what equal values have in common.
#[derive(Clone, Copy)]
pub(crate) enum Leaf {
    /// NULL, of which records name no value.
    Null,
    /// The value.
    Value,
    /// The value, which is bits.
    Bits,
    /// The octets of a text inside this number of wrappers.
    Text(usize),
}

/// A type below lists and other names.
#[derive(Clone, Copy)]
pub(crate) enum Core<'a> {
    /// A type without parts.
    Leaf(Leaf),
    /// A type of the crate.
    Type(&'a TypeFile),
}

/// A layer around a type.
#[derive(Drop)]
pub(crate) enum Layer {
    /// A list, with the type of its elements.
    List(ListKind, TypeName),
    /// A tag of its own, in the place of that of the type.
    Implicit,
    /// One in front of it.
    Explicit,
}

/// A type that is known: what is around its core, the outermost first.
#[derive(Drop)]
pub(crate) struct Known<'a> {
    pub(crate) layers: Vec<Layer>,
    pub(crate) core: Core<'a>,
}

// The type or the alias of a name.
#[derive(Clone, Copy)]
enum Named<'a> {
    Type(&'a TypeFile),
    Alias(&'a TypeName),
}

/// The types of a crate, by their names.
#[derive(Drop)]
pub(crate) struct Names<'a> {
    names: HashMap<String, Named<'a>>,
}

impl<'a> Names<'a> {
    /// The names of these types, and these names for types.
    pub(crate) fn of(
        alloc: Global,
        files: &'a [TypeFile],
        aliases: &'a [Alias],
    ) -> Result<Names<'a>, AllocError> {
        let mut names = HashMap::new(alloc);
        for file in files {
            let name = String::from_str(alloc, file.name.as_str())?;
            names.insert(name, Named::Type(file))?;
        }
        for alias in aliases {
            let name = String::from_str(alloc, alias.name.as_str())?;
            names.insert(name, Named::Alias(&alias.definition))?;
        }
        Ok(Names { names })
    }

    /// A type below its layers, if it is known: two tags of definitions, one right in the other, are not.
    pub(crate) fn known(
        &self,
        alloc: Global,
        definition: &'a TypeName,
    ) -> Result<Option<Known<'a>>, AllocError> {
        let mut layers = Vec::new(alloc);
        // The type whose name the text is in.
        let mut owner = definition;
        let mut text = definition.text.as_str();
        for _ in 0..DEEPEST {
            if let Some(leaf) = self.leaf(owner, text) {
                let core = Core::Leaf(leaf);
                return Ok(Some(Known { layers, core }));
            }
            if let Some((layer, inner)) = outer_layer(alloc, owner, text)? {
                if is_tag(&layer) && layers.last().is_some_and(is_tag) {
                    return Ok(None);
                }
                layers.push(layer)?;
                text = inner;
            } else {
                match self.names.get(text) {
                    Some(Named::Alias(next)) => {
                        owner = *next;
                        text = owner.text.as_str();
                    }
                    Some(Named::Type(file)) => {
                        let core = Core::Type(*file);
                        return Ok(Some(Known { layers, core }));
                    }
                    None => return Ok(None),
                }
            }
        }
        Ok(None)
    }

    /// The type of the crate that has this name, if there is one.
    pub(crate) fn file(&self, name: &str) -> Option<&'a TypeFile> {
        match self.names.get(name) {
            Some(Named::Type(file)) => Some(*file),
            _ => None,
        }
    }

    // A type without parts, below tags and other names, whose text is in the name of its owner. A type of another crate is none, whatever
    // its name.
    fn leaf(&self, owner: &TypeName, text: &str) -> Option<Leaf> {
        let mut owner = owner;
        let mut inner = text;
        let mut depth: usize = 0;
        for _ in 0..DEEPEST {
            if let Some((_, content)) = below_tag(inner) {
                depth = depth.saturating_add(1);
                inner = content;
            } else {
                match self.names.get(inner) {
                    Some(Named::Alias(next)) => {
                        owner = *next;
                        inner = owner.text.as_str();
                    }
                    Some(Named::Type(_)) => return None,
                    None if is_of_other_crate(owner) => return None,
                    None => return leaf_at(inner, depth),
                }
            }
        }
        None
    }
}

// The type of this name, if it has no parts, inside a number of wrappers.
fn leaf_at(text: &str, depth: usize) -> Option<Leaf> {
    if text == "()" {
        Some(Leaf::Null)
    } else if text == "Utf8String" {
        Some(Leaf::Text(depth))
    } else if BITS.contains(&text) {
        Some(Leaf::Bits)
    } else if SINGLE.contains(&text) || text.starts_with("ConstrainedInteger<") {
        Some(Leaf::Value)
    } else {
        None
    }
}

// Whether a layer is a tag.
fn is_tag(layer: &Layer) -> bool {
    matches!(layer, Layer::Implicit | Layer::Explicit)
}

// The outermost layer of a type, and the type in it.
fn outer_layer<'n>(
    alloc: Global,
    owner: &TypeName,
    text: &'n str,
) -> Result<Option<(Layer, &'n str)>, AllocError> {
    if let Some((kind, element)) = list_of(text) {
        let name = element_name(alloc, owner, element)?;
        return Ok(Some((Layer::List(kind, name), element)));
    }
    Ok(match below_tag(text) {
        Some((true, content)) => Some((Layer::Explicit, content)),
        Some((false, content)) => Some((Layer::Implicit, content)),
        None => None,
    })
}

// Whether the tag of its own that a type is under is explicit, and the type.
fn below_tag(text: &str) -> Option<(bool, &str)> {
    let (is_explicit, arguments) = match text.strip_prefix("Implicit<") {
        Some(arguments) => (false, arguments),
        None => (true, text.strip_prefix("Explicit<")?),
    };
    let (_, content) = arguments.split_once(", ")?;
    Some((is_explicit, content.strip_suffix(">")?))
}

// A list, and the name of the type of its elements.
fn list_of(text: &str) -> Option<(ListKind, &str)> {
    match text.strip_prefix("Vec<") {
        Some(rest) => Some((ListKind::SequenceOf, rest.strip_suffix(">")?)),
        None => {
            let rest = text.strip_prefix("SetOf<")?;
            Some((ListKind::SetOf, rest.strip_suffix(">")?))
        }
    }
}

// A type inside another, with the imports that its name needs.
fn element_name(alloc: Global, whole: &TypeName, element: &str) -> Result<TypeName, AllocError> {
    let mut imports: Vec<Import> = Vec::new(alloc);
    for import in &whole.imports {
        if has_word(element, import.name.as_str()) {
            imports.push(import.copy(alloc)?)?;
        }
    }
    Ok(TypeName {
        text: String::from_str(alloc, element)?,
        imports,
        is_explicit: false,
    })
}

// Whether a word is among those of a type.
fn has_word(text: &str, word: &str) -> bool {
    for part in text.split('<') {
        for argument in part.split(", ") {
            if argument.trim_end_matches('>') == word {
                return true;
            }
        }
    }
    false
}
