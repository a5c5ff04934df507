//! The names of types in each language, and templates that they fill.
use asn1_rust_names::{TakenNames, snake_case};
use std::alloc::{AllocError, Global};

/// The names of modules that the printed crate does not have: its libraries, and files with a meaning.
const TAKEN: &[&str] = &[
    "lib",
    "main",
    "tests",
    "std",
    "core",
    "asn1_schema",
    "fan_calls",
    "fan_types",
];

/// A type of a crate, by its names.
#[derive(Clone, Copy)]
pub struct TypeNames<'a> {
    /// The name in ASN.1; where two modules have one name, the second with a number.
    pub name: &'a str,
    /// The name in Rust.
    pub rust_name: &'a str,
}

/// A type with calls.
#[derive(Drop)]
pub(crate) struct ExportedType<'a> {
    names: TypeNames<'a>,
    /// The name inside the names of functions, and of its module.
    function_name: String,
}

/// A call that writes a value in a form.
#[derive(Clone, Copy)]
pub(crate) struct Conversion {
    /// Its name behind that of the type.
    name: &'static str,
    /// The form, in words.
    form: &'static str,
}

/// The conversions that each type has.
pub(crate) const CONVERSIONS: &[Conversion] = &[
    Conversion {
        name: "der",
        form: "as DER",
    },
    Conversion {
        name: "text",
        form: "in X.680's notation",
    },
    Conversion {
        name: "json",
        form: "as JSON",
    },
];

/// The words that fill a template.
#[derive(Clone, Copy)]
pub(crate) struct Words<'a> {
    /// The crate.
    pub(crate) crate_name: &'a str,
    /// The type, in a template for one.
    pub(crate) exported: Option<&'a ExportedType<'a>>,
    /// The call, in a template for a conversion.
    pub(crate) conversion: Option<Conversion>,
}

/// The types of a crate, with a name for the functions of each.
pub(crate) fn exported_types<'a>(
    alloc: Global,
    crate_name: &str,
    types: &[TypeNames<'a>],
) -> Result<Vec<ExportedType<'a>>, AllocError> {
    let mut taken = TakenNames::new(alloc);
    for name in TAKEN {
        let _name = taken.take(name)?;
    }
    let _name = taken.take(crate_name)?;
    let mut exported = Vec::new(alloc);
    for names in types {
        let name = snake_case(alloc, names.rust_name.as_bytes())?;
        exported.push(ExportedType {
            names: *names,
            function_name: taken.take(name.as_str())?,
        })?;
    }
    Ok(exported)
}

impl ExportedType<'_> {
    /// The name of its module.
    pub(crate) fn module(&self) -> &str {
        self.function_name.as_str()
    }
}

/// Appends a template, in which words between two `@` are names to fill in.
pub(crate) fn push_filled(
    text: &mut String,
    template: &str,
    words: Words<'_>,
) -> Result<(), AllocError> {
    let mut is_word = false;
    for piece in template.split('@') {
        text.push_str(if is_word { words.name_of(piece) } else { piece })?;
        is_word = !is_word;
    }
    Ok(())
}

impl<'a> Words<'a> {
    /// The words for a crate.
    pub(crate) fn of_crate(crate_name: &'a str) -> Words<'a> {
        Words {
            crate_name,
            exported: None,
            conversion: None,
        }
    }

    /// The words for a type of a crate.
    pub(crate) fn of_type(crate_name: &'a str, exported: &'a ExportedType<'a>) -> Words<'a> {
        Words {
            crate_name,
            exported: Some(exported),
            conversion: None,
        }
    }

    /// The same for a conversion.
    pub(crate) fn with_conversion(self, conversion: Conversion) -> Words<'a> {
        Words {
            crate_name: self.crate_name,
            exported: self.exported,
            conversion: Some(conversion),
        }
    }

    /// The name that fills a word of a template.
    fn name_of(self, word: &str) -> &'a str {
        match word {
            "crate" => self.crate_name,
            "name" => self.exported.map_or("", |exported| exported.names.name),
            "type" => self
                .exported
                .map_or("", |exported| exported.names.rust_name),
            "function" => self.exported.map_or("", |exported| exported.module()),
            "call" => self.conversion.map_or("", |conversion| conversion.name),
            "form" => self.conversion.map_or("", |conversion| conversion.form),
            _ => "",
        }
    }
}
