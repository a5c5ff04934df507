//! A file as far as it was made.
use crate::code::{Code, List, ListStyle};
use crate::imports::{Import, Imports};
use crate::names::TypeName;
use crate::tags::{TagNumber, Tagging, class_word, universal_name};
use asn1_notation::TagClass;
use std::alloc::{AllocError, Global};

/// A file as far as it was made: what is below its imports, and the names that this needs.
#[derive(Drop)]
pub struct Draft {
    alloc: Global,
    code: Code,
    imports: Imports,
    signs: Vec<&'static str>,
    words: Vec<&'static str>,
    ghost_lines: Vec<String>,
}

// The library of types.
const SCHEMA: &str = "asn1_schema";

impl Draft {
    /// An empty file.
    pub fn new(alloc: Global) -> Draft {
        Draft {
            alloc,
            code: Code::new(alloc),
            imports: Imports::new(alloc),
            signs: Vec::new(alloc),
            words: Vec::new(alloc),
            ghost_lines: Vec::new(alloc),
        }
    }

    /// Imports names of the library of types.
    pub fn use_names(&mut self, names: &[&str]) -> Result<(), AllocError> {
        for name in names {
            self.imports.add_foreign(SCHEMA, name)?;
        }
        Ok(())
    }

    /// Imports a name of a library.
    pub fn use_foreign(&mut self, path: &str, name: &str) -> Result<(), AllocError> {
        self.imports.add_foreign(path, name)
    }

    /// Imports a name.
    pub fn use_import(&mut self, import: &Import) -> Result<(), AllocError> {
        let import = import.copy(self.alloc)?;
        self.imports.add(import)
    }

    /// Imports the names in a type.
    pub fn use_type(&mut self, name: &TypeName) -> Result<(), AllocError> {
        for import in &name.imports {
            self.use_import(import)?;
        }
        Ok(())
    }

    /// Brings in signs of the language for its clauses.
    pub fn use_signs(&mut self, signs: &[&'static str]) -> Result<(), AllocError> {
        for sign in signs {
            add_once(&mut self.signs, sign)?;
        }
        Ok(())
    }

    /// Brings in words for the meaning of types.
    pub fn use_words(&mut self, words: &[&'static str]) -> Result<(), AllocError> {
        for word in words {
            add_once(&mut self.words, word)?;
        }
        Ok(())
    }

    /// Brings in other names for clauses, by a line.
    pub fn use_ghost(&mut self, line: &str) -> Result<(), AllocError> {
        if !self.ghost_lines.iter().any(|known| known.as_str() == line) {
            self.ghost_lines.push(String::from_str(self.alloc, line)?)?;
        }
        Ok(())
    }

    /// The memory of the file.
    pub fn alloc(&self) -> Global {
        self.alloc
    }

    /// Appends lines as they are.
    pub fn text(&mut self, text: String) -> Result<(), AllocError> {
        self.code.lines(text.as_str())
    }

    /// Appends a line.
    pub fn line(&mut self, depth: usize, line: &str) -> Result<(), AllocError> {
        self.code.line(depth, line)
    }

    /// Appends an empty line.
    pub fn blank(&mut self) -> Result<(), AllocError> {
        self.code.blank()
    }

    /// Appends a definition in one line, or in two if it is too long, the second with what is behind the sign.
    pub fn definition(&mut self, depth: usize, front: &str, back: &str) -> Result<(), AllocError> {
        self.code.definition(depth, front, back)
    }

    /// Appends a chain of two calls on `self`, in one line if it is short: `front` is in front of `self`.
    pub fn chain(
        &mut self,
        depth: usize,
        front: &str,
        field: &str,
        call: &str,
    ) -> Result<(), AllocError> {
        self.code.chain(depth, front, field, call)
    }

    /// Appends a list.
    pub fn list(
        &mut self,
        depth: usize,
        opening: &str,
        items: &[String],
        closing: &str,
        style: ListStyle,
    ) -> Result<(), AllocError> {
        let list = List {
            opening,
            items,
            closing,
            style,
        };
        self.code.list(depth, list)
    }

    /// Appends a call with these arguments.
    pub fn call(
        &mut self,
        depth: usize,
        opening: &str,
        arguments: &[&str],
        closing: &str,
    ) -> Result<(), AllocError> {
        let mut items = Vec::new(self.alloc);
        for argument in arguments {
            items.push(String::from_str(self.alloc, argument)?)?;
        }
        self.list(
            depth,
            opening,
            items.as_slice(),
            closing,
            ListStyle::Arguments,
        )
    }

    /// The code of a tag.
    pub fn tag_code(&mut self, tag: TagNumber) -> Result<String, AllocError> {
        if tag.class == TagClass::Universal {
            if let Some(name) = universal_name(tag.number) {
                self.use_names(&["Tag"])?;
                return format!(in self.alloc; "Tag::{name}");
            }
        }
        self.use_foreign("asn1_tags", "tag")?;
        let class = class_word(tag.class);
        let number = tag.number;
        format!(in self.alloc; "tag!({class} {number})")
    }

    /// A tag in a clause.
    pub fn tag_term(&mut self, tag: TagNumber) -> Result<String, AllocError> {
        let class = class_word(tag.class);
        self.use_words(&[class])?;
        let number = tag.number;
        format!(in self.alloc; "({class} {number})")
    }

    /// A type under its tag, as a clause has it.
    pub fn tagged_meaning(
        &mut self,
        definition: &TypeName,
        tagging: Tagging,
    ) -> Result<String, AllocError> {
        let text = &definition.text;
        match tagging {
            Tagging::Untagged => {
                self.use_words(&["untagged"])?;
                format!(in self.alloc; "(untagged ⟦<{text} as AsnType>⟧.meaning)")
            }
            Tagging::Implicit(tag) => {
                self.use_words(&["tagged"])?;
                let tag = self.tag_term(tag)?;
                format!(in self.alloc; "(tagged {tag} ⟦<{text} as AsnType>⟧.meaning)")
            }
            Tagging::Explicit(tag) => {
                self.use_words(&["explicitly_tagged"])?;
                let tag = self.tag_term(tag)?;
                format!(in self.alloc; "(explicitly_tagged {tag} ⟦<{text} as AsnType>⟧.meaning)")
            }
        }
    }

    /// A tagging, as a reader has it.
    pub fn tagging_code(&mut self, tagging: Tagging) -> Result<String, AllocError> {
        self.use_names(&["Tagging"])?;
        match tagging {
            Tagging::Untagged => String::from_str(self.alloc, "Tagging::Untagged"),
            Tagging::Implicit(tag) => {
                let tag = self.tag_code(tag)?;
                format!(in self.alloc; "Tagging::Tagged({tag})")
            }
            Tagging::Explicit(tag) => {
                let tag = self.tag_code(tag)?;
                format!(in self.alloc; "Tagging::Explicit({tag})")
            }
        }
    }

    /// The whole file.
    pub fn into_file(mut self, page: &[String]) -> Result<String, AllocError> {
        let mut head = Code::new(self.alloc);
        append_page(self.alloc, &mut head, page)?;
        append_ghost_use(
            self.alloc,
            &mut head,
            "Rattle.std.specs.Prelude",
            &mut self.signs,
        )?;
        append_ghost_use(
            self.alloc,
            &mut head,
            "Rattle.asn1_schema.specs.Words",
            &mut self.words,
        )?;
        for line in &self.ghost_lines {
            head.line(0, line.as_str())?;
        }
        if !self.imports.is_empty() {
            head.blank()?;
            self.imports.append_to(&mut head)?;
        }
        head.blank()?;
        head.lines(self.code.as_str())?;
        Ok(head.into_text())
    }
}

// Adds a name, if it is not there.
fn add_once(names: &mut Vec<&'static str>, name: &'static str) -> Result<(), AllocError> {
    if !names.iter().any(|known| *known == name) {
        names.push(name)?;
    }
    Ok(())
}

/// Appends the page at the head of a file.
pub fn append_page(alloc: Global, code: &mut Code, page: &[String]) -> Result<(), AllocError> {
    for line in page {
        let line = if line.is_empty() {
            String::from_str(alloc, "//!")?
        } else {
            format!(in alloc; "//! {line}")?
        };
        code.line(0, line.as_str())?;
    }
    Ok(())
}

// Appends a line that brings in names of a module, if there are any.
fn append_ghost_use(
    alloc: Global,
    code: &mut Code,
    module: &str,
    names: &mut Vec<&'static str>,
) -> Result<(), AllocError> {
    if names.is_empty() {
        return Ok(());
    }
    names.sort()?;
    let joined = joined(alloc, names.as_slice(), ", ")?;
    let line = format!(in alloc; "ghost use {module}.{{{joined}}};")?;
    code.line(0, line.as_str())
}

/// Texts with another between each two.
pub fn joined(alloc: Global, texts: &[&str], between: &str) -> Result<String, AllocError> {
    let mut all = String::new(alloc);
    for (index, text) in texts.iter().enumerate() {
        if index != 0 {
            all.push_str(between)?;
        }
        all.push_str(text)?;
    }
    Ok(all)
}
