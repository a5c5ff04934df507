//! The names of the definitions of a schema, and the files as far as they were made.
use crate::circles::{CurrentCircle, GenericType, PlannedCircle, plan_circles};
use crate::recursion::list_references;
use crate::request::{Extern, PrintedFile, Request};
use crate::strings::is_restricted_string;
use crate::templates::Templates;
use crate::words::known_words;
use asn1_names::Place;
use asn1_resolved::{Problem, Severity, Type, TypeDefinition, TypeKind};
use asn1_rust_code::{Import, TagNumber, TypeName, class_word, order_of};
use asn1_rust_components::{Alias, Constant, Marker, TypeFile};
use asn1_rust_names::{KnownWords, TakenNames, camel_case, snake_case};
use asn1_rust_types::ModuleNames;
use std::alloc::{AllocError, Global};
use std::collections::HashMap;

/// The names that a file of a type imports or brings in, so that no type of a schema has one of them.
const RESERVED: &[&str] = &[
    "AllocError",
    "Any",
    "AreWrittenAlike",
    "AsnType",
    "BitString",
    "BitVec",
    "BmpString",
    "Bounded",
    "Box",
    "Choice",
    "ChoiceType",
    "ConstraintTable",
    "Constraints",
    "ConstrainedInteger",
    "ConstructedType",
    "D",
    "Debug",
    "Decode",
    "DecodeByIndex",
    "DecodeByIndexWith",
    "DecodeChoice",
    "DecodeChoiceByIndex",
    "DecodeChoiceWith",
    "DecodeError",
    "DecodeFields",
    "DecodeSetByIndex",
    "DecodeWith",
    "Decoded",
    "Decoder",
    "Drop",
    "E",
    "EachIsValid",
    "Encode",
    "EncodeChoice",
    "EncodeError",
    "EncodeFields",
    "Encoder",
    "Enumerated",
    "EnumeratedItems",
    "EnumerationItem",
    "Eq",
    "Err",
    "Explicit",
    "F",
    "Field",
    "FieldTable",
    "GeneralString",
    "GeneralizedTime",
    "Global",
    "GraphicString",
    "HoldsItself",
    "Ia5String",
    "Identifier",
    "IfOk",
    "Implicit",
    "Integer",
    "IsMadeOf",
    "IsWellTagged",
    "Itself",
    "Knot",
    "KnotOf",
    "Lib",
    "ListOf",
    "MayAnswerOf",
    "Meant",
    "MemoryRanOut",
    "NamedBitString",
    "None",
    "NumericString",
    "ObjectDescriptor",
    "ObjectIdentifier",
    "OctetString",
    "Ok",
    "OneOf",
    "Option",
    "PartialEq",
    "Prim",
    "PrintableString",
    "R",
    "Rattle",
    "ReadError",
    "Result",
    "Rules",
    "SetOf",
    "SetOfEach",
    "SetsAreDistinct",
    "Size",
    "Some",
    "String",
    "Syntax",
    "T",
    "Tag",
    "TagTree",
    "Tagging",
    "TeletexString",
    "Type",
    "TypeTable",
    "UniversalString",
    "UtcTime",
    "Utf8String",
    "Vec",
    "VisibleString",
    "Whole",
    "WritesKept",
    "WritesOpen",
];

/// The modules that a crate has beside those of types, the libraries of each crate, and those of which a definition of a circle
/// would be a word that its definitions bring in, as `list_meaning`.
const MODULES: &[&str] = &[
    "aliases",
    "all",
    "asn1_circles",
    "asn1_contents",
    "asn1_model",
    "asn1_schema",
    "asn1_slots",
    "asn1_spelling",
    "asn1_tables",
    "asn1_tags",
    "chosen",
    "each",
    "lib",
    "list",
    "main",
    "sequence_knot",
    "set",
    "tags",
    "tests",
    "constants",
    "std",
    "core",
];

/// The file of a definition, if it has one of its own, and its name in Rust.
#[derive(Drop)]
pub(crate) struct PlannedType {
    /// The name in Rust.
    pub(crate) name: String,
    /// The module, or `aliases`.
    pub(crate) module: String,
    /// The place of a type that exists already, in the list of these.
    pub(crate) external: Option<usize>,
}

/// A type without a name in ASN.1, for which a file was made.
#[derive(Drop)]
pub(crate) struct UnnamedType {
    name: String,
    module: String,
}

/// The files of a crate, as far as they were made.
#[derive(Drop)]
pub(crate) struct Plan<'r, 'a> {
    pub(crate) alloc: Global,
    pub(crate) request: Request<'r, 'a>,
    pub(crate) types: Vec<PlannedType>,
    // Whether each type is behind an explicit tag, when that is known.
    explicit_tags: Vec<Option<bool>>,
    // By the texts and the offsets at which they begin.
    unnamed_types: HashMap<(usize, usize), UnnamedType>,
    templates: Templates,
    /// The words of capitals that the modules have by themselves.
    pub(crate) words: KnownWords,
    taken_names: TakenNames,
    taken_modules: TakenNames,
    pub(crate) files: Vec<PrintedFile>,
    pub(crate) modules: Vec<ModuleNames>,
    pub(crate) aliases: Vec<Alias>,
    pub(crate) markers: Vec<Marker>,
    pub(crate) constants: Vec<Constant>,
    pub(crate) problems: Vec<Problem>,
    /// The references of each type to types that do not exist already.
    pub(crate) references: Vec<Vec<usize>>,
    /// The circles of the schema, and that of which a type is printed.
    pub(crate) circles: Vec<PlannedCircle>,
    pub(crate) current_circle: Option<CurrentCircle>,
    /// The names of the types that hold themselves in the definition that is printed, but for that of its own circle.
    pub(crate) current_knots: Vec<String>,
    /// The types without a parameter that were printed.
    pub(crate) printed: Vec<TypeFile>,
    // The circle of each type, with its type with a parameter.
    generics: Vec<Option<GenericType>>,
    // The names of the types with a parameter that have no name in ASN.1, by their modules.
    unnamed_generics: Vec<(String, String)>,
}

/// Whether a type has a file of its own.
pub(crate) fn has_file(definition: &Type<'_>) -> bool {
    match &definition.kind {
        TypeKind::Sequence(_) => true,
        TypeKind::Set(_) => true,
        TypeKind::Choice(_) => true,
        TypeKind::Enumerated(_) => true,
        TypeKind::Tagged(tag, inner) if !tag.is_explicit && is_constructed(&inner.kind) => true,
        _ => is_restricted_string(definition),
    }
}

// Whether a type is a SEQUENCE or a SET.
fn is_constructed(kind: &TypeKind<'_>) -> bool {
    match kind {
        TypeKind::Sequence(_) => true,
        TypeKind::Set(_) => true,
        _ => false,
    }
}

// The library of a path.
fn library_of(path: &str) -> &str {
    match path.split_once("::") {
        Some((library, _)) => library,
        None => path,
    }
}

/// The name in Rust of a type with this name in ASN.1, unless another type has it. The words are those that its modules have.
pub fn rust_name(alloc: Global, words: &KnownWords, name: &[u8]) -> Result<String, AllocError> {
    let name = words.separated(name)?;
    let camel = camel_case(alloc, name.as_slice())?;
    unreserved(alloc, camel.as_str())
}

// A name for a type that no file imports.
fn unreserved(alloc: Global, name: &str) -> Result<String, AllocError> {
    if is_reserved(name) {
        format!(in alloc; "{name}Type")
    } else {
        String::from_str(alloc, name)
    }
}

// Whether a file of a type imports or brings in this name.
fn is_reserved(name: &str) -> bool {
    for reserved in RESERVED {
        if *reserved == name {
            return true;
        }
    }
    false
}

// The type that exists already for a definition, with its place in the list of these.
fn extern_for<'r>(
    externs: &'r [Extern<'r>],
    definition: &TypeDefinition<'_>,
) -> Option<(usize, &'r Extern<'r>)> {
    for (index, external) in externs.iter().enumerate() {
        if external.is_for(definition.module, definition.name) {
            return Some((index, external));
        }
    }
    None
}

/// The plan of a schema, with the names of its types.
pub(crate) fn plan_of<'r, 'a>(
    alloc: Global,
    request: Request<'r, 'a>,
) -> Result<Plan<'r, 'a>, AllocError> {
    let templates = Templates::of(alloc, request.sources)?;
    let words = known_words(alloc, request.schema, None)?;
    let mut plan = empty_plan(alloc, request, templates, words);
    plan.reserve_names()?;
    plan.name_types()?;
    plan.references = list_references(&plan)?;
    plan_circles(&mut plan)?;
    plan.find_explicit_tags()?;
    Ok(plan)
}

// A plan without a name.
fn empty_plan<'r, 'a>(
    alloc: Global,
    request: Request<'r, 'a>,
    templates: Templates,
    words: KnownWords,
) -> Plan<'r, 'a> {
    Plan {
        alloc,
        request,
        types: Vec::new(alloc),
        explicit_tags: Vec::new(alloc),
        unnamed_types: HashMap::new(alloc),
        templates,
        words,
        taken_names: TakenNames::new(alloc),
        taken_modules: TakenNames::new(alloc),
        files: Vec::new(alloc),
        modules: Vec::new(alloc),
        aliases: Vec::new(alloc),
        markers: Vec::new(alloc),
        constants: Vec::new(alloc),
        problems: Vec::new(alloc),
        references: Vec::new(alloc),
        circles: Vec::new(alloc),
        current_circle: None,
        current_knots: Vec::new(alloc),
        printed: Vec::new(alloc),
        generics: Vec::new(alloc),
        unnamed_generics: Vec::new(alloc),
    }
}

impl Plan<'_, '_> {
    // Takes the names that no type of the schema may have.
    fn reserve_names(&mut self) -> Result<(), AllocError> {
        for module in MODULES {
            let _module = self.taken_modules.take(module)?;
        }
        for external in self.request.externs {
            let _name = self.taken_names.take(external.rust_name)?;
            let _library = self.taken_modules.take(library_of(external.path))?;
        }
        Ok(())
    }

    // Names the types of the schema.
    fn name_types(&mut self) -> Result<(), AllocError> {
        let schema = self.request.schema;
        for (index, definition) in schema.types.iter().enumerate() {
            let planned = self.planned(definition, index < schema.defined)?;
            self.types.push(planned)?;
            self.generics.push(None)?;
        }
        Ok(())
    }

    // The names of a type, which may be a definition.
    fn planned(
        &mut self,
        definition: &TypeDefinition<'_>,
        is_defined: bool,
    ) -> Result<PlannedType, AllocError> {
        match extern_for(self.request.externs, definition) {
            Some((index, found)) if is_defined => Ok(PlannedType {
                name: self.text(found.rust_name)?,
                module: self.text(found.path)?,
                external: Some(index),
            }),
            _ => self.planned_here(definition),
        }
    }

    // The names of a definition whose type does not exist already.
    fn planned_here(&mut self, definition: &TypeDefinition<'_>) -> Result<PlannedType, AllocError> {
        let mut camel = self.camel(definition.name)?;
        for argument in &definition.arguments {
            let word = self.camel(argument)?;
            camel.push_str(word.as_str())?;
        }
        let name = self.new_name(camel.as_str())?;
        let module = if has_file(&definition.definition) {
            self.new_module(name.as_str())?
        } else {
            self.text("aliases")?
        };
        Ok(PlannedType {
            name,
            module,
            external: None,
        })
    }

    /// The circle of a type, if it is of one.
    pub(crate) fn circle_of(&self, index: usize) -> Option<usize> {
        Some(self.generic_of(index)?.circle)
    }

    /// The names of the types that hold themselves in the definition that is printed.
    pub(crate) fn copied_knots(&self) -> Result<Vec<String>, AllocError> {
        let mut knots = Vec::new(self.alloc);
        for knot in &self.current_knots {
            knots.push(self.text(knot.as_str())?)?;
        }
        Ok(knots)
    }

    /// The type at which a circle is cut.
    pub(crate) fn knot_of(&self, circle: usize) -> Option<usize> {
        Some(self.circles.get(circle)?.knot)
    }

    /// The type with a parameter that a definition of a circle is.
    pub(crate) fn generic_of(&self, index: usize) -> Option<&GenericType> {
        match self.generics.get(index) {
            Some(Some(generic)) => Some(generic),
            _ => None,
        }
    }

    /// Keeps the type with a parameter that a definition is, which is a name for it, unless it is the knot.
    pub(crate) fn set_generic(
        &mut self,
        index: usize,
        generic: GenericType,
        is_alias: bool,
    ) -> Result<(), AllocError> {
        if let Some(known) = self.generics.get_mut(index) {
            *known = Some(generic);
        }
        if is_alias {
            self.set_alias(index)
        } else {
            Ok(())
        }
    }

    // Makes a definition a name for another type.
    fn set_alias(&mut self, index: usize) -> Result<(), AllocError> {
        let aliases = self.text("aliases")?;
        if let Some(planned) = self.types.get_mut(index) {
            planned.module = aliases;
        }
        Ok(())
    }

    /// The module of what the knot of a circle is made of.
    pub(crate) fn body_module(&self, circle: usize) -> Option<&str> {
        Some(self.generic_of(self.knot_of(circle)?)?.module.as_str())
    }

    /// The name of the type with a parameter of a module.
    pub(crate) fn generic_in(&self, module: &str) -> Option<&str> {
        match self.defined_generic(module) {
            Some(name) => Some(name),
            None => self.unnamed_generic(module),
        }
    }

    // The name of the type with a parameter of the module of a definition.
    fn defined_generic(&self, module: &str) -> Option<&str> {
        for known in &self.generics {
            if let Some(generic) = known {
                if generic.module.as_str() == module {
                    return Some(generic.name.as_str());
                }
            }
        }
        None
    }

    // The name of the type with a parameter of the module of a type without a name in ASN.1.
    fn unnamed_generic(&self, module: &str) -> Option<&str> {
        for (known, name) in &self.unnamed_generics {
            if known.as_str() == module {
                return Some(name.as_str());
            }
        }
        None
    }

    /// Names the type with a parameter that a type without a name in ASN.1 may be.
    pub(crate) fn name_unnamed_generic(
        &mut self,
        module: &str,
        name: &str,
    ) -> Result<(), AllocError> {
        let wanted = format!(in self.alloc; "{name}Of")?;
        let generic = self.new_name(wanted.as_str())?;
        let module = self.text(module)?;
        self.unnamed_generics.push((module, generic))?;
        Ok(())
    }

    /// A text of its own.
    pub(crate) fn text(&self, text: &str) -> Result<String, AllocError> {
        String::from_str(self.alloc, text)
    }

    /// A name of ASN.1 as types and variants have it.
    pub(crate) fn camel(&self, name: &[u8]) -> Result<String, AllocError> {
        let separated = self.words.separated(name)?;
        camel_case(self.alloc, separated.as_slice())
    }

    /// A name for a type that no other has.
    pub(crate) fn new_name(&mut self, name: &str) -> Result<String, AllocError> {
        let wanted = unreserved(self.alloc, name)?;
        self.taken_names.take(wanted.as_str())
    }

    /// A module for the type of this name that no other has.
    pub(crate) fn new_module(&mut self, name: &str) -> Result<String, AllocError> {
        let module = snake_case(self.alloc, name.as_bytes())?;
        self.taken_modules.take(module.as_str())
    }

    /// The type without a name at a place, if its file was made: COMPONENTS OF takes a component over with its type. A place in a
    /// template has none, since other arguments make another type of it.
    pub(crate) fn unnamed_type(&self, place: Place) -> Result<Option<TypeName>, AllocError> {
        match self.unnamed_types.get(&(place.text, place.span.start)) {
            Some(known) if !self.templates.has(place) => {
                let name = self.local_type(known.module.as_str(), known.name.as_str())?;
                Ok(Some(name))
            }
            _ => Ok(None),
        }
    }

    /// Keeps the type without a name at a place, and answers its name.
    pub(crate) fn keep_unnamed_type(
        &mut self,
        place: Place,
        name: String,
        module: String,
    ) -> Result<TypeName, AllocError> {
        let answer = self.local_type(module.as_str(), name.as_str())?;
        let begin = (place.text, place.span.start);
        self.unnamed_types
            .insert(begin, UnnamedType { name, module })?;
        Ok(answer)
    }

    /// Adds the source of a module.
    pub(crate) fn add_source(&mut self, module: &str, text: String) -> Result<(), AllocError> {
        let path = format!(in self.alloc; "src/{module}.rt")?;
        self.files.push(PrintedFile { path, text })?;
        Ok(())
    }

    /// Adds a module, with the names that the crate passes on.
    pub(crate) fn add_module(
        &mut self,
        module: &str,
        is_public: bool,
        names: Vec<String>,
    ) -> Result<(), AllocError> {
        let names = ModuleNames {
            order: order_of(self.alloc, module)?,
            module: self.text(module)?,
            is_public,
            names,
        };
        self.modules.push(names)?;
        Ok(())
    }

    /// Reports what cannot be printed.
    pub(crate) fn error(&mut self, place: Place, text: &str) -> Result<(), AllocError> {
        self.report(place, Severity::Error, text)
    }

    /// Reports what is not printed.
    pub(crate) fn warn(&mut self, place: Place, text: &str) -> Result<(), AllocError> {
        self.report(place, Severity::Warning, text)
    }

    /// Makes warnings of the errors behind this many problems, and answers whether there were any.
    pub(crate) fn lessen_errors(&mut self, first: usize) -> bool {
        let mut is_lessened = false;
        for index in first..self.problems.len() {
            if let Some(problem) = self.problems.get_mut(index) {
                if problem.severity == Severity::Error {
                    problem.severity = Severity::Warning;
                    is_lessened = true;
                }
            }
        }
        is_lessened
    }

    fn report(&mut self, place: Place, severity: Severity, text: &str) -> Result<(), AllocError> {
        let problem = Problem {
            place,
            severity,
            text: Vec::from_slice(self.alloc, text.as_bytes())?,
        };
        self.problems.push(problem)?;
        Ok(())
    }

    /// A type of the language.
    pub(crate) fn plain_type(&self, text: &str) -> Result<TypeName, AllocError> {
        Ok(TypeName {
            text: self.text(text)?,
            imports: Vec::new(self.alloc),
            is_explicit: false,
        })
    }

    /// A type of the library of types.
    pub(crate) fn library_type(&self, name: &str) -> Result<TypeName, AllocError> {
        self.imported_type(true, "asn1_schema", name)
    }

    /// A type of a module.
    pub(crate) fn imported_type(
        &self,
        is_foreign: bool,
        path: &str,
        name: &str,
    ) -> Result<TypeName, AllocError> {
        let import = Import {
            is_foreign,
            path: self.text(path)?,
            name: self.text(name)?,
        };
        let mut imports = Vec::new(self.alloc);
        imports.push(import)?;
        Ok(TypeName {
            text: self.text(name)?,
            imports,
            is_explicit: false,
        })
    }

    /// A type of a module of the crate.
    pub(crate) fn local_type(&self, module: &str, name: &str) -> Result<TypeName, AllocError> {
        let path = format!(in self.alloc; "crate::{module}")?;
        self.imported_type(false, path.as_str(), name)
    }

    /// The type with an index in the schema.
    pub(crate) fn referred_type(&self, index: usize) -> Result<TypeName, AllocError> {
        match self.types.get(index) {
            Some(planned) => match planned.external {
                Some(_) => {
                    self.imported_type(true, planned.module.as_str(), planned.name.as_str())
                }
                None => {
                    let mut name = self.local_type(planned.module.as_str(), planned.name.as_str())?;
                    name.is_explicit = self.is_explicit(index);
                    Ok(name)
                }
            },
            None => self.plain_type("()"),
        }
    }

    // Whether the type with an index is behind an explicit tag, by its definition or that of a type that it refers to.
    fn is_explicit(&self, index: usize) -> bool {
        self.explicit_tags.get(index) == Some(&Some(true))
    }

    // Finds which types are behind an explicit tag.
    fn find_explicit_tags(&mut self) -> Result<(), AllocError> {
        let count = self.request.schema.types.len();
        for _ in 0..count {
            self.explicit_tags.push(None)?;
        }
        for index in 0..count {
            self.find_explicit_tag(index)?;
        }
        Ok(())
    }

    // Finds whether a type is behind an explicit tag, and so all types that it refers to on the way.
    fn find_explicit_tag(&mut self, start: usize) -> Result<(), AllocError> {
        let mut passed = Vec::new(self.alloc);
        let mut next = Some(start);
        let mut is_explicit = false;
        for _ in 0..=self.explicit_tags.len() {
            let Some(index) = next else {
                break;
            };
            if let Some(Some(known)) = self.explicit_tags.get(index) {
                is_explicit = *known;
                break;
            }
            passed.push(index)?;
            is_explicit = self.has_explicit_tag(index);
            next = self.referred_index(index);
        }
        for index in &passed {
            if let Some(known) = self.explicit_tags.get_mut(*index) {
                *known = Some(is_explicit);
            }
        }
        Ok(())
    }

    // The type to which the definition of a type is a reference.
    fn referred_index(&self, index: usize) -> Option<usize> {
        if self.is_external(index) {
            return None;
        }
        match &self.request.schema.types.get(index)?.definition.kind {
            TypeKind::Reference(next) => Some(*next),
            _ => None,
        }
    }

    // Whether the definition of a type begins with an explicit tag.
    fn has_explicit_tag(&self, index: usize) -> bool {
        match self.request.schema.types.get(index) {
            Some(definition) if !self.is_external(index) => match &definition.definition.kind {
                TypeKind::Tagged(tag, _) => tag.is_explicit,
                _ => false,
            },
            _ => false,
        }
    }

    /// Whether the type with an index exists already.
    pub(crate) fn is_external(&self, index: usize) -> bool {
        match self.types.get(index) {
            Some(planned) => planned.external.is_some(),
            None => true,
        }
    }

    /// The type that names a tag.
    pub(crate) fn marker_type(&mut self, tag: TagNumber) -> Result<TypeName, AllocError> {
        for marker in &self.markers {
            if marker.tag == tag {
                return self.local_type("tags", marker.name.as_str());
            }
        }
        self.new_marker(tag)
    }

    // Adds a type that names a tag.
    fn new_marker(&mut self, tag: TagNumber) -> Result<TypeName, AllocError> {
        let name = self.marker_name(tag)?;
        let answer = self.local_type("tags", name.as_str())?;
        self.markers.push(Marker { name, tag })?;
        Ok(answer)
    }

    // A name for the type that names a tag.
    fn marker_name(&mut self, tag: TagNumber) -> Result<String, AllocError> {
        let class = class_word(tag.class);
        let number = tag.number;
        let wanted = format!(in self.alloc; "{class}{number}")?;
        let camel = camel_case(self.alloc, wanted.as_bytes())?;
        self.new_name(camel.as_str())
    }
}
