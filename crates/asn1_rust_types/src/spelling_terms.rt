//! The terms of the proof that a type has one spelling.
use crate::cores::{Core, Known, Layer, Leaf, Names};
use crate::uses::Uses;
use asn1_rust_code::{Import, Tagging, TypeName};
use asn1_rust_components::{
    Alternative, Component, Constructed, LawCall, ListKind, TypeBody, TypeFile, Usage,
};
use std::alloc::{AllocError, Global};

/// The crate of the laws of lists.
const LAWS: &str = "asn1_spelling";

/// The terms for a part: that equal values of it are written alike, and that SETs inside have distinct tags.
#[derive(Drop)]
pub(crate) struct PartTerms {
    pub(crate) alike: String,
    pub(crate) distinct: String,
}

/// The parts of a proof's terms.
#[derive(Drop)]
pub(crate) struct Terms<'n, 'a> {
    pub(crate) alloc: Global,
    names: &'n Names<'a>,
    /// The laws that are called.
    pub(crate) premises: Vec<LawCall>,
    /// The names that the proof brings in.
    pub(crate) uses: Uses,
    /// Whether a component has the empty list as its default.
    pub(crate) has_empty_list: bool,
}

// A law of what is around types.
#[derive(Clone, Copy)]
enum LayerLaw {
    // Equal values are written alike.
    Alike,
    // SETs in them have distinct tags.
    Distinct,
}

impl<'n, 'a> Terms<'n, 'a> {
    /// No term yet.
    pub(crate) fn new(alloc: Global, names: &'n Names<'a>) -> Terms<'n, 'a> {
        Terms {
            alloc,
            names,
            premises: Vec::new(alloc),
            uses: Uses::new(alloc),
            has_empty_list: false,
        }
    }

    /// The terms for the components of a SEQUENCE or a SET.
    pub(crate) fn components(
        &mut self,
        components: &'a [Component],
    ) -> Result<Vec<PartTerms>, AllocError> {
        let mut terms = Vec::new(self.alloc);
        for component in components {
            terms.push(self.component(component)?)?;
        }
        Ok(terms)
    }

    /// The terms for the alternatives of a CHOICE.
    pub(crate) fn alternatives(
        &mut self,
        alternatives: &'a [Alternative],
    ) -> Result<Vec<PartTerms>, AllocError> {
        let mut terms = Vec::new(self.alloc);
        for alternative in alternatives {
            terms.push(self.part(&alternative.definition, alternative.tagging)?)?;
        }
        Ok(terms)
    }

    // The terms for a component.
    fn component(&mut self, component: &'a Component) -> Result<PartTerms, AllocError> {
        match &component.usage {
            Usage::Group(_) => self.group(component, "DecodeByIndex"),
            Usage::GroupOfSet(_) => self.group(component, "DecodeSetByIndex"),
            _ => self.single(component),
        }
    }

    // The terms for a component that is no group.
    fn single(&mut self, component: &'a Component) -> Result<PartTerms, AllocError> {
        let alloc = self.alloc;
        let PartTerms { alike, distinct } = self.part(&component.definition, component.tagging)?;
        let alike = match &component.usage {
            Usage::Default(_) => {
                self.use_one()?;
                let alike = alike.as_str();
                format!(in alloc;
                    "((λ v w same. (let one : v ≡ w = search rules in cc)), {alike})"
                )?
            }
            Usage::EmptyList(_) => {
                self.has_empty_list = true;
                let alike = alike.as_str();
                format!(in alloc; "((λ v w same. pass_together _ v.items w.items same), {alike})")?
            }
            _ => alike,
        };
        Ok(PartTerms { alike, distinct })
    }

    // The terms for a group of additions, which is read by this trait.
    fn group(
        &mut self,
        component: &'a Component,
        trait_name: &str,
    ) -> Result<PartTerms, AllocError> {
        let alloc = self.alloc;
        match self.names.file(component.definition.text.as_str()) {
            Some(file) => {
                let mut terms = Vec::new(alloc);
                for part in components_of(file) {
                    terms.push(self.single(part)?)?;
                }
                self.use_group(file, trait_name)?;
                let module = file.module.as_str();
                let alike = alike_tuple(alloc, terms.as_slice(), TupleStyle::Line)?;
                let alike = alike.as_str();
                let distinct = distinct_tuple(alloc, terms.as_slice(), TupleStyle::Line)?;
                let distinct = distinct.as_str();
                Ok(PartTerms {
                    alike: format!(in alloc;
                        "(group_alike {module}_reader.layout {module}_equality.eq{alike} (λ v w. refl))"
                    )?,
                    distinct: format!(in alloc;
                        "(group_distinct {module}_reader.layout{distinct})"
                    )?,
                })
            }
            None => self.part(&component.definition, component.tagging),
        }
    }

    // Brings in the names for a group of additions.
    fn use_group(&mut self, file: &TypeFile, trait_name: &str) -> Result<(), AllocError> {
        self.uses.add(
            "asn1_spelling.proofs.GroupsAlike",
            &["group_alike", "group_distinct"],
        )?;
        let reader = impl_path(self.alloc, file, trait_name)?;
        let equality = impl_path(self.alloc, file, "PartialEq")?;
        let module = file.module.as_str();
        let reader_name = format!(in self.alloc; "ghosts as {module}_reader")?;
        let equality_name = format!(in self.alloc; "ghosts as {module}_equality")?;
        self.uses.add(reader.as_str(), &[reader_name.as_str()])?;
        self.uses.add(equality.as_str(), &[equality_name.as_str()])
    }

    // The terms for a part of this type.
    fn part(
        &mut self,
        definition: &'a TypeName,
        tagging: Tagging,
    ) -> Result<PartTerms, AllocError> {
        match self.names.known(self.alloc, definition)? {
            Some(known) => match (known.core, known.layers.is_empty()) {
                (Core::Leaf(leaf), true) => Ok(PartTerms {
                    alike: self.leaf(leaf, "can")?,
                    distinct: self.search()?,
                }),
                _ => self.under_tag(&known, tagging),
            },
            // Types with such a part have no law.
            None => Ok(PartTerms {
                alike: self.search()?,
                distinct: self.search()?,
            }),
        }
    }

    // The terms for a part of a type that has laws.
    fn under_tag(&mut self, known: &Known<'a>, tagging: Tagging) -> Result<PartTerms, AllocError> {
        Ok(PartTerms {
            alike: self.law_under_tag(known, tagging, LayerLaw::Alike)?,
            distinct: self.law_under_tag(known, tagging, LayerLaw::Distinct)?,
        })
    }

    // The law of a part of such a type.
    fn law_under_tag(
        &mut self,
        known: &Known<'a>,
        tagging: Tagging,
        law: LayerLaw,
    ) -> Result<String, AllocError> {
        let alloc = self.alloc;
        let lemma = tagging_lemma(tagging, law);
        self.uses.add(lemma_path(law), &[lemma])?;
        let mut lemmas = String::from_str(alloc, lemma)?;
        let tags = count_tags(known.layers.as_slice());
        for layer in known.layers.iter().take(tags) {
            let lemma = self.layer_lemma(layer, law)?;
            lemmas.push_str(", ")?;
            lemmas.push_str(lemma)?;
        }
        let term = self.in_layers(known, tags, law)?;
        let lemmas = lemmas.as_str();
        let term = term.as_str();
        format!(in alloc; "search ({lemmas}, {term})")
    }

    // The law of a type without some of its outer layers.
    fn in_layers(
        &mut self,
        known: &Known<'a>,
        count: usize,
        law: LayerLaw,
    ) -> Result<String, AllocError> {
        let mut term = self.core(known.core, law)?;
        for layer in known.layers.iter().skip(count).rev() {
            let front = match layer {
                Layer::List(kind, element) => self.list_law(*kind, element, law)?,
                _ => String::from_str(self.alloc, self.layer_lemma(layer, law)?)?,
            };
            let front = front.as_str();
            let inner = term.as_str();
            term = match layer {
                Layer::List(_, _) => format!(in self.alloc; "({front} {inner})")?,
                _ => format!(in self.alloc; "(search ({front}, {inner}))")?,
            };
        }
        Ok(term)
    }

    // The law of a type without layers.
    fn core(&mut self, core: Core<'a>, law: LayerLaw) -> Result<String, AllocError> {
        match (core, law) {
            (Core::Leaf(leaf), LayerLaw::Alike) => self.leaf(leaf, "t c n can"),
            (Core::Leaf(_), LayerLaw::Distinct) => {
                let search = self.search()?;
                let search = search.as_str();
                format!(in self.alloc; "({search})")
            }
            (Core::Type(file), LayerLaw::Alike) => self.law(file, "alike"),
            (Core::Type(file), LayerLaw::Distinct) => self.law(file, "distinct"),
        }
    }

    // The lemma on a layer that is a tag, which the proof brings in.
    fn layer_lemma(&mut self, layer: &Layer, law: LayerLaw) -> Result<&'static str, AllocError> {
        let (path, lemma) = match (layer, law) {
            (Layer::Explicit, LayerLaw::Alike) => ("WrittenAlike", "explicit_alike"),
            (Layer::Explicit, LayerLaw::Distinct) => ("DistinctSets", "explicit_distinct"),
            (_, LayerLaw::Alike) => ("WrittenAlike", "implicit_alike"),
            (_, LayerLaw::Distinct) => ("DistinctSets", "implicit_distinct"),
        };
        let path = format!(in self.alloc; "asn1_schema.proofs.type_lemmas.{path}")?;
        self.uses.add(path.as_str(), &[lemma])?;
        Ok(lemma)
    }

    // The clause of the law of a list.
    fn list_law(
        &mut self,
        kind: ListKind,
        element: &TypeName,
        law: LayerLaw,
    ) -> Result<String, AllocError> {
        let alloc = self.alloc;
        let function = list_function(kind, law);
        let mut imports = Vec::new(alloc);
        imports.push(Import {
            is_foreign: true,
            path: String::from_str(alloc, LAWS)?,
            name: String::from_str(alloc, function)?,
        })?;
        for import in &element.imports {
            imports.push(import.copy(alloc)?)?;
        }
        self.premise(LawCall {
            function: String::from_str(alloc, function)?,
            argument: Some(String::from_str(alloc, element.text.as_str())?),
            imports,
        })
    }

    // A clause of the law of a type of the crate.
    fn law(&mut self, file: &TypeFile, clause: &str) -> Result<String, AllocError> {
        let alloc = self.alloc;
        let module = file.module.as_str();
        let mut imports = Vec::new(alloc);
        imports.push(Import {
            is_foreign: false,
            path: format!(in alloc; "crate::{module}")?,
            name: format!(in alloc; "{module}_has_one_spelling")?,
        })?;
        let law = self.premise(LawCall {
            function: format!(in alloc; "{module}_has_one_spelling")?,
            argument: None,
            imports,
        })?;
        let law = law.as_str();
        format!(in alloc; "{law}.{clause}")
    }

    // The promise of a call of a law, as the proof names it. The call is added, unless it is there.
    fn premise(&mut self, call: LawCall) -> Result<String, AllocError> {
        let mut earlier: usize = 0;
        for known in &self.premises {
            if known.function == call.function {
                earlier = earlier.saturating_add(1);
                if known.argument == call.argument {
                    return clause_of_call(self.alloc, call.function.as_str(), earlier);
                }
            }
        }
        let clause = clause_of_call(
            self.alloc,
            call.function.as_str(),
            earlier.saturating_add(1),
        )?;
        self.premises.push(call)?;
        Ok(clause)
    }

    /// The term for equal strings in the only field of a struct.
    pub(crate) fn content(&mut self, definition: &'a TypeName) -> Result<String, AllocError> {
        match self.names.known(self.alloc, definition)? {
            Some(
                Known {
                    core: Core::Leaf(leaf),
                    ..
                },
            ) => self.leaf_at(leaf, "t c n can", ".0"),
            // Types with such a part have no law.
            _ => self.search(),
        }
    }

    // The term for equal values of a type without parts, behind these names.
    fn leaf(&mut self, leaf: Leaf, front: &str) -> Result<String, AllocError> {
        self.leaf_at(leaf, front, "")
    }

    // The same of such values in a place of others.
    fn leaf_at(&mut self, leaf: Leaf, front: &str, place: &str) -> Result<String, AllocError> {
        let alloc = self.alloc;
        self.uses
            .add("asn1_model.proofs.SameUpToOrder", &["SameAll-refl"])?;
        let (path, lemmas) = match leaf {
            Leaf::Null => return format!(in alloc; "(λ {front} v w same. SameAll-refl _)"),
            Leaf::Value => (String::new(alloc), "rules"),
            Leaf::Bits => {
                self.uses.add("std.specs.Cmp", &["booleans_Decides"])?;
                self.uses
                    .add("std.specs.Cmp.Lexicographic", &["pointwise_decides"])?;
                (
                    String::new(alloc),
                    "(rules, pointwise_decides, booleans_Decides)",
                )
            }
            Leaf::Text(depth) => (text_path(alloc, depth)?, "rules"),
        };
        self.use_one()?;
        let path = path.as_str();
        format!(in alloc;
            "(λ {front} v w same. (let one : v{place}{path} ≡ w{place}{path} = search {lemmas} in rw one (SameAll-refl _)))"
        )
    }

    // Brings in the names by which equal values are found to be one.
    fn use_one(&mut self) -> Result<(), AllocError> {
        self.uses
            .add("std.proofs.Common", &["rules", "◌≡◌", "refl"])
    }

    /// The search that finds the rest.
    pub(crate) fn search(&mut self) -> Result<String, AllocError> {
        self.uses.add("std.proofs.Common", &["rules"])?;
        String::from_str(self.alloc, "search rules")
    }
}

// The components of a type.
fn components_of(file: &TypeFile) -> &[Component] {
    match constructed_of(file) {
        Some(body) => body.components.as_slice(),
        None => &[],
    }
}

// The components of a type, if it has them.
fn constructed_of(file: &TypeFile) -> Option<&Constructed> {
    match &file.body {
        TypeBody::Sequence(body) => Some(body),
        TypeBody::Set(body) => Some(body),
        TypeBody::Group(body) => Some(body),
        _ => None,
    }
}

// The module of the lemmas on parts under tags.
fn lemma_path(law: LayerLaw) -> &'static str {
    match law {
        LayerLaw::Alike => "asn1_model.proofs.WrittenAlike",
        LayerLaw::Distinct => "asn1_model.proofs.DistinctSets",
    }
}

// The lemma on a part under this tag.
fn tagging_lemma(tagging: Tagging, law: LayerLaw) -> &'static str {
    match (tagging, law) {
        (Tagging::Explicit(_), LayerLaw::Alike) => "after_tag_alike",
        (Tagging::Explicit(_), LayerLaw::Distinct) => "after_tag_distinct",
        (_, LayerLaw::Alike) => "tagged_alike",
        (_, LayerLaw::Distinct) => "tagged_distinct",
    }
}

// The number of layers that are tags, in front of the first that is a list.
fn count_tags(layers: &[Layer]) -> usize {
    let mut count: usize = 0;
    for layer in layers {
        if matches!(layer, Layer::List(_, _)) {
            break;
        }
        count = count.saturating_add(1);
    }
    count
}

// The law of a kind of list.
fn list_function(kind: ListKind, law: LayerLaw) -> &'static str {
    match (kind, law) {
        (ListKind::SequenceOf, LayerLaw::Alike) => "equal_lists_are_written_alike",
        (ListKind::SequenceOf, LayerLaw::Distinct) => "sets_in_lists_are_distinct",
        (ListKind::SetOf, LayerLaw::Alike) => "equal_sets_of_are_written_alike",
        (ListKind::SetOf, LayerLaw::Distinct) => "sets_in_sets_of_are_distinct",
    }
}

// The promise of a call, by its place among those of its function.
fn clause_of_call(alloc: Global, function: &str, place: usize) -> Result<String, AllocError> {
    if place <= 1 {
        format!(in alloc; "c.{function}.ensures")
    } else {
        format!(in alloc; "c.{function}-{place}.ensures")
    }
}

// The path to the octets of a text inside a number of wrappers.
fn text_path(alloc: Global, depth: usize) -> Result<String, AllocError> {
    let mut path = String::new(alloc);
    for _ in 0..depth {
        path.push_str(".value")?;
    }
    path.push_str(".bytes.items")?;
    Ok(path)
}

/// The module with the ghost members of a trait that a type implements.
pub(crate) fn impl_path(
    alloc: Global,
    file: &TypeFile,
    trait_name: &str,
) -> Result<String, AllocError> {
    let crate_name = file.crate_name.as_str();
    let module = file.module.as_str();
    let name = file.plain_name();
    format!(in alloc; "{crate_name}.specs.contracts.{module}.{name}{trait_name}.TheImpl")
}

/// The layout of a tuple.
#[derive(Clone, Copy, Debug, PartialEq, Eq)]
pub(crate) enum TupleStyle {
    /// In one line.
    Line,
    /// In the layout of `rt fmt`, with a line for each term.
    Lines,
}

/// The tuple of the first terms of parts.
pub(crate) fn alike_tuple(
    alloc: Global,
    parts: &[PartTerms],
    style: TupleStyle,
) -> Result<String, AllocError> {
    let mut terms = Vec::new(alloc);
    for part in parts {
        terms.push(part.alike.as_str())?;
    }
    tuple(alloc, terms.as_slice(), style)
}

/// The term of the second ones.
pub(crate) fn distinct_tuple(
    alloc: Global,
    parts: &[PartTerms],
    style: TupleStyle,
) -> Result<String, AllocError> {
    let mut terms = Vec::new(alloc);
    for part in parts {
        terms.push(part.distinct.as_str())?;
    }
    tuple(alloc, terms.as_slice(), style)
}

// A tuple that ends in the empty one, behind a space.
fn tuple(alloc: Global, terms: &[&str], style: TupleStyle) -> Result<String, AllocError> {
    if style == TupleStyle::Line || terms.len() < 2 {
        line_tuple(alloc, terms)
    } else {
        block_tuple(alloc, terms)
    }
}

// A tuple in one line.
fn line_tuple(alloc: Global, terms: &[&str]) -> Result<String, AllocError> {
    let mut text = String::from_str(alloc, " ")?;
    for term in terms {
        text.push_str("(")?;
        text.push_str(term)?;
        text.push_str(", ")?;
    }
    text.push_str("tt")?;
    for _ in terms {
        text.push_str(")")?;
    }
    Ok(text)
}

// A tuple of two terms or more, a line for each. The last is in the line of the empty tuple.
fn block_tuple(alloc: Global, terms: &[&str]) -> Result<String, AllocError> {
    let last = terms.len().saturating_sub(1);
    let mut text = String::from_str(alloc, " (\n")?;
    for (index, term) in terms.iter().enumerate() {
        if index < last {
            push_indent(&mut text, index)?;
            text.push_str(term)?;
            text.push_str(",\n")?;
            push_indent(&mut text, index)?;
            text.push_str(if index.saturating_add(1) < last {
                "(\n"
            } else {
                "("
            })?;
        } else {
            text.push_str(term)?;
            text.push_str(", tt),\n")?;
        }
    }
    for index in (1..last).rev() {
        push_indent(&mut text, index.saturating_sub(1))?;
        text.push_str("),\n")?;
    }
    text.push_str("    )")?;
    Ok(text)
}

// Appends the spaces in front of a term, by the number of tuples around it beside the outermost.
fn push_indent(text: &mut String, depth: usize) -> Result<(), AllocError> {
    text.push_str("      ")?;
    for _ in 0..depth {
        text.push_str("  ")?;
    }
    Ok(())
}
