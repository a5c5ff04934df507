//! The components of a type, with the first tags of each.
ghost use Rattle.std.specs.Prelude.{◌≡◌, ◌++◌, [], ◌∷◌, IfOk, OnOk, map};
ghost use Rattle.std.specs.List.{flat_map};
ghost use Rattle.asn1_clash.specs.Views.{component_view};
ghost use Rattle.asn1_module_check.specs.FirstTags.{all_alternatives, of_each, seen};
ghost use Rattle.asn1_module_check.specs.FirstTags as first_spec;
ghost use Rattle.asn1_module_check.specs.Tables.{all_rows, group_in, row, row_of_group, rows_of, rows_of_addition, rows_of_alternatives, rows_view, table, table_of_group, table_view, tables_of};
ghost use Rattle.asn1_module_check.specs.Tables as spec;

use crate::constructed::{ComponentName, Constructed, ConstructedKind};
use crate::first_tags::first_tags;
use asn1_clash::{FlatComponent, FlatTree};
use asn1_fields::FieldPresence;
use asn1_names::Place;
use asn1_resolved::{
    Addition, Alternative, Alternatives, Component, Components, Schema, Type, TypeKind, Usage,
};
use std::alloc::{AllocError, Global};

// Components with their names.
#[derive(Drop)]
struct Rows<'a> {
    names: Vec<ComponentName<'a>>,
    components: Vec<FlatComponent>,
}

impl<'a> Rows<'a> {
    // None yet.
    fn new(alloc: Global) -> Rows<'a>
        ensures { rows_view result ≡ [] }
    {
        Rows {
            names: Vec::new(alloc),
            components: Vec::new(alloc),
        }
    }

    // Adds a component.
    fn push(&mut self, name: ComponentName<'a>, component: FlatComponent) -> Result<(), AllocError>
        ensures { OnOk result (rows_view self.new ≡
            rows_view self.old ++ component_view component ∷ []) }
    {
        self.names.push(name)?;
        self.components.push(component)?;
        Ok(())
    }

    // The components of a type of this kind.
    fn into_table(self, kind: ConstructedKind, place: Place) -> Constructed<'a>
        ensures { table_view result ≡ table kind (rows_view self.entry) }
    {
        let Rows { names, components } = self;
        Constructed {
            kind,
            place,
            names,
            components,
        }
    }
}

/// Adds the components of a type, if it has any, and then those in each of its version brackets.
pub(crate) fn add_tables<'a>(
    alloc: Global,
    list: &mut Vec<Constructed<'a>>,
    schema: &Schema<'a>,
    definition: &Type<'a>,
) -> Result<(), AllocError>
    ensures { OnOk result (map table_view list.new.items ≡
        map table_view list.old.items ++ tables_of schema.now definition.now.kind) }
{
    let place = definition.place;
    match &definition.kind {
        TypeKind::Sequence(components) => {
            let kind = ConstructedKind::Sequence;
            list.push(component_table(alloc, schema, components, kind, place)?)?;
            add_groups(alloc, list, schema, kind, components.additions.as_slice())
        }
        TypeKind::Set(components) => {
            let kind = ConstructedKind::Set;
            list.push(component_table(alloc, schema, components, kind, place)?)?;
            add_groups(alloc, list, schema, kind, components.additions.as_slice())
        }
        TypeKind::Choice(alternatives) => {
            list.push(alternative_table(alloc, schema, alternatives, place)?)?;
            Ok(())
        }
        _ => Ok(()),
    }
}

// The components of a SEQUENCE or a SET.
fn component_table<'a>(
    alloc: Global,
    schema: &Schema<'a>,
    components: &Components<'a>,
    kind: ConstructedKind,
    place: Place,
) -> Result<Constructed<'a>, AllocError>
    ensures { IfOk result (λ constructed.
        table_view constructed ≡ table kind (all_rows schema.now components.now)) }
{
    let mut rows = Rows::new(alloc);
    add_components(alloc, &mut rows, schema, components.root.as_slice())?;
    add_additions(alloc, &mut rows, schema, components.additions.as_slice())?;
    Ok(rows.into_table(kind, place))
}

// The alternatives of a CHOICE.
fn alternative_table<'a>(
    alloc: Global,
    schema: &Schema<'a>,
    alternatives: &Alternatives<'a>,
    place: Place,
) -> Result<Constructed<'a>, AllocError>
    ensures { IfOk result (λ constructed. table_view constructed ≡ table ConstructedKind.Choice
        (rows_of_alternatives schema.now (all_alternatives alternatives.now))) }
{
    let mut rows = Rows::new(alloc);
    add_alternatives(alloc, &mut rows, schema, alternatives.root.as_slice())?;
    add_alternatives(alloc, &mut rows, schema, alternatives.additions.as_slice())?;
    Ok(rows.into_table(ConstructedKind::Choice, place))
}

// Adds the components in each of the version brackets of a type of this kind.
fn add_groups<'a>(
    alloc: Global,
    list: &mut Vec<Constructed<'a>>,
    schema: &Schema<'a>,
    kind: ConstructedKind,
    additions: &[Addition<'a>],
) -> Result<(), AllocError>
    ensures { OnOk result (map table_view list.new.items ≡ map table_view list.old.items ++
        flat_map (group_in kind schema.now) additions.now) }
{
    for addition in additions {
        add_group_in(alloc, list, schema, kind, addition)?;
    }
    Ok(())
}

// Adds the components of an addition in version brackets.
#[tactic(auto, using(crate::proofs::Groups::group_in_brackets))]
fn add_group_in<'a>(
    alloc: Global,
    list: &mut Vec<Constructed<'a>>,
    schema: &Schema<'a>,
    kind: ConstructedKind,
    addition: &Addition<'a>,
) -> Result<(), AllocError>
    ensures { OnOk result (map table_view list.new.items ≡
        map table_view list.old.items ++ group_in kind schema.now addition.now) }
{
    match addition {
        Addition::Component(_) => Ok(()),
        Addition::Group(components) => add_group(alloc, list, schema, kind, components.as_slice()),
    }
}

// Adds the components in version brackets.
fn add_group<'a>(
    alloc: Global,
    list: &mut Vec<Constructed<'a>>,
    schema: &Schema<'a>,
    kind: ConstructedKind,
    components: &[Component<'a>],
) -> Result<(), AllocError>
    ensures { OnOk result (map table_view list.new.items ≡
        map table_view list.old.items ++ table_of_group kind schema.now components.now) }
{
    let [first, ..] = components else {
        return Ok(());
    };
    let mut rows = Rows::new(alloc);
    add_components(alloc, &mut rows, schema, components)?;
    list.push(rows.into_table(kind, first.place))?;
    Ok(())
}

// Adds the components of a root, or those in version brackets.
fn add_components<'a>(
    alloc: Global,
    rows: &mut Rows<'a>,
    schema: &Schema<'a>,
    components: &[Component<'a>],
) -> Result<(), AllocError>
    ensures { OnOk result (rows_view rows.new ≡
        rows_view rows.old ++ rows_of schema.now components.now) }
{
    for component in components {
        let presence = presence_of(&component.usage);
        add_component(alloc, rows, schema, component, presence)?;
    }
    Ok(())
}

// Adds a component.
fn add_component<'a>(
    alloc: Global,
    rows: &mut Rows<'a>,
    schema: &Schema<'a>,
    component: &Component<'a>,
    presence: FieldPresence,
) -> Result<(), AllocError>
    ensures { OnOk result (rows_view rows.new ≡ rows_view rows.old ++
        row presence (first_spec.first_tags schema.now component.now.definition.kind) ∷ []) }
{
    let tree = first_tags(alloc, schema, &component.definition)?;
    let name = ComponentName {
        name: component.name,
        place: component.place,
    };
    rows.push(name, FlatComponent { presence, tree })
}

// Adds additions.
fn add_additions<'a>(
    alloc: Global,
    rows: &mut Rows<'a>,
    schema: &Schema<'a>,
    additions: &[Addition<'a>],
) -> Result<(), AllocError>
    ensures { OnOk result (rows_view rows.new ≡ rows_view rows.old ++
        flat_map (rows_of_addition schema.now) additions.now) }
{
    for addition in additions {
        add_addition(alloc, rows, schema, addition)?;
    }
    Ok(())
}

// Adds an addition, which may be absent.
#[tactic(auto, using(crate::proofs::Groups::rows_in_brackets))]
fn add_addition<'a>(
    alloc: Global,
    rows: &mut Rows<'a>,
    schema: &Schema<'a>,
    addition: &Addition<'a>,
) -> Result<(), AllocError>
    ensures { OnOk result (rows_view rows.new ≡
        rows_view rows.old ++ rows_of_addition schema.now addition.now) }
{
    match addition {
        Addition::Component(component) => {
            add_component(alloc, rows, schema, component, FieldPresence::Optional)
        }
        Addition::Group(components) => { add_group_row(alloc, rows, schema, components.as_slice()) }
    }
}

// Adds the components in version brackets as one, which may be absent.
fn add_group_row<'a>(
    alloc: Global,
    rows: &mut Rows<'a>,
    schema: &Schema<'a>,
    components: &[Component<'a>],
) -> Result<(), AllocError>
    ensures { OnOk result (rows_view rows.new ≡
        rows_view rows.old ++ row_of_group schema.now components.now) }
{
    let [first, ..] = components else {
        return Ok(());
    };
    let name = ComponentName {
        name: first.name,
        place: first.place,
    };
    let tree = group_tags(alloc, schema, components)?;
    let presence = FieldPresence::Optional;
    rows.push(name, FlatComponent { presence, tree })
}

// The tags with which a group begins: those of each component, since those before it may be absent.
fn group_tags(
    alloc: Global,
    schema: &Schema<'_>,
    components: &[Component<'_>],
) -> Result<FlatTree, AllocError>
    ensures { IfOk result (λ tree. seen tree ≡ of_each (λ component.
        first_spec.first_tags schema.now component.definition.kind) components.now) }
{
    let mut tree = FlatTree::new(alloc);
    for component in components {
        let tags = first_tags(alloc, schema, &component.definition)?;
        tree.tags.extend_from_slice(tags.tags.as_slice())?;
        if tags.has_empty_choice {
            tree.add_empty_choice();
        }
    }
    Ok(tree)
}

// Adds alternatives.
fn add_alternatives<'a>(
    alloc: Global,
    rows: &mut Rows<'a>,
    schema: &Schema<'a>,
    alternatives: &[Alternative<'a>],
) -> Result<(), AllocError>
    ensures { OnOk result (rows_view rows.new ≡
        rows_view rows.old ++ rows_of_alternatives schema.now alternatives.now) }
{
    for alternative in alternatives {
        add_alternative(alloc, rows, schema, alternative)?;
    }
    Ok(())
}

// Adds an alternative.
fn add_alternative<'a>(
    alloc: Global,
    rows: &mut Rows<'a>,
    schema: &Schema<'a>,
    alternative: &Alternative<'a>,
) -> Result<(), AllocError>
    ensures { OnOk result (rows_view rows.new ≡ rows_view rows.old ++ row FieldPresence.Required
        (first_spec.first_tags schema.now alternative.now.definition.kind) ∷ []) }
{
    let tree = first_tags(alloc, schema, &alternative.definition)?;
    let name = ComponentName {
        name: alternative.name,
        place: alternative.place,
    };
    let presence = FieldPresence::Required;
    rows.push(name, FlatComponent { presence, tree })
}

// Whether a component may be absent.
fn presence_of(usage: &Usage<'_>) -> FieldPresence
    ensures { result ≡ spec.presence_of usage.now }
{
    match usage {
        Usage::Required => FieldPresence::Required,
        Usage::Optional => FieldPresence::Optional,
        Usage::Default(_) => FieldPresence::Default,
    }
}
