//! The tables of object sets (X.681, 12; X.682, 10).
use crate::component_list::{Construct, Listed};
use crate::fault::Fault;
use crate::followed::Followed;
use crate::governed::{Governed, Scope, Written};
use crate::resolver::Resolver;
use asn1_grammar::{Held, SetOperation, Setting};
use asn1_names::Place;
use asn1_notation::{Reference, TypeKind, ValueKind};
use asn1_objects::{
    FieldContents, Home, ObjectClass, ObjectDefinition, ReadDefinition, ReadElement, ReadObject,
    ReadSet,
};
use asn1_resolved::{Severity, Type, Value};
use asn1_resolved_tables::{Row, Table};
use std::alloc::AllocError;
use std::collections::HashSet;

// Why a set has no table whose key is of another type.
const NO_KEY: &[u8] =
    b"its key is neither an INTEGER nor an OBJECT IDENTIFIER, nor a CHOICE of these";

/// An object set that a type names.
#[derive(Clone, Copy)]
pub(crate) struct UsedSet<'a> {
    /// The module that its name is looked up in.
    pub(crate) module: &'a [u8],
    /// The name.
    pub(crate) name: &'a [u8],
    /// The place.
    pub(crate) place: Place,
    /// The field of its class that tells the row, if a component is named.
    pub(crate) key: Option<&'a [u8]>,
}

// An object with its name and the module that it is in.
#[derive(Clone, Copy)]
struct ListedObject<'r, 'a> {
    home: Home<'a>,
    name: Option<&'a [u8]>,
    object: &'r ReadObject,
}

// An element of a set in the module of the set.
#[derive(Clone, Copy)]
struct Element<'r, 'a> {
    home: Home<'a>,
    element: &'r ReadElement,
}

// The objects of a set, as far as they were met.
#[derive(Drop)]
struct Collected<'r, 'a> {
    // The index of the class.
    class: usize,
    objects: Vec<ListedObject<'r, 'a>>,
    // The elements that are still to be met, the next one last.
    pending: Vec<Element<'r, 'a>>,
    // The texts and the offsets of the objects and the sets that are in it.
    known: HashSet<(usize, usize)>,
    // Why the set has no table.
    cause: Option<&'static [u8]>,
}

// The class of the rows of a table, with its key.
#[derive(Clone, Copy)]
struct Columns<'r, 'a> {
    class: &'r ObjectClass<'a>,
    // The index of the key, its name and its type.
    key: usize,
    key_name: &'a [u8],
    key_type: Governed<'r, 'a>,
    // Whether no two objects of a set have the same key.
    is_unique: bool,
    // The CHOICE that keys are of, if they are, and the one alternative of it whose rows are wanted.
    choice: Option<Governed<'r, 'a>>,
    alternative: Option<Listed<'r, 'a>>,
}

impl<'r, 'a> Resolver<'r, 'a> {
    /// Adds the tables of an object set, unless they are known, by the text and the offset of its name and the index of its key; or warns
    /// that it has none.
    pub(crate) fn add_tables(
        &mut self,
        tables: &mut Vec<Table<'a>>,
        known: &mut HashSet<(usize, usize, usize)>,
        used: UsedSet<'a>,
    ) -> Result<(), AllocError> {
        let objects = self.objects;
        let Some(definition) = objects.find(used.module, used.name) else {
            return Ok(());
        };
        let ReadDefinition::Set(set) = &definition.contents else {
            return Ok(());
        };
        let Some(class) = objects.classes.get(set.class) else {
            return Ok(());
        };
        let columns = self.columns_of(class, used.key);
        let key = match &columns {
            Ok(found) => found.key,
            Err(_) if used.key.is_none() && self.is_related(used) => return Ok(()),
            Err(_) => usize::MAX,
        };
        if !known.insert((definition.home.source, definition.name.start, key))? {
            return Ok(());
        }
        let collected = self.collect(definition, set)?;
        if let Some(cause) = collected.cause {
            return self.warn_of_table(used, cause);
        }
        match columns {
            Ok(columns) => {
                self.is_lenient = true;
                let added = self.add_columns(tables, definition, columns, &collected);
                self.is_lenient = false;
                added
            }
            Err(cause) => self.warn_of_table(used, cause),
        }
    }

    // Whether a component tells the rows of a set elsewhere.
    fn is_related(&self, used: UsedSet<'a>) -> bool {
        self.used_sets.iter().any(|other| {
            other.key.is_some() && other.module == used.module && other.name == used.name
        })
    }

    /// Warns of what is wrong with objects.
    pub(crate) fn report_objects(&mut self) -> Result<(), AllocError> {
        let objects = self.objects;
        for warning in &objects.warnings {
            self.report(warning.place, warning.severity, &[warning.text.as_slice()])?;
        }
        Ok(())
    }

    // Warns that an object set has no table.
    fn warn_of_table(&mut self, used: UsedSet<'a>, cause: &[u8]) -> Result<(), AllocError> {
        self.report(
            used.place,
            Severity::Warning,
            &[b"object set '", used.name, b"' has no table: ", cause],
        )
    }

    // The objects of a set, in the order of the text, those of a set inside in its place.
    fn collect(
        &mut self,
        definition: &'r ObjectDefinition<'a>,
        set: &'r ReadSet,
    ) -> Result<Collected<'r, 'a>, AllocError> {
        let mut collected = Collected {
            class: set.class,
            objects: Vec::new(self.alloc),
            pending: Vec::new(self.alloc),
            known: HashSet::new(self.alloc),
            cause: None,
        };
        let home = definition.home;
        collected
            .known
            .insert((home.source, definition.name.start))?;
        collect_set(&mut collected, home, set)?;
        for _ in 0..u64::MAX {
            let Some(next) = collected.pending.pop() else {
                break;
            };
            self.collect_element(&mut collected, next)?;
        }
        Ok(collected)
    }

    // Adds the object that an element is, or the elements of the set that it names.
    fn collect_element(
        &mut self,
        collected: &mut Collected<'r, 'a>,
        next: Element<'r, 'a>,
    ) -> Result<(), AllocError> {
        let home = next.home;
        match next.element {
            ReadElement::Braces(object) => {
                let name = None;
                add_object(collected, ListedObject { home, name, object })
            }
            ReadElement::Object(reference) => self.collect_named(collected, home, reference),
            ReadElement::Set(reference) => self.collect_named(collected, home, reference),
        }
    }

    // Adds the object of a name, or the elements of the set of a name, unless they are there.
    fn collect_named(
        &mut self,
        collected: &mut Collected<'r, 'a>,
        home: Home<'a>,
        reference: &Reference,
    ) -> Result<(), AllocError> {
        let objects = self.objects;
        let element = home;
        let Some(definition) = objects.find_reference(home, reference) else {
            return self.warn_of_element(home, reference);
        };
        let home = definition.home;
        match &definition.contents {
            ReadDefinition::Object(object) if object.class == collected.class => {
                let name = Some(definition.name.octets(home.text));
                add_object(collected, ListedObject { home, name, object })
            }
            ReadDefinition::Set(set) if set.class == collected.class => {
                let place = (home.source, definition.name.start);
                if collected.known.insert(place)? {
                    collect_set(collected, home, set)?;
                }
                Ok(())
            }
            ReadDefinition::Object(_) | ReadDefinition::Set(_) => {
                self.warn_of_class(element, reference)
            }
            ReadDefinition::Unread => Ok(()),
        }
    }

    // Warns of an element of another class than that of the set.
    fn warn_of_class(&mut self, home: Home<'a>, reference: &Reference) -> Result<(), AllocError> {
        let scope = scope_of(home);
        let name = scope.octets(reference.name);
        self.report(
            scope.place(reference.name),
            Severity::Warning,
            &[
                b"'",
                name,
                b"' is of another class than the object set that it is in",
            ],
        )
    }

    // Warns of an element that no definition is, or one that is not read.
    fn warn_of_element(&mut self, home: Home<'a>, reference: &Reference) -> Result<(), AllocError> {
        let scope = scope_of(home);
        let name = scope.octets(reference.name);
        if self
            .definitions
            .classes
            .is_skipped(scope.name, scope.used_name(reference).qualifier, name)
        {
            return Ok(());
        }
        let fault = self.refuse_lenient(scope, reference);
        match fault {
            Fault::Memory => Err(AllocError),
            Fault::Refused => Ok(()),
        }
    }

    // Warns of a name that is not defined.
    fn refuse_lenient(&mut self, scope: Scope<'a>, reference: &Reference) -> Fault {
        self.is_lenient = true;
        let fault = self.refuse_undefined(scope, reference);
        self.is_lenient = false;
        fault
    }

    // The key of a class: the field of this name, or else the one that is UNIQUE; or why there is none.
    fn columns_of(
        &mut self,
        class: &'r ObjectClass<'a>,
        wanted: Option<&[u8]>,
    ) -> Result<Columns<'r, 'a>, &'static [u8]> {
        let position = match wanted {
            Some(name) => class.fields.iter().position(|field| field.name == name),
            None => class.fields.iter().position(|field| field.is_unique),
        };
        let found = match position {
            Some(key) => class.fields.get(key),
            None => None,
        };
        let (Some(key), Some(field)) = (position, found) else {
            return Err(match wanted {
                Some(_) => b"the component that tells its rows is no field of its class",
                None => b"no field of its class is UNIQUE",
            });
        };
        let Some(key_type) = self.type_of_values(class, key) else {
            return Err(b"its key is no value");
        };
        let choice = match self.base(key_type) {
            Ok(base) if is_key(&base.definition.kind) => None,
            Ok(base) if matches!(base.definition.kind, TypeKind::Choice(_)) => Some(base),
            _ => return Err(NO_KEY),
        };
        let columns = Columns {
            class,
            key,
            key_name: field.name,
            key_type,
            is_unique: field.is_unique,
            choice,
            alternative: None,
        };
        match self.key_alternatives(columns) {
            Ok(alternatives) if choice.is_some() && alternatives.is_empty() => Err(NO_KEY),
            _ => Ok(columns),
        }
    }

    // The alternatives that keys may be of.
    fn key_alternatives(
        &mut self,
        columns: Columns<'r, 'a>,
    ) -> Result<Vec<Listed<'r, 'a>>, AllocError> {
        let mut found: Vec<Listed<'r, 'a>> = Vec::new(self.alloc);
        let Some(choice) = columns.choice else {
            return Ok(found);
        };
        let TypeKind::Choice(items) = &choice.definition.kind else {
            return Ok(found);
        };
        let list = match self.list_components(choice.scope, items.as_slice(), Construct::Choice) {
            Ok(list) => list,
            Err(Fault::Refused) => return Ok(found),
            Err(Fault::Memory) => return Err(AllocError),
        };
        for listed in &list.listed {
            match self.base(listed.governed()) {
                Ok(base) if is_key(&base.definition.kind) => found.push(*listed)?,
                Err(Fault::Memory) => return Err(AllocError),
                _ => {}
            }
        }
        Ok(found)
    }

    /// The type of the values that a field of a class holds.
    pub(crate) fn type_of_values(
        &self,
        class: &ObjectClass<'a>,
        field: usize,
    ) -> Option<Governed<'r, 'a>> {
        match (class.fields.get(field)?.contents, class.home) {
            (FieldContents::Value(definition), Some(home)) => Some(Governed {
                scope: scope_of(home),
                definition,
            }),
            (FieldContents::ObjectIdentifier, _) => {
                let objects = self.objects;
                Some(Governed {
                    scope: self.definitions.types.first()?.scope,
                    definition: &objects.identifier,
                })
            }
            _ => None,
        }
    }

    // Adds a table for each field that holds types, and for each alternative of a key that is a CHOICE.
    fn add_columns(
        &mut self,
        tables: &mut Vec<Table<'a>>,
        definition: &'r ObjectDefinition<'a>,
        columns: Columns<'r, 'a>,
        collected: &Collected<'r, 'a>,
    ) -> Result<(), AllocError> {
        let mut key_columns: Vec<Columns<'r, 'a>> = Vec::new(self.alloc);
        if columns.choice.is_none() {
            key_columns.push(columns)?;
        }
        for listed in &self.key_alternatives(columns)? {
            key_columns.push(Columns {
                alternative: Some(*listed),
                ..columns
            })?;
        }
        for columns in &key_columns {
            let key_type = match self.checked_key(*columns) {
                Ok(key_type) => key_type,
                Err(Fault::Refused) => continue,
                Err(Fault::Memory) => return Err(AllocError),
            };
            self.add_key_columns(tables, definition, *columns, key_type, collected)?;
        }
        Ok(())
    }

    // The type of keys.
    fn checked_key(&mut self, columns: Columns<'r, 'a>) -> Result<Governed<'r, 'a>, Fault> {
        match columns.alternative {
            Some(listed) => self.base(listed.governed()),
            None => Ok(columns.key_type),
        }
    }

    // Adds a table for each field that holds types. The keys are of this type.
    fn add_key_columns(
        &mut self,
        tables: &mut Vec<Table<'a>>,
        definition: &'r ObjectDefinition<'a>,
        columns: Columns<'r, 'a>,
        key_type: Governed<'r, 'a>,
        collected: &Collected<'r, 'a>,
    ) -> Result<(), AllocError> {
        let is_type = |contents| matches!(contents, FieldContents::Type);
        let fields = columns.class.fields.as_slice();
        let many = fields
            .iter()
            .filter(|field| is_type(field.contents))
            .count();
        let has_unique = fields.iter().any(|field| field.is_unique);
        for (index, field) in fields.iter().enumerate() {
            if !is_type(field.contents) {
                continue;
            }
            let rows = self.rows(columns, index, collected)?;
            let key_type = match self.checked_type(key_type) {
                Ok(key_type) => key_type,
                Err(Fault::Refused) => return Ok(()),
                Err(Fault::Memory) => return Err(AllocError),
            };
            let home = definition.home;
            if !rows.is_empty() {
                tables.push(Table {
                    module: home.name(),
                    name: definition.name.octets(home.text),
                    place: scope_of(home).place(definition.name),
                    class: columns.class.name,
                    column: field.name,
                    is_one_of_many: many > 1,
                    key: columns.key_name,
                    is_by_other_key: has_unique && !columns.is_unique,
                    alternative: match columns.alternative {
                        Some(listed) => Some(listed.name()),
                        None => None,
                    },
                    key_type,
                    rows,
                })?;
            }
        }
        Ok(())
    }

    // The rows of a column. There is none if two objects have one key though it is not UNIQUE, since it tells neither.
    fn rows(
        &mut self,
        columns: Columns<'r, 'a>,
        column: usize,
        collected: &Collected<'r, 'a>,
    ) -> Result<Vec<Row<'a>>, AllocError> {
        let mut rows = Vec::new(self.alloc);
        for listed in &collected.objects {
            match self.row(columns, column, *listed) {
                Ok(Some(row)) => {
                    if !self.add_row(&mut rows, columns, row)? && !columns.is_unique {
                        return Ok(Vec::new(self.alloc));
                    }
                }
                Ok(None) => {}
                Err(Fault::Refused) => {}
                Err(Fault::Memory) => return Err(AllocError),
            }
        }
        Ok(rows)
    }

    // Adds a row, unless its key is that of another, and answers whether it did.
    fn add_row(
        &mut self,
        rows: &mut Vec<Row<'a>>,
        columns: Columns<'r, 'a>,
        row: Row<'a>,
    ) -> Result<bool, AllocError> {
        let Some(other) = rows.iter().find(|other| is_same_key(&other.key, &row.key)) else {
            rows.push(row)?;
            return Ok(true);
        };
        let own = row.name.unwrap_or(b"..");
        let name = other.name.unwrap_or(b"..");
        self.report(
            row.place,
            Severity::Warning,
            &[
                b"objects '",
                name,
                b"' and '",
                own,
                b"' have the same &",
                columns.key_name,
            ],
        )?;
        Ok(false)
    }

    // The row of an object, if it has a key and a type.
    fn row(
        &mut self,
        columns: Columns<'r, 'a>,
        column: usize,
        listed: ListedObject<'r, 'a>,
    ) -> Result<Option<Row<'a>>, Fault> {
        let Some(cell) = self.cell(columns.class, column, listed)? else {
            return Ok(None);
        };
        let Some(setting) = listed.object.setting(columns.key) else {
            return Ok(None);
        };
        let Held::Value(value) = &setting.held else {
            return Ok(None);
        };
        let scope = scope_of(listed.home);
        let Some(key) = self.key_value(columns, Written { scope, value })? else {
            return Ok(None);
        };
        let name = match listed.name {
            Some(name) => Some(name),
            None => name_of(scope, value),
        };
        Ok(Some(Row {
            name,
            place: scope.place(listed.object.braces),
            key,
            cell,
        }))
    }

    // The key that a value is: the value of one alternative, if one is wanted and it is of that.
    fn key_value(
        &mut self,
        columns: Columns<'r, 'a>,
        written: Written<'r, 'a>,
    ) -> Result<Option<Value<'a>>, Fault> {
        let value = self.value(columns.key_type, written)?;
        let Some(alternative) = columns.alternative else {
            return Ok(Some(value));
        };
        let base = self.base(columns.key_type)?;
        let Followed::Literal(_, literal) = self.follow(base, written)? else {
            return Ok(None);
        };
        let scope = literal.scope;
        match &literal.value.kind {
            ValueKind::Alternative(name, value) if scope.octets(*name) == alternative.name() => {
                let value = self.value(alternative.governed(), Written { scope, value })?;
                Ok(Some(value))
            }
            _ => Ok(None),
        }
    }

    // The type that an object has in a column, or that of its class in place of it.
    fn cell(
        &mut self,
        class: &'r ObjectClass<'a>,
        column: usize,
        listed: ListedObject<'r, 'a>,
    ) -> Result<Option<Type<'a>>, Fault> {
        let (scope, definition) = match listed.object.setting(column) {
            Some(
                Setting {
                    held: Held::Type(definition),
                    ..
                },
            ) => (scope_of(listed.home), definition),
            Some(_) => return Ok(None),
            None => match default_of(class, column) {
                Some(found) => found,
                None => return Ok(None),
            },
        };
        let cell = self.checked_type(Governed { scope, definition })?;
        Ok(Some(cell))
    }
}

// The DEFAULT of a field that holds types.
fn default_of<'r, 'a>(
    class: &'r ObjectClass<'a>,
    column: usize,
) -> Option<(Scope<'a>, &'r asn1_notation::Type)> {
    let home = class.home?;
    match &class.fields.get(column)?.default {
        Some(Held::Type(definition)) => Some((scope_of(home), definition)),
        _ => None,
    }
}

// The name of a value, or of that of an alternative.
fn name_of<'a>(scope: Scope<'a>, value: &asn1_notation::Value) -> Option<&'a [u8]> {
    let named = match &value.kind {
        ValueKind::Alternative(_, inner) => &inner.kind,
        kind => kind,
    };
    match named {
        ValueKind::Reference(reference) => Some(scope.octets(reference.name)),
        _ => None,
    }
}

// Puts the elements of a set before those that are still to be met.
fn collect_set<'r, 'a>(
    collected: &mut Collected<'r, 'a>,
    home: Home<'a>,
    set: &'r ReadSet,
) -> Result<(), AllocError> {
    if let Some((_, operation)) = set.unread {
        collected.cause = Some(cause_of(operation));
    }
    for element in set.elements.iter().rev() {
        collected.pending.push(Element { home, element })?;
    }
    Ok(())
}

// Adds an object, unless it is there.
fn add_object<'r, 'a>(
    collected: &mut Collected<'r, 'a>,
    listed: ListedObject<'r, 'a>,
) -> Result<(), AllocError> {
    let place = (listed.home.source, listed.object.braces.start);
    if collected.known.insert(place)? {
        collected.objects.push(listed)?;
    }
    Ok(())
}

// Whether a type is one of keys.
fn is_key(kind: &TypeKind) -> bool {
    matches!(kind, TypeKind::Integer(_) | TypeKind::ObjectIdentifier)
}

// Whether two keys are the same.
fn is_same_key(one: &Value<'_>, other: &Value<'_>) -> bool {
    match (one, other) {
        (Value::Integer(left), Value::Integer(right)) => left == right,
        (Value::ObjectIdentifier(left), Value::ObjectIdentifier(right)) => left == right,
        _ => false,
    }
}

// Why a set has no table.
fn cause_of(operation: SetOperation) -> &'static [u8] {
    match operation {
        SetOperation::Arguments => b"an element of it has arguments",
        SetOperation::Field => b"an element of it is a field",
        SetOperation::Except => b"it has EXCEPT",
        SetOperation::Intersection => b"it has INTERSECTION",
    }
}

/// The module of an object.
pub(crate) fn scope_of(home: Home<'_>) -> Scope<'_> {
    Scope::of(home.text, home.source, home.module)
}
