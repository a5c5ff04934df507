//! Modules that imports name, by their names or their object identifiers.
use crate::arcs::standard_arc;
use crate::source::Source;
use asn1_notation::{Import, Number, NumberName, Value, ValueKind};
use std::alloc::{AllocError, Global};
use std::collections::{HashMap, HashSet};

/// The modules of some texts.
#[derive(Drop)]
pub(crate) struct ModuleNames<'a> {
    names: HashSet<&'a [u8]>,
    // The names of the modules with an object identifier, by its arcs.
    identified: HashMap<Vec<u32>, &'a [u8]>,
}

impl<'a> ModuleNames<'a> {
    /// Those of these texts. The error is that of memory.
    pub(crate) fn of(alloc: Global, sources: &[Source<'a>]) -> Result<ModuleNames<'a>, AllocError> {
        let mut names = HashSet::new(alloc);
        let mut identified = HashMap::new(alloc);
        for source in sources {
            for module in source.modules {
                let name = module.name.octets(source.text);
                names.insert(name)?;
                if let Some(arcs) = arcs_of(alloc, source.text, &module.identifier)? {
                    identified.insert(arcs, name)?;
                }
            }
        }
        Ok(ModuleNames { names, identified })
    }

    /// The name of the module behind FROM. If no module has the written name, it is that of the module with the object identifier
    /// that is written behind it (X.680, 13.16).
    pub(crate) fn imported(
        &self,
        alloc: Global,
        text: &'a [u8],
        import: &Import,
    ) -> Result<&'a [u8], AllocError> {
        let name = import.module.octets(text);
        if self.names.contains(name) {
            return Ok(name);
        }
        Ok(match arcs_of(alloc, text, &import.identifier)? {
            Some(arcs) => match self.identified.get(arcs.as_slice()) {
                Some(found) => *found,
                None => name,
            },
            None => name,
        })
    }
}

// The arcs of an object identifier, if each has a number there or a name that stands for one.
fn arcs_of(
    alloc: Global,
    text: &[u8],
    identifier: &Option<Value>,
) -> Result<Option<Vec<u32>>, AllocError> {
    match identifier {
        Some(value) => match &value.kind {
            ValueKind::List(items) => match items.as_slice() {
                [item] => arcs_of_values(alloc, text, item.values.as_slice()),
                _ => Ok(None),
            },
            _ => Ok(None),
        },
        None => Ok(None),
    }
}

// The arcs that values side by side are.
fn arcs_of_values(
    alloc: Global,
    text: &[u8],
    values: &[Value],
) -> Result<Option<Vec<u32>>, AllocError> {
    let mut arcs = Vec::new(alloc);
    for value in values {
        match arc_of(text, arcs.as_slice(), value) {
            Some(arc) => arcs.push(arc)?,
            None => return Ok(None),
        }
    }
    Ok(Some(arcs))
}

// The arc that a value is behind these.
fn arc_of(text: &[u8], arcs: &[u32], value: &Value) -> Option<u32> {
    match &value.kind {
        ValueKind::Number(number) => number_of(text, *number),
        ValueKind::Arc(_, NumberName::Number(number)) => number_of(text, *number),
        ValueKind::Reference(reference) => standard_arc(arcs, reference.name.octets(text)),
        _ => None,
    }
}

// The number that digits are.
fn number_of(text: &[u8], number: Number) -> Option<u32> {
    if number.is_negative {
        return None;
    }
    let mut value = 0u32;
    for digit in number.digits.octets(text) {
        value = value.checked_mul(10)?;
        value = value.checked_add(u32::from(digit.saturating_sub(b'0')))?;
    }
    Some(value)
}
