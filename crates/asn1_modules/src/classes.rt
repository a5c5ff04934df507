//! The names in classes.
use crate::collector::Collector;
use crate::types::collect_type;
use asn1_notation::{Class, FieldKind};
use std::alloc::AllocError;

/// Collects the names in a class, without those in a DEFAULT, which is not read.
pub(crate) fn collect_class(
    collector: &mut Collector<'_>,
    class: &Class,
) -> Result<(), AllocError> {
    match class {
        Class::Fields(fields, _) => {
            for field in fields {
                if let FieldKind::Fixed(definition) = &field.kind {
                    collect_type(collector, definition)?;
                }
            }
            Ok(())
        }
        Class::Alias(reference) => collector.refer_to_type(reference),
    }
}
