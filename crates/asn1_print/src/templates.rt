//! Templates (X.683, 8): the definitions of types that arguments complete.
use asn1_modules::Source;
use asn1_names::Place;
use asn1_notation::{Definition, Module};
use std::alloc::{AllocError, Global};

/// The templates of some texts, in the order of the texts.
#[derive(Drop)]
pub(crate) struct Templates {
    parts: Vec<Part>,
}

// The part of a text that is a template.
#[derive(Clone, Copy)]
struct Part {
    // The index of the text.
    text: usize,
    // The offset of its name.
    start: usize,
    // The offset of the name of the next definition.
    end: usize,
}

impl Templates {
    /// Those of these texts.
    pub(crate) fn of(alloc: Global, sources: &[Source<'_>]) -> Result<Templates, AllocError> {
        let mut templates = Templates {
            parts: Vec::new(alloc),
        };
        for (text, source) in sources.iter().enumerate() {
            for module in source.modules {
                templates.add_module(text, module)?;
            }
        }
        Ok(templates)
    }

    // Adds those of a module.
    fn add_module(&mut self, text: usize, module: &Module) -> Result<(), AllocError> {
        for assignment in &module.assignments {
            let start = assignment.name.start;
            self.end_last(text, start);
            if let Definition::Template(_) = &assignment.definition {
                self.parts.push(Part {
                    text,
                    start,
                    end: usize::MAX,
                })?;
            }
        }
        Ok(())
    }

    // Ends the last one where the next definition of its text begins.
    fn end_last(&mut self, text: usize, start: usize) {
        if let Some(last) = self.parts.last_mut() {
            if last.text == text && last.end == usize::MAX {
                last.end = start;
            }
        }
    }

    /// Whether a place is in one of them.
    pub(crate) fn has(&self, place: Place) -> bool {
        let Place { text, span } = place;
        let before = self
            .parts
            .partition_point(|part| (part.text, part.start) <= (text, span.start));
        match before.checked_sub(1) {
            Some(index) => match self.parts.get(index) {
                Some(part) => part.text == text && span.start < part.end,
                None => false,
            },
            None => false,
        }
    }
}
