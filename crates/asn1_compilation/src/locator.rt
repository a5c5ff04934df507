//! Lines and columns of places that come in their order.
use asn1_names::Place;
use asn1_tokens::{Position, position_of};

/// The last place that was found. The next is looked for behind it, so a text is gone through once.
#[derive(Clone, Copy)]
pub(crate) struct Locator {
    input: usize,
    offset: usize,
    position: Position,
}

impl Locator {
    /// The beginning of the first text.
    pub(crate) fn new() -> Locator {
        Locator {
            input: 0,
            offset: 0,
            position: position_of(&[], 0),
        }
    }

    /// The line and the column of a place in its text.
    pub(crate) fn position_of(&mut self, text: &[u8], place: Place) -> Position {
        let offset = place.span.start;
        let between = if place.text == self.input {
            text.get(self.offset..offset)
        } else {
            None
        };
        self.position = match between {
            Some(octets) => after(self.position, octets),
            None => position_of(text, offset),
        };
        self.input = place.text;
        self.offset = offset;
        self.position
    }
}

// The position behind octets that begin at this one.
fn after(start: Position, octets: &[u8]) -> Position {
    let step = position_of(octets, octets.len());
    let column = if step.line == 1 {
        start.column.saturating_add(step.column).saturating_sub(1)
    } else {
        step.column
    };
    Position {
        line: start.line.saturating_add(step.line).saturating_sub(1),
        column,
    }
}
