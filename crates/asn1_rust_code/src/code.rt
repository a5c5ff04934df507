//! Lines of code in the layout of `rt fmt`.
use std::alloc::{AllocError, Global};

/// The number of columns of a line.
pub(crate) const WIDTH: usize = 100;

/// The number of columns of a line of names.
const NAMES_WIDTH: usize = 98;

/// The lines of a file, as far as they were made.
#[derive(Drop)]
pub struct Code {
    text: String,
}

/// How a list is laid out.
#[derive(Clone, Copy, Debug, PartialEq, Eq)]
pub enum ListStyle {
    /// Arguments, parts of a tuple or elements of an array: in one line if there is one, or if they are short.
    Arguments,
    /// The fields of a struct: in one line only if they are very short.
    Fields,
    /// Names: side by side in as few lines as they need.
    Names,
    /// Short elements of an array: side by side too, and in one line only if that is short.
    Elements,
}

/// A list between brackets.
#[derive(Clone, Copy)]
pub struct List<'a> {
    /// What is in front of the first item, with the bracket.
    pub opening: &'a str,
    /// The items.
    pub items: &'a [String],
    /// What is behind the last, with the bracket.
    pub closing: &'a str,
    /// The layout.
    pub style: ListStyle,
}

impl Code {
    /// No line yet.
    pub fn new(alloc: Global) -> Code {
        Code {
            text: String::new(alloc),
        }
    }

    /// The text.
    pub fn into_text(self) -> String {
        let Code { text } = self;
        text
    }

    /// The text.
    pub fn as_str(&self) -> &str {
        self.text.as_str()
    }

    // Begins a line at this depth.
    fn indent(&mut self, depth: usize) -> Result<(), AllocError> {
        for _ in 0..depth {
            self.text.push_str("    ")?;
        }
        Ok(())
    }

    /// Appends a line.
    pub fn line(&mut self, depth: usize, line: &str) -> Result<(), AllocError> {
        self.indent(depth)?;
        self.text.push_str(line)?;
        self.text.push_str("\n")
    }

    /// Appends lines at depth 0, as they are.
    pub fn lines(&mut self, lines: &str) -> Result<(), AllocError> {
        self.text.push_str(lines)
    }

    /// Appends an empty line.
    pub fn blank(&mut self) -> Result<(), AllocError> {
        self.text.push_str("\n")
    }

    /// Appends a definition in one line, or in two if it is too long, the second with what is behind the sign.
    pub fn definition(&mut self, depth: usize, front: &str, back: &str) -> Result<(), AllocError> {
        let used = indentation(depth)
            .saturating_add(front.len())
            .saturating_add(back.len());
        if used < WIDTH {
            self.indent(depth)?;
            self.text.push_str(front)?;
            self.text.push_str(" ")?;
            return self.line(0, back);
        }
        self.line(depth, front)?;
        self.line(depth.saturating_add(1), back)
    }

    /// Appends a list.
    pub fn list(&mut self, depth: usize, list: List<'_>) -> Result<(), AllocError> {
        if is_in_one_line(depth, &list) {
            self.list_in_one_line(depth, &list)
        } else if is_packed(list.style) {
            self.packed_list(depth, &list)
        } else {
            self.list_by_lines(depth, &list)
        }
    }

    // Appends a list in one line.
    fn list_in_one_line(&mut self, depth: usize, list: &List<'_>) -> Result<(), AllocError> {
        self.indent(depth)?;
        self.text.push_str(list.opening)?;
        self.text.push_str(padding(list.style))?;
        for (index, item) in list.items.iter().enumerate() {
            if index != 0 {
                self.text.push_str(", ")?;
            }
            self.text.push_str(item.as_str())?;
        }
        self.text.push_str(padding(list.style))?;
        self.line(0, list.closing)
    }

    // Appends a list with a line for each item.
    fn list_by_lines(&mut self, depth: usize, list: &List<'_>) -> Result<(), AllocError> {
        self.line(depth, list.opening)?;
        for item in list.items {
            self.indent(depth.saturating_add(1))?;
            self.text.push_str(item.as_str())?;
            self.line(0, ",")?;
        }
        self.line(depth, list.closing)
    }

    // Appends a list with as many items in a line as there is room for.
    fn packed_list(&mut self, depth: usize, list: &List<'_>) -> Result<(), AllocError> {
        self.line(depth, list.opening)?;
        let inner = depth.saturating_add(1);
        self.indent(inner)?;
        let mut column = indentation(inner);
        let mut is_one_line = true;
        for (index, item) in list.items.iter().enumerate() {
            // The item, the space in front and the comma behind.
            let next = column.saturating_add(item.len()).saturating_add(2);
            if index == 0 {
                column = next.saturating_sub(1);
            } else if next >= packed_width(list, index, is_one_line) {
                is_one_line = false;
                self.blank()?;
                self.indent(inner)?;
                column = indentation(inner)
                    .saturating_add(item.len())
                    .saturating_add(1);
            } else {
                self.text.push_str(" ")?;
                column = next;
            }
            self.text.push_str(item.as_str())?;
            self.text.push_str(",")?;
        }
        self.blank()?;
        self.line(depth, list.closing)
    }

    /// Appends a chain of two calls on `self`, in one line if it is short: `front` is in front of `self`.
    pub fn chain(
        &mut self,
        depth: usize,
        front: &str,
        field: &str,
        call: &str,
    ) -> Result<(), AllocError> {
        let chain = "self"
            .len()
            .saturating_add(field.len())
            .saturating_add(call.len());
        let used = indentation(depth)
            .saturating_add(front.len())
            .saturating_add(chain);
        self.indent(depth)?;
        self.text.push_str(front)?;
        self.text.push_str("self")?;
        if chain <= 60 && used < WIDTH {
            self.text.push_str(field)?;
            self.text.push_str(call)?;
            return self.line(0, ",");
        }
        self.blank()?;
        let inner = depth.saturating_add(1);
        self.line(inner, field)?;
        self.indent(inner)?;
        self.text.push_str(call)?;
        self.line(0, ",")
    }
}

// The number of columns in front of a line at this depth.
fn indentation(depth: usize) -> usize {
    depth.saturating_mul(4)
}

// What is between a bracket and an item beside it.
fn padding(style: ListStyle) -> &'static str {
    match style {
        ListStyle::Fields => " ",
        _ => "",
    }
}

// The number of columns of the items side by side.
fn joined_width(items: &[String]) -> usize {
    let mut width = 0usize;
    for (index, item) in items.iter().enumerate() {
        let separator = if index == 0 { 0 } else { 2 };
        width = width.saturating_add(item.len()).saturating_add(separator);
    }
    width
}

// The column in front of which an item has to end that is beside others. The last name may end one column behind, if all are in one line.
fn packed_width(list: &List<'_>, index: usize, is_one_line: bool) -> usize {
    let is_last = index.saturating_add(1) == list.items.len();
    if is_last && is_one_line && list.style == ListStyle::Names {
        WIDTH.saturating_add(1)
    } else {
        WIDTH
    }
}

// Whether items are side by side in more than one line.
fn is_packed(style: ListStyle) -> bool {
    style == ListStyle::Names || style == ListStyle::Elements
}

/// Whether a list at this depth is in one line.
pub fn is_in_one_line(depth: usize, list: &List<'_>) -> bool {
    let inner = joined_width(list.items);
    let used = indentation(depth)
        .saturating_add(list.opening.len())
        .saturating_add(inner)
        .saturating_add(list.closing.len());
    let is_short = match list.style {
        ListStyle::Arguments => list.items.len() == 1 || inner <= 60,
        ListStyle::Fields => inner <= 18,
        ListStyle::Elements => inner <= 60,
        ListStyle::Names => used <= NAMES_WIDTH,
    };
    is_short && used <= WIDTH
}
