//! Anything with a text.
ghost use Rattle.std.specs.Prelude.{◌≡◌, ◌++◌, List, OnOk, ℕ};
ghost use Rattle.std.specs.List.{flat_map, join_by};
ghost use Rattle.std.specs.String.{string_bytes};
ghost use Rattle.asn1_certificate_text.specs.Lines.{labelled};

use std::alloc::AllocError;

/// Anything with a text.
pub trait AppendText {
    // The text.
    ghost text_of: { Self → List ℕ };

    /// Appends its text.
    fn append_to(&self, text: &mut String) -> Result<(), AllocError>
        ensures { OnOk result (string_bytes text.new ≡ string_bytes text.old ++ text_of self.now) };
}

/// Appends the texts of items, with this text between each two.
pub(crate) fn push_joined<T: AppendText>(
    text: &mut String,
    between: &str,
    items: &[T],
) -> Result<(), AllocError>
    ensures { OnOk result (string_bytes text.new ≡
        string_bytes text.old ++ join_by T.text_of between.now items.now) }
{
    match items {
        [] => Ok(()),
        [first, rest @ ..] => {
            first.append_to(text)?;
            push_each(text, between, rest)
        }
    }
}

/// Appends the texts of items, with this text before each.
pub(crate) fn push_each<T: AppendText>(
    text: &mut String,
    before: &str,
    items: &[T],
) -> Result<(), AllocError>
    ensures { OnOk result (string_bytes text.new ≡
        string_bytes text.old ++ flat_map (λ item. before.now ++ T.text_of item) items.now) }
{
    for item in items {
        push_after(text, before, item)?;
    }
    Ok(())
}

/// Appends a text, and that of an item.
pub(crate) fn push_after<T: AppendText>(
    text: &mut String,
    before: &str,
    item: &T,
) -> Result<(), AllocError>
    ensures { OnOk result (string_bytes text.new ≡
        string_bytes text.old ++ (before.now ++ T.text_of item.now)) }
{
    text.push_str(before)?;
    item.append_to(text)
}

/// Appends a line: a label, and the text of an item.
pub(crate) fn push_line<T: AppendText>(
    text: &mut String,
    label: &str,
    item: &T,
) -> Result<(), AllocError>
    ensures { OnOk result (string_bytes text.new ≡
        string_bytes text.old ++ labelled label.now (T.text_of item.now)) }
{
    text.push_str(label)?;
    item.append_to(text)?;
    text.push_str("\n")
}
