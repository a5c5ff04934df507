//! The files of a crate as one text.
ghost use Rattle.std.specs.Prelude.{◌≡◌, ◌++◌, IfOk, OnOk};
ghost use Rattle.std.specs.String.{string_bytes};
ghost use Rattle.asn1_compilation.specs.Listing.{entry_of, listing};

use asn1_print::PrintedFile;
use std::alloc::{AllocError, Global};

/// The files one after another, each behind a line `=== PATH`.
pub fn listing_of(alloc: Global, files: &[PrintedFile]) -> Result<String, AllocError>
    ensures { IfOk result (λ text. string_bytes text ≡ listing files.now) }
{
    let mut text = String::new(alloc);
    for file in files {
        push_file(&mut text, file)?;
    }
    Ok(text)
}

// Appends a file.
fn push_file(text: &mut String, file: &PrintedFile) -> Result<(), AllocError>
    ensures { OnOk result (string_bytes text.new ≡ string_bytes text.old ++ entry_of file.now) }
{
    text.push_str("=== ")?;
    text.push_str(file.path.as_str())?;
    text.push_str("\n")?;
    text.push_str(file.text.as_str())
}
