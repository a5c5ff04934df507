//! The texts of answers.
ghost use Rattle.std.specs.Prelude.{◌≡◌, ◌++◌, IfSome, OnOk};
ghost use Rattle.asn1_report.specs.Texts.{named_line, refusal_text};

use std::alloc::AllocError;
use std::fmt::Display;
use std::io::Write;

/// Writes a line with the verdict on what that name of that kind means.
pub(crate) fn write_verdict<V: Display + Drop>(
    kind: &str,
    name: &[u8],
    verdict: V,
    text: &mut Vec<u8>,
) -> Result<(), AllocError>
    ensures line { OnOk result (IfSome (V.output verdict) (λ said.
        text.new.items ≡ text.old.items ++ named_line kind.now name.now said)) }
{
    text.extend_from_slice(kind.as_bytes())?;
    text.extend_from_slice(b" ")?;
    text.extend_from_slice(name)?;
    text.extend_from_slice(b": ")?;
    show(verdict, text)?;
    text.extend_from_slice(b"\n")
}

/// Writes that the line of that number is not understood.
pub(crate) fn write_refusal(number: u64, text: &mut Vec<u8>) -> Result<(), AllocError>
    ensures line { OnOk result (text.new.items ≡ text.old.items ++ refusal_text number) }
{
    text.extend_from_slice(b"line ")?;
    show(number, text)?;
    text.extend_from_slice(b": not understood\n")
}

// Writes what `{}` shows of the value.
fn show<V: Display + Drop>(shown: V, text: &mut Vec<u8>) -> Result<(), AllocError>
    ensures shown { OnOk result
        (IfSome (V.output shown) (λ said. text.new.items ≡ text.old.items ++ said)) }
{
    match write!(text, "{shown}") {
        Ok(()) => Ok(()),
        Err(_) => Err(AllocError),
    }
}
