//! The proof that the check does not find by itself.
use crate::definitions::OpenTable;
use std::alloc::{AllocError, Global};

/// The answers for the call that reads: an error under the key of a row is the case of this row in the clause `refused`.
pub fn table_answers(alloc: Global, table: &OpenTable) -> Result<String, AllocError> {
    let crate_name = table.crate_name.as_str();
    let module = table.module.as_str();
    let name = table.name.as_str();
    let mut text = format!(in alloc;
        "use Rattle.std.proofs.Common.{{inl, inr}}\nuse Rattle.{crate_name}.proofs.{module}.{name}.read.Goals as goal\n"
    )?;
    for (index, _) in table.rows.iter().enumerate() {
        let answer = answer_of(alloc, index)?;
        text.push_str(answer.as_str())?;
    }
    Ok(text)
}

// The answer for the row at an index, whose case is behind those of the rows before it.
fn answer_of(alloc: Global, index: usize) -> Result<String, AllocError> {
    let place = match index {
        0 => String::from_str(alloc, "Err")?,
        1 => String::from_str(alloc, "Err-read_open")?,
        _ => format!(in alloc; "Err-read_open-{index}")?,
    };
    let place = place.as_str();
    let mut text = format!(in alloc;
        "\npub returns-in-{place}-clause-refused : goal.returns-in-{place}-clause-refused\nreturns-in-{place}-clause-refused g c = "
    )?;
    for _ in 0..index {
        text.push_str("inr (")?;
    }
    let own = format!(in alloc; "inl (search, c.in-{place}.ensures.answered)")?;
    text.push_str(own.as_str())?;
    for _ in 0..index {
        text.push_str(")")?;
    }
    text.push_str("\n")?;
    Ok(text)
}
