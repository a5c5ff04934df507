//! Asks the compiler's parts of texts, which it reads from standard input, and writes the answers to standard output.
//!
//! A text begins after a line `# WORK: title`, and ends before the next such line. The title says what the text is about:
//!
//! | `WORK` | Answer |
//! |---|---|
//! | `tokens` | each token after its kind, and the position of the end of the text; or the octet at which no token begins, and why |
//! | `module` | each error with its position, and the text of the trees that were read, with a line if that text is read as other trees |
//! | `names` | each error with its position, and each name that is undefined or defined twice |
//! | `schema` | each error with its position, then each problem with the modules; then `accepted` if no tags clash either |
//! | `rust` | each line, and this name in Rust: as a type, a field and a constant |
//! | `taken` | each line's name, as a scope of Rust takes them one after another |
//!
//! A position is a line and a column, both counted from 1. The stored run is the test: its texts and answers were written by
//! hand, after X.680; the names of Rust after its naming conventions (RFC 430).
#![tactic(auto)]

mod answers;
mod errors;
mod rust_names;
mod work;

use answers::answer;
use std::io::{self, Read, Write};
use work::texts;

fn main(rt: HostRuntime) -> io::Result<()> {
    let alloc = rt.alloc();
    let mut input = Vec::new(alloc);
    rt.reader().read_to_end(&mut input)?;
    let mut answers = Vec::new(alloc);
    for text in &texts(alloc, &input)? {
        answer(alloc, &mut answers, text)?;
    }
    io::writer(&rt).write_all(&answers)
}
