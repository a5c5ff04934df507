//! The files of a circle beside those of its types with a parameter.
use crate::knot::{knot_file, reader_file};
use asn1_circle_definitions::{
    Circle, VALIDITY_FILE, lists_file, meaning_file, member_validity_answer, parts_file,
    reader_answers, reader_measures, reading_file, tags_file, validity_answer, validity_file,
    writer_answers,
};
use asn1_rust_components::TypeFile;
use asn1_rust_types::{ProofFile, knot_table_proof};
use std::alloc::{AllocError, Global};

/// The files of a circle: the knot, whose own file is this, its reader, names for meanings, definitions and proofs.
pub fn circle_files(
    alloc: Global,
    circle: Circle<'_>,
    own: &TypeFile,
) -> Result<Vec<ProofFile>, AllocError> {
    match circle.body() {
        Some(body) => files_of(alloc, circle, own, body),
        None => Ok(Vec::new(alloc)),
    }
}

// The files of a circle with this type of which a value of the knot is made.
fn files_of(
    alloc: Global,
    circle: Circle<'_>,
    own: &TypeFile,
    body: &TypeFile,
) -> Result<Vec<ProofFile>, AllocError> {
    let mut files: Vec<ProofFile> = Vec::new(alloc);
    files.push(own_source(alloc, circle, own, body)?)?;
    files.push(reader_source(alloc, circle, body)?)?;
    files.push(parts_source(alloc, circle)?)?;
    files.push(lists_definitions(alloc, circle)?)?;
    files.push(meaning_definitions(alloc, circle, body)?)?;
    files.push(reading_definitions(alloc, circle)?)?;
    files.push(tags_proof(alloc, circle, body)?)?;
    if let Some(proof) = knot_table_proof(alloc, own, body)? {
        files.push(proof)?;
    }
    files.push(writer_proof(alloc, circle)?)?;
    files.push(measures_proof(alloc, circle)?)?;
    files.push(reader_proof(alloc, circle)?)?;
    push_validity(alloc, &mut files, circle, body)?;
    Ok(files)
}

// Appends the files that prove which values are valid.
fn push_validity(
    alloc: Global,
    files: &mut Vec<ProofFile>,
    circle: Circle<'_>,
    body: &TypeFile,
) -> Result<(), AllocError> {
    files.push(validity_proof(alloc, circle)?)?;
    if circle.are_valid {
        files.push(validity_definitions(alloc, circle)?)?;
        for member in circle.members {
            if member.module.as_str() != body.module.as_str() {
                files.push(member_validity_proof(alloc, circle, member)?)?;
            }
        }
    }
    Ok(())
}

// The file with the lemmas that values are valid if those inside them are.
fn validity_definitions(alloc: Global, circle: Circle<'_>) -> Result<ProofFile, AllocError> {
    let name = circle.name;
    let text = validity_file(alloc, circle)?;
    Ok(ProofFile {
        path: format!(in alloc; "specs/{name}Validity.antt")?,
        text,
    })
}

// The answer for the theorem on the values of the knot.
fn validity_proof(alloc: Global, circle: Circle<'_>) -> Result<ProofFile, AllocError> {
    let module = circle.module;
    let law = knot_law(alloc, circle)?;
    let law = law.as_str();
    let text = validity_answer(alloc, circle, law)?;
    Ok(ProofFile {
        path: format!(in alloc; "proofs/{module}/{law}/Answers.antt")?,
        text,
    })
}

// The name of the theorem on the values of the knot.
fn knot_law(alloc: Global, circle: Circle<'_>) -> Result<String, AllocError> {
    let module = circle.module;
    if circle.are_valid {
        format!(in alloc; "each_{module}_is_valid")
    } else {
        format!(in alloc; "{module}_means_what_it_is_made_of")
    }
}

/// The names of the theorems on the values of a circle.
pub fn validity_laws(alloc: Global, circle: Circle<'_>) -> Result<Vec<String>, AllocError> {
    let mut names = Vec::new(alloc);
    names.push(knot_law(alloc, circle)?)?;
    if circle.are_valid {
        let body = circle.body().map(|body| body.module.as_str());
        for member in circle.members {
            let module = member.module.as_str();
            if Some(module) != body {
                names.push(format!(in alloc; "each_{module}_is_valid")?)?;
            }
        }
    }
    Ok(names)
}

// The answer for the theorem on the values of another type.
fn member_validity_proof(
    alloc: Global,
    circle: Circle<'_>,
    member: &TypeFile,
) -> Result<ProofFile, AllocError> {
    let module = circle.module;
    let own = member.module.as_str();
    let text = member_validity_answer(alloc, circle, member)?;
    Ok(ProofFile {
        path: format!(in alloc; "proofs/{module}/each_{own}_is_valid/Answers.antt")?,
        text,
    })
}

// The file of the knot.
fn own_source(
    alloc: Global,
    circle: Circle<'_>,
    own: &TypeFile,
    body: &TypeFile,
) -> Result<ProofFile, AllocError> {
    let module = circle.module;
    let text = knot_file(alloc, circle, body, own)?;
    Ok(ProofFile {
        path: format!(in alloc; "src/{module}.rt")?,
        text,
    })
}

// The file of its reader.
fn reader_source(
    alloc: Global,
    circle: Circle<'_>,
    body: &TypeFile,
) -> Result<ProofFile, AllocError> {
    let module = circle.reader;
    let text = reader_file(alloc, circle, body)?;
    Ok(ProofFile {
        path: format!(in alloc; "src/{module}.rt")?,
        text,
    })
}

// The file with names for meanings.
fn parts_source(alloc: Global, circle: Circle<'_>) -> Result<ProofFile, AllocError> {
    let module = circle.parts;
    let text = parts_file(alloc, circle)?;
    Ok(ProofFile {
        path: format!(in alloc; "src/{module}.rt")?,
        text,
    })
}

// The file with the lists of its types.
fn lists_definitions(alloc: Global, circle: Circle<'_>) -> Result<ProofFile, AllocError> {
    let name = circle.name;
    let text = lists_file(alloc, circle)?;
    Ok(ProofFile {
        path: format!(in alloc; "specs/{name}Lists.antt")?,
        text,
    })
}

// The file with its meaning.
fn meaning_definitions(
    alloc: Global,
    circle: Circle<'_>,
    body: &TypeFile,
) -> Result<ProofFile, AllocError> {
    let name = circle.name;
    let text = meaning_file(alloc, circle, body)?;
    Ok(ProofFile {
        path: format!(in alloc; "specs/{name}Meaning.antt")?,
        text,
    })
}

// The file with the clause of its reader.
fn reading_definitions(alloc: Global, circle: Circle<'_>) -> Result<ProofFile, AllocError> {
    let name = circle.name;
    let text = reading_file(alloc, circle)?;
    Ok(ProofFile {
        path: format!(in alloc; "specs/{name}Reading.antt")?,
        text,
    })
}

// The file that proves that it is well tagged.
fn tags_proof(alloc: Global, circle: Circle<'_>, body: &TypeFile) -> Result<ProofFile, AllocError> {
    let name = circle.name;
    let text = tags_file(alloc, circle, body)?;
    Ok(ProofFile {
        path: format!(in alloc; "proofs/{name}Tags.antt")?,
        text,
    })
}

// The answer for its writer.
fn writer_proof(alloc: Global, circle: Circle<'_>) -> Result<ProofFile, AllocError> {
    let name = circle.name;
    let module = circle.module;
    let text = writer_answers(alloc, circle)?;
    Ok(ProofFile {
        path: format!(in alloc; "proofs/{module}/{name}Encode/+{module}/Answers.antt")?,
        text,
    })
}

// The measures of its reader.
fn measures_proof(alloc: Global, circle: Circle<'_>) -> Result<ProofFile, AllocError> {
    let module = circle.reader;
    let text = reader_measures(alloc, circle)?;
    Ok(ProofFile {
        path: format!(in alloc; "proofs/{module}/+{module}/Invariants.antt")?,
        text,
    })
}

// The answers for its reader.
fn reader_proof(alloc: Global, circle: Circle<'_>) -> Result<ProofFile, AllocError> {
    let module = circle.reader;
    let text = reader_answers(alloc, circle)?;
    Ok(ProofFile {
        path: format!(in alloc; "proofs/{module}/+{module}/Answers.antt")?,
        text,
    })
}

/// A knot for the lists of modules.
#[derive(Drop)]
pub struct KnotName {
    /// The name in Rust.
    pub name: String,
    /// Whether each value is valid.
    pub are_valid: bool,
}

/// The text of `specs/Lib.antt` for these knots.
pub fn definition_modules(alloc: Global, knots: &[KnotName]) -> Result<String, AllocError> {
    let mut text = String::new(alloc);
    if knots.iter().any(|knot| knot.are_valid) {
        text.push_str("pub mod Validity\n")?;
    }
    for knot in knots {
        let name = knot.name.as_str();
        let validity = if knot.are_valid {
            format!(in alloc; "pub mod {name}Validity\n")?
        } else {
            String::new(alloc)
        };
        let validity = validity.as_str();
        let lines = format!(in alloc;
            "pub mod {name}Lists\n{validity}pub mod {name}Meaning\npub mod {name}Reading\n"
        )?;
        text.push_str(lines.as_str())?;
    }
    Ok(text)
}

/// The file of definitions that these need, if there is one.
pub fn validity_definitions_file(
    alloc: Global,
    knots: &[KnotName],
) -> Result<Option<ProofFile>, AllocError> {
    if knots.iter().any(|knot| knot.are_valid) {
        Ok(Some(ProofFile {
            path: String::from_str(alloc, "specs/Validity.antt")?,
            text: String::from_str(alloc, VALIDITY_FILE)?,
        }))
    } else {
        Ok(None)
    }
}

/// The text of `proofs/Lib.antt` for these knots.
pub fn proof_modules(alloc: Global, knots: &[KnotName]) -> Result<String, AllocError> {
    let mut text = String::new(alloc);
    for knot in knots {
        let name = knot.name.as_str();
        let line = format!(in alloc; "pub mod {name}Tags\n")?;
        text.push_str(line.as_str())?;
    }
    Ok(text)
}
