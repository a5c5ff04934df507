//! The types of the language that an undefined name may mean, without regard to case.
use asn1_names::{DefinedName, Place, nearest_name};
use asn1_notation::Span;
use std::alloc::{AllocError, Global};

// Names of types (X.680, 12.38) and other words for them, in capitals, each with the type as it is written.
const BUILT_IN: &[(&[u8], &[u8])] = &[
    (b"BIT", b"BIT STRING"),
    (b"BMPSTRING", b"BMPString"),
    (b"BOOL", b"BOOLEAN"),
    (b"BOOLEAN", b"BOOLEAN"),
    (b"CHOICE", b"CHOICE"),
    (b"DATE", b"DATE"),
    (b"DATE-TIME", b"DATE-TIME"),
    (b"DURATION", b"DURATION"),
    (b"ENUMERATED", b"ENUMERATED"),
    (b"GENERALIZEDTIME", b"GeneralizedTime"),
    (b"GENERALSTRING", b"GeneralString"),
    (b"GRAPHICSTRING", b"GraphicString"),
    (b"IA5STRING", b"IA5String"),
    (b"INT", b"INTEGER"),
    (b"INTEGER", b"INTEGER"),
    (b"ISO646STRING", b"ISO646String"),
    (b"NULL", b"NULL"),
    (b"NUMERICSTRING", b"NumericString"),
    (b"OBJECTDESCRIPTOR", b"ObjectDescriptor"),
    (b"OBJECT", b"OBJECT IDENTIFIER"),
    (b"OCTET", b"OCTET STRING"),
    (b"PRINTABLESTRING", b"PrintableString"),
    (b"REAL", b"REAL"),
    (b"RELATIVE-OID", b"RELATIVE-OID"),
    (b"SEQUENCE", b"SEQUENCE"),
    (b"SET", b"SET"),
    (b"STRING", b"UTF8String"),
    (b"T61STRING", b"T61String"),
    (b"TELETEXSTRING", b"TeletexString"),
    (b"TIME-OF-DAY", b"TIME-OF-DAY"),
    (b"UNIVERSALSTRING", b"UniversalString"),
    (b"UTCTIME", b"UTCTime"),
    (b"UTF8STRING", b"UTF8String"),
    (b"VIDEOTEXSTRING", b"VideotexString"),
    (b"VISIBLESTRING", b"VisibleString"),
];

/// Whether a name is the word of a type of the language, or the first of its two words.
pub(crate) fn is_built_in(name: &[u8]) -> bool {
    for (_, written) in BUILT_IN {
        if first_word(written) == name {
            return true;
        }
    }
    false
}

// The word before the first space, or all.
fn first_word(words: &[u8]) -> &[u8] {
    match words.iter().position(|octet| *octet == b' ') {
        Some(end) => words.get(..end).unwrap_or(words),
        None => words,
    }
}

/// The type of the language that a name may mean, without regard to case.
pub(crate) fn nearest_built_in(
    alloc: Global,
    name: &[u8],
) -> Result<Option<&'static [u8]>, AllocError> {
    let mut capitals = Vec::new(alloc);
    for octet in name {
        capitals.push(octet.to_ascii_uppercase())?;
    }
    let nearest = nearest_name(alloc, &built_in_names(alloc)?, &capitals)?;
    Ok(match nearest {
        Some(found) => written(found.name),
        None => None,
    })
}

// The names in capitals.
fn built_in_names(alloc: Global) -> Result<Vec<DefinedName<'static>>, AllocError> {
    let place = Place {
        text: 0,
        span: Span { start: 0, end: 0 },
    };
    let mut names = Vec::new(alloc);
    for (name, _) in BUILT_IN {
        names.push(DefinedName {
            module: &[],
            name,
            place,
        })?;
    }
    Ok(names)
}

// The type as it is written, of its name in capitals.
fn written(capitals: &[u8]) -> Option<&'static [u8]> {
    for (name, written) in BUILT_IN {
        if *name == capitals {
            return Some(*written);
        }
    }
    None
}
