//! The words that are no names.
ghost use Rattle.std.specs.Prelude.{◌≡◌, map};
ghost use Rattle.asn1_tokens.specs.Words as spec;

/// The reserved words (X.680, 12.38). ANY, ANY DEFINED BY and the macros of 1988 are no longer reserved: they are spelled
/// as type references.
pub const RESERVED_WORDS: [&[u8]; 91] = [
    b"ABSENT",
    b"ABSTRACT-SYNTAX",
    b"ALL",
    b"APPLICATION",
    b"AUTOMATIC",
    b"BEGIN",
    b"BIT",
    b"BMPString",
    b"BOOLEAN",
    b"BY",
    b"CHARACTER",
    b"CHOICE",
    b"CLASS",
    b"COMPONENT",
    b"COMPONENTS",
    b"CONSTRAINED",
    b"CONTAINING",
    b"DATE",
    b"DATE-TIME",
    b"DEFAULT",
    b"DEFINITIONS",
    b"DURATION",
    b"EMBEDDED",
    b"ENCODED",
    b"ENCODING-CONTROL",
    b"END",
    b"ENUMERATED",
    b"EXCEPT",
    b"EXPLICIT",
    b"EXPORTS",
    b"EXTENSIBILITY",
    b"EXTERNAL",
    b"FALSE",
    b"FROM",
    b"GeneralizedTime",
    b"GeneralString",
    b"GraphicString",
    b"IA5String",
    b"IDENTIFIER",
    b"IMPLICIT",
    b"IMPLIED",
    b"IMPORTS",
    b"INCLUDES",
    b"INSTANCE",
    b"INSTRUCTIONS",
    b"INTEGER",
    b"INTERSECTION",
    b"ISO646String",
    b"MAX",
    b"MIN",
    b"MINUS-INFINITY",
    b"NOT-A-NUMBER",
    b"NULL",
    b"NumericString",
    b"OBJECT",
    b"ObjectDescriptor",
    b"OCTET",
    b"OF",
    b"OID-IRI",
    b"OPTIONAL",
    b"PATTERN",
    b"PDV",
    b"PLUS-INFINITY",
    b"PRESENT",
    b"PrintableString",
    b"PRIVATE",
    b"REAL",
    b"RELATIVE-OID",
    b"RELATIVE-OID-IRI",
    b"SEQUENCE",
    b"SET",
    b"SETTINGS",
    b"SIZE",
    b"STRING",
    b"SYNTAX",
    b"T61String",
    b"TAGS",
    b"TeletexString",
    b"TIME",
    b"TIME-OF-DAY",
    b"TRUE",
    b"TYPE-IDENTIFIER",
    b"UNION",
    b"UNIQUE",
    b"UNIVERSAL",
    b"UniversalString",
    b"UTCTime",
    b"UTF8String",
    b"VideotexString",
    b"VisibleString",
    b"WITH",
];

// Whether the word is in the table.
fn is_in(mut table: &[&[u8]], word: &[u8]) -> bool
    ensures { result ≡ spec.is_among (map (λ k. k.now) table.entry.now) word.now }
{
    while let [known, rest @ ..] = table {
        if *known == word {
            return true;
        }
        table = rest;
    }
    false
}

/// Whether the word is reserved.
pub(crate) fn is_reserved(word: &[u8]) -> bool
    ensures { result ≡ spec.is_reserved word.now }
{
    is_in(&RESERVED_WORDS, word)
}
