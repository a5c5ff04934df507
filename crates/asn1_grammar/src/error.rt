//! Why a text is no module.
use asn1_notation::Span;
use asn1_tokens::Refusal;
use std::alloc::{AllocError, AllocFailed};
use std::fmt;

/// What was expected at a place.
#[derive(Clone, Copy, Debug, PartialEq, Eq)]
pub enum Expected {
    /// A value.
    Value,
    /// A type.
    Type,
    /// A number.
    Number,
    /// The name of a value.
    ValueName,
    /// The name of a type.
    TypeName,
    /// The name of a module.
    ModuleName,
    /// The name of an alternative.
    AlternativeName,
    /// The name of a component.
    ComponentName,
    /// The name of the elements.
    ElementName,
    /// The name of an item, or '...'.
    ItemName,
    /// The name of an arc.
    ArcName,
    /// The name of a number.
    NumberName,
    /// The name of a type or of a value.
    AnyName,
    /// The name of a field, behind '&'.
    FieldName,
    /// The name of an object or an object set, or an object in braces.
    ObjectName,
    /// A word of the syntax of a class.
    SyntaxWord,
    /// A definition, or END.
    Definition,
    /// '::='.
    Assignment,
    /// '{'.
    OpenBrace,
    /// '{' or OF.
    OpenBraceOrOf,
    /// '}'.
    CloseBrace,
    /// '}' or ','.
    CloseBraceOrComma,
    /// '('.
    OpenParenthesis,
    /// ')'.
    CloseParenthesis,
    /// ']'.
    CloseBracket,
    /// ']]'.
    CloseVersion,
    /// ']]' or ','.
    CloseVersionOrComma,
    /// ':'.
    Colon,
    /// ','.
    Comma,
    /// ',' or FROM.
    CommaOrFrom,
    /// '.'.
    Dot,
    /// '..'.
    Range,
    /// '...'.
    Ellipsis,
    /// ';'.
    Semicolon,
    /// ';' or ','.
    SemicolonOrComma,
    /// BEGIN.
    Begin,
    /// BY.
    By,
    /// COMPONENT or COMPONENTS.
    Components,
    /// DEFINITIONS.
    Definitions,
    /// EXCEPT.
    Except,
    /// IDENTIFIER.
    Identifier,
    /// IMPLIED.
    Implied,
    /// OF.
    Of,
    /// STRING.
    String,
    /// TAGS.
    Tags,
}

impl Expected {
    // The words for it in a message.
    fn words(self) -> &'static str {
        match self {
            Expected::Value => "a value",
            Expected::Type => "a type",
            Expected::Number => "a number",
            Expected::ValueName => "the name of a value",
            Expected::TypeName => "the name of a type",
            Expected::ModuleName => "the name of a module",
            Expected::AlternativeName => "the name of an alternative",
            Expected::ComponentName => "the name of a component",
            Expected::ElementName => "the name of the elements",
            Expected::ItemName => "the name of an item, or '...'",
            Expected::ArcName => "the name of an arc",
            Expected::NumberName => "the name of a number",
            Expected::AnyName => "the name of a type or of a value",
            Expected::FieldName => "the name of a field, behind '&'",
            Expected::ObjectName => "an object or an object set",
            Expected::SyntaxWord => "a word, a comma or the name of a field",
            Expected::Definition => "a definition, or END",
            Expected::Assignment => "'::='",
            Expected::OpenBrace => "'{'",
            Expected::OpenBraceOrOf => "'{' or OF",
            Expected::CloseBrace => "'}'",
            Expected::CloseBraceOrComma => "'}' or ','",
            Expected::OpenParenthesis => "'('",
            Expected::CloseParenthesis => "')'",
            Expected::CloseBracket => "']'",
            Expected::CloseVersion => "']]'",
            Expected::CloseVersionOrComma => "']]' or ','",
            Expected::Colon => "':'",
            Expected::Comma => "','",
            Expected::CommaOrFrom => "',' or FROM",
            Expected::Dot => "'.'",
            Expected::Range => "'..'",
            Expected::Ellipsis => "'...'",
            Expected::Semicolon => "';'",
            Expected::SemicolonOrComma => "';' or ','",
            Expected::Begin => "BEGIN",
            Expected::By => "BY",
            Expected::Components => "COMPONENT or COMPONENTS",
            Expected::Definitions => "DEFINITIONS",
            Expected::Except => "EXCEPT",
            Expected::Identifier => "IDENTIFIER",
            Expected::Implied => "IMPLIED",
            Expected::Of => "OF",
            Expected::String => "STRING",
            Expected::Tags => "TAGS",
        }
    }
}

impl fmt::Display for Expected {
    fn fmt<W: fmt::Write>(&self, f: &mut fmt::Formatter<W>) -> fmt::Result {
        f.write_str(self.words())
    }
}

/// What has the name behind which something was expected.
#[derive(Clone, Copy, Debug, PartialEq, Eq)]
pub enum Owner {
    /// Module.
    Module,
    /// The name.
    Name,
    /// Component.
    Component,
    /// Field.
    Field,
    /// Item.
    Item,
    /// Number.
    Number,
    /// The type of value.
    Value,
}

impl Owner {
    // The words for it in a message.
    fn words(self) -> &'static str {
        match self {
            Owner::Module => "module",
            Owner::Name => "the name",
            Owner::Component => "component",
            Owner::Field => "field",
            Owner::Item => "item",
            Owner::Number => "number",
            Owner::Value => "the type of value",
        }
    }
}

impl fmt::Display for Owner {
    fn fmt<W: fmt::Write>(&self, f: &mut fmt::Formatter<W>) -> fmt::Result {
        f.write_str(self.words())
    }
}

/// A construct of X.680 to X.683 that is not taken.
#[derive(Clone, Copy, Debug, PartialEq, Eq)]
pub enum Construct {
    /// A value of REAL.
    RealValue,
    /// OID-IRI.
    OidIri,
    /// RELATIVE-OID-IRI.
    RelativeOidIri,
    /// TIME.
    Time,
    /// An information object class where a type is.
    Class,
    /// A parameterized value.
    ParameterizedValue,
    /// A field of an object set where a value is.
    SetField,
}

impl Construct {
    // The words for it in a message.
    fn words(self) -> &'static str {
        match self {
            Construct::RealValue => "a value of REAL",
            Construct::OidIri => "OID-IRI",
            Construct::RelativeOidIri => "RELATIVE-OID-IRI",
            Construct::Time => "TIME",
            Construct::Class => "an information object class as a type",
            Construct::ParameterizedValue => "a parameterized value",
            Construct::SetField => "a field of an object set as a value",
        }
    }
}

impl fmt::Display for Construct {
    fn fmt<W: fmt::Write>(&self, f: &mut fmt::Formatter<W>) -> fmt::Result {
        f.write_str(self.words())
    }
}

/// A frequent slip, told by what to write.
#[derive(Clone, Copy, Debug, PartialEq, Eq)]
pub enum Slip {
    /// An underscore in a name.
    Underscore,
    /// A comment behind two slashes.
    Slashes,
    /// A type whose name begins with a small letter.
    SmallLetter,
    /// IMPORTS that no semicolon ends.
    OpenImports,
    /// A range with a hyphen.
    HyphenRange,
    /// Components in parentheses.
    Parentheses,
    /// A size that no parentheses enclose.
    BareSize,
}

impl Slip {
    // The words for it in a message.
    fn words(self) -> &'static str {
        match self {
            Slip::Underscore => "'_' is no character of ASN.1: a name has hyphens",
            Slip::Slashes => "'//' begins no comment: '--' and '/*' do",
            Slip::SmallLetter => "the name of a type begins with a capital letter",
            Slip::OpenImports => "a ';' is missing behind the last name of a module in IMPORTS",
            Slip::HyphenRange => "a range is written with two dots, as (0..255)",
            Slip::Parentheses => "components, alternatives and items are in braces",
            Slip::BareSize => "a constraint is in parentheses, as (SIZE (1..5))",
        }
    }
}

impl fmt::Display for Slip {
    fn fmt<W: fmt::Write>(&self, f: &mut fmt::Formatter<W>) -> fmt::Result {
        f.write_str(self.words())
    }
}

/// What was not read as it should be.
#[derive(Clone, Copy, Debug, PartialEq, Eq)]
pub enum Cause {
    /// No lexical item begins here.
    NoItem(Refusal),
    /// Something else was expected here.
    Expected(Expected),
    /// Something else was expected behind what has this name.
    ExpectedAfter(Expected, Owner, Span),
    /// A frequent slip is here.
    Slip(Slip),
    /// A construct that is not taken.
    NotTaken(Construct),
    /// Types, values or constraints are nested deeper than [`MAX_DEPTH`](crate::MAX_DEPTH).
    TooDeep,
}

/// A place of a text that was not read, and why.
#[derive(Clone, Copy, Debug, PartialEq, Eq)]
pub struct SyntaxError {
    /// The item that is there. It is empty at the end of the text.
    pub found: Span,
    /// The cause.
    pub cause: Cause,
    /// The name of the definition that is in error. Behind an error in no definition the text was not read.
    pub definition: Option<Span>,
}

/// Why a part of a text was not read.
#[derive(Clone, Copy, Debug, PartialEq, Eq)]
pub(crate) enum Fault {
    /// The text is in error.
    Syntax(SyntaxError),
    /// Memory ran out.
    Memory,
}

impl From<AllocError> for Fault {
    fn from(_refused: AllocError) -> Self {
        Fault::Memory
    }
}

impl<T: Drop> From<AllocFailed<T>> for Fault {
    fn from(_refused: AllocFailed<T>) -> Self {
        Fault::Memory
    }
}
