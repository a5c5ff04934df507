//! What a file of a type is made of.
use asn1_rust_code::{Import, TagNumber, Tagging, TypeName};

/// A file of a type.
#[derive(Drop)]
pub struct TypeFile {
    /// The crate, as clauses name it.
    pub crate_name: String,
    /// The lines of the page at its head.
    pub page: Vec<String>,
    /// The module that it is.
    pub module: String,
    /// The name of the type in Rust, with its parameter if it has one, as `CallOf<T>`.
    pub name: String,
    /// The name in ASN.1.
    pub asn1_name: String,
    /// What the type is.
    pub summary: String,
    /// The type.
    pub body: TypeBody,
    /// The module of `specs/` with its lists, if the type has a parameter: it is of a circle of types.
    pub lists: Option<String>,
    /// The names of the types that hold themselves among those in it, but for that of its own circle.
    pub knots: Vec<String>,
    /// Its law of one spelling, if it has one, by the laws that it follows from.
    pub spelling: Option<SpellingLaw>,
}

impl TypeFile {
    /// The name of the type without its parameter.
    pub fn plain_name(&self) -> &str {
        let name = self.name.as_str();
        name.strip_suffix(PARAMETER).unwrap_or(name)
    }
}

/// The law that a type has one spelling.
#[derive(Drop)]
pub struct SpellingLaw {
    /// The laws of its parts that it follows from.
    pub premises: Vec<LawCall>,
}

/// A call of a law.
#[derive(Drop)]
pub struct LawCall {
    /// The name of the function.
    pub function: String,
    /// Its type argument, if it has one.
    pub argument: Option<String>,
    /// The names that a file imports to write the call.
    pub imports: Vec<Import>,
}

/// The parameter of a type of a circle, behind its name.
pub(crate) const PARAMETER: &str = "<T>";

/// A type with a file of its own.
#[derive(Drop)]
pub enum TypeBody {
    /// SEQUENCE.
    Sequence(Constructed),
    /// SET.
    Set(Constructed),
    /// Additions in version brackets.
    Group(Constructed),
    /// CHOICE.
    Choice(ChoiceType),
    /// ENUMERATED.
    Enumerated(Enumeration),
    /// A string with constraints.
    RestrictedString(RestrictedString),
}

/// A SEQUENCE, a SET, or a group of additions.
#[derive(Drop)]
pub struct Constructed {
    /// The tag of the type, if it is not that of its kind.
    pub tag: Option<TagNumber>,
    /// The components.
    pub components: Vec<Component>,
    /// The number of components in front of the extension marker, if there is one.
    pub extension_index: Option<usize>,
    /// The indices of the components in the order of their tags, if that is another.
    pub table: Vec<usize>,
    /// The trees of tags of a group's components.
    pub trees: Vec<Tree>,
    /// Whether it is a group of a SET.
    pub is_of_set: bool,
}

/// A component.
#[derive(Drop)]
pub struct Component {
    /// The name in ASN.1.
    pub name: String,
    /// The name of its field.
    pub field: String,
    /// Its definition in ASN.1.
    pub notation: String,
    /// Its type.
    pub definition: TypeName,
    /// Its tagging.
    pub tagging: Tagging,
    /// Whether it may be absent.
    pub usage: Usage,
    /// Whether it is behind the extension marker.
    pub is_addition: bool,
    /// How its type holds the parameter of the type that it is in, if it does.
    pub held: Option<Held>,
}

/// How a type holds the parameter of a type of a circle: by itself or in a type of the circle, inside lists.
#[derive(Drop)]
pub struct Held {
    /// The lists, the outermost first.
    pub lists: Vec<ListKind>,
    /// The module of the type of the circle; the type is the parameter itself if there is none.
    pub member: Option<String>,
}

/// A kind of list.
#[derive(Clone, Copy, Debug, PartialEq, Eq)]
pub enum ListKind {
    /// SEQUENCE OF.
    SequenceOf,
    /// SET OF.
    SetOf,
}

/// Whether a component may be absent.
#[derive(Drop)]
pub enum Usage {
    /// It is always there.
    Required,
    /// OPTIONAL.
    Optional,
    /// DEFAULT.
    Default(DefaultValue),
    /// DEFAULT {}, for elements of this type.
    EmptyList(TypeName),
    /// It is a group of additions of a SEQUENCE, whose trees are this constant.
    Group(String),
    /// It is one of a SET.
    GroupOfSet(String),
}

/// The value of a DEFAULT.
#[derive(Drop)]
pub struct DefaultValue {
    /// The value in code.
    pub code: String,
    /// The value in clauses.
    pub term: String,
    /// The sign of the language that clauses need for it.
    pub sign: Option<&'static str>,
    /// The line that brings in the names of clauses for it.
    pub ghost_line: Option<String>,
}

/// A tree of tags with which a type can begin.
#[derive(Drop)]
pub enum Tree {
    /// One tag.
    Leaf(TagNumber),
    /// Those of a CHOICE, by the constant that has them.
    Choice(Import),
}

/// A CHOICE.
#[derive(Drop)]
pub struct ChoiceType {
    /// The alternatives.
    pub alternatives: Vec<Alternative>,
    /// The number of alternatives in front of the extension marker, if there is one.
    pub extension_index: Option<usize>,
}

/// An alternative.
#[derive(Drop)]
pub struct Alternative {
    /// The name in ASN.1.
    pub name: String,
    /// The name of its variant.
    pub variant: String,
    /// Its definition in ASN.1.
    pub notation: String,
    /// Its type.
    pub definition: TypeName,
    /// Its tagging.
    pub tagging: Tagging,
    /// The tags with which it can begin.
    pub tree: Tree,
    /// Whether its type is NULL, under a name of its own too.
    pub is_null: bool,
    /// Whether its type is a list with elements behind an explicit tag, under names of their own too.
    pub has_explicit_elements: bool,
    /// How its type holds the parameter of the type that it is in, if it does.
    pub held: Option<Held>,
}

/// An ENUMERATED.
#[derive(Drop)]
pub struct Enumeration {
    /// The items.
    pub items: Vec<Item>,
    /// The number of items in front of the extension marker, if there is one.
    pub extension_index: Option<usize>,
}

/// An item of an ENUMERATED.
#[derive(Drop)]
pub struct Item {
    /// The name in ASN.1.
    pub name: String,
    /// The name of its variant.
    pub variant: String,
    /// The number.
    pub number: i64,
}

/// A string of limited size, of chosen characters, or both.
#[derive(Drop)]
pub struct RestrictedString {
    /// The string.
    pub content: TypeName,
    /// Its tag.
    pub tag: TagNumber,
    /// Its sizes, if they are limited.
    pub sizes: Option<Sizes>,
    /// The codes of its characters; empty if they are not limited.
    pub characters: Vec<u32>,
}

/// The sizes of a string.
#[derive(Clone, Copy, Debug, PartialEq, Eq)]
pub struct Sizes {
    /// The least.
    pub least: u64,
    /// The greatest, if there is one.
    pub greatest: Option<u64>,
}
