//! The kinds of string (X.680, 22, 23 and 41).
ghost use Rattle.std.specs.Prelude.{◌≡◌, ℕ, List, Some, codes};
ghost use Rattle.asn1_tags.specs.Names.{name_of};
ghost use Rattle.asn1_tags.specs.declared.tags.Tag.{Tag};
ghost use Rattle.asn1_model.specs.ConstraintSets.{table_constraints, unconstrained};
ghost use Rattle.asn1_model.specs.declared.type_table.TreeForm.TheVariants.{Leaf};
ghost use Rattle.asn1_model.specs.Records.{Content, bits, units, octet, visible, general, graphic, ia5, printable, numeric, teletex, bmp};
ghost use Rattle.asn1_model.specs.Tags.{universal};

use crate::type_table::TypeTable;
use asn1_tags::{Identifier, Tag};
use asn1_values::kind::{
    Bits, Bmp, General, Graphic, Ia5, NamedBits, Numeric, Octets, PackedBits, Printable, Teletex,
    Visible,
};

/// A kind of string in a schema, by its marker.
pub trait StringType<U> {
    // The tag that X.680 gives the kind (8.4, table 1).
    ghost own_tag: { Tag };

    // Its name.
    ghost own_name: { List ℕ };

    // The content of the units for a codec.
    ghost content: { List U → Content };

    /// The facts that a schema states of the kind.
    fn table() -> TypeTable
        ensures tag { result.tag ≡ own_tag }
        ensures tree { result.tree ≡ Leaf }
        ensures identifier { name_of result.identifier ≡ Some own_name }
        ensures constraints { table_constraints result.constraints ≡ unconstrained };
}

impl StringType<bool> for Bits {
    ghost own_tag = { universal 3 };

    ghost own_name = { codes "BIT_STRING" };

    ghost content = { bits };

    #[inline(always)]
    fn table() -> TypeTable {
        TypeTable::new(Tag::BIT_STRING, Identifier::BIT_STRING)
    }
}

impl StringType<bool> for PackedBits {
    ghost own_tag = { universal 3 };

    ghost own_name = { codes "BIT_STRING" };

    ghost content = { bits };

    #[inline(always)]
    fn table() -> TypeTable {
        TypeTable::new(Tag::BIT_STRING, Identifier::BIT_STRING)
    }
}

impl StringType<bool> for NamedBits {
    ghost own_tag = { universal 3 };

    ghost own_name = { codes "BIT_STRING" };

    ghost content = { bits };

    #[inline(always)]
    fn table() -> TypeTable {
        TypeTable::new(Tag::BIT_STRING, Identifier::BIT_STRING)
    }
}

impl StringType<u8> for Octets {
    ghost own_tag = { universal 4 };

    ghost own_name = { codes "OCTET_STRING" };

    ghost content = { units octet };

    #[inline(always)]
    fn table() -> TypeTable {
        TypeTable::new(Tag::OCTET_STRING, Identifier::OCTET_STRING)
    }
}

impl StringType<u8> for General {
    ghost own_tag = { universal 27 };

    ghost own_name = { codes "GeneralString" };

    ghost content = { units general };

    #[inline(always)]
    fn table() -> TypeTable {
        TypeTable::new(Tag::GENERAL_STRING, Identifier::GENERAL_STRING)
    }
}

impl StringType<u8> for Graphic {
    ghost own_tag = { universal 25 };

    ghost own_name = { codes "GraphicString" };

    ghost content = { units graphic };

    #[inline(always)]
    fn table() -> TypeTable {
        TypeTable::new(Tag::GRAPHIC_STRING, Identifier::GRAPHIC_STRING)
    }
}

impl StringType<u32> for Teletex {
    ghost own_tag = { universal 20 };

    ghost own_name = { codes "TeletexString" };

    ghost content = { units teletex };

    #[inline(always)]
    fn table() -> TypeTable {
        TypeTable::new(Tag::TELETEX_STRING, Identifier::TELETEX_STRING)
    }
}

impl StringType<u16> for Bmp {
    ghost own_tag = { universal 30 };

    ghost own_name = { codes "BMPString" };

    ghost content = { units bmp };

    #[inline(always)]
    fn table() -> TypeTable {
        TypeTable::new(Tag::BMP_STRING, Identifier::BMP_STRING)
    }
}

impl StringType<u8> for Visible {
    ghost own_tag = { universal 26 };

    ghost own_name = { codes "VisibleString" };

    ghost content = { units visible };

    #[inline(always)]
    fn table() -> TypeTable {
        TypeTable::new(Tag::VISIBLE_STRING, Identifier::VISIBLE_STRING)
    }
}

impl StringType<u8> for Ia5 {
    ghost own_tag = { universal 22 };

    ghost own_name = { codes "IA5String" };

    ghost content = { units ia5 };

    #[inline(always)]
    fn table() -> TypeTable {
        TypeTable::new(Tag::IA5_STRING, Identifier::IA5_STRING)
    }
}

impl StringType<u8> for Numeric {
    ghost own_tag = { universal 18 };

    ghost own_name = { codes "NumericString" };

    ghost content = { units numeric };

    #[inline(always)]
    fn table() -> TypeTable {
        TypeTable::new(Tag::NUMERIC_STRING, Identifier::NUMERIC_STRING)
    }
}

impl StringType<u8> for Printable {
    ghost own_tag = { universal 19 };

    ghost own_name = { codes "PrintableString" };

    ghost content = { units printable };

    #[inline(always)]
    fn table() -> TypeTable {
        TypeTable::new(Tag::PRINTABLE_STRING, Identifier::PRINTABLE_STRING)
    }
}
