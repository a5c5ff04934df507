//! The built-in integers: an INTEGER (X.680, 19) within the bound of the type.
ghost use Rattle.std.specs.Prelude.{◌≡◌, ◌<◌, ◌^◌, pos, negsuc, None, Some, codes};
ghost use Rattle.asn1_ranges.specs.declared.bounded.Bounded.TheVariants as bounded;
ghost use Rattle.asn1_tags.specs.Names.{name_of};
ghost use Rattle.asn1_model.specs.declared.type_table.TreeForm.TheVariants.{Leaf};
ghost use Rattle.asn1_model.specs.ConstraintSets.{table_constraints, values_of};
ghost use Rattle.asn1_model.specs.Kinds.{integer_type};
ghost use Rattle.asn1_model.specs.Tags.{universal};

use crate::asn_type::AsnType;
use crate::type_table::TypeTable;
use asn1_bounds::{Bounded, ConstraintTable, Value};
use asn1_tags::{Identifier, Tag};

/// The table of an INTEGER within a bound.
#[inline(always)]
pub(super) fn integer_within(bound: Bounded<i128>) -> TypeTable
    ensures tag { result.tag ≡ universal 2 }
    ensures tree { result.tree ≡ Leaf }
    ensures identifier { name_of result.identifier ≡ Some (codes "INTEGER") }
    ensures constraints { table_constraints result.constraints ≡ values_of bound }
{
    let constraints = ConstraintTable::from(Value::new(bound));
    TypeTable::new(Tag::INTEGER, Identifier::INTEGER).with_constraints(constraints)
}

impl AsnType for u8 {
    ghost meaning = { integer_type pos (bounded.Range (Some (pos 0)) (Some (pos 255))) };

    #[inline(always)]
    fn table() -> TypeTable {
        integer_within(Bounded::const_new(u8::MIN as i128, u8::MAX as i128))
    }

    #[inline(always)]
    fn is_present(&self) -> bool {
        true
    }
}

impl AsnType for u16 {
    ghost meaning = { integer_type pos (bounded.Range (Some (pos 0)) (Some (pos 65535))) };

    #[inline(always)]
    fn table() -> TypeTable {
        integer_within(Bounded::const_new(u16::MIN as i128, u16::MAX as i128))
    }

    #[inline(always)]
    fn is_present(&self) -> bool {
        true
    }
}

impl AsnType for u32 {
    ghost meaning = { integer_type pos (bounded.Range (Some (pos 0)) (Some (pos 4294967295))) };

    #[inline(always)]
    fn table() -> TypeTable {
        integer_within(Bounded::const_new(u32::MIN as i128, u32::MAX as i128))
    }

    #[inline(always)]
    fn is_present(&self) -> bool {
        true
    }
}

impl AsnType for u64 {
    ghost meaning = { integer_type pos (bounded.Range (Some (pos 0)) (Some (pos 18446744073709551615))) };

    #[inline(always)]
    fn table() -> TypeTable {
        integer_within(Bounded::const_new(u64::MIN as i128, u64::MAX as i128))
    }

    #[inline(always)]
    fn is_present(&self) -> bool {
        true
    }
}

impl AsnType for usize {
    ghost meaning = { integer_type pos (bounded.Range (Some (pos 0)) (Some (pos 18446744073709551615))) };

    #[inline(always)]
    fn table() -> TypeTable {
        integer_within(Bounded::const_new(usize::MIN as i128, usize::MAX as i128))
    }

    #[inline(always)]
    fn is_present(&self) -> bool {
        true
    }
}

impl AsnType for i8 {
    ghost meaning = { integer_type (λ n. n) (bounded.Range (Some (negsuc 127)) (Some (pos 127))) };

    #[inline(always)]
    fn table() -> TypeTable {
        integer_within(Bounded::const_new(i8::MIN as i128, i8::MAX as i128))
    }

    #[inline(always)]
    fn is_present(&self) -> bool {
        true
    }
}

impl AsnType for i16 {
    ghost meaning = { integer_type (λ n. n) (bounded.Range (Some (negsuc 32767)) (Some (pos 32767))) };

    #[inline(always)]
    fn table() -> TypeTable {
        integer_within(Bounded::const_new(i16::MIN as i128, i16::MAX as i128))
    }

    #[inline(always)]
    fn is_present(&self) -> bool {
        true
    }
}

impl AsnType for i32 {
    ghost meaning = { integer_type (λ n. n) (bounded.Range (Some (negsuc 2147483647)) (Some (pos 2147483647))) };

    #[inline(always)]
    fn table() -> TypeTable {
        integer_within(Bounded::const_new(i32::MIN as i128, i32::MAX as i128))
    }

    #[inline(always)]
    fn is_present(&self) -> bool {
        true
    }
}

impl AsnType for i64 {
    ghost meaning = { integer_type (λ n. n) (bounded.Range (Some (negsuc 9223372036854775807)) (Some (pos 9223372036854775807))) };

    #[inline(always)]
    fn table() -> TypeTable {
        integer_within(Bounded::const_new(i64::MIN as i128, i64::MAX as i128))
    }

    #[inline(always)]
    fn is_present(&self) -> bool {
        true
    }
}

impl AsnType for isize {
    ghost meaning = { integer_type (λ n. n) (bounded.Range (Some (negsuc 9223372036854775807)) (Some (pos 9223372036854775807))) };

    #[inline(always)]
    fn table() -> TypeTable {
        integer_within(Bounded::const_new(isize::MIN as i128, isize::MAX as i128))
    }

    #[inline(always)]
    fn is_present(&self) -> bool {
        true
    }
}

impl AsnType for i128 {
    ghost meaning = { integer_type (λ n. n) (bounded.Range (Some (negsuc 170141183460469231731687303715884105727)) (Some (pos 170141183460469231731687303715884105727))) };

    #[inline(always)]
    fn table() -> TypeTable {
        integer_within(Bounded::const_new(i128::MIN, i128::MAX))
    }

    #[inline(always)]
    fn is_present(&self) -> bool {
        true
    }
}

impl AsnType for u128 {
    // Its numbers end with 128 bits, and its bound does not say so.
    ghost meaning = { record (integer_type pos (bounded.Range (Some (pos 0)) None)) { IsOfType = λ n. n < 2 ^ 128 } };

    #[inline(always)]
    fn table() -> TypeTable {
        integer_within(Bounded::start_from(0))
    }

    #[inline(always)]
    fn is_present(&self) -> bool {
        true
    }
}
