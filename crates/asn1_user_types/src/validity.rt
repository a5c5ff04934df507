//! The valid values of the types: all, and for a [`Signed`] those with valid content. Each type's own file states that the
//! type is well tagged.
ghost use Rattle.std.specs.Prelude.{Bool, List, ℕ, ◌↔◌};

use crate::currency::Currency;
use crate::order::Order;
use crate::price::Price;
use crate::signed::Signed;
use asn1_schema::AsnType;

/// Each `Currency` is valid.
pub fn currency_is_valid(currency: &Currency)
    ensures { (accepts : List ℕ → Bool) →
        ⟦<Currency as AsnType>⟧.meaning.IsValid accepts currency.now }
{}

/// Each `Price` is valid.
pub fn price_is_valid(price: &Price)
    ensures { (accepts : List ℕ → Bool) →
        ⟦<Price as AsnType>⟧.meaning.IsValid accepts price.now }
{}

/// Each `Order` is valid.
pub fn order_is_valid(order: &Order)
    ensures { (accepts : List ℕ → Bool) →
        ⟦<Order as AsnType>⟧.meaning.IsValid accepts order.now }
{}

/// A `Signed` is valid if and only if its content is.
pub fn signed_is_valid<T: AsnType>(signed: &Signed<T>)
    ensures { (accepts : List ℕ → Bool) →
        ⟦<Signed<T> as AsnType>⟧.meaning.IsValid accepts signed.now ↔
        T.meaning.IsValid accepts signed.now.content }
{}
