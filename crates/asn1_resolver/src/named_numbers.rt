//! Named numbers and named bits.
use crate::distinct::{find_same_name, find_same_number};
use crate::fault::Fault;
use crate::governed::Scope;
use crate::resolver::Resolver;
use asn1_resolved::NamedNumber;

impl<'r, 'a> Resolver<'r, 'a> {
    /// The named numbers of an INTEGER.
    pub(crate) fn named_numbers(
        &mut self,
        scope: Scope<'a>,
        numbers: &'r [asn1_notation::NamedNumber],
    ) -> Result<Vec<NamedNumber<'a>>, Fault> {
        let mut named = Vec::new(self.alloc);
        for number in numbers {
            let place = scope.place(number.name);
            let value = self.number_name(scope, number.number)?;
            named.push(NamedNumber {
                name: scope.octets(number.name),
                place,
                number: value,
            })?;
        }
        self.require_distinct(named.as_slice())?;
        Ok(named)
    }

    /// The named bits of a BIT STRING.
    pub(crate) fn named_bits(
        &mut self,
        scope: Scope<'a>,
        numbers: &'r [asn1_notation::NamedNumber],
    ) -> Result<Vec<NamedNumber<'a>>, Fault> {
        let named = self.named_numbers(scope, numbers)?;
        for bit in &named {
            if bit.number < 0 {
                return Err(self.refuse(
                    bit.place,
                    &[b"bit '", bit.name, b"' has a number below 0"],
                ));
            }
            if u64::try_from(bit.number).is_err() {
                return Err(self.refuse(
                    bit.place,
                    &[
                        b"bit '",
                        bit.name,
                        b"' has a number that does not fit into 64 bits",
                    ],
                ));
            }
        }
        Ok(named)
    }

    /// Refuses a name that is used twice.
    pub(crate) fn require_names(&mut self, named: &[NamedNumber<'a>]) -> Result<(), Fault> {
        match find_same_name(named) {
            Some(again) => Err(self.refuse(
                again.place,
                &[b"the name '", again.name, b"' stands twice"],
            )),
            None => Ok(()),
        }
    }

    /// Refuses a name or a number that is used twice.
    pub(crate) fn require_distinct(&mut self, named: &[NamedNumber<'a>]) -> Result<(), Fault> {
        self.require_names(named)?;
        if let Some((first, again)) = find_same_number(named) {
            return Err(self.refuse(
                again.place,
                &[
                    b"'",
                    first.name,
                    b"' and '",
                    again.name,
                    b"' have the same number",
                ],
            ));
        }
        Ok(())
    }
}
