//! Items of an ENUMERATED.
use crate::fault::Fault;
use crate::governed::Scope;
use crate::resolver::Resolver;
use asn1_notation::{NumberName, Span};
use asn1_resolved::{Enumeration, EnumerationItem, NamedNumber, Severity};
use std::alloc::{AllocError, Global};

// The items as they are written, with the written numbers.
#[derive(Drop)]
struct WrittenItems<'a> {
    root: Vec<WrittenItem<'a>>,
    is_extensible: bool,
    additions: Vec<WrittenItem<'a>>,
}

// An item with its number, if it is written.
#[derive(Clone, Copy)]
struct WrittenItem<'a> {
    name: &'a [u8],
    span: Span,
    number: Option<i128>,
}

impl<'r, 'a> Resolver<'r, 'a> {
    /// The items of an ENUMERATED, each with its number (X.680, 20.3 to 20.6).
    pub(crate) fn enumeration(
        &mut self,
        scope: Scope<'a>,
        items: &'r [asn1_notation::EnumerationItem],
    ) -> Result<Enumeration<'a>, Fault> {
        let written = self.written_items(scope, items)?;
        let mut numbered = number_root(self.alloc, scope, written.root.as_slice())?;
        let root = self.items(numbered.as_slice())?;
        let added = self.number_additions(scope, &numbered, written.additions.as_slice())?;
        let additions = self.items(added.as_slice())?;
        numbered.extend_from_slice(added.as_slice())?;
        self.require_distinct(numbered.as_slice())?;
        Ok(Enumeration {
            root,
            is_extensible: written.is_extensible,
            additions,
        })
    }

    // The items as they are written.
    fn written_items(
        &mut self,
        scope: Scope<'a>,
        items: &'r [asn1_notation::EnumerationItem],
    ) -> Result<WrittenItems<'a>, Fault> {
        let mut root = Vec::new(self.alloc);
        let mut additions = Vec::new(self.alloc);
        let mut is_extensible = false;
        for item in items {
            match item {
                asn1_notation::EnumerationItem::Item(name, number) => {
                    let item = self.written_item(scope, *name, *number)?;
                    if is_extensible {
                        additions.push(item)?;
                    } else {
                        root.push(item)?;
                    }
                }
                asn1_notation::EnumerationItem::Marker(start) => {
                    self.require_first_marker(scope, *start, is_extensible)?;
                    is_extensible = true;
                }
            }
        }
        Ok(WrittenItems {
            root,
            is_extensible: is_extensible || scope.module.is_extensible,
            additions,
        })
    }

    // An item as it is written.
    fn written_item(
        &mut self,
        scope: Scope<'a>,
        name: Span,
        number: Option<NumberName>,
    ) -> Result<WrittenItem<'a>, Fault> {
        let number = match number {
            Some(number) => Some(self.number_name(scope, number)?),
            None => None,
        };
        Ok(WrittenItem {
            name: scope.octets(name),
            span: name,
            number,
        })
    }

    // Refuses a second extension marker.
    fn require_first_marker(
        &mut self,
        scope: Scope<'a>,
        start: usize,
        is_extensible: bool,
    ) -> Result<(), Fault> {
        if is_extensible {
            Err(self.refuse(
                scope.place_at(start),
                &[b"an ENUMERATED has one extension marker"],
            ))
        } else {
            Ok(())
        }
    }

    // Numbers the items behind the extension marker.
    fn number_additions(
        &mut self,
        scope: Scope<'a>,
        root: &[NamedNumber<'a>],
        items: &[WrittenItem<'a>],
    ) -> Result<Vec<NamedNumber<'a>>, Fault> {
        let mut numbered = Vec::new(self.alloc);
        let mut next: i128 = 0;
        let mut last: i128 = i128::MIN;
        for item in items {
            let place = scope.place(item.span);
            let number = match item.number {
                Some(number) => number,
                None => first_free(root, next),
            };
            if number < last {
                self.report(
                    place,
                    Severity::Warning,
                    &[
                        b"item '",
                        item.name,
                        b"' has a lower number than an addition before it",
                    ],
                )?;
            }
            numbered.push(NamedNumber {
                name: item.name,
                place,
                number,
            })?;
            next = number.saturating_add(1);
            last = number;
        }
        Ok(numbered)
    }

    // The items, with numbers of 64 bits.
    fn items(&mut self, numbered: &[NamedNumber<'a>]) -> Result<Vec<EnumerationItem<'a>>, Fault> {
        let mut items = Vec::new(self.alloc);
        for item in numbered {
            let Ok(number) = i64::try_from(item.number) else {
                return Err(self.refuse(
                    item.place,
                    &[
                        b"the number of item '",
                        item.name,
                        b"' does not fit into 64 bits",
                    ],
                ));
            };
            items.push(EnumerationItem {
                name: item.name,
                place: item.place,
                number,
            })?;
        }
        Ok(items)
    }
}

// Numbers the items before the extension marker: those without a number have the first that no other has.
fn number_root<'a>(
    alloc: Global,
    scope: Scope<'a>,
    items: &[WrittenItem<'a>],
) -> Result<Vec<NamedNumber<'a>>, AllocError> {
    let taken = written_numbers(alloc, scope, items)?;
    let mut numbered = Vec::new(alloc);
    let mut next: i128 = 0;
    for item in items {
        let number = match item.number {
            Some(number) => number,
            None => {
                let free = first_free(taken.as_slice(), next);
                next = free.saturating_add(1);
                free
            }
        };
        numbered.push(NamedNumber {
            name: item.name,
            place: scope.place(item.span),
            number,
        })?;
    }
    Ok(numbered)
}

// The items that have a number.
fn written_numbers<'a>(
    alloc: Global,
    scope: Scope<'a>,
    items: &[WrittenItem<'a>],
) -> Result<Vec<NamedNumber<'a>>, AllocError> {
    let mut written = Vec::new(alloc);
    for item in items {
        if let Some(number) = item.number {
            written.push(NamedNumber {
                name: item.name,
                place: scope.place(item.span),
                number,
            })?;
        }
    }
    Ok(written)
}

// The least number from one on that none of these items has.
fn first_free(taken: &[NamedNumber<'_>], from: i128) -> i128 {
    let mut candidate = from;
    for _ in taken {
        if !is_taken(taken, candidate) {
            return candidate;
        }
        candidate = candidate.saturating_add(1);
    }
    candidate
}

// Whether one of these items has a number.
fn is_taken(taken: &[NamedNumber<'_>], number: i128) -> bool {
    for item in taken {
        if item.number == number {
            return true;
        }
    }
    false
}
