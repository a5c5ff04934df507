//! Tags.
use crate::fault::Fault;
use crate::governed::Governed;
use crate::resolver::Resolver;
use asn1_notation::{TagClass, TagDefault, TagMode};
use asn1_resolved::{Severity, Tag};

impl<'r, 'a> Resolver<'r, 'a> {
    /// A tag that is written before a type (X.680, 31.2.7).
    pub(crate) fn tag(
        &mut self,
        tag: &asn1_notation::Tag,
        inner: Governed<'r, 'a>,
    ) -> Result<Tag, Fault> {
        let number = self.tag_number(tag, inner)?;
        if tag.class == TagClass::Universal && number == 0 {
            return Err(self.refuse(
                inner.place(),
                &[b"the tag [UNIVERSAL 0] is reserved for the end of contents"],
            ));
        }
        let has_no_tag = self.has_no_tag(inner)?;
        let is_explicit = match tag.mode {
            Some(TagMode::Explicit) => true,
            Some(TagMode::Implicit) => {
                if has_no_tag {
                    return Err(self.refuse(
                        inner.place(),
                        &[b"a tag before a CHOICE or an open type is EXPLICIT, and not IMPLICIT"],
                    ));
                }
                false
            }
            None => {
                has_no_tag
                    || inner.scope.module.tagging == TagDefault::Explicit
                    || self.is_explicit_before(inner)?
            }
        };
        Ok(Tag {
            class: tag.class,
            number,
            is_explicit,
        })
    }

    // Whether a tag is EXPLICIT since a parameter is behind it (X.680, 31.2.7 c), whatever its argument is.
    fn is_explicit_before(&mut self, inner: Governed<'r, 'a>) -> Result<bool, Fault> {
        let is_parameter = self.is_parameter(inner);
        if is_parameter {
            self.report(
                inner.place(),
                Severity::Warning,
                &[
                    b"the tag before a parameter is EXPLICIT (X.680, 31.2.7), also where other compilers put it on as IMPLICIT",
                ],
            )?;
        }
        Ok(is_parameter)
    }

    // The number of a tag.
    fn tag_number(
        &mut self,
        tag: &asn1_notation::Tag,
        inner: Governed<'r, 'a>,
    ) -> Result<u32, Fault> {
        let number = self.number_name(inner.scope, tag.number)?;
        match u32::try_from(number) {
            Ok(number) => Ok(number),
            Err(_) => Err(self.refuse(
                inner.place(),
                &[b"the number of a tag is from 0 to 4294967295"],
            )),
        }
    }

    /// The tag that is put on a component or an alternative (X.680, 25.9 and 29.4).
    pub(crate) fn automatic_tag(
        &mut self,
        number: u32,
        inner: Governed<'r, 'a>,
    ) -> Result<Tag, Fault> {
        let has_no_tag = self.has_no_tag(inner)?;
        let is_explicit = has_no_tag || self.is_explicit_before(inner)?;
        Ok(Tag {
            class: TagClass::Context,
            number,
            is_explicit,
        })
    }
}
