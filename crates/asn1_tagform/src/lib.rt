//! The tag form, a codec over items with tags and no presence marks.
//!
//! | Item | What it is |
//! |---|---|
//! | [`TagRules`] | the codec as a whole |
//! | [`NextItem`] | how it tells what may be absent |
//! | [`canonical`] | values without sets have one spelling |
//! | [`laws`] | what it is, and what the derives give |
//!
//! The items are those of the packed form (`asn1_items`), without the bytes of presence marks, and the encoder and the decoder
//! are those of `asn1_bench`. A component that may be absent is there if and only if an item follows in the scope whose class and
//! number are one of its tags; a group if and only if they are one of those of its components. An open type, and a choice of
//! nothing, can begin with any tag.
//!
//! Promises, and the words of the contracts:
//!
//! - [`TagRules`] keep the laws of every codec (`Rules` of `asn1_rules`), so that what is written is read back equal. Their format
//!   is `tag_format` of `specs/Format.antt`: bytes carry the records whose items they are, up to the order inside sets
//!   (`CarriesWith` of `asn1_bench`, with `no_marks` of `specs/Next.antt`). Records are rejected that are too long, and no others
//!   ([`laws::the_tag_form_has_its_bytes`]).
//! - Trailing records are refused, if they are not presence marks alone, which have no bytes here (`none_left` of `read_value`).
//! - What is written of a valid value without a SET or SET OF is its only spelling, for a type whose equal values have the same
//!   records (`what_is_written_is_the_only_spelling` of [`canonical`]), and `read_canonical` of `asn1_rules` reads it back equal, if the
//!   type is well tagged, unless memory runs out or the depth is too small.
//! - Each call of the decoder that succeeds has read what it answers, and nothing else, as in the packed form. So what `read_value`
//!   answers was read of records that the bytes carry (`only`). No contract says by which error other bytes are refused; tests try
//!   such bytes. The errors are those of the packed form.
#![tactic(auto)]

pub mod canonical;
pub mod laws;
mod next_item;
mod rules;

pub use next_item::NextItem;
pub use rules::TagRules;
