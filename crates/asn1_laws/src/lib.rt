//! The laws that every codec keeps, of writing and of reading, and the errors of both.
//!
//! A codec writes records and reads them (`Encoder` of `asn1_enc`, `Decoder` of `asn1_dec`). It defines by relations which records
//! it has written and which are left to be read, and each call changes these. This crate has the words for the relations, their
//! laws, and the lemmas that follow from the laws alone.
//!
//! | Item | What it is |
//! |---|---|
//! | [`EncodeError`] | why a value was not written |
//! | [`DecodeError`], [`Needed`] | why a value was not read |
//! | [`Side`] | where a component is, in the root or among the additions |
//! | [`laws`] | the laws of the derives of these |
//!
//! | File of `specs/` | What it defines |
//! |---|---|
//! | `Writing.antt` | the written records, the relations of an encoder (`Writer`), and the effect of its calls |
//! | `Reading.antt` | the records left to be read, the relations of a decoder (`Reader`), and the effect of its calls |
//! | `WritingUpToOrder.antt`, `ReadingUpToOrder.antt` | the same for a codec that ignores the order inside sets |
//! | `Refusals.antt` | the records that a type refuses by an error of its own |
//! | `SetParts.antt` | the components of a SET, as they are read: one by one, in whatever order |
//! | `GivenTypes.antt`, `Defaults.antt` | a type under what a call is given, and a default that a closure makes |
//! | `WritingTypes.antt`, `ReadingTypes.antt` | calls that write values of a type, and calls that read them |
//! | `OpenSequences.antt` | a SEQUENCE, and a SEQUENCE OF, between the call that opens it and the one that closes it |
//! | `IndexedComponents.antt`, `Sides.antt` | the component at an index, and the side of an extension marker on which it is |
//! | `EncodeErrors.antt`, `DecodeErrors.antt` | the case and the contents of an error |
//!
//! For authors of types whose components are read in their order `proofs/ReadingComponents.antt` has lemmas, and for those of a
//! SET `proofs/ReadingParts.antt` and `proofs/ReadingOnce.antt`. For those of a CHOICE that holds itself there is
//! `proofs/ReadingChoices.antt`. For authors of codecs these are in `proofs/WritingUpToOrder.antt` and
//! `proofs/ReadingUpToOrder.antt`. The other files that begin with `Writing` or `Reading` are the steps of the final calls of
//! `Encoder` and `Decoder`.
#![tactic(auto)]

mod decode_error;
mod encode_error;
pub mod laws;
mod needed;
mod side;

pub use decode_error::DecodeError;
pub use encode_error::EncodeError;
pub use needed::Needed;
pub use side::Side;
