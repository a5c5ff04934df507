//! `Folder` of the module `File-Tree`.
//!
//! ```text
//! Folder ::= SEQUENCE {
//!     name UTF8String,
//!     mode INTEGER (0..65535) DEFAULT 493,
//!     changed GeneralizedTime OPTIONAL,
//!     files SET OF File,
//!     folders SEQUENCE OF Folder,
//!     parent Link OPTIONAL,
//!     ...,
//!     labels SEQUENCE OF Label OPTIONAL
//! }
//! ```
ghost use Rattle.std.specs.Prelude.{IfOk, ◌≡◌};
ghost use Rattle.asn1_schema.specs.Words.{IsWellTagged};
ghost use Rattle.folders.specs.FolderMeaning.{in_knot, is_made, meaning};
ghost use Rattle.asn1_schema.specs.model.Premises.{EachIsValid};

use crate::folder_of::FolderOf;
use crate::folder_reader::read_folder;
use crate::link::LinkOf;
use asn1_circles::Knot;
use asn1_schema::{
    AsnType, Constraints, Decode, DecodeError, Decoder, Encode, EncodeError, Encoder, Identifier,
    Tag, TypeTable,
};
use std::alloc::{AllocError, Global};

/// `Folder` of the module `File-Tree`.
///
/// A value is a box of what it is made of.
#[derive(PartialEq, Eq, Debug, Drop)]
pub struct Folder(pub Box<FolderOf<Folder>>);

impl Folder {
    /// A value that is made of this. The error is that of memory.
    pub fn new(alloc: Global, value: FolderOf<Folder>) -> Result<Folder, AllocError>
        ensures { IfOk result (λ made. in_knot made ≡ value) }
    {
        Ok(Folder(Box::new(alloc, value)?))
    }

    /// The value in the box.
    pub fn get(&self) -> &FolderOf<Folder>
        ensures { result.now ≡ in_knot self.now }
    {
        &self.0
    }

    /// Takes the value out of the box.
    pub fn into_inner(self) -> FolderOf<Folder>
        ensures { result ≡ in_knot self }
    {
        Box::into_inner(self.0)
    }
}

impl AsnType for Folder {
    ghost meaning = { meaning };

    fn table() -> TypeTable {
        TypeTable::new(Tag::SEQUENCE, Identifier(Some("Folder")))
    }

    fn is_present(&self) -> bool {
        true
    }
}

/// `Folder` is well tagged, and can be inside other types.
#[tactic(auto, using(crate::proofs::FolderTags::knot_can))]
pub fn folder_is_well_tagged()
    ensures { IsWellTagged ⟦<Folder as AsnType>⟧.meaning }
{}

/// Each `Folder` is valid.
pub fn each_folder_is_valid()
    ensures { EachIsValid ⟦<Folder as AsnType>⟧.meaning }
{}

/// Each `Link` is valid.
pub fn each_link_is_valid()
    ensures { EachIsValid ⟦<LinkOf<Folder> as AsnType>⟧.meaning }
{}

impl Encode for Folder {
    #[cycle(folder)]
    fn encode_with_tag_and_constraints<E: Encoder>(
        &self,
        encoder: &mut E,
        tag: Tag,
        constraints: &Constraints<'_>,
        name: Identifier,
    ) -> Result<(), EncodeError> {
        (*self.0).encode_with_tag_and_constraints(encoder, tag, constraints, name)
    }
}

impl Knot<FolderOf<Folder>> for Folder {
    ghost use Rattle.folders.specs.contracts.folder.FolderPartialEq.TheImpl.Laws.{is};

    ghost made_of = { in_knot };

    fn tie(boxed: Box<FolderOf<Folder>>) -> Folder
        ensures { in_knot result ≡ boxed.value }
    {
        Folder(boxed)
    }

    ghost is_made = { is_made };

    ghost equal = { λ w v. is w v };
}

impl Decode for Folder {
    fn decode_with_tag_and_constraints<D: Decoder>(
        decoder: &mut D,
        tag: Tag,
        constraints: &Constraints<'_>,
    ) -> Result<Folder, DecodeError> {
        read_folder::<DecodeError, D>(decoder, tag, constraints)
    }
}
