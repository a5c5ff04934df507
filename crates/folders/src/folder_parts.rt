//! The types in the circle of `Folder` that hold no type of it.

use crate::file::File;
use crate::label::Label;
use asn1_circles::Meant;
use asn1_schema::{AsnType, GeneralizedTime, SetOf, Utf8String};

/// The meaning of `Utf8String`.
pub(crate) struct LinkTextPart;

impl Meant for LinkTextPart {
    type Value = Utf8String;

    ghost meaning = { ⟦<Utf8String as AsnType>⟧.meaning };

    ghost equal = { ⟦<Utf8String as PartialEq>⟧.eq };
}

/// The meaning of `u16`.
pub(crate) struct FolderOfModePart;

impl Meant for FolderOfModePart {
    type Value = u16;

    ghost meaning = { ⟦<u16 as AsnType>⟧.meaning };

    ghost equal = { ⟦<u16 as PartialEq>⟧.eq };
}

/// The meaning of `GeneralizedTime`.
pub(crate) struct FolderOfChangedPart;

impl Meant for FolderOfChangedPart {
    type Value = GeneralizedTime;

    ghost meaning = { ⟦<GeneralizedTime as AsnType>⟧.meaning };

    ghost equal = { ⟦<GeneralizedTime as PartialEq>⟧.eq };
}

/// The meaning of `SetOf<File>`.
pub(crate) struct FolderOfFilesPart;

impl Meant for FolderOfFilesPart {
    type Value = SetOf<File>;

    ghost meaning = { ⟦<SetOf<File> as AsnType>⟧.meaning };

    ghost equal = { ⟦<SetOf<File> as PartialEq>⟧.eq };
}

/// The meaning of `Vec<Label>`.
pub(crate) struct FolderOfLabelsPart;

impl Meant for FolderOfLabelsPart {
    type Value = Vec<Label>;

    ghost meaning = { ⟦<Vec<Label> as AsnType>⟧.meaning };

    ghost equal = { ⟦<Vec<Label> as PartialEq>⟧.eq };
}
