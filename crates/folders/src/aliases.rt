//! Types that are other types under names of their own.

use crate::folder::Folder;
use crate::link::LinkOf;

/// `Link ::= SEQUENCE { target Folder, text UTF8String OPTIONAL }`
pub type Link = LinkOf<Folder>;
