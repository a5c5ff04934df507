//! A law of what no other contract names: what derives give.
ghost use Rattle.asn1_tags.specs.Derives.{ClonesAll, ComparesAll};

use crate::content::Content;
use crate::error::{BufferError, ItemError};
use crate::header::{ExpectedHeader, Header};
use crate::kinds::{ContentKind, ItemKind, MarkKind, ScopeKind};
use crate::slices::Item;

/// A law of the derives: two errors or kinds are equal if and only if they are the same, and clones are their sources.
pub fn derives_keep_what_a_value_is()
    ensures item_errors { ComparesAll ⟦<ItemError as PartialEq>⟧.eq }
    ensures buffer_errors { ComparesAll ⟦<BufferError as PartialEq>⟧.eq }
    ensures item_kinds { ComparesAll ⟦<ItemKind as PartialEq>⟧.eq }
    ensures scope_kinds { ComparesAll ⟦<ScopeKind as PartialEq>⟧.eq }
    ensures content_kinds { ComparesAll ⟦<ContentKind as PartialEq>⟧.eq }
    ensures clones_of_item_errors { ClonesAll ⟦<ItemError as Clone>⟧.is_clone
        ⟦<ItemError as Clone>⟧.is_infallible }
    ensures clones_of_buffer_errors { ClonesAll ⟦<BufferError as Clone>⟧.is_clone
        ⟦<BufferError as Clone>⟧.is_infallible }
    ensures clones_of_contents { ClonesAll ⟦<Content<'static> as Clone>⟧.is_clone
        ⟦<Content<'static> as Clone>⟧.is_infallible }
    ensures clones_of_headers { ClonesAll ⟦<Header<'static> as Clone>⟧.is_clone
        ⟦<Header<'static> as Clone>⟧.is_infallible }
    ensures clones_of_expected_headers { ClonesAll ⟦<ExpectedHeader as Clone>⟧.is_clone
        ⟦<ExpectedHeader as Clone>⟧.is_infallible }
    ensures clones_of_item_kinds { ClonesAll ⟦<ItemKind as Clone>⟧.is_clone
        ⟦<ItemKind as Clone>⟧.is_infallible }
    ensures clones_of_scope_kinds { ClonesAll ⟦<ScopeKind as Clone>⟧.is_clone
        ⟦<ScopeKind as Clone>⟧.is_infallible }
    ensures clones_of_content_kinds { ClonesAll ⟦<ContentKind as Clone>⟧.is_clone
        ⟦<ContentKind as Clone>⟧.is_infallible }
    ensures clones_of_mark_kinds { ClonesAll ⟦<MarkKind as Clone>⟧.is_clone
        ⟦<MarkKind as Clone>⟧.is_infallible }
    ensures clones_of_items { ClonesAll ⟦<Item<'static> as Clone>⟧.is_clone
        ⟦<Item<'static> as Clone>⟧.is_infallible }
{}
