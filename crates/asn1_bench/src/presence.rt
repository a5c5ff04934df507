//! Presence and absence in the bytes of items.
ghost use Rattle.asn1_bounds.specs.declared.codec.Codec.{Codec};
ghost use Rattle.asn1_items.specs.Kinds.{kind_of_mark};
ghost use Rattle.asn1_laws.specs.Reading.{marks_passed};
ghost use Rattle.asn1_components.specs.ComponentLists.{trees_of};
ghost use Rattle.asn1_components.specs.Components.{all_components, rows};
ghost use Rattle.asn1_items.specs.Items.{HaveBytes, MarkBytes, read_with};
ghost use Rattle.asn1_items.specs.Slices.{left_inside};
ghost use Rattle.asn1_model.specs.Records.{PresenceMark, Record, Side, absent, group_absent, group_end, group_start, held, present};
ghost use Rattle.asn1_model.specs.Tags.{tree_tags};
ghost use Rattle.asn1_bench.specs.Presence.{BeginNoItem, FindsPresence, HasTakenEither, HasTakenMark, HasTakenMarks, KeepsOutside, PassesMark};
ghost use Rattle.asn1_tags.specs.Trees.{choice, shape};
ghost use Rattle.asn1_tags.specs.declared.tags.Tag.{Tag};
ghost use Rattle.std.specs.Prelude.{◌≡◌, ⊤, IfOk, List, OnOk};

use asn1_bounds::Codec;
use asn1_buffers::MarkKind;
use asn1_components::FieldTable;
use asn1_items::{ItemError, Slices};
use asn1_tags::TagTree;

/// How a codec over items tells whether what may be absent is there: by presence marks, or by the item that is next.
pub trait Presence {
    // The bytes of each presence mark, of which there may be none.
    ghost mark_bytes: { MarkBytes };

    // The name of the codec.
    ghost own_codec: { Codec };

    /// The name of the codec.
    fn codec() -> Codec
        ensures { result ≡ own_codec };

    /// The bytes of the presence marks of a kind.
    fn bytes_of_mark(kind: MarkKind) -> &'static [u8]
        ensures { (m : PresenceMark) → kind_of_mark m ≡ kind → mark_bytes m ≡ result.now };

    /// Whether the component is there that begins with a tag of the tree. Goes past the presence mark that says so.
    ///
    /// # Errors
    /// [`ItemError::Missing`] where the bytes end before this is known, and [`ItemError::Malformed`] where they do not say it.
    fn component(slices: &mut Slices<'_>, tree: TagTree<'static>) -> Result<bool, ItemError>
        ensures found { (side : Side) (t : Tag) → FindsPresence mark_bytes (present side t)
            (absent side t) (tree_tags (shape tree.entry)) slices.old slices.new result }
        ensures only { (side : Side) (t : Tag) → IfOk result (HasTakenEither mark_bytes
            (present side t) (absent side t) slices.old slices.new) }
        ensures keeps_outside { KeepsOutside slices.old slices.new };

    /// Whether the group of additions is there whose components are those of the table of `C`. Goes past the presence mark that
    /// says so.
    ///
    /// # Errors
    /// As `component`.
    fn group<C: FieldTable>(slices: &mut Slices<'_>) -> Result<bool, ItemError>
        ensures found { FindsPresence mark_bytes (group_start (rows C.components))
            (group_absent (rows C.components))
            (tree_tags (choice (trees_of (all_components C.components))))
            slices.old slices.new result }
        ensures only { IfOk result (HasTakenEither mark_bytes (group_start (rows C.components))
            (group_absent (rows C.components)) slices.old slices.new) }
        ensures keeps_outside { KeepsOutside slices.old slices.new };

    /// Goes past the presence mark that ends a group.
    ///
    /// # Errors
    /// As `component`.
    fn end_of_group(slices: &mut Slices<'_>) -> Result<(), ItemError>
        ensures passed { (rest : List Record) →
            PassesMark mark_bytes group_end rest (λ _. ⊤) slices.old slices.new result }
        ensures only { OnOk result (HasTakenMark mark_bytes group_end slices.old slices.new) }
        ensures keeps_outside { KeepsOutside slices.old slices.new };

    /// Goes past the presence marks in front.
    fn skip_marks(slices: &mut Slices<'_>)
        ensures passed { (rs : List Record) →
            HaveBytes (read_with mark_bytes) (held rs) (left_inside slices.old) →
            HaveBytes (read_with mark_bytes) (held (marks_passed rs)) (left_inside slices.new) }
        ensures only { HasTakenMarks mark_bytes slices.old slices.new }
        ensures keeps_outside { KeepsOutside slices.old slices.new };

    // The law of the bytes of presence marks: no item begins with them.
    ghost begin_no_item: { BeginNoItem mark_bytes };
}
