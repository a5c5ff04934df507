//! Verdicts.
ghost use Rattle.std.specs.Prelude.{◌≡◌, ◌≢◌, ◌↔◌, List, AllPairs, IsTrue};
ghost use Rattle.asn1_tags.specs.Tags.{IsSmallest, smallest, distinct};
ghost use Rattle.asn1_tags.specs.declared.tags.Tag.{Tag};
ghost use Rattle.asn1_fields.specs.CanonicalOrder.{IsCanonical, canonical};
ghost use Rattle.asn1_fields.specs.DistinctTags.{IsLeast, IsSequenceClash, IsSetClash};
ghost use Rattle.asn1_fields.specs.FieldViews.{Component};
ghost use Rattle.asn1_report.specs.SchemaTables.{clash_of};

use crate::table_kind::TableKind;
use asn1_clash::TreeSummary;
use std::fmt;

/// The verdict on a tree: whether a tag occurs twice, the smallest tag, and how many leaves there are.
#[derive(Clone, Copy)]
pub(crate) struct TreeVerdict(pub(crate) TreeSummary);

impl fmt::Display for TreeVerdict {
    ghost use Rattle.std.specs.Prelude.{Some};
    ghost use Rattle.asn1_report.specs.Verdict.{tree_verdict_text};

    ghost output = { λ verdict. Some (tree_verdict_text verdict) };

    fn fmt<W: fmt::Write>(&self, f: &mut fmt::Formatter<W>) -> fmt::Result {
        let uniqueness = if self.0.is_unique {
            "unique"
        } else {
            "repeated"
        };
        let smallest = self.0.smallest_tag;
        let count = self.0.leaf_count;
        write!(f, "{uniqueness}, smallest {smallest}, {count} leaves")
    }
}

/// Laws of the definition of a verdict. On a tree: its smallest tag is one of the tags and at most each of them, and it
/// says `unique` if and only if no tag occurs twice. On a table: the clash is the least pair of indices whose components
/// share a tag although X.680 forbids it, and none if and only if there is no such pair; and it says `canonical` if and
/// only if no component's smallest tag is above the next one's.
pub fn verdicts_mean_what_they_say()
    ensures smallest { (tags : List Tag) → IsSmallest tags (smallest tags) }
    ensures unique { (tags : List Tag) → IsTrue (distinct tags) ↔ AllPairs (λ s t. s ≢ t) tags }
    ensures sequence { (components : List Component) →
        IsLeast (IsSequenceClash components) (clash_of TableKind.Sequence components) }
    ensures set { (components : List Component) →
        IsLeast (IsSetClash components) (clash_of TableKind.Set components) }
    ensures order { (components : List Component) →
        IsTrue (canonical components) ↔ IsCanonical components }
{}

/// The verdict on a table: its first clash, and whether its components are in canonical order.
#[derive(Clone, Copy)]
pub(crate) struct TableVerdict {
    /// The least pair of indices whose components share a tag although X.680 forbids it.
    pub(crate) clash: Option<(usize, usize)>,
    /// Whether no component's smallest tag is above the next one's.
    pub(crate) is_canonical: bool,
}

impl fmt::Display for TableVerdict {
    ghost use Rattle.std.specs.Prelude.{Some};
    ghost use Rattle.asn1_report.specs.Verdict.{table_verdict_text};

    ghost output = { λ verdict. Some (table_verdict_text verdict) };

    fn fmt<W: fmt::Write>(&self, f: &mut fmt::Formatter<W>) -> fmt::Result {
        let order = if self.is_canonical {
            "canonical"
        } else {
            "not canonical"
        };
        let clash = Clash(self.clash);
        write!(f, "{clash}, {order}")
    }
}

// The first clash of a table's components, if there is one.
#[derive(Clone, Copy)]
struct Clash(Option<(usize, usize)>);

impl fmt::Display for Clash {
    ghost use Rattle.std.specs.Prelude.{Some};
    ghost use Rattle.asn1_report.specs.SchemaTables.{clash_text};

    ghost output = { λ clash. Some (clash_text clash.0) };

    fn fmt<W: fmt::Write>(&self, f: &mut fmt::Formatter<W>) -> fmt::Result {
        match self.0 {
            Some((i, j)) => write!(f, "clash {i} {j}"),
            None => write!(f, "no clash"),
        }
    }
}
