//! The order inside sets.
ghost use Rattle.std.specs.Prelude.{◌≡◌};
ghost use Rattle.asn1_model.specs.Orders.{SameRecord, SameAll};
ghost use Rattle.asn1_model.specs.Records.{Record, Records, height, is_presence_mark};
ghost use Rattle.asn1_model.specs.Tags.{record_tags};

/// A law of the model: records that are the same up to the order inside sets begin with the same tags, are marks alike,
/// and are nested as deep. So no reader that looks at the next tag, and no limit on depth, tells them apart.
pub fn order_inside_sets_is_not_seen()
    ensures tags { (r s : Record) → SameRecord r s → record_tags r ≡ record_tags s }
    ensures marks { (r s : Record) → SameRecord r s → is_presence_mark r ≡ is_presence_mark s }
    ensures heights { (r s : Record) → SameRecord r s → height r ≡ height s }
{}

/// A law of the model: sameness up to the order inside sets is an equivalence, of records and of lists.
#[tactic(auto, using(crate::proofs::SameUpToOrder::sameness))]
pub fn sameness_is_an_equivalence()
    ensures reflexive { (r : Record) → SameRecord r r }
    ensures symmetric { (r s : Record) → SameRecord r s → SameRecord s r }
    ensures transitive { (r s t : Record) → SameRecord r s → SameRecord s t → SameRecord r t }
    ensures reflexive_of_lists { (rs : Records) → SameAll rs rs }
    ensures symmetric_of_lists { (rs ss : Records) → SameAll rs ss → SameAll ss rs }
    ensures transitive_of_lists { (rs ss ts : Records) → SameAll rs ss → SameAll ss ts →
        SameAll rs ts }
{}
